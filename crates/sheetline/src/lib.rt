// The line of the bench sheet (document 01, 'The bench sheet').
#![tactic(auto)]

mod line;
mod numbers;

ghost use Rattle.std.specs.Prelude.{◌≡◌};
ghost use Rattle.sheetline.specs.Line.{written, sheet_line};

use blockreader::BlockRead;
pub use line::Line;
use repairer::BlockRefusal;

// The line of an answer.
pub fn sheet_line(answer: Result<BlockRead, BlockRefusal>) -> Line
    ensures { written result ≡ sheet_line answer }
{
    match answer {
        Ok(read) => Line::of_block(read),
        Err(refused) => Line::of_refusal(refused),
    }
}
