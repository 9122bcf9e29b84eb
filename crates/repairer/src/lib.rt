// The block repairer (document 01, 'Reading a word, and the repair'): rows, then columns, then the frames' checks, then the
// main data.
#![tactic(auto)]

ghost use Rattle.std.specs.Prelude.{◌≡◌, ◌<◌, length};
ghost use Rattle.layout.specs.Lengths.{row_count};
ghost use Rattle.repairer.specs.Answer.{of_block, marks_fit, repair_answer, block_after, main_after, repair_refusal, refused_frame, block_answer_number, block_answer_frame};
ghost use Rattle.repairer.specs.Inner.{counted};

use codes::Outcome;
use columns::Columns;
use field::Logs;
use layout::{BLOCK_SIZE, MAIN_SIZE};
use multiples::Multiples;
use refusals::Refusal;
use rows::Rows;

mod columns;
mod frames;
mod rows;
mod words;

// How many words were corrected, and how many are past help.
#[derive(Clone, Copy, PartialEq, Eq, Debug)]
pub struct Tally {
    pub corrected: u32,
    pub uncorrectable: u32,
}

impl Tally {
    // The tally with one word more.
    fn plus(self, outcome: Outcome) -> Tally
        requires corrected_lt_row_count { self.corrected < row_count }
        requires uncorrectable_lt_row_count { self.uncorrectable < row_count }
        ensures { result ≡ counted self outcome }
    {
        match outcome {
            Outcome::Clean => self,
            Outcome::Corrected => Tally {
                corrected: self.corrected + 1,
                ..self
            },
            Outcome::Uncorrectable => Tally {
                uncorrectable: self.uncorrectable + 1,
                ..self
            },
        }
    }
}

#[derive(Clone, Copy, PartialEq, Eq, Debug)]
pub struct Tallies {
    pub rows: Tally,
    pub columns: Tally,
}

// What a repaired block gives where all frames pass and the main data are handed out.
#[derive(Clone, Copy, PartialEq, Eq, Debug)]
pub struct Repair {
    // The number of the first sector.
    pub first: u32,
    pub tallies: Tallies,
}

// Why a block is refused, and the frame that is: the first that fails, 0 to 15, with the lowest refusal that applies in it.
#[derive(Clone, Copy, PartialEq, Eq, Debug)]
pub struct BlockRefusal {
    pub refusal: Refusal,
    pub frame: Option<u8>,
}

// A refusal of the block as a whole: of a length, or of a mark.
impl From<Refusal> for BlockRefusal {
    ghost from_gives = { λ refusal e. e ≡ of_block refusal };

    fn from(refusal: Refusal) -> BlockRefusal {
        BlockRefusal {
            refusal,
            frame: None,
        }
    }
}

// The papers' number of a block's answer, 0 where nothing is refused.
pub fn block_answer_number<T: Drop>(answer: Result<T, BlockRefusal>) -> u8
    ensures { result ≡ block_answer_number answer }
{
    match answer {
        Ok(_) => 0,
        Err(e) => e.refusal.number(),
    }
}

// Whether each mark is 0 or 1. All are looked at: a loop without a way out takes sixteen marks at a time, where `all` takes one.
pub fn marks_fit(erasures: &[u8]) -> bool
    ensures { result ≡ marks_fit erasures.now }
{
    let mut fit = true;
    for mark in erasures {
        fit &= *mark <= 1;
    }
    fit
}

// The block repairer, where the lengths are as stated. The tables are made once a block and lent from there on. The main data
// buffer is written only when every frame has passed.
fn repair_sized(
    block: &mut [u8; BLOCK_SIZE],
    erasures: &[u8; BLOCK_SIZE],
    main: &mut [u8; MAIN_SIZE],
) -> Result<Repair, BlockRefusal>
    ensures value { result ≡ repair_answer block.old erasures.now (length main.old) }
    ensures block_after { block.new ≡ block_after block.old erasures.now (length main.old) }
    ensures main_after { main.new ≡ main_after block.old erasures.now main.old }
{
    if !marks_fit(erasures) {
        return Err(Refusal::Mark.into());
    }
    let logs = Logs::new();
    let inner = Multiples::<10>::new();
    let outer = Multiples::<16>::new();
    let rows = Rows {
        logs: &logs,
        table: &inner,
    };
    let rows = words::repair_words(&rows, erasures, block);
    let columns = Columns::divided(&logs, &outer, block);
    let columns = words::repair_words(&columns, erasures, block);
    let repair = frames::judge_frames(&logs, block, Tallies { rows, columns })?;
    frames::hand_out(block, main);
    Ok(repair)
}

// The block repairer. `erasures` are the marks of the block's bytes, 1 where a byte is marked (document 02, request 2).
pub fn repair_block(
    block: &mut [u8],
    erasures: &[u8],
    main: &mut [u8],
) -> Result<Repair, BlockRefusal>
    ensures value { result
        ≡ repair_answer block.old erasures.now (length main.old) }
    ensures result_value { block_answer_number result
        ≡ repair_refusal block.old erasures.now (length main.old) }
    ensures result_value_2 { block_answer_frame result
        ≡ refused_frame block.old erasures.now (length main.old) }
    ensures block_after { block.new
        ≡ block_after block.old erasures.now (length main.old) }
    ensures main_after { main.new
        ≡ main_after block.old erasures.now main.old }
{
    let Some(block) = block.as_mut_array::<BLOCK_SIZE>() else {
        return Err(Refusal::Length.into());
    };
    let Some(erasures) = erasures.as_array::<BLOCK_SIZE>() else {
        return Err(Refusal::Length.into());
    };
    let Some(main) = main.as_mut_array::<MAIN_SIZE>() else {
        return Err(Refusal::Length.into());
    };
    repair_sized(block, erasures, main)
}
