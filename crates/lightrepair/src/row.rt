// A row with at most two wrong bytes becomes the code row near it; any other is heavier, and stays (document 02, request 13).
ghost use Rattle.std.specs.Prelude.{◌≡◌, ◌<◌};
ghost use Rattle.lists.specs.Fill.{tabulate};
ghost use Rattle.codes.specs.Word.{syndrome};
ghost use Rattle.codes.specs.Nearest.{nearest};
ghost use Rattle.codes.specs.Light.{light_outcome};
ghost use Rattle.codes.specs.Inner.{change, Inside, without_wrong};
ghost use Rattle.layout.specs.Lengths.{row_size, inner_size};
ghost use Rattle.lightrepair.specs.Inner.{wrong_bytes};

use crate::formulas::Errors;
use codes::{LightOutcome, WrongByte};
use field::Logs;
use layout::{INNER_SIZE, ROW_SIZE};

// A row and what the light repair says of it. It goes in by value and comes back.
#[derive(Clone, Copy, PartialEq, Eq, Debug)]
pub struct LightRow {
    pub bytes: [u8; ROW_SIZE],
    pub outcome: LightOutcome,
}

// The ten sums of a row: its values at the roots α^0 .. α^9.
fn row_sums(logs: &Logs, bytes: [u8; ROW_SIZE]) -> [u8; INNER_SIZE]
    ensures { result ≡ tabulate (syndrome bytes) inner_size }
{
    let mut sums = [0u8; INNER_SIZE];
    syndromes::syndromes_into(logs, &bytes, &mut sums);
    sums
}

// A row without a wrong byte: what was added is taken away, which is to add it again.
fn without_error(mut bytes: [u8; ROW_SIZE], wrong: WrongByte) -> [u8; ROW_SIZE]
    requires { wrong.place < row_size }
    ensures { result ≡ change bytes wrong.place wrong.value }
{
    bytes[ROW_SIZE - 1 - usize::from(wrong.place)] ^= wrong.value;
    bytes
}

// A row without its wrong bytes.
fn without_errors(bytes: [u8; ROW_SIZE], errors: Errors) -> [u8; ROW_SIZE]
    requires { Inside row_size (wrong_bytes errors) }
    ensures { result ≡ without_wrong (wrong_bytes errors) bytes }
{
    match errors {
        Errors::None => bytes,
        Errors::One(wrong) => without_error(bytes, wrong),
        Errors::Two(first, second) => without_error(without_error(bytes, first), second),
    }
}

// The light repair of a row whose ten sums are known, over a lent table of logarithms. The sums alone decide.
pub fn correct_light_row_from(logs: &Logs, sums: [u8; INNER_SIZE], row: LightRow) -> LightRow
    requires { sums ≡ tabulate (syndrome row.bytes) inner_size }
    ensures bytes_value { result.bytes ≡ nearest inner_size 2 row.bytes }
    ensures outcome_value { result.outcome ≡ light_outcome inner_size 2 row.bytes }
{
    let bytes = row.bytes;
    match crate::formulas::find_errors(logs, sums) {
        Some(errors) => LightRow {
            bytes: without_errors(bytes, errors),
            outcome: LightOutcome::Repaired,
        },
        None => LightRow {
            bytes,
            outcome: LightOutcome::Heavier,
        },
    }
}

// The light repair. The outcome that comes in does not matter.
pub fn correct_light_row(row: LightRow) -> LightRow
    ensures bytes_value { result.bytes ≡ nearest inner_size 2 row.bytes }
    ensures outcome_value { result.outcome ≡ light_outcome inner_size 2 row.bytes }
{
    let logs = Logs::new();
    let sums = row_sums(&logs, row.bytes);
    correct_light_row_from(&logs, sums, row)
}
