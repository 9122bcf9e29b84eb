// The writer: sectors and the closing code by the two-stream rule of clause 22, from a record that goes in and comes back by value. A sector is tried and then taken;
// the sixteen of a block are laid in one call. A run of blocks is the sectors of all of them, one after the other, and then the closing code.
#![tactic(auto)]

mod refusal;
mod sector;
mod write;

ghost use Rattle.std.specs.Prelude.{◌≡◌, length};
ghost use Rattle.refusals.specs.Refusal.{answer_number};
ghost use Rattle.writer.specs.Records.{start, record_after};
ghost use Rattle.writer.specs.Answers.{sector_refusal, trial_next, take_refusal, take_next, take_out};
ghost use Rattle.writer.specs.Answers.{sectors_refusal, sectors_next, sectors_out, closing_refusal, closing_next, closing_out};

use layout::{CLOSING_SIZE, SECTOR_STREAM};
pub use refusal::block_refusal;
use refusals::Refusal;

// The writer's record: the State prescribed next, the NRZI level, the DSV, the sectors written, whether the closing code is written, the peak, which is the
// greatest absolute DSV at the end of a Sync Frame so far, and the mark of the last trial: whether there is one, and the DSV that it gave, 0 where there is none.
#[repr(C)]
#[derive(Clone, Copy)]
pub struct Record {
    pub state: u8,
    pub level: u8,
    pub dsv: i64,
    pub sectors: u32,
    pub closed: bool,
    pub peak: u64,
    pub marked: bool,
    pub mark: i64,
}

// The record before the first sector of a run.
pub fn new() -> Record
    ensures { result ≡ start }
{
    Record {
        state: 1,
        level: 0,
        dsv: 0,
        sectors: 0,
        closed: false,
        peak: 0,
        marked: false,
        mark: 0,
    }
}

// A sector of 2,366 bytes is tried: the DSV after it becomes the record's mark. It is laid in a buffer of the call's own; of the one lent only the length counts,
// so that what is refused here is what the take would refuse.
pub fn trial(current: Record, bytes: &[u8], out: &[u8]) -> Result<Record, Refusal>
    ensures number { answer_number result ≡ sector_refusal current (length bytes.now) (length out.now) }
    ensures next { record_after current result ≡ trial_next current bytes.now (length out.now) }
{
    if out.len() != SECTOR_STREAM {
        return Err(Refusal::Length);
    }
    let mut laid = [0u8; SECTOR_STREAM];
    let after = write::write_sector(current, bytes, &mut laid)?;
    Ok(current.marked_with(after.dsv))
}

// The sector that was tried, laid as 4,836 bytes. It is laid in a buffer of the call's own first: only then is its DSV known, and 13 leaves the one lent.
pub fn take(current: Record, bytes: &[u8], out: &mut [u8]) -> Result<Record, Refusal>
    ensures number { answer_number result ≡ take_refusal current bytes.now (length out.old) }
    ensures next { record_after current result ≡ take_next current bytes.now (length out.old) }
    ensures out_after { out.new ≡ take_out current bytes.now out.old }
{
    let Some(out) = out.as_mut_array::<SECTOR_STREAM>() else {
        return Err(Refusal::Length);
    };
    let mut laid = [0u8; SECTOR_STREAM];
    let after = write::write_sector(current, bytes, &mut laid)?;
    refusal::mark_refusal(current, after.dsv)?;
    *out = laid;
    Ok(after)
}

// The sixteen sectors of a block of 37,856 bytes, laid as 77,376.
pub fn write_sectors(current: Record, block: &[u8], out: &mut [u8]) -> Result<Record, Refusal>
    ensures number { answer_number result ≡ sectors_refusal current (length block.now) (length out.old) }
    ensures next { record_after current result ≡ sectors_next current block.now (length out.old) }
    ensures out_after { out.new ≡ sectors_out current block.now out.old }
{
    refusal::sectors_refusal(current, block.len(), out.len())?;
    Ok(write::write_each(current, block, out))
}

// The closing code after the last block of a run, 4 bytes.
pub fn close(current: Record, out: &mut [u8]) -> Result<Record, Refusal>
    ensures number { answer_number result ≡ closing_refusal current (length out.old) }
    ensures next { record_after current result ≡ closing_next current (length out.old) }
    ensures out_after { out.new ≡ closing_out current out.old }
{
    let Some(out) = out.as_mut_array::<CLOSING_SIZE>() else {
        return Err(Refusal::Length);
    };
    current.closes()?;
    let running = sector::closing(current.running(), out);
    Ok(Record::of(running, current.peak, current.sectors, true))
}
