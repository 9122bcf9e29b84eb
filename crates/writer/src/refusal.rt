// The writer's record: its DSV, signed for the user and with 0 at 2^40 inside, and the refusals that hang on it.
ghost use Rattle.std.specs.Prelude.{◌≡◌, cond, ◌+◌, ◌*◌, ◌≤◌, nat_abs};
ghost use Rattle.lists.specs.Count.{bit};
ghost use Rattle.layout.specs.Lengths.{closing_size, sector_bits, run_sectors};
ghost use Rattle.levels.specs.Level.{zero_at};
ghost use Rattle.refusals.specs.Refusal.{answer_number};
ghost use Rattle.writer.specs.Records.{offset, signed, running_of, record_of, marked_with};
ghost use Rattle.writer.specs.Answers.{closes, in_range, sound, ended, mark_refusal, block_refusal, sectors_refusal, closing_refusal};

use super::Record;
use layout::{BLOCK_SIZE, CLOSING_SIZE, RUN_SECTORS, SECTOR_BITS, SECTOR_COUNT, SECTORS_STREAM};
use levels::{Running, ZERO_AT};
use refusals::Refusal;

// Where DSV 0 stands in the running record, as a signed number.
const ZERO: i64 = ZERO_AT as i64;

// The sectors of a block.
const SECTORS: u32 = SECTOR_COUNT as u32;

// The code bits of the closing code.
const CLOSING_BITS: u64 = 8 * (CLOSING_SIZE as u64);

fn offset_of(dsv: i64) -> u64
    requires { nat_abs dsv ≤ zero_at }
    ensures { result ≡ offset dsv }
{
    (dsv + ZERO) as u64
}

fn signed_of(dsv: u64) -> i64
    requires { dsv ≤ 2 * zero_at }
    ensures { result ≡ signed dsv }
{
    (dsv as i64) - ZERO
}

impl Record {
    // The running record from which the next sector or the closing code is laid.
    pub(crate) fn running(self) -> Running
        requires { nat_abs self.dsv ≤ zero_at }
        ensures { result ≡ running_of self }
    {
        Running {
            state: self.state,
            level: self.level,
            dsv: offset_of(self.dsv),
        }
    }

    // The record with another running record and peak. Whatever is written drops a mark.
    pub(crate) fn of(running: Running, peak: u64, sectors: u32, closed: bool) -> Record
        requires { running.dsv ≤ 2 * zero_at }
        ensures { result ≡ record_of running peak sectors closed }
    {
        Record {
            state: running.state,
            level: running.level,
            dsv: signed_of(running.dsv),
            sectors,
            closed,
            peak,
            marked: false,
            mark: 0,
        }
    }

    // The record with the mark of a trial that gave this DSV.
    pub(crate) fn marked_with(self, dsv: i64) -> Record
        ensures { result ≡ marked_with self dsv }
    {
        Record {
            marked: true,
            mark: dsv,
            ..self
        }
    }

    // Closing is accepted at so many sectors: whole blocks, at least one.
    fn is_whole(self) -> bool
        ensures { result ≡ closes self.sectors }
    {
        1 <= self.sectors && self.sectors % SECTORS == 0
    }

    // The most that the peak can be: each code bit moves the DSV by 1.
    fn highest_peak(self) -> u64
        requires { self.sectors ≤ run_sectors }
        ensures { result ≡ sector_bits * self.sectors }
    {
        SECTOR_BITS * u64::from(self.sectors)
    }

    // The most that the absolute DSV can be: before closing it is that at the end of a frame, and the closing code, which the peak does not count, has 32 bits.
    fn highest_dsv(self) -> u64
        requires { self.peak ≤ zero_at }
        ensures { result ≡ self.peak + 32 * bit self.closed }
    {
        if self.closed {
            self.peak + CLOSING_BITS
        } else {
            self.peak
        }
    }

    // Number 9 does not refuse DSV and peak. Where the peak is in range and the DSV not above it, the DSV is in its own range too.
    fn is_in_range(self) -> bool
        requires { self.sectors ≤ run_sectors }
        ensures { result ≡ in_range self }
    {
        self.peak <= self.highest_peak() && self.dsv.unsigned_abs() <= self.highest_dsv()
    }

    // Number 9 does not refuse the record.
    fn is_sound(self) -> bool
        ensures { result ≡ sound self }
    {
        // in one && with what follows the proof did not close
        if self.state < 1 || 4 < self.state || 1 < self.level || RUN_SECTORS < self.sectors {
            return false;
        }
        (!self.closed || self.is_whole()) && self.is_in_range()
    }

    // So many sectors more can't follow: the closing code is written, or they would go over the run's last number.
    fn is_ended(self, more: u32) -> bool
        requires { more ≤ run_sectors }
        ensures { result ≡ ended self more }
    {
        self.closed || RUN_SECTORS - more < self.sectors
    }

    // The refusals of so many sectors more because of the state, in their order (document 01): 9, then 7.
    pub(crate) fn takes(self, more: u32) -> Result<(), Refusal>
        requires { more ≤ run_sectors }
        ensures { answer_number result ≡ cond (sound self) (cond (ended self more) 7 0) 9 }
    {
        if !self.is_sound() {
            Err(Refusal::BadRecord)
        } else if self.is_ended(more) {
            Err(Refusal::RunEnded)
        } else {
            Ok(())
        }
    }

    // The refusals of closing because of the state, in their order (document 01): 9, then 7, then 8.
    pub(crate) fn closes(self) -> Result<(), Refusal>
        ensures { answer_number result ≡ closing_refusal self closing_size }
    {
        if !self.is_sound() {
            return Err(Refusal::BadRecord);
        }
        if self.closed {
            return Err(Refusal::RunEnded);
        }
        if !self.is_whole() {
            return Err(Refusal::RunUnfinished);
        }
        Ok(())
    }
}

// The refusal of a take because of the mark, by the DSV after the sector.
pub(crate) fn mark_refusal(current: Record, dsv: i64) -> Result<(), Refusal>
    ensures { answer_number result ≡ mark_refusal current dsv }
{
    if !current.marked {
        return Err(Refusal::NotTried);
    }
    if current.mark != dsv {
        return Err(Refusal::OtherDsv);
    }
    Ok(())
}

// The refusal of the sixteen sectors of a block, because of the record alone.
pub fn block_refusal(current: Record) -> Result<(), Refusal>
    ensures { answer_number result ≡ block_refusal current }
{
    current.takes(SECTORS)
}

// The same, by the lengths of the block and of its buffer too.
pub(crate) fn sectors_refusal(current: Record, from: usize, to: usize) -> Result<(), Refusal>
    ensures { answer_number result ≡ sectors_refusal current from to }
{
    if from != BLOCK_SIZE || to != SECTORS_STREAM {
        return Err(Refusal::Length);
    }
    block_refusal(current)
}
