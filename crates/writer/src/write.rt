// The single write of a sector. It is no call any more (document 02, request 5): a trial and a take are made of it, and the sectors of a block are.
ghost use Rattle.std.specs.Prelude.{◌≡◌, length};
ghost use Rattle.layout.specs.Lengths.{sector_count, block_size, sectors_stream};
ghost use Rattle.refusals.specs.Refusal.{answer_number};
ghost use Rattle.writer.specs.Records.{record_after};
ghost use Rattle.writer.specs.Answers.{sector_refusal, sector_next, sector_out};
ghost use Rattle.writer.specs.Inner.{sector_room};
ghost use Rattle.writer.specs.Session.{writes, sector_calls};

use super::{Record, sector};
use layout::{SECTOR_COUNT, SECTOR_SIZE, SECTOR_STREAM};
use refusals::Refusal;

// A sector of 2,366 bytes, laid as 4,836.
pub(crate) fn write_sector(current: Record, bytes: &[u8], out: &mut [u8]) -> Result<Record, Refusal>
    ensures number { answer_number result ≡ sector_refusal current (length bytes.now) (length out.old) }
    ensures next { record_after current result ≡ sector_next current bytes.now (length out.old) }
    ensures out_after { out.new ≡ sector_out current bytes.now out.old }
{
    let Some(bytes) = bytes.as_array::<SECTOR_SIZE>() else {
        return Err(Refusal::Length);
    };
    let Some(out) = out.as_mut_array::<SECTOR_STREAM>() else {
        return Err(Refusal::Length);
    };
    current.takes(1)?;
    let reached = sector::sector(current.running(), current.peak, bytes, out);
    Ok(Record::of(
        reached.running,
        reached.peak,
        current.sectors + 1,
        current.closed,
    ))
}

// The sixteen sectors of a block, one after the other into the stream, each with the record that the one before it handed back.
// Block and stream are slices: a part that was turned into an array in the loop is not followed back into the whole (tried).
pub(crate) fn write_each(current: Record, block: &[u8], out: &mut [u8]) -> Record
    requires block_len { length block.now ≡ block_size }
    requires out_len { length out.old ≡ sectors_stream }
    ensures value { result
        ≡ (sector_calls writes current block.now (sector_room out.old) sector_count).next }
    ensures out_after { out.new
        ≡ (sector_calls writes current block.now (sector_room out.old) sector_count).bytes }
{
    let mut w = current;
    for k in 0..SECTOR_COUNT {
        let from = SECTOR_SIZE * k;
        let till = from + SECTOR_SIZE;
        let at = SECTOR_STREAM * k;
        let end = at + SECTOR_STREAM;
        w = write_sector(w, &block[from..till], &mut out[at..end]).unwrap_or(w);
    }
    w
}
