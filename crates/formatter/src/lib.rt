// The formatter: main data to a stream, by the block maker and then the writer. A whole block of a run at a time (`write_block`), or the run of one block with its
// closing code (`format_block`).
#![tactic(auto)]

ghost use Rattle.std.specs.Prelude.{◌≡◌, None, length};
ghost use Rattle.refusals.specs.Refusal.{answer_number};
ghost use Rattle.writer.specs.Records.{start, record_after};
ghost use Rattle.layout.specs.Lengths.{sectors_stream, stream_size};
ghost use Rattle.formatter.specs.Formatter.{write_block_refusal, write_block_next, write_block_out, format_refusal, formatted_buffer};
ghost use Rattle.formatter.specs.Inner.{first_laid};

use layout::{BLOCK_SIZE, SECTORS_STREAM, STREAM_SIZE};
use refusals::Refusal;
use writer::Record;

// A whole block of a run: 32,768 main data bytes to sixteen sectors of stream, 77,376 bytes; each is laid once, and a mark is dropped. Where a number applies,
// record and buffer are left as they were.
pub fn write_block(
    current: Record,
    previous: Option<u32>,
    main: &[u8],
    first: u32,
    info: u8,
    out: &mut [u8],
) -> Result<Record, Refusal>
    ensures answer_value { answer_number result
        ≡ write_block_refusal current previous (length main.now) (length out.old) first info }
    ensures next_value { record_after current result
        ≡ write_block_next current previous main.now first info (length out.old) }
    ensures out_after { out.new
        ≡ write_block_out current previous main.now first info out.old }
{
    if out.len() != SECTORS_STREAM {
        return Err(Refusal::Length);
    }
    let mut block = [0u8; BLOCK_SIZE];
    eccblock::encode_block(main, previous, first, info, &mut block)?;
    writer::write_sectors(current, &block, out)
}

// The sectors of the block at the head of a stream, from a new record and with no block before.
fn write_first(main: &[u8], first: u32, info: u8, out: &mut [u8]) -> Result<Record, Refusal>
    requires { length out.old ≡ stream_size }
    ensures answer_value { answer_number result
        ≡ write_block_refusal start None (length main.now) sectors_stream first info }
    ensures next_value { record_after start result
        ≡ write_block_next start None main.now first info sectors_stream }
    ensures out_after { out.new ≡ first_laid main.now first info out.old }
{
    write_block(
        writer::new(),
        None,
        main,
        first,
        info,
        &mut out[0..SECTORS_STREAM],
    )
}

// The run of one block: 32,768 main data bytes to a stream of 77,380. Where a number applies, the buffer is left as it was.
// The stream is a slice: parts of an array behind a lent reference are not covered by the borrow checker.
pub fn format_block(main: &[u8], first: u32, info: u8, out: &mut [u8]) -> Result<(), Refusal>
    ensures result_value { answer_number result
        ≡ format_refusal (length main.now) (length out.old) first info }
    ensures out_after { out.new ≡ formatted_buffer main.now first info out.old }
{
    if out.len() != STREAM_SIZE {
        return Err(Refusal::Length);
    }
    let next = write_first(main, first, info, out)?;
    writer::close(next, &mut out[SECTORS_STREAM..STREAM_SIZE])?;
    Ok(())
}
