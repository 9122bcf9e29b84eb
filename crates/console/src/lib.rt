// The console keeps one record for a whole run of blocks, from the first sector to the closing code: thin calls over the record, which is lent by `&mut`. Each hands
// the record to the writer, or to the formatter for a whole block, and stores the one that comes back.
#![tactic(auto)]

ghost use Rattle.std.specs.Prelude.{◌≡◌, length};
ghost use Rattle.refusals.specs.Refusal.{answer_number};
ghost use Rattle.writer.specs.Records.{start};
ghost use Rattle.writer.specs.Answers.{sector_refusal, trial_next, take_refusal, take_next, take_out};
ghost use Rattle.writer.specs.Answers.{sectors_refusal, sectors_next, sectors_out, closing_refusal, closing_next, closing_out};
ghost use Rattle.formatter.specs.Formatter.{write_block_refusal, write_block_next, write_block_out};

use refusals::Refusal;
use writer::Record;

// A new record, whatever the old one was.
pub fn new_record(kept: &mut Record)
    ensures { kept.new ≡ start }
{
    *kept = writer::new();
}

// A sector of 2,366 bytes is tried: the DSV after it is the record's mark then. Nothing is written, and of the buffer only the length counts.
pub fn trial(kept: &mut Record, bytes: &[u8], out: &[u8]) -> Result<(), Refusal>
    ensures result_value { answer_number result
        ≡ sector_refusal kept.old (length bytes.now) (length out.now) }
    ensures kept_after { kept.new
        ≡ trial_next kept.old bytes.now (length out.now) }
{
    *kept = writer::trial(*kept, bytes, out)?;
    Ok(())
}

// The sector that was tried, laid as 4,836 bytes. The mark is dropped.
pub fn take(kept: &mut Record, bytes: &[u8], out: &mut [u8]) -> Result<(), Refusal>
    ensures result_value { answer_number result
        ≡ take_refusal kept.old bytes.now (length out.old) }
    ensures kept_after { kept.new
        ≡ take_next kept.old bytes.now (length out.old) }
    ensures out_after { out.new ≡ take_out kept.old bytes.now out.old }
{
    *kept = writer::take(*kept, bytes, out)?;
    Ok(())
}

// The sixteen sectors of a block of 37,856 bytes, laid as 77,376. A mark is dropped.
pub fn write_sectors(kept: &mut Record, block: &[u8], out: &mut [u8]) -> Result<(), Refusal>
    ensures result_value { answer_number result
        ≡ sectors_refusal kept.old (length block.now) (length out.old) }
    ensures kept_after { kept.new
        ≡ sectors_next kept.old block.now (length out.old) }
    ensures out_after { out.new ≡ sectors_out kept.old block.now out.old }
{
    *kept = writer::write_sectors(*kept, block, out)?;
    Ok(())
}

// A whole block of the run: 32,768 main data bytes, laid as 77,376. `previous` is the block before. A mark is dropped.
pub fn write_block(
    kept: &mut Record,
    previous: Option<u32>,
    main: &[u8],
    first: u32,
    info: u8,
    out: &mut [u8],
) -> Result<(), Refusal>
    ensures result_value { answer_number result
        ≡ write_block_refusal kept.old previous
        (length main.now) (length out.old) first info }
    ensures kept_after { kept.new
        ≡ write_block_next kept.old previous main.now first info (length out.old) }
    ensures out_after { out.new
        ≡ write_block_out kept.old previous main.now first info out.old }
{
    *kept = formatter::write_block(*kept, previous, main, first, info, out)?;
    Ok(())
}

// The closing code, 4 bytes. A mark is dropped.
pub fn close(kept: &mut Record, out: &mut [u8]) -> Result<(), Refusal>
    ensures result_value { answer_number result ≡ closing_refusal kept.old (length out.old) }
    ensures kept_after { kept.new ≡ closing_next kept.old (length out.old) }
    ensures out_after { out.new ≡ closing_out kept.old out.old }
{
    *kept = writer::close(*kept, out)?;
    Ok(())
}
