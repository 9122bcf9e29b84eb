// The writer, through the console: the record is the caller's, who keeps it for a whole run of blocks and lends it to each call.
ghost use Rattle.std.specs.Prelude.{◌≡◌, length};
ghost use Rattle.writer.specs.Records.{start};
ghost use Rattle.writer.specs.Answers.{sector_refusal, trial_next, take_refusal, take_next, take_out};
ghost use Rattle.writer.specs.Answers.{sectors_refusal, sectors_next, sectors_out, closing_refusal, closing_next, closing_out};
ghost use Rattle.formatter.specs.Formatter.{write_block_refusal, write_block_next, write_block_out};
ghost use Rattle.ffi.specs.Answers.{previous_of};

use refusals::answer_number;
use writer::Record;

// A new record, whatever the old one was.
#[unsafe(no_mangle)]
pub extern "C" fn chamanzil_new_record(kept: &mut Record)
    ensures { kept.new ≡ start }
{
    console::new_record(kept);
}

// A sector of 2,366 bytes is tried; 0, or refusal 1, 9 or 7. The DSV after it is the record's mark then. Nothing is written: of the buffer, which a take would fill,
// only the length counts.
#[unsafe(no_mangle)]
pub extern "C" fn chamanzil_trial(kept: &mut Record, bytes: &[u8], out: &[u8]) -> u32
    ensures value { result
        ≡ sector_refusal kept.old (length bytes.now) (length out.now) }
    ensures kept_after { kept.new
        ≡ trial_next kept.old bytes.now (length out.now) }
{
    u32::from(answer_number(console::trial(kept, bytes, out)))
}

// The sector that was tried, laid as 4,836 bytes; 0, or refusal 1, 9, 7, 12 or 13. The mark is dropped.
#[unsafe(no_mangle)]
pub extern "C" fn chamanzil_take(kept: &mut Record, bytes: &[u8], out: &mut [u8]) -> u32
    ensures value { result
        ≡ take_refusal kept.old bytes.now (length out.old) }
    ensures kept_after { kept.new
        ≡ take_next kept.old bytes.now (length out.old) }
    ensures out_after { out.new ≡ take_out kept.old bytes.now out.old }
{
    u32::from(answer_number(console::take(kept, bytes, out)))
}

// The sixteen sectors of a block of 37,856 bytes, laid as 77,376; 0, or refusal 1, 9 or 7. A mark is dropped.
#[unsafe(no_mangle)]
pub extern "C" fn chamanzil_write_sectors(kept: &mut Record, block: &[u8], out: &mut [u8]) -> u32
    ensures value { result
        ≡ sectors_refusal kept.old (length block.now) (length out.old) }
    ensures kept_after { kept.new
        ≡ sectors_next kept.old block.now (length out.old) }
    ensures out_after { out.new ≡ sectors_out kept.old block.now out.old }
{
    u32::from(answer_number(console::write_sectors(kept, block, out)))
}

// A whole block of the run: 32,768 main data bytes, laid as 77,376; 0, or refusal 1, 2, 3, 10, 9 or 7. `follows` says whether a block comes before, and `previous`
// is that block's first number, which counts only then. A mark is dropped.
#[unsafe(no_mangle)]
pub extern "C" fn chamanzil_write_block(
    kept: &mut Record,
    follows: bool,
    previous: u32,
    main: &[u8],
    first: u32,
    info: u8,
    out: &mut [u8],
) -> u32
    ensures value { result
        ≡ write_block_refusal kept.old (previous_of follows previous)
        (length main.now) (length out.old) first info }
    ensures kept_after { kept.new
        ≡ write_block_next kept.old (previous_of follows previous)
        main.now first info (length out.old) }
    ensures out_after { out.new
        ≡ write_block_out kept.old (previous_of follows previous)
        main.now first info out.old }
{
    let before = crate::blocks::previous_of(follows, previous);
    u32::from(answer_number(console::write_block(kept, before, main, first, info, out)))
}

// The closing code, 4 bytes; 0, or refusal 1, 9, 7 or 8. A mark is dropped.
#[unsafe(no_mangle)]
pub extern "C" fn chamanzil_close(kept: &mut Record, out: &mut [u8]) -> u32
    ensures value { result ≡ closing_refusal kept.old (length out.old) }
    ensures kept_after { kept.new ≡ closing_next kept.old (length out.old) }
    ensures out_after { out.new ≡ closing_out kept.old out.old }
{
    u32::from(answer_number(console::close(kept, out)))
}
