// The sector reader, two readings pooled, the block repairer and the whole-block reader. What the readers and the repairer answer besides their number is laid as
// numbers in a report of the caller's.
ghost use Rattle.std.specs.Prelude.{◌≡◌, length};
ghost use Rattle.reader.specs.Sector.{sector_answer, sector_after, erasures_after, sector_read_refusal};
ghost use Rattle.repairer.specs.Answer.{repair_answer, block_after, main_after, repair_refusal};
ghost use Rattle.pooling.specs.Pool.{with_marks};
ghost use Rattle.pooling.specs.Answer.{pool_after, pool_refusal};
ghost use Rattle.blockreader.specs.BlockReader.{block_read_answer, block_read_block, block_read_erasures, block_read_main, block_read_refusal};
ghost use Rattle.ffi.specs.Answers.{sized, held_after};
ghost use Rattle.ffi.specs.Readers.{sector_report_size, repair_report_size, block_report_size, sector_report, repair_report, block_report, number_or1};

use blockreader::BlockRead;
use reader::SectorTally;
use refusals::{Refusal, answer_number};
use repairer::{BlockRefusal, Repair, Tallies};

// How many numbers a report has.
const SECTOR_REPORT: usize = 2;

const REPAIR_REPORT: usize = 6;

const BLOCK_REPORT: usize = 8;

fn lay_sector(answer: Result<SectorTally, Refusal>, report: &mut [u32; SECTOR_REPORT])
    ensures { report.new ≡ sector_report answer report.old }
{
    if let Ok(tally) = answer {
        *report = [tally.unknown, tally.sync];
    }
}

// The tallies where the block is handed out, else the frame that fails, at the end; a refusal of the whole block leaves the report.
fn lay_repair(answer: Result<Repair, BlockRefusal>, report: &mut [u32; REPAIR_REPORT])
    ensures { report.new ≡ repair_report answer report.old }
{
    match answer {
        Ok(Repair { first, tallies }) => {
            let Tallies { rows, columns } = tallies;
            *report = [
                first,
                rows.corrected,
                rows.uncorrectable,
                columns.corrected,
                columns.uncorrectable,
                0,
            ];
        }
        Err(
            BlockRefusal {
                frame: Some(frame),
                ..
            },
        ) => *report = [0, 0, 0, 0, 0, u32::from(frame)],
        Err(_) => {}
    }
}

fn lay_block(answer: Result<BlockRead, BlockRefusal>, report: &mut [u32; BLOCK_REPORT])
    ensures { report.new ≡ block_report answer report.old }
{
    match answer {
        Ok(read) => {
            let Tallies { rows, columns } = read.tallies;
            *report = [
                read.first,
                rows.corrected,
                rows.uncorrectable,
                columns.corrected,
                columns.uncorrectable,
                read.unknown,
                read.sync,
                0,
            ];
        }
        Err(
            BlockRefusal {
                frame: Some(frame),
                ..
            },
        ) => *report = [0, 0, 0, 0, 0, 0, 0, u32::from(frame)],
        Err(_) => {}
    }
}

// 4,838 bytes of stream to 2,366, and as many marks, 1 for an unknown word; 0, or refusal 1. The report has the tallies: unknown words, SYNC places that hold no
// code due there.
#[unsafe(no_mangle)]
pub extern "C" fn chamanzil_read_sector(
    stream: &[u8],
    out: &mut [u8],
    erasures: &mut [u8],
    report: &mut [u32],
) -> u32
    ensures value { result
        ≡ number_or1 (sized sector_report_size report.old)
        (sector_read_refusal stream.now (length out.old)
        (length erasures.old)) }
    ensures out_after { out.new
        ≡ held_after (sized sector_report_size report.old)
        (sector_after stream.now out.old (length erasures.old))
        out.old }
    ensures erasures_after { erasures.new
        ≡ held_after (sized sector_report_size report.old)
        (erasures_after stream.now (length out.old) erasures.old)
        erasures.old }
    ensures report_after { report.new
        ≡ held_after (sized sector_report_size report.old)
        (sector_report
        (sector_answer stream.now (length out.old) (length erasures.old))
        report.old)
        report.old }
{
    let Some(report) = report.as_mut_array::<SECTOR_REPORT>() else {
        return 1;
    };
    let answer = reader::read_sector(stream, out, erasures);
    lay_sector(answer, report);
    u32::from(answer_number(answer))
}

// Two readings of one block, 37,856 bytes and as many marks each, pooled: the result replaces the first, `bytes` and `erasures`; the second, `second` and `marks`,
// stays. 0, or refusal 1 or 11.
#[unsafe(no_mangle)]
pub extern "C" fn chamanzil_pool(
    bytes: &mut [u8],
    erasures: &mut [u8],
    second: &[u8],
    marks: &[u8],
) -> u32
    ensures value { result
        ≡ pool_refusal (with_marks bytes.old erasures.old)
        (with_marks second.now marks.now) }
    ensures bytes_after { bytes.new
        ≡ (pool_after (with_marks bytes.old erasures.old)
        (with_marks second.now marks.now)).bytes }
    ensures erasures_after { erasures.new
        ≡ (pool_after (with_marks bytes.old erasures.old)
        (with_marks second.now marks.now)).erasures }
{
    u32::from(answer_number(pooling::pool(bytes, erasures, second, marks)))
}

// A block of 37,856 bytes, repaired in place by its marks, to 32,768 main data bytes; 0, or refusal 1, 11, 4, 5 or 6. The report has the first number, the rows
// corrected and uncorrectable, the columns corrected and uncorrectable, and the frame refused.
#[unsafe(no_mangle)]
pub extern "C" fn chamanzil_repair_block(
    block: &mut [u8],
    erasures: &[u8],
    main: &mut [u8],
    report: &mut [u32],
) -> u32
    ensures value { result
        ≡ number_or1 (sized repair_report_size report.old)
        (repair_refusal block.old erasures.now (length main.old)) }
    ensures block_after { block.new
        ≡ held_after (sized repair_report_size report.old)
        (block_after block.old erasures.now (length main.old))
        block.old }
    ensures main_after { main.new
        ≡ held_after (sized repair_report_size report.old)
        (main_after block.old erasures.now main.old) main.old }
    ensures report_after { report.new
        ≡ held_after (sized repair_report_size report.old)
        (repair_report
        (repair_answer block.old erasures.now (length main.old))
        report.old)
        report.old }
{
    let Some(report) = report.as_mut_array::<REPAIR_REPORT>() else {
        return 1;
    };
    let answer = repairer::repair_block(block, erasures, main);
    lay_repair(answer, report);
    u32::from(repairer::block_answer_number(answer))
}

// 77,380 bytes of stream to a block of 37,856, as the repairer leaves it, as many marks, and 32,768 main data bytes; 0, or refusal 1, 4, 5 or 6. The report is the
// repairer's with the two tallies of the sectors before the frame.
#[unsafe(no_mangle)]
pub extern "C" fn chamanzil_read_block(
    stream: &[u8],
    block: &mut [u8],
    erasures: &mut [u8],
    main: &mut [u8],
    report: &mut [u32],
) -> u32
    ensures value { result
        ≡ number_or1 (sized block_report_size report.old)
        (block_read_refusal stream.now (length block.old)
        (length erasures.old) (length main.old)) }
    ensures block_after { block.new
        ≡ held_after (sized block_report_size report.old)
        (block_read_block stream.now block.old (length erasures.old)
        (length main.old))
        block.old }
    ensures erasures_after { erasures.new
        ≡ held_after (sized block_report_size report.old)
        (block_read_erasures stream.now (length block.old) erasures.old
        (length main.old))
        erasures.old }
    ensures main_after { main.new
        ≡ held_after (sized block_report_size report.old)
        (block_read_main stream.now (length block.old) (length erasures.old)
        main.old)
        main.old }
    ensures report_after { report.new
        ≡ held_after (sized block_report_size report.old)
        (block_report
        (block_read_answer stream.now (length block.old)
        (length erasures.old) (length main.old))
        report.old)
        report.old }
{
    let Some(report) = report.as_mut_array::<BLOCK_REPORT>() else {
        return 1;
    };
    let answer = blockreader::read_block(stream, block, erasures, main);
    lay_block(answer, report);
    u32::from(repairer::block_answer_number(answer))
}
