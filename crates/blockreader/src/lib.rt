// The reader of a whole block (document 01, 'Reading a word, and the repair'): sixteen calls of the sector reader, then one of the repairer with their
// marks (document 02, request 2).
#![tactic(auto)]

ghost use Rattle.std.specs.Prelude.{◌≡◌, length};
ghost use Rattle.channel.specs.Block.{read_block, erasures_of_block};
ghost use Rattle.reader.specs.Sector.{unknown_tally, sync_tally};
ghost use Rattle.layout.specs.Lengths.{main_size};
ghost use Rattle.repairer.specs.Answer.{repair_answer, block_after, main_after, repair_refusal, refused_frame, block_answer_number, block_answer_frame};
ghost use Rattle.blockreader.specs.BlockReader.{sector_sum, with_sums, block_read_answer, block_read_block, block_read_erasures, block_read_main, block_read_refusal, block_read_refused_frame};

use annexg::{CodeWords, SyncCodes};
use layout::{
    BLOCK_SIZE, MAIN_SIZE, SECTOR_COUNT, SECTOR_READ, SECTOR_SIZE, SECTOR_STREAM, STREAM_SIZE,
};
use reader::{ReadingTables, SectorTally};
use refusals::Refusal;
use repairer::{BlockRefusal, Tallies};
use wordindex::WordReader;

// A block whose frames all pass: its first number, the repairer's tallies, and the sums of the sector tallies.
#[derive(Clone, Copy, PartialEq, Eq, Debug)]
pub struct BlockRead {
    pub first: u32,
    pub tallies: Tallies,
    pub unknown: u32,
    pub sync: u32,
}

// The sixteen sectors, each with the two bytes after it, one after the other into the block buffer, and their marks. The answer has the sums of their tallies.
fn read_sectors(
    stream: &[u8; STREAM_SIZE],
    block: &mut [u8; BLOCK_SIZE],
    erasures: &mut [u8; BLOCK_SIZE],
) -> SectorTally
    ensures block_after { block.new ≡ read_block stream.now }
    ensures erasures_after { erasures.new ≡ erasures_of_block stream.now }
    ensures unknown { result.unknown ≡ sector_sum unknown_tally stream.now 0 16 }
    ensures sync { result.sync ≡ sector_sum sync_tally stream.now 0 16 }
{
    let words = CodeWords::new();
    let index = wordindex::word_index(&words);
    let syncs = SyncCodes::new();
    let reader = WordReader {
        words: &words,
        index: &index,
    };
    let tables = ReadingTables {
        words: reader,
        syncs: &syncs,
    };
    let mut sums = SectorTally {
        unknown: 0,
        sync: 0,
    };
    for k in 0..SECTOR_COUNT {
        let from = SECTOR_STREAM * k;
        let to = from + SECTOR_READ;
        let at = SECTOR_SIZE * k;
        let end = at + SECTOR_SIZE;
        let read = reader::read_sector_with(
            &tables,
            &stream[from..to],
            &mut block[at..end],
            &mut erasures[at..end],
        );
        // the parts have the lengths that the sector reader wants, so it refuses none
        let tally = read.unwrap();
        sums.unknown += tally.unknown;
        sums.sync += tally.sync;
    }
    sums
}

// The sixteen sectors, and then the repair. The repairer gets the bytes that were read, and the sector reader's marks.
fn read_and_repair(
    stream: &[u8; STREAM_SIZE],
    block: &mut [u8; BLOCK_SIZE],
    erasures: &mut [u8; BLOCK_SIZE],
    main: &mut [u8; MAIN_SIZE],
) -> Result<BlockRead, BlockRefusal>
    ensures value { result
        ≡ with_sums
        (repair_answer (read_block stream.now) (erasures_of_block stream.now) main_size)
        (sector_sum unknown_tally stream.now 0 16)
        (sector_sum sync_tally stream.now 0 16) }
    ensures number { block_answer_number result
        ≡ repair_refusal (read_block stream.now) (erasures_of_block stream.now) main_size }
    ensures frame { block_answer_frame result
        ≡ refused_frame (read_block stream.now) (erasures_of_block stream.now) main_size }
    ensures block_after { block.new
        ≡ block_after (read_block stream.now) (erasures_of_block stream.now) main_size }
    ensures erasures_after { erasures.new ≡ erasures_of_block stream.now }
    ensures main_after { main.new
        ≡ main_after (read_block stream.now) (erasures_of_block stream.now) main.old }
{
    let sums = read_sectors(stream, block, erasures);
    let repair = repairer::repair_block(block, erasures, main)?;
    Ok(BlockRead {
        first: repair.first,
        tallies: repair.tallies,
        unknown: sums.unknown,
        sync: sums.sync,
    })
}

// The whole-block reader. Where a buffer has another length than stated, everything is left as it was.
#[tactic(auto, unfolding(crate::specs::BlockReader::block_fits, crate::specs::BlockReader::block_read_answer, crate::specs::BlockReader::block_read_block, crate::specs::BlockReader::block_read_erasures, crate::specs::BlockReader::block_read_main, crate::specs::BlockReader::block_read_refusal, crate::specs::BlockReader::block_read_refused_frame))]
pub fn read_block(
    stream: &[u8],
    block: &mut [u8],
    erasures: &mut [u8],
    main: &mut [u8],
) -> Result<BlockRead, BlockRefusal>
    ensures value { result
        ≡ block_read_answer stream.now (length block.old) (length erasures.old)
        (length main.old) }
    ensures result_value { block_answer_number result
        ≡ block_read_refusal stream.now (length block.old) (length erasures.old)
        (length main.old) }
    ensures result_value_2 { block_answer_frame result
        ≡ block_read_refused_frame stream.now (length block.old)
        (length erasures.old) (length main.old) }
    ensures block_after { block.new
        ≡ block_read_block stream.now block.old (length erasures.old)
        (length main.old) }
    ensures erasures_after { erasures.new
        ≡ block_read_erasures stream.now (length block.old) erasures.old
        (length main.old) }
    ensures main_after { main.new
        ≡ block_read_main stream.now (length block.old) (length erasures.old)
        main.old }
{
    let stream = stream.as_array::<STREAM_SIZE>().ok_or(Refusal::Length)?;
    let block = block.as_mut_array::<BLOCK_SIZE>().ok_or(Refusal::Length)?;
    let marks = erasures
        .as_mut_array::<BLOCK_SIZE>()
        .ok_or(Refusal::Length)?;
    let main = main.as_mut_array::<MAIN_SIZE>().ok_or(Refusal::Length)?;
    read_and_repair(stream, block, marks, main)
}
