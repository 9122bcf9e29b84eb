// The sixteen frames of a block after both repairs: their checks, and their main data.
ghost use Rattle.std.specs.Prelude.{◌≡◌, Ok};
ghost use Rattle.dataframe.specs.Checks.{main_of_block};
ghost use Rattle.layout.specs.Lengths.{sector_count};
ghost use Rattle.repairer.specs.Answer.{judged, repair_of};

use crate::{BlockRefusal, Repair, Tallies};
use field::Logs;
use layout::{BLOCK_SIZE, EDC_PLACE, FRAME_MAIN_SIZE, HEAD_SIZE, MAIN_SIZE, SECTOR_COUNT};

// The frames in ascending order, up to the first that fails. Frame 0's number and Information byte are what check 5 goes
// by.
pub(crate) fn judge_frames(
    logs: &Logs,
    block: &[u8; BLOCK_SIZE],
    tallies: Tallies,
) -> Result<Repair, BlockRefusal>
    ensures { result ≡ judged block.now 0 sector_count (Ok (repair_of block.now tallies)) }
{
    let frame0 = layout::frame_at(block, 0);
    let first = dataframe::sector_number(&frame0);
    let info = frame0[0];
    for k in 0..16u8 {
        let frame = layout::frame_at(block, usize::from(k));
        if let Err(refusal) = dataframe::check_frame(logs, frame, first, info, u32::from(k)) {
            return Err(BlockRefusal {
                refusal,
                frame: Some(k),
            });
        }
    }
    Ok(Repair { first, tallies })
}

// The main data of all frames, unscrambled.
pub(crate) fn hand_out(block: &[u8; BLOCK_SIZE], main: &mut [u8; MAIN_SIZE])
    ensures { main.new ≡ main_of_block block.now }
{
    for k in 0..SECTOR_COUNT {
        let frame = dataframe::unscramble(layout::frame_at(block, k));
        octets::put(main, k * FRAME_MAIN_SIZE, &frame[HEAD_SIZE..EDC_PLACE]);
    }
}
