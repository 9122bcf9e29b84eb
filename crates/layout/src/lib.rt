// The geometry of a block, a sector and a frame (ECMA-268, clauses 16 to 21): every length by its name, and where rows, columns, frames and SYNC Codes stand.
// The lengths are those of specs/Lengths.antt, in bytes where nothing else is said.
#![tactic(auto)]

mod block;

ghost use Rattle.std.specs.Prelude.{◌≡◌, ◌<◌};
ghost use Rattle.layout.specs.Sectors.{frame_codes, code_of};

pub use block::{column_at, column_end, frame_at, recording_row, row_at, store_column};

// ---- a Data Frame (clause 16)

pub const HEAD_SIZE: usize = 12;

pub const FRAME_MAIN_SIZE: usize = 2048;

pub const EDC_PLACE: usize = 2060;

pub const FRAME_SIZE: usize = 2064;

// ---- an ECC Block and its Recording Frames (clauses 18 and 19)

pub const SECTOR_COUNT: usize = 16;

pub const MAIN_SIZE: usize = 32768;

pub const FRAME_ROWS: usize = 12;

pub const DATA_ROWS: usize = 192;

pub const ROW_COUNT: usize = 208;

pub const COLUMN_COUNT: usize = 172;

pub const ROW_SIZE: usize = 182;

pub const OUTER_SIZE: usize = 16;

pub const INNER_SIZE: usize = 10;

pub const SECTOR_ROWS: usize = 13;

pub const SECTOR_SIZE: usize = 2366;

pub const BLOCK_SIZE: usize = 37856;

pub const LAST_FIRST: u32 = 16777200;

// ---- the channel (clauses 20 and 21)

pub const FRAME_BYTES: usize = 91;

pub const FRAME_HALVES: usize = 93;

pub const FRAME_STREAM: usize = 186;

pub const FRAME_BITS: usize = 1488;

pub const SYNC_BITS: usize = 32;

pub const SECTOR_FRAMES: usize = 26;

pub const SECTOR_STREAM: usize = 4836;

pub const SECTOR_BITS: u64 = 38688;

pub const SECTOR_READ: usize = 4838;

pub const SECTORS_STREAM: usize = 77376;

pub const CLOSING_SIZE: usize = 4;

pub const STREAM_SIZE: usize = 77380;

pub const STREAM_BITS: usize = 619040;

// ---- a run of blocks (document 02, request 1)

pub const RUN_SECTORS: u32 = 16777216;

// ---- a capture (document 02, request 6)

pub const LONGEST_CAPTURE: usize = 1099511627776;

// The SYNC Codes of the 13 rows of a sector, two frames a row, made once and lent.
#[derive(Clone, Copy)]
pub struct FrameCodes {
    pub codes: [u8; SECTOR_FRAMES],
    pub ghost sound: { codes ≡ frame_codes },
}

impl FrameCodes {
    pub fn new() -> FrameCodes {
        FrameCodes {
            codes: [
                0, 5, 1, 5, 2, 5, 3, 5, 4, 5, 1, 6, 2, 6, 3, 6, 4, 6, 1, 7, 2, 7, 3, 7, 4, 7,
            ],
        }
    }

    // The number of the SYNC Code of frame f, where 26 frames are a sector.
    pub fn of(&self, f: usize) -> u8
        ensures value { result ≡ code_of f }
        ensures upper_bound { result < 8 }
    {
        self.codes[f % SECTOR_FRAMES]
    }
}
