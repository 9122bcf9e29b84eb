// Rows, columns and frames of a block buffer: taken out of it, and stored in it.
ghost use Rattle.std.specs.Prelude.{◌≡◌, ◌+◌, ◌<◌, ◌≤◌, length, take, drop};
ghost use Rattle.octets.specs.Inner.{Stored};
ghost use Rattle.layout.specs.Lengths.{sector_count, data_rows, row_count, column_count};
ghost use Rattle.layout.specs.Rows.{recording_row, row_of, column_of, frame_of};
ghost use Rattle.layout.specs.Inner.{column_place};

use crate::{
    BLOCK_SIZE, COLUMN_COUNT, DATA_ROWS, FRAME_ROWS, FRAME_SIZE, OUTER_SIZE, ROW_COUNT, ROW_SIZE,
    SECTOR_ROWS,
};

// The row to which row i moves (clause 19).
pub fn recording_row(i: usize) -> usize
    requires { i < row_count }
    ensures value { result ≡ recording_row i }
    ensures upper_bound { result < row_count }
{
    if i < DATA_ROWS {
        return i + i / FRAME_ROWS;
    }
    SECTOR_ROWS * (i - (DATA_ROWS - 1)) - 1
}

// Recording row q.
pub fn row_at(block: &[u8; BLOCK_SIZE], q: usize) -> [u8; ROW_SIZE]
    requires { q < row_count }
    ensures { result ≡ row_of block.now q }
{
    let at = q * ROW_SIZE;
    let end = at + ROW_SIZE;
    <[u8; ROW_SIZE]>::try_from(&block[at..end]).unwrap()
}

// N bytes of column j, in the order before the rows were moved, from its byte i on.
fn column_part<const N: usize>(block: &[u8; BLOCK_SIZE], i: usize, j: usize) -> [u8; N]
    requires { (i + N ≤ row_count) × (j < column_count) }
    ensures { result ≡ take N (drop i (column_of block.now j)) }
{
    let mut part = [0u8; N];
    for (k, byte) in part.iter_mut().enumerate() {
        *byte = block[recording_row(i + k) * ROW_SIZE + j];
    }
    part
}

// Column j, in the order before the rows were moved.
pub fn column_at(block: &[u8; BLOCK_SIZE], j: usize) -> [u8; ROW_COUNT]
    requires { j < column_count }
    ensures { result ≡ column_of block.now j }
{
    column_part(block, 0, j)
}

// The last sixteen bytes of column j: its outer parity (clause 18).
pub fn column_end(block: &[u8; BLOCK_SIZE], j: usize) -> [u8; OUTER_SIZE]
    requires { j < column_count }
    ensures { result ≡ drop data_rows (column_of block.now j) }
{
    column_part(block, DATA_ROWS, j)
}

// Bytes of column j in their places, of which the first is its byte i.
pub fn store_column(part: &[u8], i: usize, j: usize, block: &mut [u8; BLOCK_SIZE])
    requires { (i + length part.now ≤ row_count) × (j < column_count) }
    ensures { Stored (λ k. column_place j (i + k)) part.now block.old block.new
        (length part.now) }
{
    for (k, byte) in part.iter().enumerate() {
        block[recording_row(i + k) * ROW_SIZE + j] = *byte;
    }
}

// Frame k, still scrambled: twelve rows of 172 bytes.
pub fn frame_at(block: &[u8; BLOCK_SIZE], k: usize) -> [u8; FRAME_SIZE]
    requires { k < sector_count }
    ensures { result ≡ frame_of block.now k }
{
    let mut frame = [0u8; FRAME_SIZE];
    for r in 0..FRAME_ROWS {
        let start = (SECTOR_ROWS * k + r) * ROW_SIZE;
        let end = start + COLUMN_COUNT;
        octets::put(&mut frame, COLUMN_COUNT * r, &block[start..end]);
    }
    frame
}
