// The block maker (ECMA-268, clauses 16 to 19; document 01, 'The block'): 32,768 main data bytes to an ECC Block of 37,856 bytes in recording order. The tables are
// made once a block and lent from there on.
#![tactic(auto)]

ghost use Rattle.std.specs.Prelude.{◌≡◌, List, ℕ, ◌+◌, ◌<◌, ◌≤◌, length};
ghost use Rattle.octets.specs.Inner.{Stored};
ghost use Rattle.layout.specs.Lengths.{frame_size, sector_count, row_count, column_count, last_first};
ghost use Rattle.layout.specs.Inner.{frame_place};
ghost use Rattle.refusals.specs.Refusal.{answer_number};
ghost use Rattle.scrambling.specs.Scrambling.{scrambled};
ghost use Rattle.dataframe.specs.Frame.{data_frame};
ghost use Rattle.eccblock.specs.Block.{block};
ghost use Rattle.eccblock.specs.Encode.{follows, encode_refusal, encoded_buffer};
ghost use Rattle.eccblock.specs.Inner.{Frames, Columns, Rows};

use field::Logs;
use layout::{
    BLOCK_SIZE, COLUMN_COUNT, DATA_ROWS, FRAME_MAIN_SIZE, FRAME_SIZE, LAST_FIRST, MAIN_SIZE,
    OUTER_SIZE, ROW_COUNT, ROW_SIZE, SECTOR_ROWS,
};
use multiples::Multiples;
use refusals::Refusal;

// ---- the frames in their rows

// The Scrambled Frame of a sector over its main data bytes.
fn scrambled_frame(
    logs: &Logs,
    main: &[u8; FRAME_MAIN_SIZE],
    info: u8,
    number: u32,
) -> [u8; FRAME_SIZE]
    ensures { result ≡ scrambled number (data_frame main.now info number) }
{
    scrambling::scramble(dataframe::data_frame(logs, main, info, number), number)
}

// Frame k in its twelve rows of 172 bytes.
fn store_frame(scrambled: &[u8; FRAME_SIZE], k: usize, out: &mut [u8; BLOCK_SIZE])
    requires { k < sector_count }
    ensures { Stored (frame_place k) scrambled.now out.old out.new frame_size }
{
    let (rows, _) = scrambled.as_chunks::<COLUMN_COUNT>();
    for (r, row) in rows.iter().enumerate() {
        let at = (SECTOR_ROWS * k + r) * ROW_SIZE;
        octets::put(out, at, row);
    }
}

// All sixteen frames.
fn store_frames(
    logs: &Logs,
    main: &[u8; MAIN_SIZE],
    first: u32,
    info: u8,
    out: &mut [u8; BLOCK_SIZE],
)
    requires { first ≤ last_first }
    ensures { Frames main.now first info sector_count out.new }
{
    let (parts, _) = main.as_chunks::<FRAME_MAIN_SIZE>();
    for (k, part) in parts.iter().enumerate() {
        let scrambled = scrambled_frame(logs, part, info, first + k as u32);
        store_frame(&scrambled, k, out);
    }
}

// ---- outer parity: 16 bytes for each of the 172 columns

// The parity of column j is what is left in its register, and its bytes 192 to 207.
fn add_outer(table: &Multiples<16>, out: &mut [u8; BLOCK_SIZE])
    ensures { (main : List ℕ) (first info : ℕ)
        → Frames main first info sector_count out.old
        → Columns main first info column_count out.new }
{
    let registers = parity::column_registers(table, out);
    for (j, register) in registers.iter().enumerate() {
        let p: [u8; OUTER_SIZE] = parity::unpack(*register);
        layout::store_column(&p, DATA_ROWS, j, out);
    }
}

// ---- inner parity: 10 bytes for each of the 208 rows

// The parity of a row is over its first 172 bytes, and stands after them.
fn add_inner(table: &Multiples<10>, out: &mut [u8; BLOCK_SIZE])
    ensures { (main : List ℕ) (first info : ℕ)
        → Rows main first info 0 out.old
        → Rows main first info row_count out.new }
{
    for q in 0..ROW_COUNT {
        let at = q * ROW_SIZE;
        let end = at + COLUMN_COUNT;
        let p = parity::parity(table, &out[at..end]);
        octets::put(out, end, &p);
    }
}

// ---- the block

// The three stages one after the other.
fn fill_block(main: &[u8; MAIN_SIZE], first: u32, info: u8, out: &mut [u8; BLOCK_SIZE])
    requires { first ≤ last_first }
    ensures { out.new ≡ block main.now first info }
{
    store_frames(&Logs::new(), main, first, info, out);
    add_outer(&Multiples::<16>::new(), out);
    add_inner(&Multiples::<10>::new(), out);
}

// Whether the block follows on the one before. The sum does not wrap around to 0.
fn follows_on(previous: Option<u32>, first: u32) -> bool
    ensures { result ≡ follows previous first }
{
    match previous {
        None => true,
        Some(before) => before.checked_add(16) == Some(first),
    }
}

// The block maker. The block before is given by its first number, None where a run begins (document 02, request 1). Where it
// refuses, the buffer is left as it was.
pub fn encode_block(
    main: &[u8],
    previous: Option<u32>,
    first: u32,
    info: u8,
    out: &mut [u8],
) -> Result<(), Refusal>
    ensures result_value { answer_number result
        ≡ encode_refusal previous (length main.now) (length out.old) first info }
    ensures out_after { out.new ≡ encoded_buffer previous main.now first info out.old }
{
    let Some(main) = main.as_array::<MAIN_SIZE>() else {
        return Err(Refusal::Length);
    };
    let Some(out) = out.as_mut_array::<BLOCK_SIZE>() else {
        return Err(Refusal::Length);
    };
    if first % 16 != 0 || LAST_FIRST < first {
        return Err(Refusal::FirstNumber);
    }
    if info & 0xD2 != 0 {
        return Err(Refusal::Information);
    }
    if !follows_on(previous, first) {
        return Err(Refusal::Sequence);
    }
    fill_block(main, first, info, out);
    Ok(())
}
