// The field and the two codes.
ghost use Rattle.std.specs.Prelude.{◌≡◌, ◌&&◌};
ghost use Rattle.field.specs.Field.{mul, pow};
ghost use Rattle.codes.specs.Parity.{parity};
ghost use Rattle.layout.specs.Lengths.{data_rows, column_count, outer_size, inner_size};
ghost use Rattle.ffi.specs.Answers.{sized, done_or1, held_after, outcome_number, column_repair_number, column_repair_bytes, row_repair_number, row_repair_bytes, light_number, light_repair_number, light_repair_bytes};

use codes::{LightOutcome, Outcome};
use field::Logs;
use layout::{COLUMN_COUNT, DATA_ROWS, INNER_SIZE, OUTER_SIZE, ROW_COUNT, ROW_SIZE};
use lightrepair::LightRow;
use reedsolomon::{Column, Row};

#[unsafe(no_mangle)]
pub extern "C" fn chamanzil_product(a: u8, b: u8) -> u8
    ensures { result ≡ mul a b }
{
    Logs::new().product(a, b)
}

#[unsafe(no_mangle)]
pub extern "C" fn chamanzil_power(a: u8, n: u64) -> u8
    ensures { result ≡ pow a n }
{
    Logs::new().power(a, n)
}

// What became of a word that was no code word: numbers above every refusal.
const CORRECTED: u32 = 256;

const UNCORRECTABLE: u32 = 257;

fn outcome_number(outcome: Outcome) -> u32
    ensures { result ≡ outcome_number outcome }
{
    match outcome {
        Outcome::Clean => 0,
        Outcome::Corrected => CORRECTED,
        Outcome::Uncorrectable => UNCORRECTABLE,
    }
}

// The same of the light repair: no code word is within two bytes.
const HEAVIER: u32 = 258;

fn light_number(outcome: LightOutcome) -> u32
    ensures { result ≡ light_number outcome }
{
    match outcome {
        LightOutcome::Repaired => 0,
        LightOutcome::Heavier => HEAVIER,
    }
}

// The 2 bytes of IED of an ID of 4.
#[unsafe(no_mangle)]
pub extern "C" fn chamanzil_ied(id: &[u8], out: &mut [u8]) -> u32
    ensures value { result ≡ done_or1 (sized 4 id.now && sized 2 out.old) }
    ensures out_after { out.new
        ≡ held_after (sized 4 id.now && sized 2 out.old) (parity 2 id.now)
        out.old }
{
    let Some(id) = id.as_array::<4>() else {
        return 1;
    };
    let Some(out) = out.as_mut_array::<2>() else {
        return 1;
    };
    *out = reedsolomon::parity2(id);
    0
}

// The 10 parity bytes of a row of 172.
#[unsafe(no_mangle)]
pub extern "C" fn chamanzil_row_parity(word: &[u8], out: &mut [u8]) -> u32
    ensures value { result ≡ done_or1 (sized column_count word.now && sized inner_size out.old) }
    ensures out_after { out.new
        ≡ held_after (sized column_count word.now && sized inner_size out.old)
        (parity inner_size word.now) out.old }
{
    let Some(word) = word.as_array::<COLUMN_COUNT>() else {
        return 1;
    };
    let Some(out) = out.as_mut_array::<INNER_SIZE>() else {
        return 1;
    };
    *out = reedsolomon::parity10(word);
    0
}

// The 16 parity bytes of a column of 192.
#[unsafe(no_mangle)]
pub extern "C" fn chamanzil_column_parity(word: &[u8], out: &mut [u8]) -> u32
    ensures value { result ≡ done_or1 (sized data_rows word.now && sized outer_size out.old) }
    ensures out_after { out.new
        ≡ held_after (sized data_rows word.now && sized outer_size out.old)
        (parity outer_size word.now) out.old }
{
    let Some(word) = word.as_array::<DATA_ROWS>() else {
        return 1;
    };
    let Some(out) = out.as_mut_array::<OUTER_SIZE>() else {
        return 1;
    };
    *out = reedsolomon::parity16(word);
    0
}

// The repair of a row of 182 bytes with its marks, in place.
#[unsafe(no_mangle)]
pub extern "C" fn chamanzil_correct_row(row: &mut [u8], erasures: &[u8]) -> u32
    ensures value { result ≡ row_repair_number row.old erasures.now }
    ensures row_after { row.new ≡ row_repair_bytes row.old erasures.now }
{
    let Some(erasures) = erasures.as_array::<ROW_SIZE>() else {
        return 1;
    };
    let Some(row) = row.as_mut_array::<ROW_SIZE>() else {
        return 1;
    };
    if !repairer::marks_fit(erasures) {
        return 11;
    }
    let bytes = *row;
    let outcome = Outcome::Clean;
    let repaired = reedsolomon::correct_row(erasures, Row { bytes, outcome });
    let near = repaired.bytes;
    *row = near;
    outcome_number(repaired.outcome)
}

// The repair of a column of 208 bytes, in place.
#[unsafe(no_mangle)]
pub extern "C" fn chamanzil_correct_column(column: &mut [u8]) -> u32
    ensures value { result ≡ column_repair_number column.old }
    ensures column_after { column.new ≡ column_repair_bytes column.old }
{
    let Some(column) = column.as_mut_array::<ROW_COUNT>() else {
        return 1;
    };
    let bytes = *column;
    let outcome = Outcome::Clean;
    let repaired = reedsolomon::correct_column(Column { bytes, outcome });
    let near = repaired.bytes;
    *column = near;
    outcome_number(repaired.outcome)
}

// The light repair of a row of 182 bytes without marks, in place.
#[unsafe(no_mangle)]
pub extern "C" fn chamanzil_correct_light_row(row: &mut [u8]) -> u32
    ensures value { result ≡ light_repair_number row.old }
    ensures row_after { row.new ≡ light_repair_bytes row.old }
{
    let Some(row) = row.as_mut_array::<ROW_SIZE>() else {
        return 1;
    };
    let bytes = *row;
    let outcome = LightOutcome::Heavier;
    let repaired = lightrepair::correct_light_row(LightRow { bytes, outcome });
    let near = repaired.bytes;
    *row = near;
    light_number(repaired.outcome)
}
