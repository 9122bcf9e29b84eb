// The columns of a block divided by the generator of the outer code, all at once: the block maker has their outer parity
// from it (clause 18), the repairer what is left of each column.
ghost use Rattle.std.specs.Prelude.{◌≡◌, take};
ghost use Rattle.codes.specs.Parity.{parity};
ghost use Rattle.division.specs.Inner.{beside};
ghost use Rattle.layout.specs.Lengths.{column_count, data_rows, outer_size};
ghost use Rattle.layout.specs.Rows.{column_of};

use division::Remainder;
use layout::{BLOCK_SIZE, COLUMN_COUNT, DATA_ROWS, ROW_SIZE};
use multiples::Multiples;

// The registers of the columns side by side after their first 192 bytes. The rows pass in the order before they were moved.
pub fn column_registers(
    table: &Multiples<16>,
    block: &[u8; BLOCK_SIZE],
) -> [Remainder; COLUMN_COUNT]
    ensures { result
        ≡ beside (λ j. parity outer_size (take data_rows (column_of block.now j))) column_count }
{
    let mut registers = [Remainder { high: 0, low: 0 }; COLUMN_COUNT];
    for i in 0..DATA_ROWS {
        let start = layout::recording_row(i) * ROW_SIZE;
        let end = start + COLUMN_COUNT;
        division::shift_row(table, &block[start..end], &mut registers);
    }
    registers
}
