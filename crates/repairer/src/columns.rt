// A column of a block, in the order before the rows were moved: its sums at the roots, and the one code column within
// eight bytes in its place.
ghost use Rattle.std.specs.Prelude.{◌≡◌, ℕ, ◌<◌};
ghost use Rattle.lists.specs.Fill.{tabulate};
ghost use Rattle.codes.specs.Word.{syndrome};
ghost use Rattle.layout.specs.Lengths.{column_count, outer_size};
ghost use Rattle.layout.specs.Rows.{column_of};
ghost use Rattle.repairer.specs.Inner.{Columns as AlongColumns, ColumnDivided};

use crate::words::Words;
use codes::Outcome;
use division::Remainder;
use field::Logs;
use layout::{BLOCK_SIZE, COLUMN_COUNT, OUTER_SIZE};
use multiples::Multiples;
use reedsolomon::Column;

#[derive(Clone, Copy)]
pub(crate) struct Columns<'a> {
    logs: &'a Logs,
    table: &'a Multiples<16>,
    registers: [Remainder; COLUMN_COUNT],
}

impl<'a> Columns<'a> {
    // The columns are divided side by side ahead of their turns.
    pub(crate) fn divided(
        logs: &'a Logs,
        table: &'a Multiples<16>,
        block: &[u8; BLOCK_SIZE],
    ) -> Columns<'a>
        ensures { (j : ℕ) → j < column_count → ColumnDivided block.now result.registers j }
    {
        Columns {
            logs,
            table,
            registers: parity::column_registers(table, block),
        }
    }
}

impl Columns<'_> {
    // The sixteen syndromes of column j: its sums at the roots, by what the generator leaves of it. Its first 192 bytes have
    // passed through register j; the last sixteen are added.
    fn syndromes(&self, j: usize, block: &[u8; BLOCK_SIZE]) -> [u8; OUTER_SIZE]
        requires { (j < column_count) × ColumnDivided block.now self.now.registers j }
        ensures { result ≡ tabulate (syndrome (column_of block.now j)) outer_size }
    {
        let left = self.registers[j].plus_last(&layout::column_end(block, j));
        reedsolomon::syndromes(self.logs, left)
    }
}

// The sums of a column decide: a code column stays, and need not be taken out. Any other goes into the repair by value and
// comes back, as rows do.
impl Words for Columns<'_> {
    ghost axis = { AlongColumns };

    ghost registers = { λ columns. columns.registers };

    fn count(&self) -> usize {
        COLUMN_COUNT
    }

    fn repair(
        &self,
        _erasures: &[u8; BLOCK_SIZE],
        k: usize,
        block: &mut [u8; BLOCK_SIZE],
    ) -> Outcome {
        let syndromes = self.syndromes(k, block);
        if reedsolomon::all_zero(&syndromes) {
            return Outcome::Clean;
        }
        let bytes = layout::column_at(block, k);
        let outcome = Outcome::Clean;
        let column = reedsolomon::correct_column_from(
            self.logs,
            self.table,
            syndromes,
            Column { bytes, outcome },
        );
        layout::store_column(&column.bytes, 0, k, block);
        column.outcome
    }
}
