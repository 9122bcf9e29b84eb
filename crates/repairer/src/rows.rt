// A row of a block: its sums at the roots, and in its place the one code row that differs from it in e unmarked bytes, where
// 2e and its marks are at most ten.
ghost use Rattle.std.specs.Prelude.{◌≡◌, ◌<◌, []};
ghost use Rattle.lists.specs.Fill.{tabulate};
ghost use Rattle.codes.specs.Word.{syndrome};
ghost use Rattle.layout.specs.Lengths.{row_count, inner_size};
ghost use Rattle.layout.specs.Rows.{row_of};
ghost use Rattle.repairer.specs.Inner.{Rows as AlongRows};

use crate::words::Words;
use codes::Outcome;
use field::Logs;
use layout::{BLOCK_SIZE, INNER_SIZE, ROW_COUNT, ROW_SIZE};
use multiples::Multiples;
use reedsolomon::Row;

#[derive(Clone, Copy)]
pub(crate) struct Rows<'a> {
    pub logs: &'a Logs,
    pub table: &'a Multiples<10>,
}

impl Rows<'_> {
    // The ten syndromes of row q: its sums at the roots (document 01), by what the generator leaves of it.
    fn syndromes(&self, q: usize, block: &[u8; BLOCK_SIZE]) -> [u8; INNER_SIZE]
        requires { q < row_count }
        ensures { result ≡ tabulate (syndrome (row_of block.now q)) inner_size }
    {
        let at = q * ROW_SIZE;
        let end = at + ROW_SIZE;
        reedsolomon::syndromes(
            self.logs,
            division::remainder_of(self.table, &block[at..end]),
        )
    }
}

// A row is divided in its turn. Its sums and its marks decide: a code row with at most ten marks stays, and need not be taken
// out. Any other goes into the repair by value and its tally comes back with it (document 01).
impl Words for Rows<'_> {
    ghost axis = { AlongRows };

    ghost registers = { λ _. [] };

    fn count(&self) -> usize {
        ROW_COUNT
    }

    fn repair(
        &self,
        erasures: &[u8; BLOCK_SIZE],
        k: usize,
        block: &mut [u8; BLOCK_SIZE],
    ) -> Outcome {
        let syndromes = self.syndromes(k, block);
        let marks = layout::row_at(erasures, k);
        if reedsolomon::count_erasures(&marks) <= INNER_SIZE && reedsolomon::all_zero(&syndromes) {
            return Outcome::Clean;
        }
        let bytes = layout::row_at(block, k);
        let outcome = Outcome::Clean;
        let row = reedsolomon::correct_row_from(
            self.logs,
            self.table,
            &marks,
            syndromes,
            Row { bytes, outcome },
        );
        octets::put(block, k * ROW_SIZE, &row.bytes);
        row.outcome
    }
}
