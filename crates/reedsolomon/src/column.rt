// The repair of a column of 208 bytes with 16 roots: the nearest code column within eight bytes
// (document 01, 'Reading a word, and the repair').
ghost use Rattle.std.specs.Prelude.{◌≡◌};
ghost use Rattle.lists.specs.Fill.{tabulate};
ghost use Rattle.codes.specs.Word.{syndrome};
ghost use Rattle.codes.specs.Nearest.{nearest, outcome_of};

use crate::word::Word;
use codes::Outcome;
use field::Logs;
use layout::ROW_COUNT;
use multiples::Multiples;

pub type Column = Word<ROW_COUNT>;

// The repair of a column whose syndromes are known, over lent tables: of logarithms, and of the generator's multiples. The
// syndromes decide, before and after mending. No byte of a column is marked.
pub fn correct_column_from(
    logs: &Logs,
    table: &Multiples<16>,
    syndromes: [u8; 16],
    column: Column,
) -> Column
    requires { syndromes ≡ tabulate (syndrome column.bytes) 16 }
    ensures bytes_value { result.bytes ≡ nearest 16 8 column.bytes }
    ensures outcome_value { result.outcome ≡ outcome_of 16 8 column.bytes }
{
    let bytes = column.bytes;
    if syndromes::all_zero(&syndromes) {
        return Column {
            bytes,
            outcome: Outcome::Clean,
        };
    }
    let unmarked = [0u8; ROW_COUNT];
    crate::word::correct_located(logs, table, &unmarked, 8, syndromes, bytes)
}

// The repair, over lent tables.
pub fn correct_column_with(logs: &Logs, table: &Multiples<16>, column: Column) -> Column
    ensures bytes_value { result.bytes ≡ nearest 16 8 column.bytes }
    ensures outcome_value { result.outcome ≡ outcome_of 16 8 column.bytes }
{
    let syndromes = crate::word::word_syndromes(logs, table, column.bytes);
    correct_column_from(logs, table, syndromes, column)
}

// The repair. The outcome that comes in does not matter.
pub fn correct_column(column: Column) -> Column
    ensures bytes_value { result.bytes ≡ nearest 16 8 column.bytes }
    ensures outcome_value { result.outcome ≡ outcome_of 16 8 column.bytes }
{
    let logs = Logs::new();
    let table = Multiples::<16>::new();
    correct_column_with(&logs, &table, column)
}
