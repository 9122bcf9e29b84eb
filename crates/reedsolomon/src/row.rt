// The repair of a row of 182 bytes with 10 roots and its marks: the code row that differs in e unmarked bytes, where 2e and
// the marks are at most ten (document 01, 'Reading a word, and the repair'; document 02, request 2).
ghost use Rattle.std.specs.Prelude.{◌≡◌, length};
ghost use Rattle.lists.specs.Fill.{tabulate};
ghost use Rattle.codes.specs.Word.{syndrome};
ghost use Rattle.codes.specs.Erasures.{nearest_erased, outcome_erased};
ghost use Rattle.layout.specs.Lengths.{row_size};

use crate::word::Word;
use codes::{LightOutcome, Outcome};
use field::Logs;
use layout::ROW_SIZE;
use lightrepair::LightRow;
use multiples::Multiples;

pub type Row = Word<ROW_SIZE>;

// The repair of a row whose syndromes are known, over lent tables: of logarithms, and of the generator's multiples. With
// more than ten marks it is past help, whatever its syndromes. Else they decide; where nothing is marked the light repair is
// tried first, since most rows that are not clean have one or two wrong bytes.
pub fn correct_row_from(
    logs: &Logs,
    table: &Multiples<10>,
    erasures: &[u8],
    syndromes: [u8; 10],
    row: Row,
) -> Row
    requires { (length erasures.now ≡ row_size)
        × (syndromes ≡ tabulate (syndrome row.bytes) 10) }
    ensures bytes_value { result.bytes ≡ nearest_erased 10 erasures.now row.bytes }
    ensures outcome_value { result.outcome ≡ outcome_erased 10 erasures.now row.bytes }
{
    let bytes = row.bytes;
    let marked = crate::erasures::count_erasures(erasures);
    if 10 < marked {
        let outcome = Outcome::Uncorrectable;
        return Row { bytes, outcome };
    }
    if syndromes::all_zero(&syndromes) {
        let outcome = Outcome::Clean;
        return Row { bytes, outcome };
    }
    if marked == 0 {
        let outcome = LightOutcome::Heavier;
        let given = LightRow { bytes, outcome };
        let light = lightrepair::correct_light_row_from(logs, syndromes, given);
        if let LightOutcome::Repaired = light.outcome {
            let bytes = light.bytes;
            let outcome = Outcome::Corrected;
            return Row { bytes, outcome };
        }
    }
    crate::word::correct_located(logs, table, erasures, (10 - marked) / 2, syndromes, bytes)
}

// The repair, over lent tables.
pub fn correct_row_with(
    logs: &Logs,
    table: &Multiples<10>,
    erasures: &[u8; ROW_SIZE],
    row: Row,
) -> Row
    ensures bytes_value { result.bytes ≡ nearest_erased 10 erasures.now row.bytes }
    ensures outcome_value { result.outcome ≡ outcome_erased 10 erasures.now row.bytes }
{
    let syndromes = crate::word::word_syndromes(logs, table, row.bytes);
    correct_row_from(logs, table, erasures, syndromes, row)
}

// The repair. There is a mark for each byte: 1 where it is marked, and any other value says that it is not. The outcome that
// comes in does not matter.
pub fn correct_row(erasures: &[u8; ROW_SIZE], row: Row) -> Row
    ensures bytes_value { result.bytes ≡ nearest_erased 10 erasures.now row.bytes }
    ensures outcome_value { result.outcome ≡ outcome_erased 10 erasures.now row.bytes }
{
    let logs = Logs::new();
    let table = Multiples::<10>::new();
    correct_row_with(&logs, &table, erasures, row)
}
