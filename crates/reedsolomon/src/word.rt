// The repair of a word of N bytes with P roots and its marks, be it a row or a column: the code word that differs in e unmarked
// bytes, where 2e and the marks are at most P (document 01, 'Reading a word, and the repair'; document 02, request 2).
ghost use Rattle.std.specs.Prelude.{false, ◌≡◌, ◌+◌, ◌-◌, ◌/◌, ◌<◌, ◌≤◌, length, take};
ghost use Rattle.lists.specs.Fill.{tabulate};
ghost use Rattle.codes.specs.Word.{syndrome, all_zero};
ghost use Rattle.codes.specs.Erasures.{erasure_count, nearest_erased, outcome_erased};
ghost use Rattle.codes.specs.Inner.{at, Places};
ghost use Rattle.reedsolomon.specs.Inner.{Sizes};

use codes::Outcome;
use field::Logs;
use multiples::Multiples;

// A word and what became of it. It goes in by value and its tally comes back with it (document 01).
#[derive(Clone, Copy, PartialEq, Eq, Debug)]
pub struct Word<const N: usize> {
    pub bytes: [u8; N],
    pub outcome: Outcome,
}

// The syndromes of a word: its sums at the roots (document 01). They decide whether it is a code word.
pub(crate) fn word_syndromes<const N: usize, const P: usize>(
    logs: &Logs,
    table: &Multiples<P>,
    bytes: [u8; N],
) -> [u8; P]
    requires { Sizes N P }
    ensures { result ≡ tabulate (syndrome bytes.entry) P }
{
    syndromes::syndromes(logs, division::remainder_of(table, &bytes))
}

// The places at which errors may stand: those marked, and those located beside them, of which there are at most `reach`; how
// many there are.
fn find_places<const P: usize>(
    logs: &Logs,
    erasures: &[u8],
    reach: usize,
    syndromes: [u8; P],
    places: &mut [u8; P],
) -> usize
    requires { (0 < P)
        × (P ≤ 16)
        × (length erasures.now ≤ 255)
        × (reach + reach + erasure_count erasures.now (length erasures.now) ≤ P) }
    ensures upper_bound { result ≤ P }
    ensures places { Places (at syndromes.entry) reach erasures.now (take result places.new) }
{
    let mut rest = syndromes;
    crate::erasures::take_out_erased(logs, erasures, &mut rest);
    let mut pivots = [0u8; 72];
    let mut locator = [0u8; 9];
    let end = reach + 1;
    let degree = crate::locate::locate(
        logs,
        &rest,
        &mut pivots[..reach * end],
        &mut locator[..end],
    );
    crate::search::search(logs, &locator[..degree + 1], erasures, places)
}

// The repair by locator and search, of a word whose syndromes are not all 0 and of which at most P bytes are marked. The
// syndromes of the mended word decide.
pub(crate) fn correct_located<const N: usize, const P: usize>(
    logs: &Logs,
    table: &Multiples<P>,
    erasures: &[u8],
    reach: usize,
    syndromes: [u8; P],
    bytes: [u8; N],
) -> Word<N>
    requires sizes { Sizes N P }
    requires marks { length erasures.now ≡ N }
    requires few { erasure_count erasures.now N ≤ P }
    requires reach { reach ≡ (P - erasure_count erasures.now N) / 2 }
    requires syndromes { syndromes ≡ tabulate (syndrome bytes) P }
    requires dirty { all_zero syndromes ≡ false }
    ensures bytes_value { result.bytes ≡ nearest_erased P erasures.now bytes.entry }
    ensures outcome_value { result.outcome ≡ outcome_erased P erasures.now bytes.entry }
{
    let mut places = [0u8; P];
    let count = find_places(logs, erasures, reach, syndromes, &mut places);
    let near = crate::mend::mend(logs, bytes, syndromes, &places[..count]);
    let again = word_syndromes(logs, table, near);
    if syndromes::all_zero(&again) {
        return Word {
            bytes: near,
            outcome: Outcome::Corrected,
        };
    }
    Word {
        bytes,
        outcome: Outcome::Uncorrectable,
    }
}
