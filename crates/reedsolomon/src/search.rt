// The search for the places at which errors may stand. A place is counted from the end of the word: place k has the locator
// α^k.
ghost use Rattle.std.specs.Prelude.{◌≡◌, ◌||◌, ◌+◌, ◌≤◌, eqb, length, take};
ghost use Rattle.codes.specs.Erasures.{erasure_count};
ghost use Rattle.codes.specs.Inner.{poly_at, NonZero, is_root, is_suspect, places_where};

use field::Logs;

// The value of a polynomial, lowest coefficient first.
fn poly_value(logs: &Logs, polynomial: &[u8], x: u8) -> u8
    ensures { result ≡ poly_at polynomial.now x }
{
    polynomial
        .iter()
        .rev()
        .fold(0, |v, c| *c ^ logs.product(x, v))
}

// Whether an error may stand at place k: its byte is marked, or its locator is a root of the locator polynomial.
fn is_suspect(logs: &Logs, locator: &[u8], mark: u8, k: u8) -> bool
    ensures { result ≡ (eqb mark 1 || is_root locator.now k) }
{
    mark == 1 || poly_value(logs, locator, logs.alpha_power(k)) == 0
}

// The places of a word at which an error may stand, highest first; how many there are. There is a mark for each byte of the word.
pub(crate) fn search(logs: &Logs, locator: &[u8], erasures: &[u8], places: &mut [u8]) -> usize
    requires { (length erasures.now ≤ 255)
        × NonZero locator.now
        × (erasure_count erasures.now (length erasures.now) + length locator.now
        ≤ length places.old + 1) }
    ensures upper_bound { result ≤ length places.old }
    ensures places_after { take result places.new
        ≡ places_where (is_suspect erasures.now locator.now)
        (length erasures.now) }
{
    let mut count: usize = 0;
    for (i, mark) in erasures.iter().enumerate() {
        let k = (erasures.len() - 1 - i) as u8;
        if is_suspect(logs, locator, *mark, k) {
            places[count] = k;
            count += 1;
        }
    }
    count
}
