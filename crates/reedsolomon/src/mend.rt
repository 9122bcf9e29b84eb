// The values of the errors, and the word without them.
ghost use Rattle.std.specs.Prelude.{◌≡◌, ◌<◌, length};
ghost use Rattle.lists.specs.Fill.{tabulate};
ghost use Rattle.codes.specs.Inner.{at, without, error_value, AllBelow, mended};

use field::Logs;

// The error with the locator x drops out of the syndromes: each becomes the next one and x times itself.
pub(crate) fn take_out(logs: &Logs, syndromes: &mut [u8], x: u8)
    requires { 0 < length syndromes.old }
    ensures { syndromes.new
        ≡ tabulate (without x (at syndromes.old)) (length syndromes.old) }
{
    let last = syndromes.len() - 1;
    for i in 0..last {
        syndromes[i] = syndromes[i + 1] ^ logs.product(x, syndromes[i]);
    }
    syndromes[last] = logs.product(x, syndromes[last]);
}

// The value of error j of the places.
fn error_value<const P: usize>(logs: &Logs, syndromes: [u8; P], places: &[u8], j: usize) -> u8
    requires { (0 < P) × (j < length places.now) }
    ensures { result ≡ error_value (at syndromes.entry) places.now j }
{
    let mut rest = syndromes;
    let x = logs.alpha_power(places[j]);
    let mut d: u8 = 1;
    for (l, place) in places.iter().enumerate() {
        if l != j {
            let y = logs.alpha_power(*place);
            take_out(logs, &mut rest, y);
            d = logs.product(d, x ^ y);
        }
    }
    logs.quotient(rest[0], d)
}

// A word with these syndromes, without the errors at the places.
pub(crate) fn mend<const N: usize, const P: usize>(
    logs: &Logs,
    mut bytes: [u8; N],
    syndromes: [u8; P],
    places: &[u8],
) -> [u8; N]
    requires { (0 < P) × AllBelow N places.now }
    ensures { result ≡ mended (at syndromes.entry) places.now bytes.entry }
{
    for (j, place) in places.iter().enumerate() {
        bytes[N - 1 - usize::from(*place)] ^= error_value(logs, syndromes, places, j);
    }
    bytes
}
