// The syndromes of a word (document 01: its sums at the roots), over words of any length and any number of roots: each by itself, as the value at a root, and
// those of what the generator leaves of a word, which are the word's own.
#![tactic(auto)]

ghost use Rattle.std.specs.Prelude.{◌≡◌, ◌≤◌, length, take};
ghost use Rattle.lists.specs.Fill.{tabulate};
ghost use Rattle.codes.specs.Word.{value_at, syndrome, all_zero};
ghost use Rattle.division.specs.Inner.{unpacked};

use division::Remainder;
use field::Logs;

// The value of a word at x.
fn value_of(logs: &Logs, word: &[u8], x: u8) -> u8
    ensures { result ≡ value_at word.now x }
{
    let mut v: u8 = 0;
    for b in word {
        v = logs.product(v, x) ^ *b;
    }
    v
}

// The syndromes of a word, as many as `out` has places.
pub fn syndromes_into(logs: &Logs, word: &[u8], out: &mut [u8])
    requires { length out.old ≤ 255 }
    ensures { out.new ≡ tabulate (syndrome word.now) (length out.old) }
{
    for (k, sum) in out.iter_mut().enumerate() {
        *sum = value_of(logs, word, logs.alpha_power(k as u8));
    }
}

// Whether all are 0. Of the syndromes of a word: whether it is a code word.
pub fn all_zero(syndromes: &[u8]) -> bool
    ensures { result ≡ all_zero syndromes.now }
{
    syndromes.iter().all(|sum| *sum == 0)
}

// The syndromes of what is left of a word by the generator with P roots, which are the word's own. Where nothing is left they are zeros, at once.
pub fn syndromes<const P: usize>(logs: &Logs, left: Remainder) -> [u8; P]
    requires { P ≤ 16 }
    ensures { result ≡ tabulate (syndrome (take P (unpacked left))) P }
{
    let mut out = [0u8; P];
    if left.is_zero() {
        return out;
    }
    syndromes_into(logs, &parity::unpack::<P>(left), &mut out);
    out
}
