// The error locator: a polynomial, lowest coefficient first, that satisfies the key equations of the syndromes. Of 1, x,
// x^2, .. the first is taken that does so once multiples of those before it are added; one that cannot is kept, as the
// pivot of the first equation it fails.
ghost use Rattle.std.specs.Prelude.{◌≡◌, ℕ, ◌+◌, ◌-◌, ◌*◌, ◌<◌, ◌≤◌, length, take, replicate};
ghost use Rattle.lists.specs.Bytes.{Bytes};
ghost use Rattle.codes.specs.Inner.{at, dot, mix, unit, Locator, Pivots, Candidate, Cleared};

use field::Logs;

// p 0 * S i + p 1 * S (i + 1) + .. over the coefficients p and the syndromes S: 0 where key equation i holds of the polynomial.
fn equation(logs: &Logs, polynomial: &[u8], syndromes: &[u8], i: usize) -> u8
    requires { i + length polynomial.now ≤ length syndromes.now }
    ensures { result ≡ dot polynomial.now (at syndromes.now) i }
{
    let mut sum: u8 = 0;
    for (j, p) in polynomial.iter().enumerate() {
        sum ^= logs.product(*p, syndromes[i + j]);
    }
    sum
}

// A multiple of the pivot, added to the candidate.
fn add_multiple(logs: &Logs, factor: u8, pivot: &[u8], candidate: &mut [u8])
    requires { length pivot.now ≡ length candidate.old }
    ensures { candidate.new ≡ mix factor pivot.now candidate.old }
{
    for (j, p) in pivot.iter().enumerate() {
        candidate[j] ^= logs.product(factor, *p);
    }
}

// x^k.
fn set_unit(candidate: &mut [u8], k: usize)
    requires { k < length candidate.old }
    ensures { candidate.new ≡ unit (length candidate.old) k }
{
    candidate.fill(0);
    candidate[k] = 1;
}

// Equation i: true where it holds of the candidate, with a multiple of the equation's pivot added if need be; false where the candidate
// became its pivot.
fn clear_equation(
    logs: &Logs,
    syndromes: &[u8],
    pivots: &mut [u8],
    candidate: &mut [u8],
    i: usize,
) -> bool
    requires { (i * length candidate.old + length candidate.old ≤ length pivots.old)
        × (i + length candidate.old ≤ length syndromes.now) }
    ensures { (e k : ℕ)
        → i < e
        → Pivots (at syndromes.now) e (length candidate.old) k pivots.old
        → Candidate (at syndromes.now) (length candidate.old) k i candidate.old
        → Cleared (at syndromes.now) e (length candidate.old) k (i + 1)
        pivots.old pivots.new candidate.new result }
{
    let d = equation(logs, candidate, syndromes, i);
    if d == 0 {
        return true;
    }
    let a = i * candidate.len();
    let end = a + candidate.len();
    let e = equation(logs, &pivots[a..end], syndromes, i);
    if e == 0 {
        pivots[a..end].copy_from_slice(candidate);
        return false;
    }
    let f = logs.quotient(d, e);
    add_multiple(logs, f, &pivots[a..end], candidate);
    true
}

// The equations in turn: true where all hold of the candidate, false where it became a pivot.
fn clear_equations(logs: &Logs, syndromes: &[u8], pivots: &mut [u8], candidate: &mut [u8]) -> bool
    requires { (0 < length candidate.old)
        × (length pivots.old ≡ (length candidate.old - 1) * length candidate.old)
        × (length candidate.old + length candidate.old ≤ length syndromes.now + 2) }
    ensures { (k : ℕ)
        → Pivots (at syndromes.now) (length candidate.old - 1)
        (length candidate.old) k pivots.old
        → Candidate (at syndromes.now) (length candidate.old) k 0 candidate.old
        → Cleared (at syndromes.now) (length candidate.old - 1)
        (length candidate.old) k (length candidate.old - 1) pivots.old
        pivots.new candidate.new result }
{
    for i in 0..candidate.len() - 1 {
        if !clear_equation(logs, syndromes, pivots, candidate, i) {
            return false;
        }
    }
    true
}

// A locator for the syndromes, and its degree: what stands in the buffer as far as there. `pivots` is scratch, filled with zeros.
pub(crate) fn locate(logs: &Logs, syndromes: &[u8], pivots: &mut [u8], locator: &mut [u8]) -> usize
    requires { (0 < length locator.old)
        × (pivots.old ≡ replicate ((length locator.old - 1) * length locator.old) 0)
        × (length locator.old + length locator.old ≤ length syndromes.now + 2) }
    ensures upper_bound { result < length locator.old }
    ensures bytes { Bytes locator.new }
    ensures locator { Locator (at syndromes.now) (length locator.old - 1)
        (take (result + 1) locator.new) }
{
    for k in 0..locator.len() {
        set_unit(locator, k);
        if clear_equations(logs, syndromes, pivots, locator) {
            return k;
        }
    }
    0
}
