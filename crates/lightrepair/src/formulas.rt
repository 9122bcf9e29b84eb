// From the ten sums S0 .. S9 of a row to its wrong bytes. A wrong byte has a place, how many bytes stand after it, and a value,
// what was added to it. The byte at place k has the locator α^k, and wrong bytes u at X, v at Y have the sums
//     S_i = u X^i + v Y^i.
// One function for each case: no wrong byte, one, two.
ghost use Rattle.std.specs.Prelude.{true, ◌≡◌, ◌<◌, [], ◌∷◌, MatchOption};
ghost use Rattle.field.specs.Field.{pow};
ghost use Rattle.codes.specs.Word.{all_zero};
ghost use Rattle.codes.specs.Inner.{at, follows, is_locator, determinant, cramer_a, cramer_b, Explains, Unexplained};
ghost use Rattle.layout.specs.Lengths.{row_size, inner_size};
ghost use Rattle.lightrepair.specs.Inner.{wrong_bytes, FirstBelow, NoRoots, Heavier};

use codes::WrongByte;
use field::Logs;
use layout::{INNER_SIZE, ROW_SIZE};

// The wrong bytes that explain the sums.
#[derive(Clone, Copy, PartialEq, Eq, Debug)]
pub enum Errors {
    None,
    One(WrongByte),
    Two(WrongByte, WrongByte),
}

// The locators are the roots of x² + a x + b.
#[derive(Clone, Copy, PartialEq, Eq, Debug)]
struct Quadratic {
    a: u8,
    b: u8,
}

// No wrong byte: every sum is 0.
fn no_error(sums: [u8; INNER_SIZE]) -> bool
    ensures { result ≡ all_zero sums }
{
    syndromes::all_zero(&sums)
}

// Whether each sum from the third on is
//     S_{i+2} = a S_{i+1} + b S_i,
// as it is where every locator is a root of x² + a x + b.
fn sums_follow(logs: &Logs, sums: [u8; INNER_SIZE], a: u8, b: u8) -> bool
    ensures { result ≡ follows (at sums) inner_size a b }
{
    for i in 0..INNER_SIZE - 2 {
        let due = logs.product(a, sums[i + 1]) ^ logs.product(b, sums[i]);
        if sums[i + 2] != due {
            return false;
        }
    }
    true
}

// One wrong byte, v at X: the sums are v, v X, v X², .., so that
//     v = S0,   X = S1 / S0,
// and each is X times the one before it. X = α^k is the locator of place k, if the row has such a place.
fn one_error(logs: &Logs, sums: [u8; INNER_SIZE]) -> Option<WrongByte>
    ensures { MatchOption result (Unexplained (at sums) inner_size row_size 1)
        (λ e. Explains (at sums) inner_size row_size (e ∷ [])) }
{
    let value = sums[0];
    if value == 0 || sums[1] == 0 {
        return None;
    }
    let x = logs.quotient(sums[1], value);
    if !sums_follow(logs, sums, x, 0) {
        return None;
    }
    let place = logs.logarithm(x);
    if ROW_SIZE <= usize::from(place) {
        return None;
    }
    Some(WrongByte { place, value })
}

// The two-by-two equations of a and b,
//     a S1 + b S0 = S2
//     a S2 + b S1 = S3.
// Their determinant is d = S1² + S0 S2,
fn equations_determinant(logs: &Logs, sums: [u8; INNER_SIZE]) -> u8
    ensures { result ≡ determinant (at sums) }
{
    logs.product(sums[1], sums[1]) ^ logs.product(sums[0], sums[2])
}

// and where it is not 0, by Cramer's rule
//     a = (S1 S2 + S0 S3) / d,   b = (S2² + S1 S3) / d.
fn equations_solved(logs: &Logs, sums: [u8; INNER_SIZE], d: u8) -> Quadratic
    requires { d ≡ determinant (at sums) }
    ensures { (result.a ≡ cramer_a (at sums)) × (result.b ≡ cramer_b (at sums)) }
{
    let top = logs.product(sums[1], sums[2]) ^ logs.product(sums[0], sums[3]);
    let end = logs.product(sums[2], sums[2]) ^ logs.product(sums[1], sums[3]);
    Quadratic {
        a: logs.quotient(top, d),
        b: logs.quotient(end, d),
    }
}

// The roots of x² + a x + b, tried place by place from the row's last byte on: the first place whose locator x has
//     x (x + a) = b.
fn first_root(logs: &Logs, a: u8, b: u8) -> Option<u8>
    ensures { FirstBelow (λ k. is_locator a b (pow 2 k)) row_size result }
{
    for k in 0..ROW_SIZE as u8 {
        let x = logs.alpha_power(k);
        if logs.product(x, x ^ a) == b {
            return Some(k);
        }
    }
    None
}

// The places and the values of two wrong bytes, u at X and v at Y, where X and Y are the roots of x² + a x + b. The first root
// that is found is X, and Y = X + a, since a = X + Y. Then
//     u + v = S0
//     u X + v Y = S1
// give v = (S1 + X S0) / (X + Y) and u = S0 + v.
fn two_places(logs: &Logs, sums: [u8; INNER_SIZE], a: u8, b: u8) -> Option<(WrongByte, WrongByte)>
    requires { (0 < a) × (0 < b) × (follows (at sums) inner_size a b ≡ true) }
    ensures { MatchOption result (NoRoots a b row_size)
        (λ e. Explains (at sums) inner_size row_size (e.0 ∷ e.1 ∷ [])) }
{
    let place = first_root(logs, a, b)?;
    let x = logs.alpha_power(place);
    let y = x ^ a;
    let other = logs.logarithm(y);
    if ROW_SIZE <= usize::from(other) {
        return None;
    }
    let v = logs.quotient(sums[1] ^ logs.product(x, sums[0]), x ^ y);
    let u = sums[0] ^ v;
    let first = WrongByte { place, value: u };
    let second = WrongByte {
        place: other,
        value: v,
    };
    Some((first, second))
}

// Two wrong bytes, u at X and v at Y: X and Y are the roots of x² + a x + b with
//     a = X + Y,   b = X Y.
// So a is not 0, else X = Y, and b is not 0, since no locator is.
fn two_errors(logs: &Logs, sums: [u8; INNER_SIZE]) -> Option<(WrongByte, WrongByte)>
    ensures { MatchOption result (Unexplained (at sums) inner_size row_size 2)
        (λ e. Explains (at sums) inner_size row_size (e.0 ∷ e.1 ∷ [])) }
{
    let d = equations_determinant(logs, sums);
    if d == 0 {
        return None;
    }
    let Quadratic { a, b } = equations_solved(logs, sums, d);
    if a == 0 || b == 0 || !sums_follow(logs, sums, a, b) {
        return None;
    }
    two_places(logs, sums, a, b)
}

// The wrong bytes of a row with these sums, no more than there have to be: none where these formulas do not explain them.
pub(crate) fn find_errors(logs: &Logs, sums: [u8; INNER_SIZE]) -> Option<Errors>
    ensures { MatchOption result (Heavier (at sums) inner_size row_size)
        (λ e. Explains (at sums) inner_size row_size (wrong_bytes e)) }
{
    if no_error(sums) {
        return Some(Errors::None);
    }
    if let Some(wrong) = one_error(logs, sums) {
        return Some(Errors::One(wrong));
    }
    let (first, second) = two_errors(logs, sums)?;
    Some(Errors::Two(first, second))
}
