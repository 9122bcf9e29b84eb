// What is left of a received word by the generator: ZERO exactly where it is a code word, and else all that the repair
// needs to know of it.
ghost use Rattle.std.specs.Prelude.{◌&&◌, ◌≡◌, ◌≤◌, eqb, length, get_or};
ghost use Rattle.field.specs.Field.{add};
ghost use Rattle.multiples.specs.Inner.{bytes_as_number, high, low};
ghost use Rattle.division.specs.Inner.{packed, remainder_of};

use crate::register::Remainder;
use multiples::Multiples;

// A byte; 0 past the end.
fn place(bytes: &[u8], k: usize) -> u64
    ensures { result ≡ get_or bytes.now k 0 }
{
    bytes.get(k).map_or(0, |b| u64::from(*b))
}

// Eight bytes from place a on as one number.
fn eight(bytes: &[u8], a: usize) -> u64
    requires { a ≤ 8 }
    ensures { result ≡ bytes_as_number (λ i. get_or bytes.now i 0) a 8 }
{
    let mut x: u64 = 0;
    for i in 0..8 {
        x = x * 256 + place(bytes, a + i);
    }
    x
}

impl Remainder {
    // The last bytes of a word, at most sixteen, added to what its other bytes leave.
    pub fn plus_last(self, last: &[u8]) -> Remainder
        ensures high_value { result.high ≡ add self.high (high last.now) }
        ensures low_value { result.low ≡ add self.low (low last.now) }
    {
        Remainder {
            high: self.high ^ eight(last, 0),
            low: self.low ^ eight(last, 8),
        }
    }

    // The register is zeros.
    pub fn is_zero(self) -> bool
        ensures { result ≡ (eqb self.high 0 && eqb self.low 0) }
    {
        self.high == 0 && self.low == 0
    }
}

// The parity of all but the last P bytes, and the last P bytes added to it.
pub fn remainder_of<const P: usize>(table: &Multiples<P>, word: &[u8]) -> Remainder
    requires { P ≤ length word.now }
    ensures { result ≡ packed (remainder_of P word.now) }
{
    let n = word.len() - P;
    crate::register::divide(table, &word[..n]).plus_last(&word[n..])
}
