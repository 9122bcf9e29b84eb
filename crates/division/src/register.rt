// Long division by the generators of the inner and the outer code (ECMA-268, clause 18), the register packed in two numbers: one byte of a word takes two
// shifts and one pair of a lent table.
ghost use Rattle.std.specs.Prelude.{◌≡◌, List, ℕ, length, get_or};
ghost use Rattle.codes.specs.Parity.{shift_in, generator_tail, parity};
ghost use Rattle.division.specs.Inner.{Packed, packed, unpacked, beside, register_at};

use multiples::Multiples;

// A register of long division, and what it holds in the end: its first eight places, and the last eight.
#[derive(Clone, Copy, PartialEq, Eq, Debug)]
pub struct Remainder {
    pub high: u64,
    pub low: u64,
}

// 2^56: the place of the first byte in a number of eight bytes.
const TOP: u64 = 0x100000000000000;

impl Remainder {
    // The register after one byte more: moved up by one place, with the multiple that the sum of the byte and what falls out takes. With sixteen places any
    // two numbers are a register.
    fn next<const P: usize>(self, table: &Multiples<P>, b: u8) -> Remainder
        ensures of_register { (x : List ℕ)
            → Packed P x self
            → Packed P (shift_in (generator_tail P) x b) result }
        ensures of_sixteen { P ≡ 16
            → result ≡ packed (shift_in (generator_tail P) (unpacked self) b) }
    {
        let e = 2 * ((u64::from(b) ^ (self.high / TOP)) as usize);
        Remainder {
            high: ((self.high % TOP) * 256 + self.low / TOP) ^ table.table[e],
            low: ((self.low % TOP) * 256) ^ table.table[e + 1],
        }
    }
}

// The remainder of a word by the generator with P roots.
pub fn divide<const P: usize>(table: &Multiples<P>, d: &[u8]) -> Remainder
    ensures { result ≡ packed (parity P d.now) }
{
    let mut left = Remainder { high: 0, low: 0 };
    for b in d {
        left = left.next(table, *b);
    }
    left
}

// One byte more for each of the registers of sixteen bytes side by side: register j takes byte j of the row.
pub fn shift_row(table: &Multiples<16>, row: &[u8], registers: &mut [Remainder])
    requires { length registers.old ≡ length row.now }
    ensures { registers.new
        ≡ beside
        (λ j. shift_in (generator_tail 16) (register_at registers.old j) (get_or row.now j 0))
        (length row.now) }
{
    for (j, b) in row.iter().enumerate() {
        registers[j] = registers[j].next(table, *b);
    }
}
