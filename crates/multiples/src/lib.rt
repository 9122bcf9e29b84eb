// The multiples of the generators of the inner and the outer code (ECMA-268, clause 18), as tables for long division.
#![tactic(auto)]

ghost use Rattle.std.specs.Prelude.{◌≡◌, ◌≤◌};
ghost use Rattle.multiples.specs.Inner.{multiples};

mod table;

// The multiples of the generator with P roots. A register of long division has room for 16 places.
#[derive(Clone, Copy)]
pub struct Multiples<const P: usize> {
    pub table: [u64; 512],
    pub ghost sound: { table ≡ multiples P },
    pub ghost fits: { P ≤ 16 },
}

// Of the inner code.
impl Multiples<10> {
    pub fn new() -> Multiples<10> {
        Multiples {
            table: table::TEN_ROOTS,
        }
    }
}

// Of the outer code.
impl Multiples<16> {
    pub fn new() -> Multiples<16> {
        Multiples {
            table: table::SIXTEEN_ROOTS,
        }
    }
}
