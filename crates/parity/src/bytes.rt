// Parity bytes by long division (ECMA-268, 16.2 and clause 18; document 01, 'The block'). The tables are lent, so that no row makes them anew.
ghost use Rattle.std.specs.Prelude.{◌≡◌, ◌≤◌, take};
ghost use Rattle.codes.specs.Parity.{parity};
ghost use Rattle.division.specs.Inner.{unpacked};

use division::Remainder;
use layout::{COLUMN_COUNT, DATA_ROWS};
use multiples::Multiples;

// The first P bytes of a register.
pub fn unpack<const P: usize>(register: Remainder) -> [u8; P]
    requires { P ≤ 16 }
    ensures { result ≡ take P (unpacked register) }
{
    let mut all = [0u8; 16];
    all[..8].copy_from_slice(&register.high.to_be_bytes());
    all[8..].copy_from_slice(&register.low.to_be_bytes());
    let mut bytes = [0u8; P];
    bytes.copy_from_slice(&all[..P]);
    bytes
}

// The P parity bytes of a word of any length, over a lent table: 10 (inner parity) or 16 (outer parity).
pub fn parity<const P: usize>(table: &Multiples<P>, d: &[u8]) -> [u8; P]
    ensures { result ≡ parity P d.now }
{
    let left = division::divide(table, d);
    unpack(left)
}

// The inner parity of a row (clause 18).
pub fn parity10(d: &[u8; COLUMN_COUNT]) -> [u8; 10]
    ensures { result ≡ parity 10 d.now }
{
    parity(&Multiples::<10>::new(), d)
}

// The outer parity of a column (clause 18).
pub fn parity16(d: &[u8; DATA_ROWS]) -> [u8; 16]
    ensures { result ≡ parity 16 d.now }
{
    parity(&Multiples::<16>::new(), d)
}
