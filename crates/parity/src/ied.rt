// IED, the two parity bytes of an ID of four bytes (ECMA-268, 16.2), by long division byte by byte over a lent table of logarithms.
ghost use Rattle.std.specs.Prelude.{◌≡◌};
ghost use Rattle.codes.specs.Parity.{shift_in, generator_tail, parity};

use field::Logs;

// The generator without its first coefficient, which is 1.
const GENERATOR2: [u8; 2] = [3, 2];

// One byte more of a word: the register moves up by one place.
fn shift_in(logs: &Logs, register: &mut [u8; 2], b: u8)
    ensures { register.new ≡ shift_in (generator_tail 2) register.old b }
{
    let [first, second] = GENERATOR2;
    let h = b ^ register[0];
    register[0] = register[1] ^ logs.product(h, first);
    register[1] = logs.product(h, second);
}

// The two parity bytes of a word of any length, over a lent table.
pub fn parity2_with(logs: &Logs, d: &[u8]) -> [u8; 2]
    ensures { result ≡ parity 2 d.now }
{
    let mut register = [0u8; 2];
    for b in d {
        shift_in(logs, &mut register, *b);
    }
    register
}

// IED of an ID (16.2).
pub fn parity2(d: &[u8; 4]) -> [u8; 2]
    ensures { result ≡ parity 2 d.now }
{
    parity2_with(&Logs::new(), d)
}
