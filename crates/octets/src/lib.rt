// Bytes in buffers: the copy, half words of 16 bits, single bits. Most of the other crates that move bytes go through these.
#![tactic(auto)]

ghost use Rattle.std.specs.Prelude.{◌≡◌, ◌+◌, ◌*◌, ◌%◌, ◌<◌, ◌≤◌, length};
ghost use Rattle.std.proofs.lemmas.List.Edits.{sets};
ghost use Rattle.lists.specs.Count.{bit};
ghost use Rattle.octets.specs.Halves.{half_at, bit_at, bits_at, put_half};

// All of `from` into `to`, from the place `at` on.
pub fn put(to: &mut [u8], at: usize, from: &[u8])
    requires { at + length from.now ≤ length to.old }
    ensures { to.new ≡ sets to.old at from.now }
{
    let end = at + from.len();
    to[at..end].copy_from_slice(from);
}

// Half word k of a stream, first byte high.
pub fn half_at(stream: &[u8], k: usize) -> u16
    requires { 2 * k + 2 ≤ length stream.now }
    ensures { result ≡ half_at stream.now k }
{
    u16::from_be_bytes([stream[2 * k], stream[2 * k + 1]])
}

// The two bytes of a half word, first byte high.
pub fn put_half(to: &mut [u8], at: usize, half: u16)
    requires { at + 1 < length to.old }
    ensures { to.new ≡ put_half to.old at half }
{
    let [high, low] = half.to_be_bytes();
    to[at] = high;
    to[at + 1] = low;
}

// Bit j of a stream, first bit highest.
pub fn bit_at(stream: &[u8], j: usize) -> bool
    requires { j < 8 * length stream.now }
    ensures { bit result ≡ bit_at stream.now j }
{
    let k = j / 8;
    let n = (7 - j % 8) as u8;
    (stream[k] >> n) % 2 == 1
}

// The 16 bits from bit 8 · byte + offset on, first bit highest. They reach into a third byte where they do not start with one.
pub fn half_at_bit(stream: &[u8], byte: usize, offset: usize) -> u16
    requires offset_bound { offset < 8 }
    requires offset_bound_2 { 8 * byte + offset + 16 ≤ 8 * length stream.now }
    ensures { result ≡ bits_at stream.now (8 * byte + offset) 16 }
{
    let last = byte + (offset + 15) / 8;
    let three = u32::from_be_bytes([0, stream[byte], stream[byte + 1], stream[last]]);
    let n = 8 - offset as u32;
    ((three >> n) % 65536) as u16
}
