// Comparisons of what came out with what was due.
ghost use Rattle.std.specs.Prelude.{◌≤◌, length};

use annexg::CodeWords;
use layout::{BLOCK_SIZE, FRAME_BYTES, FRAME_HALVES};

// In how many bytes two words differ, up to the shorter one's end.
pub(crate) fn differing(a: &[u8], b: &[u8]) -> usize
    ensures { result ≤ length a.now }
{
    a.iter().zip(b).filter(|(x, y)| x != y).count()
}

// Half word k of a stream, or `after` past its end.
fn half_or(stream: &[u8], k: usize, after: u16) -> u16
    requires { k ≤ 40001 }
{
    if stream.len() < 2 * k + 2 {
        return after;
    }
    octets::half_at(stream, k)
}

// How many bytes of a block or a sector are read back from its stream, each at its place: 91 Code Words after each SYNC Code.
pub(crate) fn read_back(stream: &[u8], bytes: &[u8], after: u16) -> usize
    ensures { result ≤ length bytes.now }
{
    if BLOCK_SIZE < bytes.len() {
        return 0;
    }
    let words = CodeWords::new();
    let mut n = 0;
    for (i, b) in bytes.iter().enumerate() {
        let k = i / FRAME_BYTES * FRAME_HALVES + 2 + i % FRAME_BYTES;
        let reading = words.read(half_or(stream, k, after), half_or(stream, k + 1, after));
        n += usize::from(reading == Some(*b));
    }
    n
}
