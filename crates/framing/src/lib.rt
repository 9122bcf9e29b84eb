// Sync Frames in a capture whose start is not known (document 02, request 6): whether one starts at a bit, where the look finds the next, and its bytes. A frame and a
// SYNC Code are whole bytes long, so that all that is looked at for a bit has its offset in a byte.
#![tactic(auto)]

ghost use Rattle.std.specs.Prelude.{◌≡◌, ◌+◌, ◌*◌, ◌<◌, ◌≤◌, ◌^◌, [], length, MatchOption};
ghost use Rattle.annexg.specs.Sync.{is_sync};
ghost use Rattle.channel.specs.Block.{some_from};
ghost use Rattle.layout.specs.Lengths.{frame_bits, longest_capture};
ghost use Rattle.framing.specs.Frames.{bit_count, sync_at, frame_at, frames_from, bytes_of_frame};
ghost use Rattle.framing.specs.Inner.{NextFrame};

use annexg::SyncCodes;
use layout::{FRAME_BYTES, FRAME_STREAM};
use wordindex::WordReader;

// Two half words are a SYNC Code of table 4, whatever its number.
fn any_sync(syncs: &SyncCodes, first: u16, second: u16) -> bool
    ensures { result ≡ some_from (λ n. is_sync n first second) 0 8 }
{
    (0..8).any(|n| syncs.is_sync(n, first, second))
}

// A full SYNC Code stands at bit 8 · byte + offset. Its second half word, which is the same in all of them, is looked at first: hardly any other bits have it.
fn sync_at(syncs: &SyncCodes, stream: &[u8], byte: usize, offset: usize) -> bool
    requires offset_bound { offset < 8 }
    requires byte_bound { byte < 2 ^ 62 }
    ensures { result ≡ sync_at stream.now (8 * byte + offset) }
{
    if stream.len() < byte + 4 + (offset + 7) / 8 {
        return false;
    }
    let second = octets::half_at_bit(stream, byte + 2, offset);
    second == 0x0011 && any_sync(syncs, octets::half_at_bit(stream, byte, offset), second)
}

// A Sync Frame starts at a bit.
pub fn frame_at(syncs: &SyncCodes, stream: &[u8], at: usize) -> bool
    ensures { result ≡ frame_at stream.now at }
{
    let byte = at / 8;
    let offset = at % 8;
    sync_at(syncs, stream, byte, offset) && sync_at(syncs, stream, byte + FRAME_STREAM, offset)
}

// The next bit at which the look takes a frame.
pub fn next_frame(syncs: &SyncCodes, stream: &[u8], from: usize) -> Option<usize>
    requires { length stream.now ≤ longest_capture }
    ensures { MatchOption result (frames_from stream.now from ≡ []) (NextFrame stream.now from) }
{
    (from..stream.len() * 8).find(|&at| frame_at(syncs, stream, at))
}

// The bytes of the frame that starts at a bit. The last word is read with the first half of the second SYNC Code.
pub fn read_frame(words: &WordReader<'_>, stream: &[u8], at: usize) -> [u8; FRAME_BYTES]
    requires { at + frame_bits + 16 ≤ bit_count stream.now }
    ensures { result ≡ bytes_of_frame stream.now at }
{
    let byte = at / 8;
    let offset = at % 8;
    let mut bytes = [0; FRAME_BYTES];
    for (i, b) in bytes.iter_mut().enumerate() {
        let place = byte + 4 + 2 * i;
        let word = octets::half_at_bit(stream, place, offset);
        let following = octets::half_at_bit(stream, place + 2, offset);
        // an unknown word gives byte 0
        *b = words.read(word, following).unwrap_or(0);
    }
    bytes
}
