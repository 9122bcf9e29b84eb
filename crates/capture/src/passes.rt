// The passes over a capture, each from frame to frame: the count of frames and stretches, the frames' bytes, the stretches.
ghost use Rattle.std.specs.Prelude.{◌≡◌, ◌+◌, ◌*◌, ◌/◌, ◌≤◌, length};
ghost use Rattle.std.proofs.lemmas.List.Edits.{sets};
ghost use Rattle.layout.specs.Lengths.{frame_bytes, frame_stream, longest_capture};
ghost use Rattle.framing.specs.Frames.{frames_from, bytes_of};
ghost use Rattle.framing.specs.Stretches.{gap, stretches_from};
ghost use Rattle.capture.specs.Answer.{filled, laid_out};

use crate::Captured;
use annexg::{CodeWords, SyncCodes};
use layout::{FRAME_BITS, FRAME_BYTES};
use wordindex::WordReader;

// How many stretches the bits from bit a up to bit b are: one, where there are any.
fn gap_count(a: usize, b: usize) -> u64
    ensures value { result ≡ length (gap a b) }
    ensures upper_bound { result ≤ 1 }
{
    u64::from(a < b)
}

pub fn count(syncs: &SyncCodes, stream: &[u8], at: usize) -> Captured
    requires { length stream.now ≤ longest_capture }
    ensures frames_value { result.frames ≡ length (frames_from stream.now at) }
    ensures stretches_value { result.stretches ≡ length (stretches_from stream.now at) }
{
    let mut frames = 0;
    let mut stretches = 0;
    let mut start = at;
    while let Some(frame) = framing::next_frame(syncs, stream, start) {
        frames += 1;
        stretches += gap_count(start, frame);
        start = frame + FRAME_BITS;
    }
    stretches += gap_count(start, stream.len() * 8);
    Captured { frames, stretches }
}

// The bytes of the frames taken, in order, into the front of the buffer.
pub fn write_frames(syncs: &SyncCodes, stream: &[u8], at: usize, out: &mut [u8])
    requires stream_len_bound { length stream.now ≤ longest_capture }
    requires out_len { length out.old ≡ frame_bytes * (length stream.now / frame_stream) }
    ensures { out.new
        ≡ filled (bytes_of stream.now (frames_from stream.now at)) out.old }
{
    let words = CodeWords::new();
    let index = wordindex::word_index(&words);
    let reader = WordReader {
        words: &words,
        index: &index,
    };
    let mut done = 0;
    let mut from = at;
    while let Some(frame) = framing::next_frame(syncs, stream, from) {
        octets::put(out, done, &framing::read_frame(&reader, stream, frame));
        done += FRAME_BYTES;
        from = frame + FRAME_BITS;
    }
}

// The stretch from bit a up to bit b, where there are any, into two numbers of the list, which are no struct since the C interface lends them so. Returns the place after
// it.
fn put_gap(list: &mut [u64], place: usize, a: usize, b: usize) -> usize
    requires { place + 2 * length (gap a b) ≤ length list.old }
    ensures list_after { list.new ≡ sets list.old place (laid_out (gap a b)) }
    ensures value { result ≡ place + 2 * length (gap a b) }
{
    if b <= a {
        return place;
    }
    list[place] = a as u64;
    list[place + 1] = (b - a) as u64;
    place + 2
}

// The stretches into the front of the list.
pub fn write_stretches(syncs: &SyncCodes, stream: &[u8], at: usize, list: &mut [u64])
    requires stream_len_bound { length stream.now ≤ longest_capture }
    requires at_in_bounds { 2 * length (stretches_from stream.now at) ≤ length list.old }
    ensures { list.new
        ≡ filled (laid_out (stretches_from stream.now at)) list.old }
{
    let mut place = 0;
    let mut start = at;
    while let Some(frame) = framing::next_frame(syncs, stream, start) {
        place = put_gap(list, place, start, frame);
        start = frame + FRAME_BITS;
    }
    put_gap(list, place, start, stream.len() * 8);
}
