// The capture reader (document 02, request 6): the Sync Frames of a stream without a known start, and the stretches of it that are in no frame. The core works on a
// slice and a bit; `CaptureReader`, which holds both, stands over it (reader.rt), and `read_capture` over that.
#![tactic(auto)]

mod passes;
mod reader;

ghost use Rattle.std.specs.Prelude.{◌≡◌, ◌&&◌, ◌*◌, ◌/◌, eqb, leb, length};
ghost use Rattle.refusals.specs.Refusal.{answer_number};
ghost use Rattle.layout.specs.Lengths.{frame_bytes, frame_stream, longest_capture};
ghost use Rattle.framing.specs.Frames.{frame_at};
ghost use Rattle.framing.specs.Stretches.{stretches_from};
ghost use Rattle.capture.specs.Answer.{capture_refusal, capture_answer, capture_buffer, ListAfter};

use annexg::SyncCodes;
use layout::{FRAME_BYTES, FRAME_STREAM, LONGEST_CAPTURE};
pub use reader::{CaptureReader, read_capture};
use refusals::Refusal;

// How many frames were taken, and how many stretches there are.
#[derive(Clone, Copy, PartialEq, Eq, Debug)]
pub struct Captured {
    pub frames: u64,
    pub stretches: u64,
}

// Whether a capture of so many bytes, and the buffer lent with it, are as long as stated.
fn is_sized(stream: usize, out: usize) -> bool
    ensures { result
        ≡ (leb stream longest_capture && eqb out (frame_bytes * (stream / frame_stream))) }
{
    stream <= LONGEST_CAPTURE && out == FRAME_BYTES * (stream / FRAME_STREAM)
}

// Whether a frame starts at a bit of a capture.
pub fn look_at(stream: &[u8], at: usize) -> bool
    ensures { result ≡ frame_at stream.now at }
{
    framing::frame_at(&SyncCodes::new(), stream, at)
}

// Reads a capture, where the look starts at a bit: the bytes of the frames taken into `out`, and a start and a length for each stretch into the list. The stretches are
// counted before anything is written, since a refusal leaves everything.
pub fn read_from(
    stream: &[u8],
    at: usize,
    out: &mut [u8],
    stretches: &mut [u64],
) -> Result<Captured, Refusal>
    ensures value { result
        ≡ capture_answer stream.now at (length out.old) (length stretches.old) }
    ensures result_value { answer_number result
        ≡ capture_refusal stream.now at (length out.old) (length stretches.old) }
    ensures out_after { out.new
        ≡ capture_buffer stream.now at out.old (length stretches.old) }
    ensures list_after { ListAfter
        (capture_refusal stream.now at (length out.old) (length stretches.old))
        (stretches_from stream.now at) stretches.old stretches.new }
{
    if !is_sized(stream.len(), out.len()) {
        return Err(Refusal::Length);
    }
    let syncs = SyncCodes::new();
    let captured = passes::count(&syncs, stream, at);
    if ((stretches.len() / 2) as u64) < captured.stretches {
        return Err(Refusal::Stretches);
    }
    passes::write_frames(&syncs, stream, at, out);
    passes::write_stretches(&syncs, stream, at, stretches);
    Ok(captured)
}
