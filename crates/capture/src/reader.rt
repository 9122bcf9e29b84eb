// The capture reader (document 02, request 6): it holds a stretch of stream and the next bit to look at. Each method takes it apart, and the core, which takes the
// slice and the bit, does the work. A caller with a plain slice has `read_capture`.
ghost use Rattle.std.specs.Prelude.{◌≡◌, length};
ghost use Rattle.refusals.specs.Refusal.{answer_number};
ghost use Rattle.framing.specs.Frames.{frame_at};
ghost use Rattle.framing.specs.Stretches.{stretches_from};
ghost use Rattle.capture.specs.Answer.{capture_refusal, capture_answer, capture_buffer, ListAfter};

use crate::Captured;
use refusals::Refusal;

#[derive(Clone, Copy)]
pub struct CaptureReader<'a> {
    pub stream: &'a [u8],
    pub at: usize,
}

impl<'a> CaptureReader<'a> {
    // A reader of a capture that is to look at its first bit.
    pub fn new(stream: &'a [u8]) -> CaptureReader<'a>
        ensures { (result.stream ≡ stream.entry) × (result.at ≡ 0) }
    {
        CaptureReader { stream, at: 0 }
    }

    // The reader with another bit to look at.
    pub fn moved(self, at: usize) -> CaptureReader<'a>
        ensures { (result.stream ≡ self.entry.stream) × (result.at ≡ at) }
    {
        CaptureReader { at, ..self }
    }

    // Whether a frame starts at the bit that it is to look at.
    pub fn look(self) -> bool
        ensures { result ≡ frame_at self.entry.stream.now self.entry.at }
    {
        crate::look_at(self.stream, self.at)
    }

    // Reads what is left of a capture.
    pub fn read(self, out: &mut [u8], stretches: &mut [u64]) -> Result<Captured, Refusal>
        ensures value { result
            ≡ capture_answer self.entry.stream.now self.entry.at
            (length out.old) (length stretches.old) }
        ensures result_value { answer_number result
            ≡ capture_refusal self.entry.stream.now self.entry.at
            (length out.old) (length stretches.old) }
        ensures out_after { out.new
            ≡ capture_buffer self.entry.stream.now self.entry.at
            out.old (length stretches.old) }
        ensures list_after { ListAfter
            (capture_refusal self.entry.stream.now self.entry.at
            (length out.old) (length stretches.old))
            (stretches_from self.entry.stream.now self.entry.at)
            stretches.old stretches.new }
    {
        crate::read_from(self.stream, self.at, out, stretches)
    }
}

// The capture reader for a caller with a plain slice: from bit 0 on.
pub fn read_capture(
    stream: &[u8],
    out: &mut [u8],
    stretches: &mut [u64],
) -> Result<Captured, Refusal>
    ensures value { result
        ≡ capture_answer stream.now 0 (length out.old) (length stretches.old) }
    ensures result_value { answer_number result
        ≡ capture_refusal stream.now 0 (length out.old) (length stretches.old) }
    ensures out_after { out.new
        ≡ capture_buffer stream.now 0 out.old (length stretches.old) }
    ensures list_after { ListAfter
        (capture_refusal stream.now 0 (length out.old) (length stretches.old))
        (stretches_from stream.now 0) stretches.old stretches.new }
{
    CaptureReader::new(stream).read(out, stretches)
}
