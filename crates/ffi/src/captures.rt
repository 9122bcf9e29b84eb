// The capture reader: a stream without a known start.
ghost use Rattle.std.specs.Prelude.{◌≡◌, length};
ghost use Rattle.framing.specs.Stretches.{stretches_from};
ghost use Rattle.capture.specs.Answer.{capture_refusal, capture_answer, capture_buffer, ListAfter};
ghost use Rattle.ffi.specs.Answers.{sized, held_after};
ghost use Rattle.ffi.specs.Readers.{capture_report_size, capture_report, number_or1};

use capture::Captured;
use refusals::{Refusal, answer_number};

// How many numbers the report has.
const CAPTURE_REPORT: usize = 2;

fn lay_capture(answer: Result<Captured, Refusal>, report: &mut [u64; CAPTURE_REPORT])
    ensures { report.new ≡ capture_report answer report.old }
{
    if let Ok(captured) = answer {
        *report = [captured.frames, captured.stretches];
    }
}

// A capture of at most 2^40 bytes: the bytes of its frames to `out`, which has 91 for every whole 186 of the capture; a start and a length in bits for each stretch
// to `stretches`, two numbers an entry (a number left over at the end is no entry). Both keep their rest. 0, or refusal 1 or 14. The report has the counts of frames
// and of stretches.
#[unsafe(no_mangle)]
pub extern "C" fn chamanzil_read_capture(
    stream: &[u8],
    out: &mut [u8],
    stretches: &mut [u64],
    report: &mut [u64],
) -> u32
    ensures value { result
        ≡ number_or1 (sized capture_report_size report.old)
        (capture_refusal stream.now 0 (length out.old)
        (length stretches.old)) }
    ensures out_after { out.new
        ≡ held_after (sized capture_report_size report.old)
        (capture_buffer stream.now 0 out.old (length stretches.old))
        out.old }
    ensures list_after { ListAfter
        (number_or1 (sized capture_report_size report.old)
        (capture_refusal stream.now 0 (length out.old)
        (length stretches.old)))
        (stretches_from stream.now 0) stretches.old stretches.new }
    ensures report_after { report.new
        ≡ held_after (sized capture_report_size report.old)
        (capture_report
        (capture_answer stream.now 0 (length out.old)
        (length stretches.old))
        report.old)
        report.old }
{
    let Some(report) = report.as_mut_array::<CAPTURE_REPORT>() else {
        return 1;
    };
    let answer = capture::read_capture(stream, out, stretches);
    lay_capture(answer, report);
    u32::from(answer_number(answer))
}
