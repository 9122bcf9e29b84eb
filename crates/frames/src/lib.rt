// A Sync Frame in two streams, of which the lower is shown (clause 22).
#![tactic(auto)]

mod end;
mod step;

ghost use Rattle.std.specs.Prelude.{◌≡◌, true, false};
ghost use Rattle.streams.specs.Streams.{one_lower, filled, sync_frame_of, buffer_after};
ghost use Rattle.frames.specs.Inner.{Begins};

use end::change;
use laying::{Side, Tables};
use layout::{FRAME_BYTES, FRAME_STREAM};
use levels::Running;
pub use step::lower;

// The ends of Streams 1 and 2, and how many bytes of the two buffers are known to agree: a copy leaves those out.
#[derive(Clone, Copy)]
pub(crate) struct Pair {
    pub(crate) one: Side,
    pub(crate) two: Side,
    pub(crate) shared: usize,
}

// What a byte does: whether Stream 1 is the lower, whether the lower is copied over the other, and the choices in Streams 1 and 2.
#[derive(Clone, Copy)]
pub(crate) struct Plan {
    pub(crate) first: bool,
    pub(crate) copy: bool,
    pub(crate) one: bool,
    pub(crate) two: bool,
}

// The running record after a frame, and whether Stream 1 is shown.
#[derive(Clone, Copy)]
pub struct Shown {
    pub running: Running,
    pub first: bool,
}

// A frame of 91 bytes, and which of the two buffers shows it. At its end the SYNC Code may be changed in that buffer; the other keeps its own stream.
// The buffers are two parameters: of two arrays in a struct behind a `&mut` the check no longer knows the lengths after a call (tried, and it did not close).
pub fn frame(
    tables: &Tables,
    running: Running,
    code: u8,
    bytes: &[u8; FRAME_BYTES],
    stream1: &mut [u8; FRAME_STREAM],
    stream2: &mut [u8; FRAME_STREAM],
) -> Shown
    requires { Begins running code }
    ensures shown { result.first ≡ one_lower (filled running code bytes.now) }
    ensures one { stream1.new ≡ buffer_after true running code bytes.now }
    ensures two { stream2.new ≡ buffer_after false running code bytes.now }
    ensures running { result.running ≡ (sync_frame_of running code bytes.now).running }
{
    let pair = Pair::filled(tables, running, code, bytes, stream1, stream2);
    let one = pair.one.running;
    let two = pair.two.running;
    let first = lower(one.dsv, two.dsv);
    let running = if first {
        change(tables, running, code, one, stream1)
    } else {
        change(tables, running, code, two, stream2)
    };
    Shown { running, first }
}
