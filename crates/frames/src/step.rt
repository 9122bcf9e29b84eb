// Both streams over a byte, and over the 91 bytes of a frame (clause 22).
ghost use Rattle.std.specs.Prelude.{◌≡◌, ◌+◌, leb};
ghost use Rattle.layout.specs.Lengths.{frame_bytes};
ghost use Rattle.levels.specs.Level.{magnitude};
ghost use Rattle.streams.specs.Streams.{Two, swap_possible, step, filled};
ghost use Rattle.frames.specs.Inner.{Begins, Opened, Shows, Ready, plan_of, plan_for, Evened, Stepped, Whole};

use super::{Pair, Plan};
use annexg::CodeWords;
use laying::{Side, Tables};
use layout::{FRAME_BYTES, FRAME_STREAM};
use levels::Running;

// ---- what a byte does

// Stream 1 is the lower, by the DSVs of both.
pub fn lower(one: u64, two: u64) -> bool
    ensures { result ≡ leb (magnitude one) (magnitude two) }
{
    levels::absolute(one) <= levels::absolute(two)
}

// A swap is possible after the half word `tail`: in States 1 and 4, for bytes 88 to 255, where the State 1 word and the State 4 word both join with a zero run of
// 2 to 10.
fn can_swap(words: &CodeWords, state: u8, tail: u16, byte: u8) -> bool
    ensures { result ≡ swap_possible state tail byte }
{
    if byte < 88 || (state != 1 && state != 4) {
        return false;
    }
    zeroruns::joins(tail, words.word(0, byte, 0)) && zeroruns::joins(tail, words.word(0, byte, 3))
}

impl Plan {
    // What a byte does, by the State of the lower stream and whether a swap is made.
    fn of(first: bool, state: u8, byte: u8, swap: bool) -> Plan
        ensures { result ≡ plan_of first state byte swap }
    {
        if byte < 88 {
            return Plan {
                first,
                copy: true,
                one: false,
                two: true,
            };
        }
        Plan {
            first,
            copy: swap,
            one: swap && state == 4,
            two: swap && state == 1,
        }
    }
}

impl Pair {
    // What a byte does, by the ends of both streams. A swap is made just where it is possible in the lower.
    fn plan(self, words: &CodeWords, byte: u8) -> Plan
        ensures { result ≡ plan_for self byte }
    {
        let first = lower(self.one.running.dsv, self.two.running.dsv);
        let low = if first { self.one } else { self.two };
        let state = low.running.state;
        Plan::of(first, state, byte, can_swap(words, state, low.tail, byte))
    }

    // ---- the step over a byte

    // The lower stream over the other where a byte copies: its end, and its bytes up to `at` but for those that agree already.
    fn even(
        self,
        copy: bool,
        first: bool,
        at: usize,
        stream1: &mut [u8; FRAME_STREAM],
        stream2: &mut [u8; FRAME_STREAM],
    ) -> Pair
        requires { Ready self at stream1.old stream2.old }
        ensures { Evened copy first self stream1.old stream2.old at result stream1.new
            stream2.new }
    {
        if !copy {
            return self;
        }
        if first {
            let shown: &[u8] = stream1;
            octets::put(stream2, self.shared, &shown[self.shared..at]);
            return Pair {
                one: self.one,
                two: self.one,
                shared: at,
            };
        }
        let shown: &[u8] = stream2;
        octets::put(stream1, self.shared, &shown[self.shared..at]);
        Pair {
            one: self.two,
            two: self.two,
            shared: at,
        }
    }

    // The bytes at and at + 1 of both buffers, and all before them where the lower stream is copied over the other.
    fn step(
        self,
        tables: &Tables,
        byte: u8,
        at: usize,
        stream1: &mut [u8; FRAME_STREAM],
        stream2: &mut [u8; FRAME_STREAM],
    ) -> Pair
        requires { Ready self at stream1.old stream2.old }
        ensures { (t : Two)
            → Shows self stream1.old stream2.old at t
            → Shows result stream1.new stream2.new (at + 2) (step t byte) }
    {
        let plan = self.plan(&tables.words, byte);
        let pair = self.even(plan.copy, plan.first, at, stream1, stream2);
        Pair {
            one: pair
                .one
                .word(&tables.words, &tables.levels, byte, plan.one, at, stream1),
            two: pair
                .two
                .word(&tables.words, &tables.levels, byte, plan.two, at, stream2),
            shared: pair.shared,
        }
    }

    // ---- a frame

    // Both streams over the 91 bytes of a frame, after the four bytes of its SYNC Code.
    fn steps(
        self,
        tables: &Tables,
        bytes: &[u8; FRAME_BYTES],
        stream1: &mut [u8; FRAME_STREAM],
        stream2: &mut [u8; FRAME_STREAM],
    ) -> Pair
        requires { Opened self stream1.old stream2.old }
        ensures { Stepped self stream1.old stream2.old bytes.now frame_bytes result
            stream1.new stream2.new }
    {
        let mut ends = self;
        for (i, byte) in bytes.iter().enumerate() {
            ends = ends.step(tables, *byte, 4 + 2 * i, stream1, stream2);
        }
        ends
    }

    // Both streams over a frame: the Primary code in Stream 1, the Secondary in Stream 2, and the 91 bytes.
    pub(crate) fn filled(
        tables: &Tables,
        running: Running,
        code: u8,
        bytes: &[u8; FRAME_BYTES],
        stream1: &mut [u8; FRAME_STREAM],
        stream2: &mut [u8; FRAME_STREAM],
    ) -> Pair
        requires { Begins running code }
        ensures one { Whole result.one.running stream1.new
            (filled running code bytes.now).one }
        ensures two { Whole result.two.running stream2.new
            (filled running code bytes.now).two }
    {
        let one = Side::sync(&tables.syncs, &tables.levels, running, code, false, stream1);
        let two = Side::sync(&tables.syncs, &tables.levels, running, code, true, stream2);
        let pair = Pair {
            one,
            two,
            shared: 0,
        };
        pair.steps(tables, bytes, stream1, stream2)
    }
}
