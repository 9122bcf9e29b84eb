// The end of a frame in the buffer of the lower stream: the other SYNC Code tried, and kept or not (clause 22).
ghost use Rattle.std.specs.Prelude.{◌≡◌, List, ◌∷◌, ℕ, drop};
ghost use Rattle.octets.specs.Halves.{packed};
ghost use Rattle.layout.specs.Lengths.{frame_bits};
ghost use Rattle.levels.specs.Level.{running_after};
ghost use Rattle.levels.specs.Inner.{Room};
ghost use Rattle.streams.specs.Streams.{beyond};
ghost use Rattle.frames.specs.Inner.{Begins, other_half, Closes};

use annexg::SyncCodes;
use laying::Tables;
use layout::{FRAME_HALVES, FRAME_STREAM};
use levels::{Levels, Running, ZERO_AT};

// The first half word of the other SYNC Code of the class than the one that a buffer opens with.
fn other_code(syncs: &SyncCodes, state: u8, code: u8, buffer: &[u8; FRAME_STREAM]) -> u16
    ensures { result ≡ other_half state code buffer.now }
{
    let primary = syncs.code(state, code, false);
    if octets::half_at(buffer, 0) == primary {
        return syncs.code(state, code, true);
    }
    primary
}

// The DSV is over 63 or under -64.
fn is_beyond(dsv: u64) -> bool
    ensures { result ≡ beyond dsv }
{
    ZERO_AT + 63 < dsv || dsv < ZERO_AT - 64
}

// The running record over a frame in a buffer, counted anew with another first half word; the State stays.
fn recount(levels: &Levels, start: Running, first: u16, buffer: &[u8; FRAME_STREAM]) -> Running
    requires { Room start frame_bits }
    ensures { (hs : List ℕ)
        → buffer.now ≡ packed hs
        → result ≡ running_after start start.state (first ∷ drop 1 hs) }
{
    let mut running = start.half(levels, first);
    for i in 1..FRAME_HALVES {
        running = running.half(levels, octets::half_at(buffer, i));
    }
    running
}

// The frame's end in the buffer of the lower stream, from the record `low` on: the other SYNC Code is tried where the DSV is beyond, and kept if the
// absolute DSV gets smaller. The frame began from the record `start`.
pub(crate) fn change(
    tables: &Tables,
    start: Running,
    code: u8,
    low: Running,
    buffer: &mut [u8; FRAME_STREAM],
) -> Running
    requires { Begins start code }
    ensures { Closes start code low buffer.old buffer.new result }
{
    if !is_beyond(low.dsv) {
        return low;
    }
    let first = other_code(&tables.syncs, start.state, code, buffer);
    let other = recount(&tables.levels, start, first, buffer);
    if levels::absolute(other.dsv) < levels::absolute(low.dsv) {
        octets::put_half(buffer, 0, first);
        return Running {
            state: low.state,
            ..other
        };
    }
    low
}
