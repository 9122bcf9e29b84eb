// Runs of ZEROs: across the join of two half words, and those of a whole stream. "Zero run" is the project's word for a run of ZEROs between two ONEs.
#![tactic(auto)]

ghost use Rattle.std.specs.Prelude.{◌≡◌, ◌≤◌, ◌&&◌, true, leb, length, MatchOption};
ghost use Rattle.annexg.specs.ZeroRuns.{inside};
ghost use Rattle.channel.specs.Bits.{block_zero_run_fits, zero_runs_hold};
ghost use Rattle.channel.specs.Channel.{join_zeros};
ghost use Rattle.layout.specs.Lengths.{stream_size};
ghost use Rattle.zeroruns.specs.Inner.{After};

use layout::{FRAME_BITS, STREAM_SIZE};

// The zero run across the join of two half words is 2 to 10.
pub fn joins(first: u16, second: u16) -> bool
    ensures { result ≡ inside 2 10 (join_zeros first second) }
{
    let n = first.trailing_zeros() + second.leading_zeros();
    2 <= n && n <= 10
}

// So many ZEROs may stand between the ONE at bit `one` of a block and the next ONE.
pub fn zero_run_fits(one: usize, zeros: usize) -> bool
    ensures { result ≡ block_zero_run_fits one zeros }
{
    (2 <= zeros && zeros <= 10) || (zeros == 13 && one % FRAME_BITS == 13)
}

// The first ONE of a stream: from there on all zero runs are judged.
fn first_one(stream: &[u8]) -> Option<usize>
    requires { length stream.now ≤ stream_size }
    ensures { MatchOption result (zero_runs_hold stream.now ≡ true) (After stream.now) }
{
    (0..stream.len() * 8).find(|&j| octets::bit_at(stream, j))
}

// All zero runs of a stream that starts with a Sync Frame and is no longer than a block's are such as a block may have.
pub fn zero_runs_hold(stream: &[u8]) -> bool
    ensures { result ≡ (leb (length stream.now) stream_size && zero_runs_hold stream.now) }
{
    if STREAM_SIZE < stream.len() {
        return false;
    }
    let Some(first) = first_one(stream) else {
        return true;
    };
    // the ZEROs since the last ONE, which are quicker to hold than where it stands
    let mut zeros = 0;
    for j in first + 1..stream.len() * 8 {
        if octets::bit_at(stream, j) {
            if !zero_run_fits(j - zeros - 1, zeros) {
                return false;
            }
            zeros = 0;
        } else {
            zeros += 1;
        }
    }
    true
}
