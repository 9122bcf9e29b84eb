// A SYNC Code or a Code Word at the end of a stream: in the stream's buffer, and in its running record.
#![tactic(auto)]

ghost use Rattle.std.specs.Prelude.{◌≡◌, ◌≤◌, length};
ghost use Rattle.annexg.specs.Read.{State};
ghost use Rattle.annexg.specs.Sync.{sync_end, code_for};
ghost use Rattle.octets.specs.Halves.{put_half};
ghost use Rattle.channel.specs.Channel.{entry_for, last_for};
ghost use Rattle.channel.specs.Channel as channel;
ghost use Rattle.levels.specs.Inner.{Room};
ghost use Rattle.laying.specs.Inner.{side_after, Next};

use annexg::{CodeWords, SyncCodes};
use levels::{Levels, Running};

// The writer's tables: made once, and lent to all that lay a stream.
#[derive(Clone, Copy)]
pub struct Tables {
    pub words: CodeWords,
    pub syncs: SyncCodes,
    pub levels: Levels,
}

// The end of a stream: its running record and its last half word.
#[derive(Clone, Copy)]
pub struct Side {
    pub running: Running,
    pub tail: u16,
}

// The second half word of every SYNC Code (table 4).
const SYNC_END: u16 = 0x0011;

impl Tables {
    pub fn new() -> Tables {
        Tables {
            words: CodeWords::new(),
            syncs: SyncCodes::new(),
            levels: Levels::new(),
        }
    }
}

// The entry of annex G that a choice takes for a byte in a State. Without it the main word of that State; with it the substitution word for bytes 0 to 87,
// and for the others the word of State 4 in State 1, and of State 1 in State 4.
pub fn entry_for(words: &CodeWords, state: u8, byte: u8, choice: bool) -> u32
    requires { State state }
    ensures { result ≡ entry_for state byte choice }
{
    if !choice {
        words.entry(0, byte, state - 1)
    } else if byte < 88 {
        words.entry(1, byte, state - 1)
    } else {
        words.entry(0, byte, 4 - state)
    }
}

impl Side {
    // The Code Word that a choice takes for a byte, at the end of a stream.
    pub fn word(
        self,
        words: &CodeWords,
        levels: &Levels,
        byte: u8,
        choice: bool,
        at: usize,
        buffer: &mut [u8],
    ) -> Side
        requires { Next self at buffer.old }
        ensures value { result ≡ side_after self.running (channel.byte byte) choice }
        ensures buffer_after { buffer.new
            ≡ put_half buffer.old at (last_for self.running.state (channel.byte byte) choice) }
    {
        let entry = entry_for(words, self.running.state, byte, choice);
        let word = (entry / 16) as u16;
        octets::put_half(buffer, at, word);
        Side {
            running: self.running.word(levels, word, (entry % 16) as u8),
            tail: word,
        }
    }

    // A SYNC Code at the front of a buffer.
    pub fn sync(
        syncs: &SyncCodes,
        levels: &Levels,
        running: Running,
        code: u8,
        choice: bool,
        buffer: &mut [u8],
    ) -> Side
        requires room { Room running 32 }
        requires in_bounds { 4 ≤ length buffer.old }
        ensures value { result ≡ side_after running (channel.sync code) choice }
        ensures buffer_after { buffer.new
            ≡ put_half (put_half buffer.old 0 (code_for running.state code choice)) 2 sync_end }
    {
        let first = syncs.code(running.state, code, choice);
        octets::put_half(buffer, 0, first);
        octets::put_half(buffer, 2, SYNC_END);
        Side {
            running: running.sync(levels, first),
            tail: SYNC_END,
        }
    }
}
