// The NRZI level and the Digital Sum Value over code bits: the running record.
#![tactic(auto)]

mod table;

ghost use Rattle.std.specs.Prelude.{◌≡◌, [], ◌∷◌, ◌<◌, ◌≤◌};
ghost use Rattle.annexg.specs.Sync.{sync_end};
ghost use Rattle.levels.specs.Level.{magnitude, running_after};
ghost use Rattle.levels.specs.Inner.{Room, byte_levels, level_table};

// Where DSV 0 stands, 2^40: a DSV is held as an unsigned number.
pub const ZERO_AT: u64 = 1099511627776;

// The running record: the State prescribed next, the NRZI level, and the DSV, held with 0 at ZERO_AT.
#[derive(Clone, Copy)]
pub struct Running {
    pub state: u8,
    pub level: u8,
    pub dsv: u64,
}

// The levels over each byte. The writer's inmost work is the step over a half word: eight bits at a time, by this table.
#[derive(Clone, Copy)]
pub struct Levels {
    pub table: [u8; 256],
    pub ghost table_value: { table ≡ level_table },
}

impl Levels {
    pub fn new() -> Levels {
        Levels {
            table: table::LEVELS,
        }
    }

    // A byte from a level: twice its bits at level ONE, and the level after it. From level ONE each bit is at the other level than from level ZERO.
    fn over(&self, level: u8, byte: u8) -> u8
        requires { level < 2 }
        ensures value { result ≡ byte_levels level byte }
        ensures upper_bound { result ≤ 17 }
    {
        let entry = self.table[usize::from(byte)];
        if level == 0 { entry } else { 17 - entry }
    }
}

impl Running {
    // The step over a half word, first bit highest; the State stays. Of 16 bits those at level ONE count 1 and the others -1.
    pub fn half(self, levels: &Levels, half: u16) -> Running
        requires { Room self 16 }
        ensures { result ≡ running_after self self.state (half ∷ []) }
    {
        let first = levels.over(self.level, (half / 256) as u8);
        let second = levels.over(first % 2, (half % 256) as u8);
        Running {
            state: self.state,
            level: second % 2,
            dsv: self.dsv + 2 * u64::from(first / 2 + second / 2) - 16,
        }
    }

    // The step over a Code Word, with the next State that the table gives with it.
    pub fn word(self, levels: &Levels, word: u16, next: u8) -> Running
        requires { Room self 16 }
        ensures { result ≡ running_after self next (word ∷ []) }
    {
        Running {
            state: next,
            ..self.half(levels, word)
        }
    }

    // The step over a SYNC Code, by its first half word. After it the State is 1.
    pub fn sync(self, levels: &Levels, first: u16) -> Running
        requires { Room self 32 }
        ensures { result ≡ running_after self 1 (first ∷ sync_end ∷ []) }
    {
        self.half(levels, first).word(levels, 0x0011, 1)
    }
}

// The absolute value of a DSV that is held with 0 at ZERO_AT.
pub fn absolute(dsv: u64) -> u64
    ensures { result ≡ magnitude dsv }
{
    dsv.abs_diff(ZERO_AT)
}
