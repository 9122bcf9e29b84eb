// A line, and the texts and numbers that are written one after the other.
ghost use Rattle.std.specs.Prelude.{◌≡◌, [], ◌++◌, ◌+◌, ◌≤◌, length, decimal};

use crate::numbers;
use blockreader::BlockRead;
use repairer::{BlockRefusal, Tally};

// The first `len` bytes are written.
#[derive(Clone, Copy)]
pub struct Line {
    bytes: [u8; 128],
    len: usize,
    ghost fits: { len ≤ 128 },
}

impl Line {
    ghost use Rattle.sheetline.specs.Line.{written, tally_text, newline, sheet_line};

    fn new() -> Line
        ensures text { written result ≡ [] }
        ensures len { result.len ≡ 0 }
    {
        Line {
            bytes: [0; 128],
            len: 0,
        }
    }

    pub fn as_bytes(&self) -> &[u8]
        ensures { result.now ≡ written self.now }
    {
        &self.bytes[..self.len]
    }

    fn text(&mut self, text: &[u8])
        requires { self.old.len + length text.now ≤ 128 }
        ensures text { written self.new ≡ written self.old ++ text.now }
        ensures len { self.new.len ≡ self.old.len + length text.now }
    {
        let end = self.len + text.len();
        self.bytes[self.len..end].copy_from_slice(text);
        self.len = end;
    }

    fn end(&mut self)
        requires { self.old.len + 1 ≤ 128 }
        ensures { written self.new ≡ written self.old ++ newline }
    {
        self.text(b"\n");
    }

    // A number after its name.
    fn number(&mut self, name: &[u8], n: u32)
        requires { self.old.len + length name.now + 10 ≤ 128 }
        ensures text { written self.new ≡ written self.old ++ (name.now ++ decimal n) }
        ensures len { self.new.len ≤ self.old.len + length name.now + 10 }
    {
        let mut digits = itoa::Buffer::new();
        self.text(name);
        self.text(digits.format(n).as_bytes());
    }

    // The counts of words changed and past help, after the text that names the words.
    fn tally(&mut self, name: &[u8], tally: Tally)
        requires { self.old.len + length name.now + 21 ≤ 128 }
        ensures text { written self.new ≡ written self.old ++ tally_text name.now tally }
        ensures len { self.new.len ≤ self.old.len + length name.now + 21 }
    {
        self.number(name, tally.corrected);
        self.number(b" ", tally.uncorrectable);
    }

    pub(crate) fn of_block(read: BlockRead) -> Line
        ensures { written result ≡ sheet_line (Ok read) }
    {
        let mut line = Line::new();
        line.text(b"block ");
        line.text(&numbers::hex_six(read.first));
        line.tally(b" rows ", read.tallies.rows);
        line.tally(b" columns ", read.tallies.columns);
        line.number(b" unknown ", read.unknown);
        line.number(b" sync ", read.sync);
        line.end();
        line
    }

    pub(crate) fn of_refusal(refused: BlockRefusal) -> Line
        ensures { written result ≡ sheet_line (Err refused) }
    {
        let mut line = Line::new();
        line.number(b"refused ", u32::from(refused.refusal.number()));
        if let Some(frame) = refused.frame {
            line.number(b" frame ", u32::from(frame));
        }
        line.end();
        line
    }
}
