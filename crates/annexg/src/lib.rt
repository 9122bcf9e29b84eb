// Annex G and table 4 of ECMA-268: the tables of Code Words, the SYNC Codes, and the reading of a Code Word.
// Tables are made once and then lent: a constant that is indexed in a loop would be rebuilt at each turn.
#![tactic(auto)]

mod tables;

ghost use Rattle.std.specs.Prelude.{◌≡◌, ◌*◌, ◌-◌, ◌/◌, ◌<◌, ◌≤◌, length};
ghost use Rattle.annexg.specs.Read.{table_of, entry_of, word_of, next_of, both_zero, agrees, fits_of, read_word};
ghost use Rattle.annexg.specs.Inner.{read_from};
ghost use Rattle.annexg.specs.Sync.{sync_table, code_for, is_sync};

// The two tables of Code Words, laid as in tables.rt.
#[derive(Clone, Copy)]
pub struct CodeWords {
    pub main: [u32; 1024],
    pub substitutes: [u32; 352],
    pub ghost main_value: { main ≡ table_of 0 },
    pub ghost substitutes_value: { substitutes ≡ table_of 1 },
}

// The first half words of the SYNC Codes.
#[derive(Clone, Copy)]
pub struct SyncCodes {
    pub codes: [u16; 32],
    pub ghost codes_value: { codes ≡ sync_table },
}

impl CodeWords {
    pub fn new() -> CodeWords {
        CodeWords {
            main: tables::MAIN,
            substitutes: tables::SUB,
        }
    }

    // Entry byte · 4 + column of a table as it is laid, of the main table where `table` is 0, else of the substitution table: where the column is below 4, the
    // byte's in the column of State column + 1. A column over 3 counts on into the bytes after it, and past the table's end there is 0.
    pub fn entry(&self, table: usize, byte: u8, column: u8) -> u32
        ensures { result ≡ entry_of table byte column }
    {
        let at = usize::from(byte) * 4 + usize::from(column);
        if table == 0 {
            if at < 1024 { self.main[at] } else { 0 }
        } else {
            if at < 352 { self.substitutes[at] } else { 0 }
        }
    }

    // Its Code Word.
    pub fn word(&self, table: usize, byte: u8, column: u8) -> u16
        ensures { result ≡ word_of table byte column }
    {
        (self.entry(table, byte, column) / 16) as u16
    }

    // The next State that the table gives with it.
    pub fn next(&self, table: usize, byte: u8, column: u8) -> u8
        ensures { result ≡ next_of table byte column }
    {
        (self.entry(table, byte, column) % 16) as u8
    }

    // The search through the columns, from entry `at` of table `table` on: it stops at the first entry that fits, with its byte, or past the last one with none.
    pub fn search_from(&self, word: u16, zero: bool, table: usize, at: usize) -> Option<u8>
        ensures { result ≡ read_from word zero table at }
    {
        let mut byte = at / 4;
        let mut column = (at % 4) as u8;
        'found: {
            for t in table..2 {
                let n = bytes_of(t);
                for b in byte..n {
                    for s in column..4 {
                        let e = self.entry(t, b as u8, s);
                        if fits(word, zero, e) {
                            break 'found Some(b as u8);
                        }
                    }
                    column = 0;
                }
                byte = 0;
                column = 0;
            }
            None
        }
    }

    // What a word is read as where another half word follows: the search from the first entry on.
    pub fn read(&self, word: u16, following: u16) -> Option<u8>
        ensures { result ≡ read_word word following }
    {
        self.search_from(word, both_zero(following), 0, 0)
    }
}

impl SyncCodes {
    pub fn new() -> SyncCodes {
        SyncCodes {
            codes: tables::SYNC,
        }
    }

    // The first half word of the SYNC Code SY0 to SY7 in a State, Primary or Secondary; every second half word is 0x0011. What is no State and no code counts on
    // in the table as it is laid: State 0 is taken for State 1, SY8 to SY15 of States 1 and 2 are SY0 to SY7 of States 3 and 4, and past the table's end there is 0.
    pub fn code(&self, state: u8, code: u8, secondary: bool) -> u16
        ensures { result ≡ code_for state code secondary }
    {
        // 0 for States 1 and 2, 1 for States 3 and 4
        let class = usize::from(state.saturating_sub(1) / 2);
        let at = class * 16 + usize::from(code) * 2 + usize::from(secondary);
        if at < 32 { self.codes[at] } else { 0 }
    }

    // Two half words are one of the four SYNC Codes of a number, at most 7. States 1 and 3 stand for the two classes.
    pub fn is_sync(&self, code: u8, first: u16, second: u16) -> bool
        ensures { result ≡ is_sync code first second }
    {
        let codes = [
            self.code(1, code, false),
            self.code(1, code, true),
            self.code(3, code, false),
            self.code(3, code, true),
        ];
        codes.contains(&first) && second == 0x0011
    }
}

// Bits 15 and 3 are both ZERO.
pub fn both_zero(following: u16) -> bool
    ensures { result ≡ both_zero following }
{
    (following / 32768 % 2 == 0) & (following / 8 % 2 == 0)
}

// A next State agrees with what follows; `zero` says whether bits 15 and 3 of that are both ZERO. One State disagrees: 3 where they are, 2 where they are not.
pub fn agrees_with(next: u32, zero: bool) -> bool
    ensures { result ≡ agrees next zero }
{
    next != 2 + u32::from(zero)
}

// An entry has the word, with a next State that agrees: two tests, and no branch between them.
pub fn fits(word: u16, zero: bool, entry: u32) -> bool
    ensures { result ≡ fits_of word zero entry }
{
    (entry / 16 == u32::from(word)) & agrees_with(entry % 16, zero)
}

// How many bytes a table has words for.
fn bytes_of(table: usize) -> usize
    requires { table < 2 }
    ensures result_value { result * 4 ≡ length (table_of table) }
    ensures upper_bound { result ≤ 256 }
{
    if table == 0 { 256 } else { 88 }
}

// What a word is read as, for a caller that reads one and has no tables at hand.
pub fn read_word(word: u16, following: u16) -> Option<u8>
    ensures { result ≡ read_word word following }
{
    CodeWords::new().read(word, following)
}
