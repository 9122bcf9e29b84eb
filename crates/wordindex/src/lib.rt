// An index of the Code Words of annex G: it says where the search through the columns begins, and nothing else. For a word that stands for a byte that is an
// entry that fits, so that the search ends in one step; a word that fits nothing is unknown wherever the search begins. The index is made once from the tables
// and then lent, as they are.
#![tactic(auto)]

ghost use Rattle.std.specs.Prelude.{◌≡◌, ◌<◌};
ghost use Rattle.annexg.specs.Read.{table_of, read_word};
ghost use Rattle.wordindex.specs.Inner.{slot_of, put_one, put_entry, put_all, word_index};

use annexg::CodeWords;

// The tables of Code Words and their index, lent: 22 KB that stay where they are made, since each move of them would take as much of the stack once more.
#[derive(Clone, Copy)]
pub struct WordReader<'a> {
    pub words: &'a CodeWords,
    pub index: &'a [u16; 8192],
    pub ghost index_value: { index.now ≡ word_index },
}

// The slot of a word: of two neighbours the second is for words before bits 15 and 3 that are both ZERO.
fn slot_of(word: u32, zero: bool) -> usize
    requires { word < 65536 }
    ensures value { result ≡ slot_of word zero }
    ensures upper_bound { result < 8192 }
{
    ((word * 2747 / 16) % 4096) as usize * 2 + usize::from(zero)
}

// An entry takes the slot of its word where its next State agrees: the slot holds its number.
fn put_one(zero: bool, number: u16, entry: u32, index: &mut [u16; 8192])
    requires { entry < 1048576 }
    ensures { index.new ≡ put_one zero number entry index.old }
{
    if annexg::agrees_with(entry % 16, zero) {
        let at = slot_of(entry / 16, zero);
        index[at] = number;
    }
}

fn put_entry(number: u16, entry: u32, index: &mut [u16; 8192])
    requires { entry < 1048576 }
    ensures { index.new ≡ put_entry number entry index.old }
{
    put_one(false, number, entry, index);
    put_one(true, number, entry, index);
}

// The entries of a table; the main table's have the numbers 0 to 1,023, the substitution table's 1,024 to 1,375.
fn put_table(table: u32, entries: &[u32], index: &mut [u16; 8192])
    requires table_bound { table < 2 }
    requires entries_value { entries.now ≡ table_of table }
    ensures { index.new ≡ put_all table index.old }
{
    for (k, entry) in entries.iter().enumerate() {
        let number = table * 1024 + k as u32;
        put_entry(number as u16, *entry, index);
    }
}

// The index of both tables.
pub fn word_index(words: &CodeWords) -> [u16; 8192]
    ensures { result ≡ word_index }
{
    let mut index = [0u16; 8192];
    put_table(0, &words.main, &mut index);
    put_table(1, &words.substitutes, &mut index);
    index
}

impl WordReader<'_> {
    // What a word is read as where another half word follows: the search through the columns, from the entry on whose number is in the word's slot.
    pub fn read(&self, word: u16, following: u16) -> Option<u8>
        ensures { result ≡ read_word word following }
    {
        let zero = annexg::both_zero(following);
        let at = slot_of(u32::from(word), zero);
        let number = u32::from(self.index[at]);
        // % 2 says nothing new: with it the compiler knows that there are two tables
        let table = (number / 1024 % 2) as usize;
        self.words
            .search_from(word, zero, table, (number % 1024) as usize)
    }
}
