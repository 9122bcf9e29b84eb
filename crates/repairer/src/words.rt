// The words of a block, along its rows or along its columns: each becomes the one code word within reach, or stays.
ghost use Rattle.std.specs.Prelude.{◌≡◌, List, ℕ, ◌<◌};
ghost use Rattle.division.specs.declared.register.Remainder.{Remainder};
ghost use Rattle.octets.specs.Inner.{Stored};
ghost use Rattle.repairer.specs.Repair.{tally_of};
ghost use Rattle.repairer.specs.Inner.{Axis, count_of, size_of, place_of, repaired_word, outcome_of_word, repaired_along, Divided};

use crate::Tally;
use codes::Outcome;
use layout::BLOCK_SIZE;

// The 208 rows in recording order, or columns 0 to 171 in the order before the rows were moved, with what they are repaired
// by.
pub(crate) trait Words {
    ghost axis: { Axis };

    // What the columns leave, one register each; rows have none.
    ghost registers: { Self → List Remainder };

    fn count(&self) -> usize
        ensures { result ≡ count_of axis };

    // Word k repaired in its place, and what became of it.
    fn repair(&self, erasures: &[u8; BLOCK_SIZE], k: usize, block: &mut [u8; BLOCK_SIZE]) -> Outcome
        requires { (k < count_of axis) × Divided axis block.old (registers self.now) k }
        ensures value { result ≡ outcome_of_word axis erasures.now block.old k }
        ensures stored { Stored (place_of axis k)
            (repaired_word axis erasures.now block.old k) block.old
            block.new (size_of axis) };
}

// All words, one after the other, and the tally. There is a mark for each byte of the block; only the rows go by them.
pub(crate) fn repair_words<W: Words>(
    words: &W,
    erasures: &[u8; BLOCK_SIZE],
    block: &mut [u8; BLOCK_SIZE],
) -> Tally
    requires { (k : ℕ) → k < count_of W.axis → Divided W.axis block.old (W.registers words.now) k }
    ensures value { result
        ≡ tally_of (outcome_of_word W.axis erasures.now block.old) (count_of W.axis) }
    ensures block_after { block.new ≡ repaired_along W.axis erasures.now block.old }
{
    let mut tally = Tally {
        corrected: 0,
        uncorrectable: 0,
    };
    for k in 0..words.count() {
        tally = tally.plus(words.repair(erasures, k, block));
    }
    tally
}
