// Why a call is refused: the numbers that the papers list, which every crate answers by.
#![tactic(auto)]

ghost use Rattle.std.specs.Prelude.{◌≡◌};
ghost use Rattle.refusals.specs.Refusal.{refusal_number, answer_number};

// The number of each is the paper's: 1 to 9 are document 01's, 10 to 14 document 02's.
#[derive(Clone, Copy, PartialEq, Eq, Debug)]
pub enum Refusal {
    // A buffer has another length than stated, or a capture is too long.
    Length = 1,
    // The first number is no multiple of 16, or too high.
    FirstNumber = 2,
    // The Sector Information byte has a bit that is prohibited.
    Information = 3,
    // A frame's IED, ID or EDC is not what it has to be.
    Ied = 4,
    Id = 5,
    Edc = 6,
    // The closing code is written, or the sectors would go over the run's last number.
    RunEnded = 7,
    // The run is closed before its last block is whole.
    RunUnfinished = 8,
    // The record is none that the writer hands back.
    BadRecord = 9,
    // The block does not follow on the one before.
    Sequence = 10,
    // A mark is neither 0 nor 1.
    Mark = 11,
    // The sector was not tried, or gave another DSV when it was.
    NotTried = 12,
    OtherDsv = 13,
    // There are more stretches than the lent list has entries.
    Stretches = 14,
}

impl Refusal {
    pub fn number(self) -> u8
        ensures { result ≡ refusal_number self }
    {
        self as u8
    }
}

// The number of an answer, 0 where nothing is refused.
pub fn answer_number<T: Drop>(answer: Result<T, Refusal>) -> u8
    ensures { result ≡ answer_number answer }
{
    match answer {
        Ok(_) => 0,
        Err(refusal) => refusal.number(),
    }
}
