// Reed-Solomon codes over GF(256), the definitions and their laws: parity, the minimum distance, the nearest code word, and what the decoder's steps compute.
// The code is in the crates above, `lightrepair` and `reedsolomon`.
#![tactic(auto)]

// What becomes of a word: it is a code word; it is made one; there is none near enough (document 01: unchanged, changed, past help).
#[derive(Clone, Copy, PartialEq, Eq, Debug)]
pub enum Outcome {
    Clean,
    Corrected,
    Uncorrectable,
}

// What the light repair says of a word (document 02, request 13): it is the code word near it now; or it is heavier, and stays.
#[derive(Clone, Copy, PartialEq, Eq, Debug)]
pub enum LightOutcome {
    Repaired,
    Heavier,
}

// A wrong byte of a word: how many bytes stand after it, and what was added to it.
#[derive(Clone, Copy, PartialEq, Eq, Debug)]
pub struct WrongByte {
    pub place: u8,
    pub value: u8,
}
