// Long division by the generators of the Reed-Solomon codes of ECMA-268 (clause 18): the remainder of a word, registers of
// columns side by side, and what is left of a received word.
#![tactic(auto)]

mod received;
mod register;

pub use received::remainder_of;
pub use register::{Remainder, divide, shift_row};
