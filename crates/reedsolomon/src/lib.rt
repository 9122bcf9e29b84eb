// Reed-Solomon codes over GF(256): the inner code of 182 bytes with 10 roots and the outer code of 208 bytes with 16
// (ECMA-268, clause 18).
#![tactic(auto)]

mod column;
mod erasures;
mod locate;
mod mend;
mod row;
mod search;
mod word;

pub use codes::Outcome;
pub use column::{Column, correct_column, correct_column_from, correct_column_with};
pub use erasures::count_erasures;
pub use parity::{parity, parity2, parity2_with, parity10, parity16};
pub use row::{Row, correct_row, correct_row_from, correct_row_with};
pub use syndromes::{all_zero, syndromes};
pub use word::Word;
