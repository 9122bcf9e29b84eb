// The light repair of a row (document 02, request 13): one or two wrong bytes, straight from the ten sums, by the formulas of the lecture
// (docs/course/light-repair.md works two rows through).
#![tactic(auto)]

mod formulas;
mod row;

pub use codes::LightOutcome;
pub use row::{LightRow, correct_light_row, correct_light_row_from};
