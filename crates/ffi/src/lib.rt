// The C boundary, for C (include/), Rust (rust/), tests and benchmarks: numbers, bools, slices and the writer's record. A `&[u8]` passes as a pointer and a
// length, a `&mut Record` as a pointer. No function has a `requires`: a buffer of another length than stated gets refusal 1 (document 01) and everything is left as
// it was.
#![tactic(auto)]

mod blocks;
mod captures;
mod codewords;
mod readers;
mod session;
mod words;

pub use blocks::{chamanzil_encode_block, chamanzil_format_block};
pub use captures::chamanzil_read_capture;
pub use codewords::{
    chamanzil_column_parity, chamanzil_correct_column, chamanzil_correct_light_row,
    chamanzil_correct_row, chamanzil_ied, chamanzil_power, chamanzil_product, chamanzil_row_parity,
};
pub use readers::{
    chamanzil_pool, chamanzil_read_block, chamanzil_read_sector, chamanzil_repair_block,
};
pub use session::{
    chamanzil_close, chamanzil_new_record, chamanzil_take, chamanzil_trial, chamanzil_write_block,
    chamanzil_write_sectors,
};
pub use words::{chamanzil_closing_holds, chamanzil_read_word, chamanzil_zero_runs_hold};
