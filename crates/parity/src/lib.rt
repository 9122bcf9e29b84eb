// The parity bytes of the Reed-Solomon codes of ECMA-268 (16.2 and clause 18), and the bytes of a packed register.
#![tactic(auto)]

mod bytes;
mod columns;
mod ied;

pub use bytes::{parity, parity10, parity16, unpack};
pub use columns::column_registers;
pub use ied::{parity2, parity2_with};
