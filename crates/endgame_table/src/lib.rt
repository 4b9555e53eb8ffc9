//! Endgame tables of two and three pieces, filled backwards from lost positions.
//!
//! A table keeps one number for each index of `table_index`: the answer at the position there, or
//! that the index is no position. [`table_bytes`] writes `DRTABLE`, a byte with the number of
//! pieces, and the numbers, 4 bytes each.
//!
//! Proved: every [`Table`] is sound, whoever made it. [`fill`] makes the one of 2 or 3 pieces.
//! [`Table::probe`] answers exactly for the positions with at most that many pieces. `table_bytes`
//! writes exactly the format, and the bytes tell the table.
//!
//! Tests: proof_tests/src/tables.rt
#![tactic(auto)]

mod bytes;
mod filling;
pub mod laws;
mod marking;
mod moves;
mod numbers;
mod origins;
mod rounds;
mod table;

pub use bytes::table_bytes;
pub use filling::fill;
pub use numbers::{NO_POSITION, answer_of};
pub use table::Table;
