//! The checker of endgame tables.
//!
//! [`check_table`] believes nothing of who wrote the bytes. It reads them, and tests at each index
//! that the number there fits those of the positions that `draughts_rules` says the moves lead to.
//! With the filler of `endgame_table` it shares the type [`Table`](endgame_table::Table), what the
//! numbers mean and the order of positions, which are the format's.
//!
//! Proved: `check_table` accepts exactly the bytes of sound tables. It refuses exactly for what
//! fails first: the head, the length, or the first index at which the rule fails, with the number
//! kept there.
//!
//! Tests: proof_tests/src/table_bytes.rt
#![tactic(auto)]

mod bytes;
mod check;
mod entries;
mod fitting;
pub mod laws;
mod refusal;

pub use check::check_table;
pub use refusal::TableRefusal;
