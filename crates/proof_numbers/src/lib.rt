//! What is known of a position, and how far a goal is from being shown or refuted there: the proof
//! and the disproof number of proof-number search (Allis, 1994).
//!
//! A goal is a side whose win is sought. The proof number is how many leaves have to be settled at
//! least until the win is shown, the disproof number how many until it is refuted. A leaf counts by
//! its mobility: its mover needs one of its moves, the other side an answer to each.
//!
//! Proved: which facts of a position are known; that a win tells its side's hold and excludes the
//! other's. The numbers of a leaf are exactly those of the definition by mobility; least and sum
//! are right with infinity.
//!
//! Tests: board_tests/src/numbers.rt
#![tactic(auto)]

pub mod examples;
mod facts;
mod leaves;
mod numbers;

pub use facts::Facts;
pub use leaves::{Child, MOST_MOVES, leaf, mobility};
pub use numbers::{Number, Numbers, least, total};
