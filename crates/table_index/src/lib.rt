//! The order of an endgame table's positions: which index each position with at most three pieces
//! has, and which position stands at each index.
//!
//! The indices run over blocks of 0, 1, 2 and 3 pieces. A block has a place for each choice of
//! squares, each choice of kinds and each side to move: the choices of squares in lexicographic
//! order, the kinds as digits to base 4.
//!
//! Proved: each position with at most three pieces has one index, and each index is one position or
//! none. `index_of` and `position_at` compute both.
//!
//! Tests: board_tests/src/indices.rt
#![tactic(auto)]

mod counts;
pub mod examples;
mod indices;
pub mod laws;
mod walking;

pub use indices::{entry_count, index_of};
pub use walking::{PositionWalk, position_at};
