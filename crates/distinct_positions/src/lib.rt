//! Positions that stand once each, in the order in which they came.
//!
//! Proved: a position that is added goes last, unless it stands there. A call that fails changes
//! nothing.
//!
//! Tests: board_tests/src/distinct.rt
#![tactic(auto)]

mod positions;

pub use positions::DistinctPositions;
