//! Openings made from a seed: positions in which Black must capture.
//!
//! A Black king stands on the start of a jump of the empty board, a White king on the square that
//! it passes over, and a third king of either colour on any square beside the jump's three. There
//! are 4,176 such choices, numbered by an index. A walk goes through the indices in steps of 101
//! from a place that the seed gives, and passes over a position that it has met before
//! (`specs/Walk.antt`).
//!
//! Proved: `capture_positions` gives exactly the first COUNT different positions of the seed's
//! walk, in its order, COUNT being at most 2,000. `laws`: each walk meets each index once and at
//! least 2,000 different positions, and Black must capture in each.
//!
//! Tests: board_tests/src/generated.rt
#![tactic(auto)]

pub mod examples;
mod jumps;
pub mod laws;
mod openings;

pub use jumps::{JUMP_COUNT, OTHER_COUNT};
pub use openings::{INDEX_COUNT, MOST_OPENINGS, SEED_FACTOR, STEP_FACTOR, capture_positions};
