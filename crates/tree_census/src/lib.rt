//! How large the tree of a root is, and how many of its leaves are open.
//!
//! [`census_of`] counts both in one walk, which does not recurse (`specs/Censuses.antt`).
//!
//! Proved: the counts are those of the forest that the tree is. Each node is counted once, and a leaf
//! counts as open where it is unexpanded and neither it nor a node above it is resolved for the root's
//! goal.
//!
//! Tests: proof_tests/src/census.rt
#![tactic(auto)]

mod counting;

pub use counting::{Census, census_of};
