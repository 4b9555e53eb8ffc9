//! Positions as children in a tree, each with what is known of it at sight and its mobility.
//!
//! The successors are found by the swift generator. `certificate_checker`, which says what a
//! certificate shows, goes by the plain one.
//!
//! Proved: the facts of a child are those at sight, by the rules and the table. `children_at_sight`
//! gives one for each successor, in order.
//!
//! Tests: proof_tests/src/trees.rt
#![tactic(auto)]

mod sight;

pub use sight::{child_at_sight, children_at_sight};
