//! The proof tree of proof-number search: positions grown from roots, what is known of each, the
//! proof and disproof numbers of every node for both goals, and the leaf to work on next.
//!
//! A contract sees the forest as a recursive value (`specs/Forest.antt`); what every forest of a
//! tree keeps stands in `specs/Sound.antt`, what a change makes of it in `specs/Changes.antt`, and
//! which leaf is next in `specs/Picking.antt`. The nodes are rows of one table that name each other
//! by number; no walk over it recurses.
//!
//! Proved: the forest changes exactly as a new root, new facts or new children change it. The
//! numbers of every node for both goals, a root's value, whether each root has one, and the leaf
//! that `pick` gives are those of the definitions, whatever is taken. In every forest children are
//! the successors in order, a node repeats exactly where its position stands above it, and each
//! number names one node. `laws`: while a root is unsettled and nothing is taken there is a leaf to
//! work on; a root has a value exactly where its numbers resolve it for both goals.
//!
//! Tests: proof_tests/src/trees.rt
#![tactic(auto)]

mod children;
pub mod examples;
mod growing;
mod kept;
pub mod laws;
mod numbering;
mod picking;
mod roots;
mod rows;
mod stretches;
mod tree;

pub use children::{Free, unknown_child, unknown_children};
pub use picking::Taken;
pub use rows::{Mark, NodeId};
pub use tree::{MOST_ROOTS, Tree};
