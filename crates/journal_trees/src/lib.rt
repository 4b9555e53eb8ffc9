//! What is shown of a root's tree: its nodes, the nearest first, each with what the tree has of it.
//!
//! All nodes down to a ply are shown, the deepest ply to which they are few enough (`specs/Trees.antt`).
//! What is shown of a node stands in `specs/Sights.antt`.
//!
//! Proved: the nodes that [`shown_tree`] gives are those of the forest down to that ply, each once, behind the
//! one above it, with their depths, moves, positions, marks, facts and numbers, and `next` at the leaf that one
//! worker alone would search next. There are no more of them than may be shown, but for the root.
//!
//! Tests: report_tests/src/trees.rt
#![tactic(auto)]

mod nodes;
mod trees;

pub use nodes::ShownNode;
pub use trees::{ShownTree, shown_tree};
