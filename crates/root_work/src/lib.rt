//! How much work was spent in the tree of each root: how many of a journal's records are of its nodes.
//!
//! [`work_of_roots`] reads the records once more and walks each tree once (`specs/Work.antt`).
//!
//! Proved: of each root it gives the number of work records that are of nodes of its tree, the root
//! among them.
//!
//! Tests: page_tests/src/work.rt
#![tactic(auto)]

mod nodes;
mod roots;

pub use roots::work_of_roots;
