//! A page on the roots of a journal, and on one of them: what stands in its table, its line of play and
//! its tree.
//!
//! `page_text` writes the markup; here it is given what a tree, a census and a line have
//! (`specs/Cells.antt`, `specs/Steps.antt`, `specs/Sights.antt`).
//!
//! Proved: a row of the table says what the tree knows of its root; the line has each position behind
//! its moves; and the nodes of the page are those of the root's tree down to a ply, each once, within
//! the one above it, with what `tree_texts` says of it, and how many more there are.
//!
//! Tests: page_tests/src/sights.rt
#![tactic(auto)]

mod cells;
mod nodes;
mod sights;
mod steps;

pub use cells::page_cells;
pub use sights::sight_page;
pub use steps::play_steps;
