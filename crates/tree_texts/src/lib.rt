//! A root's tree as text, a line a node, and as JSON, an object a line.
//!
//! How a node is written stands in `specs/TreeTexts.antt` and `specs/Json.antt`: it is ASCII alone, and no
//! byte of the JSON needs an escape.
//!
//! Proved: [`shown_text`] writes exactly the texts of `specs/`, of the nodes that `journal_trees` shows, and counts
//! them.
//!
//! Tests: report_tests/src/trees.rt
#![tactic(auto)]

mod json;
mod shown;
mod texts;

pub use json::tree_json;
pub use shown::shown_text;
pub use texts::{push_head, push_state, tree_text};
