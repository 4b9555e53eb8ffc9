//! A page to look at: HTML that needs nothing else, with boards as inline SVG, a table of roots with a
//! bar for the work of each, a line of play as boards in a row, and a tree whose nodes open on a click
//! without a script.
//!
//! It is made of plain values: positions, numbers and texts. Markup is a tree of elements and texts
//! (`specs/Markup.antt`), and what is written is its text; so each element ends where it should, whatever
//! the texts say.
//!
//! Proved: each call writes exactly the text of the markup in `specs/`. What a text says is escaped: no
//! byte of it begins or ends a tag, and all of it is printable ASCII.
//!
//! Tests: page_tests/src/texts.rt
#![tactic(auto)]

mod boards;
mod markup;
mod nodes;
mod pages;
mod plays;
mod roots;

pub use boards::push_board;
pub use markup::push_text;
pub use nodes::{PageNode, push_tree};
pub use pages::{FOOT, HEAD, RootSight, push_sight, root_page, roots_page};
pub use plays::{PageStep, push_play};
pub use roots::{RootCells, push_table};
