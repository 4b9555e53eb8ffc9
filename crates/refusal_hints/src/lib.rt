//! What a person at a terminal is told of a refusal: a text that says where its cause stands, how
//! the source reads there, what is wrong, and what may be written in its place.
//!
//! [`hint`] makes it of the refusal, the words of the command line and the source's bytes, and
//! reads nothing else. [`failed_text`] and its like tell of the journal's file.
//!
//! Proved: whatever these hold, the text is printable ASCII and line ends. Where the refusal names
//! a byte, it begins with the line and the column of exactly that byte. `legal_moves_text` lists
//! exactly the legal moves. The wording is tested.
//!
//! Tests: report_tests/src/hints.rt
#![tactic(auto)]

mod boards;
mod certificates;
mod disks;
mod fen_lines;
mod fens;
mod game_types;
mod games;
mod hints;
mod journals;
mod move_lists;
mod pdn;
mod signs;
mod tables;
mod tag_faults;
mod words;

pub use boards::say_position;
pub use disks::{failed_text, missing_text, other_run_text};
pub use hints::hint;
pub use move_lists::legal_moves_text;
