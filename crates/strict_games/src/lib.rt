//! Games as they are written in the strict profile that `solve` reads.
//!
//! A [`Draft`] is a game being written: where it begins, its tags, its moves, and the position that
//! they lead to. `specs/Drafts.antt` says what a text of it is.
//!
//! [`OpeningGroups`] gathers games by the position that they lead to, and [`group_text`] writes one
//! game for all of a group, with a tag that lists them.
//!
//! Proved: a move is taken only if it means exactly one legal move. `read_games` reads a draft's text
//! as exactly one game, with the draft's tags and moves, which begins where the draft began and leads
//! to the position where it stands. A group's tag lists each of its games once.
//!
//! Tests: text_tests/src/drafts.rt
#![tactic(auto)]

mod draft;
mod groups;
pub mod laws;
mod lone;
mod printing;
mod ranges;
mod spelling;
mod tags;
mod wording;

pub use draft::Draft;
pub use groups::{OpeningGroups, group_text};
pub use printing::{Layout, Score};
pub use tags::TagRefusal;
