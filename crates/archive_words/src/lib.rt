//! The words of games in an archive, without their places: runs of numbers, which are moves, results
//! or numbers of moves; words that tell a result; the texts of tags and of positions.
//!
//! It stands below `archive_games`, which cuts an archive into these words.
//!
//! Proved: each call ends, with no panic and no overflow, and answers what `specs/` says of its text:
//! which move, number or result a run is, what a word says, which tag stands between brackets and what
//! it names, and the FEN that is made of one. A move that is read has two to thirteen squares, and those
//! are the numbers of its run. That a person reads these words so is tested.
//!
//! Tests: archive_tests/src/words.rt
#![tactic(auto)]

mod fens;
mod outcome;
mod pairs;
mod runs;
mod signs;
mod tags;
mod words;

pub use fens::{clean_fen, is_like_fen};
pub use outcome::Outcome;
pub use pairs::{Numbered, Pair, number_at, pair_at};
pub use runs::{Join, Meaning, Run};
pub use signs::{is_cross, is_judgement, is_letter, is_silent};
pub use tags::{
    GameKind, TagName, TagText, game_kind, is_strict_name, tag_name, tag_text, unescaped,
};
pub use words::{Said, Word};
