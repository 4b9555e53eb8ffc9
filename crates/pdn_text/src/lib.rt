//! Games in Portable Draughts Notation: `read_games` reads a text's games, or answers the fault
//! that stands first in it, with its place.
//!
//! The accepted texts are a profile of PDN 3.0's tags and movetext. A text consists of items, one
//! after the other: tags, moves, results, move numbers, annotations, comments, variations, blanks.
//! `specs/Grammar.antt` says what each item is, `specs/Games.antt` which games the items make, and
//! `specs/Pdn.antt` which fault stands first. Places are byte offsets from 0.
//!
//! Proved: `read_games` gives exactly the games that the items make, with their tags, moves and
//! spans of bytes. It refuses exactly where a fault stands first, with its place. `item_at` gives
//! exactly the item at a place, or the fault there.
//!
//! Tests: text_tests/src/games.rt
#![tactic(auto)]

mod form;
mod game;
mod gather;
mod items;
mod reader;
mod refusal;
mod runs;
mod tags;
mod variations;
mod words;

/// How many games a text may have.
pub const MOST_GAMES: usize = 4096;

pub use game::{Game, MoveText, Tag};
pub use items::{Item, Sign};
pub use reader::{beginning, behind_skipped, item_at, read_games};
pub use refusal::PdnRefusal;
