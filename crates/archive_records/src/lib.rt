//! What is told of an archive: its games, each with its tags, its position, its moves and its result,
//! and notes on what is at fault or doubtful in them, each with its place.
//!
//! [`Kept`] has the game that is open and those that have ended. `archive_games` fills it from an
//! archive's signs.
//!
//! Proved: which notes leave a game out, which are doubtful readings, and which tell a change. A game
//! that is kept has no place behind the last sign that was reached. When a game ends, the next one has
//! nothing of it.
//!
//! Tests: archive_tests/src/games.rt
#![tactic(auto)]

mod game;
mod kept;
mod notes;

pub use game::{ArchiveGame, ArchiveMove, ArchiveTag, FoundPosition, FoundResult};
pub use kept::Kept;
pub use notes::{Note, NoteKind, Weight};
