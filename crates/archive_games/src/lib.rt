//! The games of an archive as it is: bytes come in pieces, and games are told one at a time, each with
//! its tags, its position, its moves, its result and notes on what is at fault or doubtful in it.
//!
//! It stands on the signs of `archive_text`. It knows squares and no rules of play: a move is the
//! squares that are written. A game that cannot be read is marked as left out, and the next one is
//! found behind it.
//!
//! Proved: each place told is of a byte that was fed, or of the end. Each call ends, and what it reads
//! is not read again. No call panics or overflows. How signs are understood is tested. Each sign is
//! taken once, in the state that the signs before it left, so reading takes time linear in the
//! archive; what is held is one game, and the bytes that were fed and not read yet.
//!
//! Tests: archive_tests/src/games.rt
#![tactic(auto)]

mod marks;
mod numbers;
mod reader;
mod reading;
mod results;
mod runs;
mod scopes;
mod tags;

pub use archive_records::{
    ArchiveGame, ArchiveMove, ArchiveTag, FoundPosition, FoundResult, Note, NoteKind, Weight,
};
pub use archive_text::{FeedRefusal, Place};
pub use archive_words::Outcome;
pub use reader::ArchiveReader;
