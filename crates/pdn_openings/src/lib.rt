//! The openings of games: the position of each after its first plies.
//!
//! A game is one of English draughts unless its first `GameType` tag says otherwise. It begins from
//! the position of its first `FEN` tag, else from the start position. `specs/Openings.antt` says
//! what the openings of a list of games are, and `specs/Faults.antt` why a list of games has none.
//! Games and plies are counted from 1; places in the text are byte offsets from 0.
//!
//! Proved: `openings` gives exactly the openings of the games after the plies that are asked, or
//! exactly the fault of the first game that has one, unless memory ran out. A fault is another
//! variant, a FEN that is none, or a move that is illegal or ambiguous, with game, ply and byte.
//!
//! Tests: text_tests/src/openings.rt
#![tactic(auto)]

mod beginning;
mod laws;
mod opening;
mod playing;
mod refusal;

pub use laws::{openings_are_determined, openings_are_lawful};
pub use opening::{Opening, openings};
pub use refusal::OpeningRefusal;
