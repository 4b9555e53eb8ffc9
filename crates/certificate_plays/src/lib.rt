//! A play by a certificate against the lines of a source: a player makes the moves of one side, and
//! each line is one move of the other.
//!
//! [`played`] plays from the certificate's position to the end of the source, and answers the moves
//! that the side made and where the play stands. A line is read as a move is read in a game
//! (`pdn_text::item_at`). `specs/Plays.antt` says what a play is, `specs/Lines.antt` what a line says.
//!
//! Proved: the moves that are answered and those of the lines, taken in turn, are a play from the
//! certificate's position, and each line was used. The side holds each position of it, and wins
//! each where the certificate claims its win. A play is refused exactly where the side does not
//! hold, or at the first line that is no move, means none or several, or stands behind a play that
//! is won, unless memory ran out.
//!
//! Tests: player_tests/src/plays.rt
#![tactic(auto)]

mod lines;
mod plays;
mod refusals;

pub use lines::split_line;
pub use plays::{FinishedPlay, played};
pub use refusals::{LineFault, LinesRefusal};
