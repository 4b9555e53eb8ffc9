//! The line of play behind the claim of a certificate that the checker accepted.
//!
//! [`line_of`] gives the line of a win, or of a draw for a number of plies. `specs/Lines.antt` says
//! what a line is.
//!
//! Proved: each move of a line is legal in the position that those before it lead to, from the
//! certificate's position on. The line of a win has the winner's moves by the certificate, and of the
//! other side's legal replies one behind which the kept rank is the greatest. It ends where the other
//! side has no legal move, after no more plies than its first rank, within which the side wins. In the
//! line of a draw each side makes the move by which its part holds; the end is still a draw. Down to the
//! ply that is asked each legal move of a side against a part has a variation, but the one of the line:
//! its moves are legal, and the play behind it goes on by the part (`specs/Variations.antt`).
//!
//! Tests: player_tests/src/lines.rt
#![tactic(auto)]

mod drawn;
mod line;
mod plies;
mod replies;
mod variations;
mod won;

pub use line::{Lengths, Line, line_of};
pub use variations::Variation;
