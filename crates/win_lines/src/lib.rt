//! The lines by which a side wins, found by proof numbers, and strategies made of wins that are known.
//!
//! Depth-first proof-number search (df-pn; Nagai, 2002) keeps the proof and the disproof number of each position that it has
//! looked at, and goes on where the proof seems nearest. Then the plies to the end are worked out backwards among the
//! positions that it has shown to be won. A strategy is what one choice of moves reaches of the wins that are known.
//!
//! Proved: each call ends and is safe, and a strategy is of the side that was asked, with ranks of at most
//! `MOST_FOUND_RANK`. Nothing else is promised of what is found: whoever uses it gives it to the checker.
#![tactic(auto)]

mod descent;
mod finding;
mod known;
mod numbers;
mod outlooks;
mod retrograde;
mod win_parts;

pub use finding::find_win_part;
pub use known::KnownWins;
pub use win_parts::win_part;
