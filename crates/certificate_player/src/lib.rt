//! A player that follows a certificate: against whatever replies it never loses what its side
//! holds, and wins what its side wins.
//!
//! A [`Player`] has a certificate that the checker accepted, and plays one side of its position.
//! At a position that has an entry it makes the entry's move, elsewhere one by the answers of an
//! endgame table. `specs/Plays.antt` says what it keeps, `specs/Choices.antt` which move it makes.
//!
//! Proved: at every moment of every play the side holds the position, so it never stands without a
//! move. Where the certificate claims the side's win, the player keeps a rank, within which many
//! plies the side wins, and each move of either side makes it smaller. So against every list of
//! replies the other side stands without a move after at most as many plies as the first rank. A
//! reply is refused exactly as `resolve` refuses it, and what is refused changes nothing.
//!
//! Tests: player_tests/src/players.rt
#![tactic(auto)]

pub mod laws;
mod moves;
mod player;
mod ranks;

pub use moves::chosen_move;
pub use player::{Player, own_part};
pub use ranks::{first_rank, next_rank};
