//! Tests of the public calls that play by a certificate: a player, and a play against the lines of a
//! source, and the line of a certificate.
//!
//! The moves that are due were worked out by the rules of play.
#![tactic(auto)]

#[cfg(test)]
mod certificates;
#[cfg(test)]
mod lines;
#[cfg(test)]
mod players;
#[cfg(test)]
mod plays;
