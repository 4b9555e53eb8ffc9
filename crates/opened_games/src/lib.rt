//! Games by the positions that their openings lead to.
//!
//! An [`OpenedGames`] has the games of a source and the openings of each, and writes which games lead to
//! a position, as lines or as JSON. Whoever chooses the games cannot make
//! the look-up of a position slow (`PositionRows`).
//!
//! Proved: the numbers at a position are those of exactly the games whose openings stand there, in
//! order, and what is written of them is their lines, or a list of JSON (`specs/Json.antt`).
//!
//! Tests: text_tests/src/opened.rt
#![tactic(auto)]

mod json;
mod numbers;
mod opened;
mod texts;

pub use opened::OpenedGames;
