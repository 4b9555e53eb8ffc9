//! Tests of the public calls that read archives: what bytes are as signs, what words say, and which
//! games an archive has.
//!
//! Each crate that is tested has a file here. Whole archives of every dialect stand in
//! `crates/game_reader/data/archives`.
#![tactic(auto)]

#[cfg(test)]
mod games;
#[cfg(test)]
mod texts;
#[cfg(test)]
mod words;
