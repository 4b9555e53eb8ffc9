//! Tests of the public calls that read and write words, games, certificates and records, and of
//! what warns of games.
//!
//! Each crate that is tested has a file here.
#![tactic(auto)]

#[cfg(test)]
mod certificates;
#[cfg(test)]
mod drafts;
#[cfg(test)]
mod fens;
#[cfg(test)]
mod games;
#[cfg(test)]
mod opened;
#[cfg(test)]
mod openings;
#[cfg(test)]
mod records;
#[cfg(test)]
mod shared_positions;
#[cfg(test)]
mod terminals;
#[cfg(test)]
mod warnings;
#[cfg(test)]
mod words;
