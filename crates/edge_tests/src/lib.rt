//! Tests of the public calls of the program's edges: the words that it is called with, its sources,
//! its sinks and its statuses.
//!
//! Each has a file here.
#![tactic(auto)]

#[cfg(test)]
mod printed;
#[cfg(test)]
mod sinks;
#[cfg(test)]
mod sources;
#[cfg(test)]
mod words;
