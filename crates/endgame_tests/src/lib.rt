//! Tests of the public calls that find what an endgame is worth: slices, and proof numbers.
//!
//! What is expected was worked out by a program of another kind.
#![tactic(auto)]

#[cfg(test)]
mod endgames;
