//! Tests of public calls that make journals shorter.
//!
//! Journals stand here as bytes that are worked out from the format by hand, and so do the shorter
//! ones: what is written, what a crash leaves, and which of the two journals counts.
#![tactic(auto)]

#[cfg(test)]
mod compactions;
#[cfg(test)]
mod crashes;
