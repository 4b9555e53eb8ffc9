//! Tests of the public calls of sessions, workers, runs and looks.
//!
//! Each crate that is tested has a file here, and a shared bench has one of its own.
#![tactic(auto)]

#[cfg(test)]
mod looks;
#[cfg(test)]
mod runs;
#[cfg(test)]
mod sessions;
#[cfg(test)]
mod shared_benches;
#[cfg(test)]
mod workers;
