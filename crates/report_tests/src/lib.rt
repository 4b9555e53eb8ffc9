//! Tests of the public calls that write reports, refusals and hints.
//!
//! Each crate that is tested has a file here.
#![tactic(auto)]

#[cfg(test)]
mod answers;
#[cfg(test)]
mod hints;
#[cfg(test)]
mod path_disks;
#[cfg(test)]
mod reports;
#[cfg(test)]
mod trees;
