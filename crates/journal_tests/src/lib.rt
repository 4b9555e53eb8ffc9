//! Tests of the public calls of disks and journals.
//!
//! Each crate that is tested has a file here.
#![tactic(auto)]

#[cfg(test)]
mod disks;
#[cfg(test)]
mod journals;
