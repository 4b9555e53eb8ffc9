//! Tests of the public calls that make a page to look at.
//!
//! Each crate that is tested has a file here.
#![tactic(auto)]

#[cfg(test)]
mod sights;
#[cfg(test)]
mod texts;
#[cfg(test)]
mod work;
