//! Tests of the public calls on certificates, tables, trees and searches.
//!
//! Each crate that is tested has a file here.
#![tactic(auto)]

#[cfg(test)]
mod census;
#[cfg(test)]
mod joining;
#[cfg(test)]
mod parts;
#[cfg(test)]
mod searches;
#[cfg(test)]
mod table_bytes;
#[cfg(test)]
mod tables;
#[cfg(test)]
mod trees;
