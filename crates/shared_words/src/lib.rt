//! Words that several crates share: of bytes and texts, of numbers in decimal, of counts, and of
//! answers that are exact unless memory runs out; and the few calls that read and write such texts.
//!
//! It is the lowest crate: it knows nothing of draughts.
//!
//! Proved: a number has one decimal spelling, by which it is read and written. A text is split at
//! the first of a byte, and behind a number's big-endian bytes. An exact answer is a good value, or
//! the one fault that stands, unless memory ran out. A contract sees an `ItemList` as its items,
//! and what it means that a count of faults rose is said here once.
//!
//! Tests: text_tests/src/words.rt
#![tactic(auto)]

mod big_endian;
mod decimals;
pub mod examples;
mod lists;
mod splitting;

pub use big_endian::{split_u32, split_u64};
pub use decimals::{number, number_to, push_number};
pub use lists::ItemList;
pub use splitting::split_once;
