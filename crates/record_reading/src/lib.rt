//! The records of a journal, read again one by one.
//!
//! A record's text names positions by the records before it, so the caller keeps the positions that those named.
//!
//! Proved: [`read_next`] gives the one record of which the bytes are the text, and fails only for want of memory.
//! `proofs/Readings.antt` says which record stands at a place of the payloads that a bench replayed.
#![tactic(auto)]

mod reading;

pub use reading::read_next;
