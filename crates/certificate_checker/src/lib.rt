//! The checker of certificates. It knows the rules of play and the answers of an endgame table, and
//! nothing of search: what it accepts is true, however it was found.
//!
//! A [`Proved`] is a certificate that was accepted; its claim is true by its type. An [`Exhausted`]
//! says by its type that looking as far ahead as was asked shows neither the goal's win nor the
//! other side's hold.
//!
//! Proved: `check` accepts exactly the certificates that are good by a sound oracle, and refuses
//! exactly for what fails first, with part and entry from 1. It hands the certificate back. `prove` and
//! `prove_part` check what is good, and fail only for want of memory. `told` and `told_by_all` give
//! exactly the facts that a claim, or certificates of one position together, say or imply.
//!
//! Tests: bench_tests/src/certificate_tests.rt
#![tactic(auto)]

mod checking;
mod claimed;
mod due;
mod faults;
mod holds;
pub mod laws;
mod outcomes;
mod parts;
mod proving;
mod refusals;
mod shown;
mod wins;

pub use checking::{Proved, check};
pub use claimed::{told, told_by_all};
pub use outcomes::{ChildList, Exhausted, MOST_DEPTH, Outcome, ProofList};
pub use proving::{prove, prove_part};
pub use refusals::CheckRefusal;
