//! A second journal that stands for the first, in few records, and which of the two counts.
//!
//! [`compact`] reads a journal and writes a shorter one on a fresh disk: it has the same roots in
//! the same order, and of each settled root one record stands for all the work on it. The new
//! journal may be the longer one, where a root's certificate is large and its records were few.
//! [`choose`] says which of the two counts, whatever moment the making of the new one was stopped at.
//!
//! Proved of honest disks: the new journal reads as records that stand for those of the old one, and
//! so has the same roots, each with the same proof numbers for both goals and the same value; a crash
//! at any moment leaves of it no record or all of them; the old journal stays as it is; a disk of
//! more than 9 bytes is never written; each refusal comes exactly for its cause. `choose` answers
//! `New` exactly where the new journal has a payload, and writes nothing. So whatever a crash left, the
//! journal that it chooses has the roots of the old one (`laws`).
//!
//! Tests: compaction_tests/src/compactions.rt, compaction_tests/src/crashes.rt
#![tactic(auto)]

mod choosing;
mod compacting;
mod fresh;
pub mod laws;
mod refusals;
mod sizes;
mod writing;

pub use choosing::{Chosen, choose};
pub use compacting::compact;
pub use refusals::CompactRefusal;
pub use sizes::Sizes;
