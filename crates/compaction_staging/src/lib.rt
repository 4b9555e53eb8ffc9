//! Staging a shorter list of records in a journal.
//!
//! [`stage_compacted`] goes over the payloads of a journal that a bench has replayed, and stages the
//! texts of a list that stands for their records (`journal_compaction`): of a settled root one Solve,
//! by the parts of its joined certificate with short ranks, and of an unsettled root each record,
//! with the number that its node has in the new list's forest.
//!
//! Proved: what is staged spells a list that stands for the records of the bench.
//!
//! Tests: compaction_tests/src/compactions.rt
#![tactic(auto)]

mod naming;
mod showing;
mod staging;

pub use staging::stage_compacted;
