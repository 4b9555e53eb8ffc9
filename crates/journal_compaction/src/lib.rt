//! A shorter list of records that stands for a longer one.
//!
//! A journal keeps each record of work for ever. What its records make in the end can be had with
//! fewer: of a settled root one record stands for all the work on it, and of an unsettled root each
//! record is kept, with the node's number in the new forest (`specs/Compactions.antt`).
//! `compaction_staging` stages such a list in a journal.
//!
//! Proved: a list that stands for a lawful one is lawful in turn, and its forest has the same roots
//! in the same order, each with the same proof numbers for both goals, and so the same value.
#![tactic(auto)]

pub mod examples;
pub mod laws;
mod renaming;

pub use renaming::renamed;
