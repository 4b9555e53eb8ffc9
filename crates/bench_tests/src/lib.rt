//! Tests of `bench` with the objects in memory.
//!
//! Its commands, its journals one run after the other, its limits, and objects that fail.
#![tactic(auto)]

#[cfg(test)]
mod certificate_tests;
#[cfg(test)]
mod failing_tests;
#[cfg(test)]
mod handing_back_tests;
#[cfg(test)]
mod journal_tests;
#[cfg(test)]
mod lesson_tests;
#[cfg(test)]
mod limit_tests;
#[cfg(test)]
mod runs_of_tests;
#[cfg(test)]
mod solve_tests;
#[cfg(test)]
mod table_tests;
