//! What a certificate teaches a journal: which records are added for it, or why none may be, and a
//! journal that learns it.
//!
//! A certificate about a position that no root has begins its root and solves it, or begins it alone
//! if the position is decided at sight. A root that is there and unexpanded is solved. An expanded
//! one refuses it. Nothing is added if a root is settled, or has all facts of the claim as its own.
//!
//! Proved: `lesson_for` answers what a certificate adds behind the records of a journal, or why
//! nothing may be added, exactly (`specs/Lessons.antt`). What is added is lawful behind them, and
//! then the position is a root that is settled or has all facts of the claim. Proved of an honest
//! disk: `learn` answers with the number of that root, and the journal reads as the records of
//! before and then those that are added. It is refused exactly for the causes that stand, unless
//! the disk failed or memory ran out. A crash at any moment leaves the records of before, or these
//! with all that is added. Whatever the disk tells, a fault is answered only if its count of faults
//! rose.
//!
//! Tests: bench_tests/src/lesson_tests.rt
#![tactic(auto)]

pub mod laws;
mod learning;
mod lessons;
mod recorded;
mod refusals;
mod teaching;

pub use learning::learn;
pub use lessons::{Lesson, lesson_for};
pub use refusals::LearnRefusal;
