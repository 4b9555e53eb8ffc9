//! What the program writes: the report, a line for each root and a summary; the line on a table
//! that is sound, or on a claim that was verified; or the one line of a refusal.
//!
//! The texts are functions of what they say (`specs/Report.antt`, `specs/Refusals.antt`). The
//! refusals of a run are those of the readers and checkers below and its own; which is which is
//! said once, and `?` converts.
//!
//! Proved: `report`, `verified_line`, `learnt_text`, `sound_line` and `refusal_line` write exactly the
//! texts of `specs/`. `report_text` writes a value only behind a joined certificate that the checker
//! accepted. [`laws`] says what a reader of any front of a report may believe: values of true roots
//! are true, and roots that are apart stand in one line each. Each root's line is of one of the
//! roots, no other line is a root's, and no text without `root ` has one.
//!
//! Tests: report_tests/src/reports.rt
#![tactic(auto)]

mod benches;
mod conversions;
mod findings;
pub mod laws;
mod part_lines;
mod refusals;
mod reports;
mod roots;
mod written;

pub use benches::{is_settled, report_text, root_certificate, summary_text};
pub use findings::{learnt_text, sound_line, verified_line};
pub use refusals::{Refusal, refusal_line};
pub use reports::report;
pub use roots::Root;
pub use written::Written;
