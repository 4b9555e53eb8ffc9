//! What a journal shows to one who only looks at it: the report on its roots, and a certificate of
//! a root's value. Nothing is written to it.
//!
//! What is shown, and what is left of the disk, stands in `specs/Looks.antt`.
//!
//! Proved, whatever the disk tells: the values are true, the report says whether each root has one,
//! and the certificate of `certify` is good by each sound table, and checked before it is given. Proved of an honest disk: the report is on
//! the roots of the records that it reads as, and says whether each is settled; the certificate
//! claims the value of the root that was asked, counted from 1. A journal's flaw, the first payload
//! that is no lawful record, a root that is not there and one without a value are each refused
//! exactly where they stand, unless the disk failed or memory ran out. The disk reads as before,
//! and a crash may leave of it what it might have left before. `read_records` gives the records
//! themselves, with the bytes that spell them, and `read_bench` what they make.
//!
//! Tests: session_tests/src/looks.rt
#![tactic(auto)]

mod looks;
mod reading;
mod refusals;

pub use looks::{certify, report};
pub use reading::{JournalRecords, read_bench, read_records};
pub use refusals::LookRefusal;
