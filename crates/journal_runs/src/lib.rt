//! A run on a journal by any number of workers: it goes on with what the journal has, works, and
//! reports.
//!
//! What a run leaves of its disk, and what it writes, stands in `specs/Journals.antt`. `solve`
//! fills the endgame table and works by a `Plan`. It begins with a first pass: each root without a
//! value that was never searched has one search before any has a second one, and no expansion is
//! put before the last of them was leased (`specs/FirstPass.antt`). Then the plan's workers share
//! the session, and last it works alone: how it ends is said of the session that comes back, and
//! rests on no answer of a worker. Asked for the summary (`Account`), it writes the line that counts
//! the roots in place of the report.
//!
//! Proved, whatever the disk does: each value in the report is true, each opening stands in it
//! once, and a fault of the disk is answered only where it was counted. Proved of an honest disk
//! with nothing pending, however the run ends: each image that a crash may leave, from the opening
//! sync on, reads as the records of before and the first few of those that the run added. A disk
//! that reads as no journal stays as it was, each refusal comes for its cause, and nothing is
//! pending unless the disk's faults rose.
//!
//! Where the run on such a disk comes to its report, the journal reads as the old records and the
//! added ones, and the report is that of their forest. Its roots are the old ones and then the new
//! openings. A root is unsettled only if the run added as many work records as the session's
//! budget. None is unsettled where the budget was ample: looking ahead shows a value at each root
//! without one, and there is a record for each. And root by root: where each root without a value
//! is unexpanded, and a record and a lease are there for each of at most 4,096, each of them has
//! its value in the end of which looking ahead shows one, whatever the others are.
//!
//! Tests: session_tests/src/runs.rt
#![tactic(auto)]

mod alone;
pub mod examples;
mod first_pass;
mod refusals;
mod runs;
mod together;

pub use alone::work_alone;
pub use first_pass::MOST_FIRST;
pub use refusals::RunRefusal;
pub use runs::{Account, Plan, solve};
pub use together::work_together;
