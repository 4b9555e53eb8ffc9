//! A session: a bench and a journal that say the same; and one session that many threads enter in
//! turn.
//!
//! A session's line is its history: the records that were replayed and those that were staged, the
//! leases that were given and ended, the commits that were acknowledged, and the one fault that
//! broke it (`specs/Entries.antt`). What a line stands for, and how it comes about, stands in
//! `specs/Lines.antt`, `specs/LiveLeases.antt` and `specs/Histories.antt`; what its disk keeps of
//! it, in `specs/Receipts.antt`.
//!
//! Proved: each call appends exactly its entries, each of which might come next, and the bench
//! stands where the line leads. A session has failed exactly where its line ends with its fault,
//! which the disk counted. A commit raises the disk's moment by at most four; of several roots all
//! are begun or none. On an honest disk `attach` replays exactly what it has, and each refusal says
//! its cause. Every image of a crash since an acknowledged moment reads as lawful records, which
//! begin with all those acknowledged by then and end within those of the line.
//!
//! Proved of a `SharedBench`, which threads enter each with a pass: what a pass has seen is a
//! beginning of what stands. Each call is one turn, and answers what the session's call of that
//! name answers in the state that the turn found. Between `enter` and `leave` a thread has a
//! `Turn`, for several calls in one turn: it leaves the session that it found, whose line went on
//! by what those calls add, on the same disk.
//!
//! `laws`: a line tells the core to which it leads, whose roots are those begun. A file reads as
//! one list of records, and one for which a session is refused as none.
//!
//! Tests: session_tests/src/sessions.rt, session_tests/src/shared_benches.rt,
//! session_trial/src/main.rt
#![tactic(auto)]

mod counting;
mod entries;
mod held;
pub mod laws;
mod marks;
mod parts;
mod refusals;
mod replaying;
mod roots;
mod session;
mod shared;
mod turn;

pub use counting::RootCounts;
pub use entries::{Attachment, Entry};
pub use held::HeldSession;
pub use refusals::{BeginRefusal, CommitRefusal, StageRefusal};
pub use replaying::replay_payloads;
pub use session::Session;
pub use shared::{BenchPass, SharedBench};
pub use turn::Turn;
