//! Workers at a shared bench: each leases leaves, searches them, stages what it found and commits
//! it, until there is nothing to lease.
//!
//! How a worker ended is shown by the front of its pass (`specs/Work.antt`), and by nothing else:
//! what the other workers did, and in which order, is known only as far as that front has it.
//!
//! Proved: the front of a pass goes on by entries that turns may add. With `Done` or `Spent` it is
//! of a state in which a worker is answered so; with `Failed` it ends with the fault of the disk. A
//! gate that wants to look at the bench is shown it in a turn that changes nothing.
//! `run_workers` works in threads, and then in the caller. `search_together` searches leaves that a
//! session alone has leased, in threads, and touches no session: it answers each lease, in their
//! order, by the outcome of its own search (`specs/Found.antt`). What a lease asks for is searched
//! by `search_lease` alone, whose outcome is the lease's.
//!
//! That searches run at the same time is tested and not proved. That a worker who waits for a leaf
//! sleeps is not proved.
//!
//! Tests: session_tests/src/workers.rt, worker_trial/src/main.rt
#![tactic(auto)]

mod found;
mod gates;
mod hand;
mod pauses;
mod searching;
mod threads;
mod together;
mod watched;
mod worker;

pub use found::LeafFound;
pub use gates::{Gate, MeetGate, OpenGate};
pub use searching::{can_search, search_lease};
pub use threads::run_workers;
pub use together::search_together;
pub use worker::{Ended, work};
