//! The core of the opening bench: a proof tree that only lawful records change, and the leases
//! under which its leaves are searched.
//!
//! A bench is a state machine. Its events are a lease that is asked for, a result that comes under
//! a live lease, a root that begins, and a release (`specs/States.antt`). Roots and results are
//! staged first, and applied together once they are recorded elsewhere ([`Bench::apply_staged`]).
//! Which records are lawful, and what each makes of the tree, stands in `specs/Growing.antt`.
//!
//! Proved: `lease` gives `Done`, `Spent`, `NoLeaf`, or the leaf that `pick` gives with those leased
//! taken, which is not decided at sight. `begin` stages a root, `ready` the record of a result
//! under a live lease; `ready_result` does so with a [`LeaseResult`], which was made without the
//! bench. Each gives the text of its record behind those applied and staged, whose positions are
//! named by numbers. `forget_ready` takes the last one back. `apply_staged` is its events in order.
//! `replay` reads a payload and applies its record, and refuses exactly what is no record's text,
//! or not lawful. After each refusal the bench is as it was. `certificate` joins.
//!
//! `laws`: every list of events leads from a sound state to a sound one, whose settled roots have
//! true values and in which no leaf has two leases. One list of records has one forest, whose roots
//! are those that it begins, and have a value exactly where they are resolved for both goals.
//!
//! Tests: core_trial/src/main.rt, session_tests/src/sessions.rt
#![tactic(auto)]

mod applying;
mod bench;
mod grown;
pub mod laws;
mod naming;
mod refusals;
mod replaying;
mod results;
mod settings;
mod shown;
mod staged;
mod taken;

pub use bench::Bench;
pub use refusals::{LeaseRefusal, ReadyRefusal, ReplayRefusal};
pub use results::LeaseResult;
pub use settings::{MOST_LEASE, MOST_WORK, Settings};
pub use taken::LeasedNodes;
