//! Lists that only proofs read: what was noted of a run whose contracts speak of all that happened, without a byte for it.
//!
//! A `Trace` is a list that stands in contracts alone, and a `CountedTrace` keeps its length beside it, in eight bytes. Nothing
//! at run time can read an item back.
//!
//! Proved: a `Trace` has what was noted, in order, each item behind those before it, and a `CountedTrace` tells how many.
#![tactic(auto)]

mod counted;
mod trace;

pub use counted::CountedTrace;
pub use trace::Trace;
