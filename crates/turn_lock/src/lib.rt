//! The turn lock: one value that many threads change in turn, with a history that each of them can
//! only see growing.
//!
//! A value stands for a list of entries (`Kept`). A `TurnLock` owns it, and a thread reaches it
//! with a `Pass`. The pass that has the turn has the value in hand, until it gives both back.
//! Beside that, each pass has a front: the entries of the value as this pass last saw them.
//!
//! Proved, at every moment and whatever the other threads do:
//!
//! - Each front is a beginning of the value's entries, and the entries behind it pass the value's
//!   own test.
//! - While nobody has the turn the value is in the lock, and the lock's count word is the number of
//!   its entries.
//! - At most one pass has the turn.
//!
//! So what a pass has seen is never taken back: no turn can put an older value in its place, nor
//! drop what another pass added. Nothing is promised of who is next, or of when.
#![tactic(auto)]

mod kept;
mod lock;
mod plays;
mod steps;
#[cfg(test)]
mod tests;
mod view;

pub use kept::Kept;
pub use lock::{Pass, TurnLock};
