//! The search of a leaf: what looking some plies ahead shows of a position, each fact with a
//! strategy that proves it.
//!
//! Wins are ranked strategies, found by depth-first search with a memory of failures, and at greater
//! depths by proof numbers. Holds are closed sets of positions: those that a depth-first search
//! shows, and at greater depths larger ones that are grown from their front. At greater depths all
//! positions below the leaf are worked out too, if they are few enough. Whatever is found goes
//! through the checker.
//!
//! Proved: `search` gives one to four certificates about the position that the checker accepted,
//! with ranks of at most 2^40, one of which settles the goal. Each of the four facts that plain
//! unrolling to the depth shows is claimed or implied by one of them. `Exhausted` comes only where
//! unrolling shows neither the goal's win nor the other side's hold. Up to depth 4 nothing is spent
//! beyond that. What a `Memo` keeps is exact, by its type. `prove_fortress` gives a certificate that
//! the side holds, or none; nothing is promised of how it looks.
//!
//! Tests: proof_tests/src/searches.rt
#![tactic(auto)]

mod allowances;
mod beyond;
mod checked;
mod fortress;
mod holds;
mod leaf;
mod memo;
mod sight;
mod wins;

pub use fortress::prove_fortress;
pub use leaf::search;
pub use memo::Memo;
pub use sight::is_undecided;
