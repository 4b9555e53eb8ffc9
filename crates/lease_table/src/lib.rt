//! Leases that run out by number: leave for one worker to search one leaf of the tree.
//!
//! A lease's number is the count of leases given, itself among them. It lives while the number now
//! is below its own and the limit, or while it is kept because its result is staged. No clock is
//! read.
//!
//! Proved: which lease lives at a number, which node is leased, and what giving, keeping, ending
//! and sweeping make of the rows, exactly. A stale lease is refused and changes nothing. `laws`:
//! sweeping changes no answer about its number or a later one.
//!
//! Tests: board_tests/src/leases.rt
#![tactic(auto)]

pub mod laws;
mod leases;
mod table;

pub use leases::{Lease, LeaseId, Row, Stale};
pub use table::Leases;
