//! All positions below one, worked out backwards from the end, slice by slice.
//!
//! A slice is all positions with the same men on the same squares and the same numbers of kings. Men only advance, so
//! steps of men, crownings and captures lead to other slices, which are worked out before; inside a slice only kings
//! step. A position takes two bytes while its slice is worked at, and one afterwards.
//!
//! Proved: each call ends and is safe. Nothing else is promised of what is found: what is made of it goes to the checker.
#![tactic(auto)]

mod bits;
mod choices;
mod keys;
mod movers;
mod outlooks;
mod slices;
mod solving;
mod values;
mod walks;

pub use slices::Slices;
pub use solving::solve_below;
