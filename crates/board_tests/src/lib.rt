//! Tests of the public calls of the board, its rules, its two generators, indices, numbers, leases,
//! rows of positions and distinct positions.
//!
//! Each crate that is tested has a file here. Both generators resolve the same written moves.
#![tactic(auto)]

#[cfg(test)]
mod distinct;
#[cfg(test)]
mod generated;
#[cfg(test)]
mod indices;
#[cfg(test)]
mod leases;
#[cfg(test)]
mod numbers;
#[cfg(test)]
mod positions;
#[cfg(test)]
mod rows;
#[cfg(test)]
mod rules;
