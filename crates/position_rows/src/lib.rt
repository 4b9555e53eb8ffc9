//! Rows by their positions, whose look-up nobody who chooses the positions can make slow.
//!
//! A position's hash names a window of eight slots in a table. Whoever knows the hash can choose
//! positions that fill one window, and no more than that: behind a window without a free slot the
//! rows stand in a tree, looked up by the digits of a word of 128 bits. Positions with other pieces
//! have other words, so among rows that stay no look-up takes more than 8 slots and 130 nodes. A row
//! that is taken back leaves its node until the table is made anew.
//!
//! Proved: the rows are those that were noted, in their order, and no position stands twice. A
//! look-up tells the place of a position's row and what stands beside it, or that it has none. Where
//! there is room nothing fails, and a call that fails changes no row.
//!
//! Tests: board_tests/src/rows.rt
#![tactic(auto)]

mod index;
mod rows;
mod tables;
mod tree;
mod windows;
mod words;

pub use rows::PositionRows;
