//! The board of English draughts: squares, pieces, positions and moves; and, in `specs/`, the rules
//! of play and who wins, which every other crate is proved against.
//!
//! A contract sees a square as its number from 1 to 32, a position as its 32 cells and the side to
//! move (a `Board`), and a move as its path, a list of squares. A position is kept as four masks of
//! 32 bits, which `masks` and `of_masks` give and take.
//!
//! Proved: each position keeps the rule on pieces, at most 12 a side and no man on its farthest
//! row, and its masks and its cells tell each other. `laws` has laws of the definitions, among them
//! that each position has exactly one value and that what looking ahead shows is true. `examples`
//! has 84 worked examples, proved by computation.
//!
//! Tests: board_tests/src/positions.rt
#![tactic(auto)]

mod cells;
mod display;
pub mod examples;
mod generators;
pub mod laws;
mod masks;
pub mod path_ends;
mod paths;
mod pieces;
mod positions;
mod resolution;
mod squares;

pub use generators::{MoveGenerator, resolve};
pub use paths::Move;
pub use pieces::{Cell, Side, Value};
pub use positions::{PlaceRefusal, Position};
pub use resolution::{ResolveRefusal, is_written};
pub use squares::Square;
