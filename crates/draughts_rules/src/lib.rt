//! The rules of play of English draughts (WCDF): the legal moves of a position, and the positions
//! that they lead to.
//!
//! What the rules say stands in `specs/Rules.antt` of `draughts_board`, as relations on whole
//! paths, which compute nothing.
//!
//! Proved: `legal_moves` gives exactly the legal paths, each once, in rising order. `successors`
//! gives exactly the distinct positions, each at the first move that gives it. `is_legal`, `apply`
//! and `has_move` are the definitions. `resolve` says which legal move a written one means, or that
//! it is illegal or ambiguous. `move_to` gives the first move to a position.
//!
//! Tests: board_tests/src/rules.rt
#![tactic(auto)]

mod captures;
mod cell_board;
mod jumps;
mod legal_test;
mod move_lists;
mod near_squares;
mod next;
mod pieces;
mod resolution;
mod square_list;
mod steps;

pub use draughts_board::ResolveRefusal;
pub use legal_test::is_legal;
pub use move_lists::{has_move, legal_moves};
pub use next::{apply, move_to, successors};
pub use resolution::{PlainMoves, resolve};
