//! The rules of play of English draughts (WCDF) on masks: the legal moves of a position, and the
//! positions that they lead to, with the calls of `draughts_rules`.
//!
//! A mask of 32 bits holds squares: square n is the bit of value 2^(n - 1). Steps and jumps of all
//! pieces together are shifts of whole boards.
//!
//! Proved: each call of `draughts_rules` by its clauses there, word for word, and lists that are
//! filled anew without a `Vec` of their own. The two generators share no line that finds a move.
//!
//! Tests: board_tests/src/rules.rt, move_count_bench/src/main.rt
#![tactic(auto)]

mod captures;
mod counts;
mod forces;
mod legal_test;
mod masks;
mod masks_moved;
mod move_lists;
mod movers;
mod nearby;
mod next;
mod resolution;
mod steps;
mod ways;

pub use counts::count_successors;
pub use draughts_board::ResolveRefusal;
pub use legal_test::is_legal;
pub use move_lists::{has_move, legal_moves, legal_moves_into};
pub use next::{apply, move_to, successors, successors_into};
pub use resolution::{MaskMoves, resolve};
