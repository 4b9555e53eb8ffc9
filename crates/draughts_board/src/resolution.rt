//! Moves as they are written: which moves are written so, and why a written one means no legal
//! move.
ghost use Rattle.std.specs.Prelude.{◌≡◌, ◌≤◌, ◌==◌, ◌&&◌, length};
ghost use Rattle.draughts_board.specs.Rules.{first_square, last_square};
ghost use Rattle.draughts_board.specs.Resolution.{lies_between, is_written};

use crate::path_ends::{first, last};
use crate::paths::Move;
use crate::squares::Square;
use std::alloc::AllocError;

/// Why a written move means no legal one.
#[derive(Clone, Copy, PartialEq, Eq, Debug, thiserror::Error)]
pub enum ResolveRefusal {
    /// No legal move is written so.
    #[error("no legal move is written so")]
    Illegal,
    /// Legal moves that lead to different positions are written so: the first of them, and the
    /// first that leads elsewhere than that one.
    #[error("{0} and {1} are both written so, and lead to different positions")]
    Ambiguous(Move, Move),
    /// There was no memory for the legal moves.
    #[error("out of memory")]
    Memory(AllocError),
}

/// The path has these ends.
fn has_ends(path: &[Square], from: Square, to: Square) -> bool
    requires { 1 ≤ length path.now }
    ensures { result ≡ (first_square path.now == from && last_square path.now == to) }
{
    first(path) == from && last(path) == to
}

/// No squares are named, or they are those between the ends of the path.
fn is_between_ends(path: &[Square], middle: &[Square]) -> bool
    requires { 2 ≤ length path.now }
    ensures { result ≡ lies_between path.now middle.now }
{
    middle.is_empty() || &path[1..path.len() - 1] == middle
}

/// The move is written with these ends, and with these squares in between if any are named.
pub fn is_written(m: &Move, from: Square, middle: &[Square], to: Square) -> bool
    ensures { result ≡ is_written from middle.now to m.now }
{
    let path = m.path();
    has_ends(path, from, to) && is_between_ends(path, middle)
}
