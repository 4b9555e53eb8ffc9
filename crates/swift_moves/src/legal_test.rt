//! Whether a move is legal, found without memory.
ghost use Rattle.std.specs.Prelude.{◌≡◌, ◌≤◌, ◌↔◌, ◌&&◌, not, length, IsTrue};
ghost use Rattle.draughts_board.specs.Board.{cell_at};
ghost use Rattle.draughts_board.specs.Rules.{first_square, last_square, jumped, contains, goes_on, is_step, is_crowned_on, IsLegal};
ghost use Rattle.draughts_board.specs.Play.{is_capture, is_lone_step};
ghost use Rattle.draughts_board.specs.Masks.{IsMaskOf};
ghost use Rattle.swift_moves.specs.Forces.{AreForces};

use crate::captures::{is_crowned_on, is_done, jump_targets, with_jump};
use crate::forces::Forces;
use crate::masks::holds;
use crate::movers::{has_jump, is_own, piece_at};
use crate::steps::step_targets;
use draughts_board::path_ends::{first, last};
use draughts_board::{Move, Position, Square};

/// The capture goes on behind the path, which has jumped over the pieces of `taken`, with a jump to
/// the square: no crowning ends it before.
fn is_continued(p: &Position, f: &Forces, path: &[Square], taken: u32, to: Square) -> bool
    requires forces { AreForces p.now f.now }
    requires some { 1 ≤ length path.now }
    requires taken { IsMaskOf (contains (jumped path.now)) taken }
    ensures { result ≡ (goes_on p.now path.now to
        && not (is_crowned_on (cell_at p.now (first_square path.now)) (last_square path.now))) }
{
    holds(jump_targets(p, f, path, taken), to)
        && !is_crowned_on(piece_at(p, f, first(path)), last(path))
}

/// The path is a capture.
fn is_capture(p: &Position, f: &Forces, path: &[Square]) -> bool
    requires forces { AreForces p.now f.now }
    requires some { 1 ≤ length path.now }
    ensures { result ≡ is_capture p.now path.now }
{
    if !is_own(p, first(path)) {
        return false;
    }
    let mut taken = 0;
    for i in 1..path.len() {
        let so_far = &path[..i];
        let to = path[i];
        if !is_continued(p, f, so_far, taken, to) {
            return false;
        }
        taken = with_jump(so_far, taken, to);
    }
    is_done(p, f, path, jump_targets(p, f, path, taken))
}

/// The piece on the one square may step to the other.
#[inline]
pub(crate) fn is_step(p: &Position, f: &Forces, from: Square, to: Square) -> bool
    requires { AreForces p.now f.now }
    ensures { result ≡ is_step p.now from to }
{
    holds(step_targets(p, f, from), to)
}

/// The path is a step, and no jump forbids it.
fn is_lone_step(p: &Position, f: &Forces, path: &[Square]) -> bool
    requires forces { AreForces p.now f.now }
    requires some { 1 ≤ length path.now }
    ensures { result ≡ is_lone_step p.now path.now }
{
    let start = first(path);
    path.len() == 2 && is_own(p, start) && is_step(p, f, start, last(path)) && !has_jump(p)
}

/// The move is legal in the position. Takes no memory.
pub fn is_legal(p: &Position, m: &Move) -> bool
    ensures { IsTrue result ↔ IsLegal p.now m.now }
{
    let f = Forces::of(p);
    let path = m.path();
    is_capture(p, &f, path) || is_lone_step(p, &f, path)
}
