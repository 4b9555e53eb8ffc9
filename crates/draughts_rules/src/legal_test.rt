//! Whether a move is legal, found without memory.
ghost use Rattle.std.specs.Prelude.{◌≡◌, ◌≤◌, ◌↔◌, not, length, IsTrue};
ghost use Rattle.draughts_board.specs.Board.{cell_at};
ghost use Rattle.draughts_board.specs.Rules.{first_square, all_following, all_but_last, jumped, are_distinct, is_jump, is_crowned_on, IsLegal};
ghost use Rattle.draughts_board.specs.Play.{is_capture_so_far, is_capture, is_lone_step};

use crate::captures::is_done;
use crate::cell_board::CellBoard;
use crate::jumps::{further_jumps, has_jump, has_jumped, is_jump};
use crate::pieces::{is_crowned_on, is_own};
use crate::steps::is_step;
use draughts_board::path_ends::{first, last};
use draughts_board::{Cell, Move, Position, Square};

/// Each two following squares of the path are a jump of the piece that starts on `start`.
fn are_jumps(p: &CellBoard, start: Square, path: &[Square]) -> bool
    ensures { result ≡ all_following (is_jump p.now start) path.now }
{
    match path {
        [from, to, ..] => is_jump(p, start, *from, *to) && are_jumps(p, start, &path[1..]),
        _ => true,
    }
}

/// The path jumps over no square twice.
fn jumps_once(path: &[Square]) -> bool
    ensures { result ≡ are_distinct (jumped path.now) }
{
    match path {
        [from, to, ..] => {
            let rest = &path[1..];
            (!from.is_jump_apart(*to) || !has_jumped(rest, from.between(*to))) && jumps_once(rest)
        }
        _ => true,
    }
}

/// No square of the path but the last crowns the piece.
fn is_crowned_last(piece: Cell, path: &[Square]) -> bool
    ensures { result ≡ all_but_last (λ x. not (is_crowned_on piece x)) path.now }
{
    match path {
        [square, _, ..] => !is_crowned_on(piece, *square) && is_crowned_last(piece, &path[1..]),
        _ => true,
    }
}

/// No square of the path but the last crowns the piece that starts it.
fn crowns_only_last(p: &CellBoard, path: &[Square]) -> bool
    requires { 1 ≤ length path.now }
    ensures { result ≡ all_but_last
        (λ x. not (is_crowned_on (cell_at p.now (first_square path.now)) x)) path.now }
{
    is_crowned_last(p.at(first(path)), path)
}

/// The path is a capture, but for what may still have to follow it: its jumps are the mover's, over
/// no piece twice, and only its last square may crown.
fn is_capture_so_far(p: &CellBoard, path: &[Square]) -> bool
    requires { 1 ≤ length path.now }
    ensures { result ≡ is_capture_so_far p.now path.now }
{
    let start = first(path);
    is_own(p, start) && are_jumps(p, start, path) && jumps_once(path) && crowns_only_last(p, path)
}

/// The path is a capture.
fn is_capture(p: &CellBoard, path: &[Square]) -> bool
    requires { 1 ≤ length path.now }
    ensures { result ≡ is_capture p.now path.now }
{
    is_capture_so_far(p, path) && is_done(p, path, further_jumps(p, path).as_slice())
}

/// The path is a step, and no jump forbids it.
fn is_lone_step(p: &CellBoard, path: &[Square]) -> bool
    requires { 1 ≤ length path.now }
    ensures { result ≡ is_lone_step p.now path.now }
{
    let start = first(path);
    path.len() == 2 && is_own(p, start) && is_step(p, start, last(path)) && !has_jump(p)
}

/// The move is legal on the board.
fn is_legal_on(p: &CellBoard, m: &Move) -> bool
    ensures { IsTrue result ↔ IsLegal p.now m.now }
{
    let path = m.path();
    is_capture(p, path) || is_lone_step(p, path)
}

/// The move is legal in the position. Takes no memory.
pub fn is_legal(p: &Position, m: &Move) -> bool
    ensures { IsTrue result ↔ IsLegal p.now m.now }
{
    is_legal_on(&CellBoard::of(p), m)
}
