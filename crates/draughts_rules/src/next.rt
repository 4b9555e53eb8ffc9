//! The positions after a position.
ghost use Rattle.std.specs.Prelude.{◌≡◌, ◌≢◌, ◌↔◌, ℕ, List, IfOk, IfSome, IsNone, Contains, fold};
ghost use Rattle.draughts_board.specs.Rules.{IsLegal, AreSuccessors, after, jumped, put};
ghost use Rattle.draughts_board.specs.Play.{legal_paths, first_to, successors_of};

use crate::move_lists::legal_moves;
use crate::pieces::at_rest;
use draughts_board::path_ends::{first, last};
use draughts_board::{Cell, Move, Position, Square};
use std::alloc::{AllocError, Global};

/// Takes off the pieces that the path jumps over.
fn take_jumped(p: &mut Position, path: &[Square])
    ensures { p.new ≡ record {
      cells = fold (λ cells n. put cells n Cell.Empty) p.old.cells (jumped path.now);
      to_move = p.old.to_move;
    } }
{
    if let [from, to, ..] = path {
        if from.is_jump_apart(*to) {
            *p = p.without(from.between(*to));
        }
        take_jumped(p, &path[1..]);
    }
}

/// The position after a legal move: the piece stands on the path's last square, the pieces that it
/// jumped over are gone, a man on its farthest row is a king, and the other side is to move.
pub fn apply(p: &Position, m: &Move) -> Position
    requires { IsLegal p.now m.now }
    ensures { result ≡ after p.now m.now }
{
    let path = m.path();
    let from = first(path);
    let to = last(path);
    let piece = at_rest(p.at(from), to);
    let mut cleared = p.without(from);
    take_jumped(&mut cleared, path);
    cleared.with(to, piece, p.to_move().other())
}

/// The positions that the legal moves lead to, each once, in the order of the first move that gives
/// it.
pub fn successors(alloc: Global, p: &Position) -> Result<Vec<Position>, AllocError>
    ensures exact { IfOk result (λ next. next.items ≡ successors_of p.now) }
    ensures rules { IfOk result (λ next. AreSuccessors p.now next.items) }
{
    let moves = legal_moves(alloc, p)?;
    let mut next = Vec::new(alloc);
    for m in &moves {
        let q = apply(p, m);
        if !next.contains(&q) {
            next.push(q)?;
        }
    }
    Ok(next)
}

/// The first of the moves, which are legal, that leads to `next`.
fn first_to(p: &Position, next: &Position, moves: &[Move]) -> Option<Move>
    requires { (path : List ℕ) → Contains moves.now path → IsLegal p.now path }
    ensures { result ≡ first_to p.now next.now moves.now }
{
    for m in moves {
        if apply(p, m) == *next {
            return Some(*m);
        }
    }
    None
}

/// The first legal move, in rising order of path, that leads to `next`; none exactly where no legal
/// move leads there.
pub fn move_to(alloc: Global, p: &Position, next: &Position) -> Result<Option<Move>, AllocError>
    ensures exact { IfOk result (λ found. found ≡ first_to p.now next.now (legal_paths p.now)) }
    ensures some { IfOk result (λ found. IfSome found (λ path.
        IsLegal p.now path × (after p.now path ≡ next.now))) }
    ensures none { IfOk result (λ found. IsNone found
        ↔ ((path : List ℕ) → IsLegal p.now path → after p.now path ≢ next.now)) }
{
    let moves = legal_moves(alloc, p)?;
    Ok(first_to(p, next, &moves))
}
