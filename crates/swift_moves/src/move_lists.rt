//! The legal moves.
ghost use Rattle.std.specs.Prelude.{◌≡◌, ◌↔◌, ℕ, List, not, IsTrue, IfOk, OnOk};
ghost use Rattle.draughts_board.specs.Rules.{AreLegalPaths, IsLegal};
ghost use Rattle.draughts_board.specs.Play.{is_nil, legal_paths};

use crate::captures::add_captures;
use crate::forces::Forces;
use crate::masks::is_any;
use crate::movers::{jumpers, steppers};
use crate::steps::add_steps;
use draughts_board::{Move, Position};
use std::alloc::{AllocError, Global};

/// How many moves or positions a new list has room for: more than nearly all positions have, so
/// that it does not grow.
pub(crate) const ROOM: usize = 16;

/// Puts the legal moves in place of what the list held, each once, in rising order of their paths,
/// which are compared square by square. Takes memory only where the list's own is too small.
///
/// A side that can capture must (WCDF rules), so these are the captures where there is one, and
/// else the steps. There is none where the player to move is blocked or has no pieces.
pub fn legal_moves_into(p: &Position, moves: &mut Vec<Move>) -> Result<(), AllocError>
    ensures exact { OnOk result (moves.new.items ≡ legal_paths p.now) }
    ensures rules { OnOk result (AreLegalPaths p.now moves.new.items) }
{
    moves.clear();
    let f = Forces::of(p);
    let jumpers = jumpers(&f);
    if is_any(jumpers) {
        add_captures(p, &f, jumpers, moves)
    } else {
        add_steps(p, &f, moves)
    }
}

/// The legal moves, each once, in rising order of their paths, which are compared square by square.
///
/// A side that can capture must (WCDF rules), so these are the captures where there is one, and
/// else the steps. There is none where the player to move is blocked or has no pieces.
pub fn legal_moves(alloc: Global, p: &Position) -> Result<Vec<Move>, AllocError>
    ensures exact { IfOk result (λ moves. moves.items ≡ legal_paths p.now) }
    ensures rules { IfOk result (λ moves. AreLegalPaths p.now moves.items) }
{
    let mut moves = Vec::with_capacity(alloc, ROOM)?;
    legal_moves_into(p, &mut moves)?;
    Ok(moves)
}

/// The side to move has a legal move. Takes no memory.
pub fn has_move(p: &Position) -> bool
    ensures rules { IsTrue result ↔ ((path : List ℕ) × IsLegal p.now path) }
    ensures listed { result ≡ not (is_nil (legal_paths p.now)) }
{
    let f = Forces::of(p);
    is_any(jumpers(&f) | steppers(&f))
}
