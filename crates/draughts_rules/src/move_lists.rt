//! The legal moves, and whether there is one.
ghost use Rattle.std.specs.Prelude.{◌≡◌, ◌↔◌, ℕ, List, not, IsTrue, IfOk};
ghost use Rattle.draughts_board.specs.Rules.{IsLegal, AreLegalPaths};
ghost use Rattle.draughts_board.specs.Play.{is_nil, legal_paths};

use crate::captures::captures;
use crate::cell_board::CellBoard;
use crate::jumps::has_jump;
use crate::pieces::own_squares;
use crate::steps::{has_step, steps};
use draughts_board::{Move, Position};
use std::alloc::{AllocError, Global};

/// The legal moves on the board, each once, in rising order of their paths.
fn moves_on(alloc: Global, p: &CellBoard) -> Result<Vec<Move>, AllocError>
    ensures exact { IfOk result (λ moves. moves.items ≡ legal_paths p.now) }
    ensures rules { IfOk result (λ moves. AreLegalPaths p.now moves.items) }
{
    let own = own_squares(p);
    let found = captures(alloc, p, own.as_slice())?;
    if found.is_empty() {
        steps(alloc, p, own.as_slice())
    } else {
        Ok(found)
    }
}

/// The legal moves, each once, in rising order of their paths, which are compared square by square.
///
/// A side that can capture must (WCDF rules), so these are the captures where there is one, and
/// else the steps. There is none where the player to move is blocked or has no pieces.
pub fn legal_moves(alloc: Global, p: &Position) -> Result<Vec<Move>, AllocError>
    ensures exact { IfOk result (λ moves. moves.items ≡ legal_paths p.now) }
    ensures rules { IfOk result (λ moves. AreLegalPaths p.now moves.items) }
{
    moves_on(alloc, &CellBoard::of(p))
}

/// The side to move has a legal move on the board.
fn has_move_on(p: &CellBoard) -> bool
    ensures rules { IsTrue result ↔ ((path : List ℕ) × IsLegal p.now path) }
    ensures listed { result ≡ not (is_nil (legal_paths p.now)) }
{
    has_jump(p) || has_step(p)
}

/// The side to move has a legal move. Takes no memory.
pub fn has_move(p: &Position) -> bool
    ensures rules { IsTrue result ↔ ((path : List ℕ) × IsLegal p.now path) }
    ensures listed { result ≡ not (is_nil (legal_paths p.now)) }
{
    has_move_on(&CellBoard::of(p))
}
