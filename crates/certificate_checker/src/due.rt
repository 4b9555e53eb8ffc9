//! What is due at an entry: its move, and the positions at which the strategy has to go on.
ghost use Rattle.std.specs.Prelude.{◌≡◌, ◌↔◌, IfOk, OnSome, IsTrue};
ghost use Rattle.std.specs.Option.{ForSome};
ghost use Rattle.draughts_board.specs.Rules.{IsLegal};
ghost use Rattle.strategy_certificate.specs.Certificates.{HasDueMove, due_positions};
ghost use Rattle.certificate_checker.specs.Faults.{IsStuck};

use draughts_board::{Move, Position, Side};
use draughts_rules::{apply, is_legal, legal_moves, successors};
use std::alloc::{AllocError, Global};

/// The side's move is chosen and legal where it moves, and none is chosen elsewhere.
pub(crate) fn has_due_move(side: Side, p: &Position, chosen: &Option<Move>) -> bool
    ensures { IsTrue result ↔ HasDueMove side p.now chosen.now }
{
    match chosen {
        Some(path) => p.to_move() == side && is_legal(p, path),
        None => p.to_move() != side,
    }
}

/// The side moves and has no legal move.
pub(crate) fn is_stuck(alloc: Global, side: Side, p: &Position) -> Result<bool, AllocError>
    ensures { IfOk result (λ stuck. IsTrue stuck ↔ IsStuck side p.now) }
{
    if p.to_move() != side {
        return Ok(false);
    }
    let moves = legal_moves(alloc, p)?;
    Ok(moves.is_empty())
}

/// The position after the chosen move, or else every successor.
pub(crate) fn due_positions(
    alloc: Global,
    p: &Position,
    chosen: &Option<Move>,
) -> Result<Vec<Position>, AllocError>
    requires { ForSome chosen.now (IsLegal p.now) }
    ensures { IfOk result (λ due. due.items ≡ due_positions p.now chosen.now) }
{
    match chosen {
        Some(path) => {
            let mut due = Vec::new(alloc);
            due.push(apply(p, path))?;
            Ok(due)
        }
        None => successors(alloc, p),
    }
}
