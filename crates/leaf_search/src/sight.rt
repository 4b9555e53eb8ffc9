//! Whose turn it is, and what is decided at sight.
ghost use Rattle.std.specs.Prelude.{◌≡◌, ◌↔◌, IsTrue, MatchBool, false};
ghost use Rattle.draughts_board.specs.Board.{IsLawful, other};
ghost use Rattle.draughts_board.specs.Draughts.{draughts};
ghost use Rattle.draughts_board.specs.Game.{is_at_sight};

use draughts_board::{Position, Side};
use strategy_certificate::Oracle;
use swift_moves::has_move;

/// It is the side's turn.
pub(crate) fn is_mover(p: &Position, side: Side) -> bool
    ensures turn { MatchBool result (p.now.to_move ≡ side) (p.now.to_move ≡ other side) }
    ensures lawful { IsLawful p.now }
{
    match (p.to_move(), side) {
        (Side::Black, Side::Black) | (Side::White, Side::White) => true,
        (Side::Black, Side::White) | (Side::White, Side::Black) => false,
    }
}

/// The position is not decided at sight: it has more pieces than the tables, and the side to move has a move.
pub fn is_undecided<O: Oracle>(p: &Position, oracle: &O) -> bool
    ensures { IsTrue result ↔ (is_at_sight draughts (O.piece_limit oracle.now) p.now ≡ false) }
{
    if p.count(Side::Black) + p.count(Side::White) <= oracle.pieces() {
        return false;
    }
    has_move(p)
}
