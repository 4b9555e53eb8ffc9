//! One entry of a strategy.
ghost use Rattle.std.specs.Prelude.{IfSome};
ghost use Rattle.draughts_board.specs.Board.{IsLawful};
ghost use Rattle.strategy_certificate.specs.Parts.{IsPath};

use draughts_board::{Move, Position};

/// The greatest rank of an entry in a win part.
pub const MOST_RANK: u64 = 1 << 62;

/// The greatest rank of an entry in a strategy that a search gives and a journal keeps, so that a
/// strategy that is joined from many of them has room above.
pub const MOST_FOUND_RANK: u64 = 1 << 40;

/// What a winning strategy says of one of its positions.
#[derive(Clone, Copy, PartialEq, Eq, Debug)]
pub struct WinEntry {
    /// A bound on the plies to the win, at most [`MOST_RANK`] in a part.
    pub rank: u64,
    /// The move of the side, where it is its turn.
    pub chosen: Option<Move>,
}

/// Does nothing: each position keeps the rule on pieces, and each move has a path of 2 to 13
/// squares.
pub(crate) fn note_rules(p: &Position, chosen: &Option<Move>)
    ensures position { IsLawful p.now }
    ensures path { IfSome chosen.now IsPath }
{
    let _mover = p.to_move();
    if let Some(path) = chosen {
        let _squares = path.path();
    }
}
