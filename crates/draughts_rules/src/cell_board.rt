//! A position whose cells have been read once, since the generator asks for them again and again.
use draughts_board::{Cell, Position, Side, Square};
use std::marker::Model;

/// What stands on each square, that of square n at place n - 1, and the side to move. A contract
/// sees it as a position.
#[derive(Drop)]
pub(crate) struct CellBoard {
    cells: [Cell; 32],
    to_move: Side,
}

impl Model for CellBoard {
    ghost use Rattle.draughts_board.specs.Board.{Board, IsLawful};

    ghost Value = { Board };

    ghost view = { λ p. record { cells = p.cells; to_move = p.to_move } };

    ghost invariant = { λ p. IsLawful (record { cells = p.cells; to_move = p.to_move }) };
}

impl CellBoard {
    ghost use Rattle.std.specs.Prelude.{◌≡◌};
    ghost use Rattle.draughts_board.specs.Geometry.{IsSquare};
    ghost use Rattle.draughts_board.specs.Board.{IsLawful, cell_at};

    /// The cells of the position.
    #[inline]
    pub(crate) fn of(p: &Position) -> CellBoard
        ensures { result ≡ p.now }
    {
        CellBoard {
            cells: p.cells(),
            to_move: p.to_move(),
        }
    }

    /// What stands on the square.
    #[inline]
    pub(crate) fn at(&self, s: Square) -> Cell
        ensures value { result ≡ cell_at self.now s }
        ensures lawful { IsLawful self.now }
        ensures square { IsSquare s }
    {
        self.cells[(s.number() - 1) as usize]
    }

    /// Whose turn it is.
    #[inline]
    pub(crate) fn to_move(&self) -> Side
        ensures value { result ≡ self.now.to_move }
        ensures lawful { IsLawful self.now }
    {
        self.to_move
    }
}
