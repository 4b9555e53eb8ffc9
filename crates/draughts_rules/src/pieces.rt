//! Whose piece it is, and how it goes.
ghost use Rattle.std.specs.Prelude.{◌≡◌, ◌&&◌, filter};
ghost use Rattle.draughts_board.specs.Geometry.{is_square, squares};
ghost use Rattle.draughts_board.specs.Board.{IsLawful, belongs, cell_at};
ghost use Rattle.draughts_board.specs.Rules.{is_own, may_go, is_crowned_on, at_rest};

use crate::cell_board::CellBoard;
use crate::square_list::SquareList;
use draughts_board::{Cell, Side, Square};

/// A piece of the side stands on the square.
#[inline]
fn is_piece_of(p: &CellBoard, side: Side, square: Square) -> bool
    ensures { result ≡ (is_square square && belongs side (cell_at p.now square)) }
{
    p.at(square).belongs_to(side)
}

/// A piece of the side to move stands on the square.
#[inline]
pub(crate) fn is_own(p: &CellBoard, square: Square) -> bool
    ensures { result ≡ is_own p.now square }
{
    is_piece_of(p, p.to_move(), square)
}

/// The squares of the side to move, in rising order.
pub(crate) fn own_squares(p: &CellBoard) -> SquareList
    ensures squares { result ≡ filter (is_own p.now) squares }
    ensures lawful { IsLawful p.now }
{
    let mover = p.to_move();
    let all = Square::all();
    let mut own = SquareList::empty(all[0]);
    for square in &all {
        own.push_if(*square, is_piece_of(p, mover, *square));
    }
    own
}

/// The piece may go from one square towards the other: a man forward only, a king either way.
#[inline]
pub(crate) fn may_go(piece: Cell, from: Square, to: Square) -> bool
    ensures { result ≡ may_go piece from to }
{
    match piece {
        Cell::Empty => false,
        Cell::Man(Side::Black) => from.row() < to.row(),
        Cell::Man(Side::White) => to.row() < from.row(),
        Cell::King(_) => true,
    }
}

/// The piece is a man, and the square lies in its farthest row.
#[inline]
pub(crate) fn is_crowned_on(piece: Cell, square: Square) -> bool
    ensures { result ≡ is_crowned_on piece square }
{
    match piece {
        Cell::Man(Side::Black) => square.row() == 7,
        Cell::Man(Side::White) => square.row() == 0,
        _ => false,
    }
}

/// What the piece is once its move has ended on the square: a man on its farthest row is a king.
pub(crate) fn at_rest(piece: Cell, square: Square) -> Cell
    ensures { result ≡ at_rest piece square }
{
    match piece {
        Cell::Man(side) if is_crowned_on(piece, square) => Cell::King(side),
        _ => piece,
    }
}
