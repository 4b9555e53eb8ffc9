//! What 32 cells are before they are known to be a position.
ghost use Rattle.std.specs.Prelude.{◌≡◌, ◌≤◌, ◌↔◌, IsTrue, IsNone, IfSome, length, map};
ghost use Rattle.draughts_board.specs.Board.{pieces, is_allowed, all_allowed, IsLeastMisplaced, turned_cell};

use crate::pieces::{Cell, Side};
use crate::squares::Square;

/// How many of the cells hold a piece of the side.
pub(crate) fn count_of(cells: &[Cell; 32], side: Side) -> usize
    ensures { result ≡ pieces side cells.now }
{
    cells.iter().filter(|c| c.belongs_to(side)).count()
}

/// The cell may stand on the square: it is no man on its farthest row.
fn is_allowed(square: Square, cell: Cell) -> bool
    ensures { result ≡ is_allowed square cell }
{
    match cell {
        Cell::Man(Side::Black) => square.row() != 7,
        Cell::Man(Side::White) => square.row() != 0,
        _ => true,
    }
}

/// The least square with a man on its farthest row.
pub(crate) fn least_misplaced(cells: &[Cell; 32]) -> Option<Square>
    ensures none { IsNone result ↔ IsTrue (all_allowed 1 cells.now) }
    ensures some { IfSome result (λ s. IsLeastMisplaced cells.now s) }
    ensures squares { length cells.now ≡ 32 }
{
    for (place, cell) in cells.iter().enumerate() {
        let square = Square::new(place as u8 + 1).unwrap();
        if !is_allowed(square, *cell) {
            return Some(square);
        }
    }
    None
}

/// Each cell in the other colour, in the same order.
pub(crate) fn in_other_colours(cells: &[Cell; 32]) -> [Cell; 32]
    ensures { result ≡ map turned_cell cells.now }
{
    let mut turned = *cells;
    for i in 0..32 {
        let cell = turned[i];
        turned[i] = cell.turned();
    }
    turned
}
