//! Masks of 32 bits as sets of squares, and what four of them say of a board.
ghost use Rattle.std.specs.Prelude.{◌≡◌, ◌≤◌, ◌==◌, ◌&&◌, ◌↔◌, nat_le, IsTrue, count_by, if◌then◌else◌};
ghost use Rattle.std.specs.List.{list_any};
ghost use Rattle.draughts_board.specs.Geometry.{IsSquare, squares};
ghost use Rattle.draughts_board.specs.Board.{pieces, all_allowed, same_cell};
ghost use Rattle.draughts_board.specs.Masks.{stands_in, IsMaskOf, mask_of, are_apart, cell_if, cell_in, cells_in};
ghost use Rattle.draughts_board.specs.Same.{paired};

use crate::pieces::{Cell, Side};
use crate::squares::Square;

/// The squares 29 to 32, where Black's men would be crowned.
const LAST_ROW: u32 = 0xF000_0000;

/// The squares 1 to 4, where White's men would be crowned.
const FIRST_ROW: u32 = 0x0000_000F;

/// The square stands in the mask.
#[inline]
fn stands_in(mask: u32, square: Square) -> bool
    ensures value { result ≡ stands_in mask square }
    ensures square { IsSquare square }
{
    (mask >> (square.number() - 1)) & 1 == 1
}

/// The piece of the first mask that the square stands in, by its four tests.
#[inline]
fn cell_if(black_man: bool, black_king: bool, white_man: bool, white_king: bool) -> Cell
    ensures { result ≡ cell_if black_man black_king white_man white_king }
{
    if black_man {
        Cell::Man(Side::Black)
    } else if black_king {
        Cell::King(Side::Black)
    } else if white_man {
        Cell::Man(Side::White)
    } else if white_king {
        Cell::King(Side::White)
    } else {
        Cell::Empty
    }
}

/// What stands on the square by the four masks.
#[inline]
pub(crate) fn cell_in(masks: &[u32; 4], square: Square) -> Cell
    ensures value { result ≡ cell_in masks.now square }
    ensures square { IsSquare square }
{
    let [black_men, black_kings, white_men, white_kings] = *masks;
    cell_if(
        stands_in(black_men, square),
        stands_in(black_kings, square),
        stands_in(white_men, square),
        stands_in(white_kings, square),
    )
}

/// What stands on each square by the four masks, that of square n at place n - 1.
pub(crate) fn cells_in(masks: &[u32; 4]) -> [Cell; 32]
    ensures { result ≡ cells_in masks.now }
{
    let mut cells = [Cell::Empty; 32];
    for i in 0..32 {
        cells[i] = cell_in(masks, Square::new(i as u8 + 1).unwrap());
    }
    cells
}

/// The cell holds this piece.
#[inline]
fn holds(cell: Cell, piece: Cell) -> bool
    ensures { result ≡ same_cell piece cell }
{
    piece == cell
}

/// The mask with the square in it where it is to be kept, and without it else.
#[inline]
fn with_square(mask: u32, square: Square, keep: bool) -> u32
    ensures kept { IsMaskOf (λ n. if n == square then keep else stands_in mask n) result }
    ensures square { IsSquare square }
{
    if keep {
        mask | square.bit()
    } else {
        mask & !square.bit()
    }
}

/// The mask of a piece, where this cell is put on the square.
#[inline]
pub(crate) fn put_in(mask: u32, piece: Cell, square: Square, cell: Cell) -> u32
    ensures put { IsMaskOf
        (λ n. if n == square then same_cell piece cell else stands_in mask n) result }
    ensures square { IsSquare square }
{
    with_square(mask, square, holds(cell, piece))
}

/// 1 where the cell holds this piece, and else 0.
#[inline]
fn bit_of(cell: Cell, piece: Cell) -> u32
    ensures { result ≡ (if same_cell piece cell then 1 else 0) }
{
    u32::from(holds(cell, piece))
}

/// The mask of the squares that hold this piece.
pub(crate) fn mask_of(piece: Cell, cells: &[Cell; 32]) -> u32
    ensures { result ≡ mask_of piece cells.now }
{
    let mut mask = 0;
    for i in 0..32 {
        mask = 2 * mask + bit_of(cells[31 - i], piece);
    }
    mask
}

/// Some square stands in the mask.
#[inline]
fn is_any(mask: u32) -> bool
    ensures { result ≡ list_any (stands_in mask) squares }
{
    mask != 0
}

/// How many squares stand in the mask.
#[inline]
pub(crate) fn count_in(mask: u32) -> u32
    ensures value { result ≡ count_by (stands_in mask) squares }
    ensures most { result ≤ 32 }
{
    mask.count_ones()
}

/// No square stands in two of the masks.
pub(crate) fn are_apart(masks: &[u32; 4]) -> bool
    ensures { result ≡ are_apart masks.now }
{
    let [black_men, black_kings, white_men, white_kings] = *masks;
    let black = black_men | black_kings;
    let white = white_men | white_kings;
    !is_any((black_men & black_kings) | (white_men & white_kings) | (black & white))
}

/// No man of the four masks, which share no square, stands on its farthest row.
pub(crate) fn are_allowed(masks: &[u32; 4]) -> bool
    requires { IsTrue (are_apart masks.now) }
    ensures { result ≡ all_allowed 1 (cells_in masks.now) }
{
    let [black_men, _, white_men, _] = *masks;
    !is_any((black_men & LAST_ROW) | (white_men & FIRST_ROW))
}

/// Neither side has more than 12 pieces in the four masks, which share no square.
pub(crate) fn are_few(masks: &[u32; 4]) -> bool
    requires { IsTrue (are_apart masks.now) }
    ensures { result ≡ (nat_le (pieces Side.Black (cells_in masks.now)) 12
        && nat_le (pieces Side.White (cells_in masks.now)) 12) }
{
    let [black_men, black_kings, white_men, white_kings] = *masks;
    count_in(black_men | black_kings) <= 12 && count_in(white_men | white_kings) <= 12
}

/// Two masks in one number.
#[inline]
pub(crate) fn paired(low: u32, high: u32) -> u64
    ensures { result ≡ paired low high }
{
    u64::from(low) + 4_294_967_296 * u64::from(high)
}

/// The masks are the same four.
#[inline]
pub(crate) fn are_same(mine: &[u32; 4], others: &[u32; 4]) -> bool
    ensures { IsTrue result ↔ (mine.now ≡ others.now) }
{
    let [black_men, black_kings, white_men, white_kings] = *mine;
    let [
        other_black_men,
        other_black_kings,
        other_white_men,
        other_white_kings,
    ] = *others;
    black_men == other_black_men
        && black_kings == other_black_kings
        && white_men == other_white_men
        && white_kings == other_white_kings
}
