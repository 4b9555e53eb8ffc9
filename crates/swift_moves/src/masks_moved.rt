//! The masks of a position after a move.
ghost use Rattle.std.specs.Prelude.{◌≡◌};
ghost use Rattle.draughts_board.specs.Board.{farthest_row};
ghost use Rattle.draughts_board.specs.Rules.{contains, jumped};
ghost use Rattle.draughts_board.specs.Masks.{IsMaskOf};
ghost use Rattle.swift_moves.specs.Moved.{in_turn, is_king_at_rest, stands_moved, stands_untaken, stands_jumped, AreMoved};

use crate::masks::holds;
use draughts_board::{Side, Square};

/// Of Black's men and kings and White's, those of the mover first; the same again gives back the
/// order of colours.
#[inline]
pub(crate) fn in_turn(masks: [u32; 4], mover: Side) -> [u32; 4]
    ensures { result ≡ in_turn mover masks }
{
    let [black_men, black_kings, white_men, white_kings] = masks;
    match mover {
        Side::Black => [black_men, black_kings, white_men, white_kings],
        Side::White => [white_men, white_kings, black_men, black_kings],
    }
}

/// The row in which the side's men are crowned.
#[inline]
fn farthest_row(side: Side) -> u8
    ensures { result ≡ farthest_row side }
{
    match side {
        Side::Black => 7,
        Side::White => 0,
    }
}

/// The side's piece that goes from the one square to the other, where these are its kings, is a
/// king at the end.
#[inline]
fn is_king_at_rest(side: Side, kings: u32, from: Square, to: Square) -> bool
    ensures { result ≡ is_king_at_rest side kings from to }
{
    holds(kings, from) || to.row() == farthest_row(side)
}

/// The mask without the one square, and with the other where the piece lands in this mask.
#[inline]
fn moved(mask: u32, from: Square, to: Square, lands: bool) -> u32
    ensures { IsMaskOf (stands_moved mask from to lands) result }
{
    let start = from.bit();
    let end = to.bit();
    let left = mask & !start;
    if lands { left | end } else { left }
}

/// The mask without the squares of the other.
#[inline]
fn untaken(mask: u32, taken: u32) -> u32
    ensures { IsMaskOf (stands_untaken mask taken) result }
{
    mask & !taken
}

/// The masks, those of the mover first, once its piece has gone from the one square to the other
/// and taken the pieces of `taken`.
#[inline]
pub(crate) fn masks_moved(
    masks: [u32; 4],
    mover: Side,
    from: Square,
    to: Square,
    taken: u32,
) -> [u32; 4]
    ensures { AreMoved mover from to taken masks result }
{
    let [men, kings, enemy_men, enemy_kings] = masks;
    let king = is_king_at_rest(mover, kings, from, to);
    [
        moved(men, from, to, !king),
        moved(kings, from, to, king),
        untaken(enemy_men, taken),
        untaken(enemy_kings, taken),
    ]
}

/// The mask, with the square between these two put in if they are a jump apart.
#[inline]
fn with_jumped(mask: u32, from: Square, to: Square) -> u32
    ensures { IsMaskOf (stands_jumped mask from to) result }
{
    if from.is_jump_apart(to) {
        let over = from.between(to).bit();
        over | mask
    } else {
        mask
    }
}

/// The squares that the path jumps over.
pub(crate) fn jumped_over(path: &[Square]) -> u32
    ensures { IsMaskOf (contains (jumped path.now)) result }
{
    match path {
        [from, to] => with_jumped(0, *from, *to),
        [from, to, ..] => with_jumped(jumped_over(&path[1..]), *from, *to),
        _ => 0,
    }
}
