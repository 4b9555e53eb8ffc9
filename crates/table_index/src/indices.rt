//! The index of a position, and the position at an index.
ghost use Rattle.std.specs.Prelude.{◌≡◌, ◌≤◌, ◌<◌, ◌+◌, ◌*◌, ◌^◌, ℕ, if◌then◌else◌, MatchOption, IsTrue, IsFalse, replicate, slice_get, Some, true, length, List};
ghost use Rattle.draughts_board.specs.Board.{IsLawful, piece_count, all_allowed, is_allowed};
ghost use Rattle.table_index.specs.Order.{entry_count, index_of, piece_numbered, choices, with_pieces_on};
ghost use Rattle.table_index.specs.Counting.{choose};
ghost use Rattle.draughts_board.specs.Geometry.{IsSquare, squares};
ghost use Rattle.draughts_board.specs.Rules.{put};
ghost use Rattle.draughts_board.specs.Masks.{stands_in};

use crate::counts::{choices_of, first_index, index_at, kinds_of};
use draughts_board::{Cell, Position, Side, Square};

/// How many indices a table of `pieces` pieces has.
pub fn entry_count(pieces: u8) -> u32
    requires { pieces ≤ 3 }
    ensures { result ≡ entry_count pieces }
{
    first_index(pieces as u32 + 1)
}

/// The square stands in the mask.
#[inline]
fn stands_in(mask: u32, square: Square) -> bool
    ensures value { result ≡ stands_in mask square }
    ensures square { IsSquare square }
{
    (mask >> (square.number() - 1)) & 1 == 1
}

/// The kind of the piece on the square as a digit to base 4, by the masks of all kings and of White's pieces.
#[inline]
fn kind_in(kings: u32, white: u32, square: Square) -> u32
    ensures value { result
        ≡ (if stands_in kings square then 1 else 0)
        + 2 * (if stands_in white square then 1 else 0) }
    ensures square { IsSquare square }
{
    u32::from(stands_in(kings, square)) + 2 * u32::from(stands_in(white, square))
}

/// The piece of a kind.
pub(crate) fn piece_of(kind: u32) -> Cell
    requires { kind < 4 }
    ensures { result ≡ piece_numbered kind }
{
    match kind {
        0 => Cell::Man(Side::Black),
        1 => Cell::King(Side::Black),
        2 => Cell::Man(Side::White),
        _ => Cell::King(Side::White),
    }
}

/// The index of a position with at most three pieces, in every table that has it.
pub fn index_of(p: &Position) -> u32
    requires { piece_count p.now ≤ 3 }
    ensures value { result ≡ index_of p.now }
    ensures range { result < entry_count (piece_count p.now) }
{
    let pieces = u32::from(p.count(Side::Black) + p.count(Side::White));
    let [_, black_kings, white_men, white_kings] = p.masks();
    let kings = black_kings | white_kings;
    let white = white_men | white_kings;
    let mut left = p.occupied();
    let mut behind = pieces;
    // How many choices of as many squares come behind this one.
    let mut later = 0;
    let mut kinds = 0;
    while left != 0 {
        let square = Square::lowest(left);
        later += choices_of(behind, 32 - u32::from(square.number()));
        kinds = kinds * 4 + kind_in(kings, white, square);
        behind -= 1;
        left &= left - 1;
    }
    let choice = choices_of(pieces, 32) - 1 - later;
    index_at(pieces, choice, kinds, p.to_move())
}

/// The piece may stand on the square of this place: it is no man on its farthest row.
fn is_allowed(place: usize, piece: Cell) -> bool
    requires { place < 32 }
    ensures { result ≡ is_allowed (place + 1) piece }
{
    match piece {
        Cell::Man(Side::Black) => place < 28,
        Cell::Man(Side::White) => place >= 4,
        _ => true,
    }
}

/// The position with the piece on the square of this place, too; none where it may not stand there.
#[inline]
pub(crate) fn with_piece(p: &Position, place: usize, piece: Cell, to_move: Side) -> Option<Position>
    requires place { place < 32 }
    requires lawful { is_allowed (place + 1) piece ≡ true
        → IsLawful (record { cells = put p.now.cells (place + 1) piece; to_move = to_move }) }
    ensures { MatchOption result (IsFalse (is_allowed (place + 1) piece))
        (λ q. (q ≡ record { cells = put p.now.cells (place + 1) piece; to_move = to_move })
        × IsTrue (is_allowed (place + 1) piece)) }
{
    if is_allowed(place, piece) {
        Some(p.with(Square::new(place as u8 + 1).unwrap(), piece, to_move))
    } else {
        None
    }
}

/// The position with pieces of these kinds on the squares of the choice with this place among the choices of as many
/// squares; none where a man would stand on its farthest row.
pub(crate) fn position_of(
    mut pieces: u32,
    mut choice: u32,
    mut kinds: u32,
    to_move: Side,
) -> Option<Position>
    requires pieces { pieces ≤ 3 }
    requires choice { choice < choose pieces 32 }
    requires kinds { kinds < 4 ^ pieces }
    ensures { (chosen : List ℕ) → slice_get (choices pieces squares) choice ≡ Some chosen
        → let cells = with_pieces_on (replicate 32 Cell.Empty) chosen kinds in
        MatchOption result (IsFalse (all_allowed 1 cells))
        (λ p. (p ≡ record { cells = cells; to_move = to_move }) × IsTrue (all_allowed 1 cells)) }
{
    let mut p = Position::bare(to_move);
    for i in 0..32 {
        if pieces == 0 {
            break;
        }
        if pieces == 1 {
            // Each square that is left is a choice of its own.
            return with_piece(&p, i + choice as usize, piece_of(kinds), to_move);
        }
        // How many of the choices that are left begin with this square.
        let here = choices_of(pieces - 1, 31 - i as u32);
        if choice < here {
            pieces -= 1;
            let weight = kinds_of(pieces);
            let Some(more) = with_piece(&p, i, piece_of(kinds / weight), to_move) else {
                return None;
            };
            p = more;
            kinds %= weight;
        } else {
            choice -= here;
        }
    }
    Some(p)
}
