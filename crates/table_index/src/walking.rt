//! The positions at indices that are asked one after the other.
ghost use Rattle.std.specs.Prelude.{◌≡◌, ◌≤◌, ◌<◌, ◌^◌, ℕ, IfSome, MatchOption, IsTrue, IsFalse, replicate, slice_get, Some, List};
ghost use Rattle.draughts_board.specs.Board.{IsLawful, piece_count, all_allowed};
ghost use Rattle.draughts_board.specs.declared.pieces.Cell.TheVariants.{Empty};
ghost use Rattle.draughts_board.specs.Geometry.{squares};
ghost use Rattle.draughts_board.specs.Masks.{squares_of};
ghost use Rattle.table_index.specs.Order.{choices, entry_count, index_of, position_at, with_pieces_on};
ghost use Rattle.table_index.specs.Counting.{choose};

use crate::counts::{block_of, first_index, kinds_of};
use crate::indices::{piece_of, position_of, with_piece};
use draughts_board::{Position, Side, Square};

/// The position with pieces of these kinds on the squares of the mask, which are a choice of `pieces`
/// squares; none where a man would stand on its farthest row.
fn position_on(mask: u32, mut pieces: u32, mut kinds: u32, to_move: Side) -> Option<Position>
    requires pieces { pieces ≤ 3 }
    requires mask { (choice : ℕ) × ((choice < choose pieces 32)
        × (slice_get (choices pieces squares) choice ≡ Some (squares_of mask))) }
    requires kinds { kinds < 4 ^ pieces }
    ensures { let cells = with_pieces_on (replicate 32 Empty) (squares_of mask) kinds in
        MatchOption result (IsFalse (all_allowed 1 cells))
        (λ p. (p ≡ record { cells = cells; to_move = to_move }) × IsTrue (all_allowed 1 cells)) }
{
    let mut p = Position::bare(to_move);
    let mut left = mask;
    while left != 0 {
        let square = Square::lowest(left);
        let place = usize::from(square.number()) - 1;
        pieces -= 1;
        let weight = kinds_of(pieces);
        let Some(more) = with_piece(&p, place, piece_of(kinds / weight), to_move) else {
            return None;
        };
        p = more;
        kinds %= weight;
        left &= left - 1;
    }
    Some(p)
}

/// Gives the positions at indices that are asked one after the other. The squares of the last one
/// that was found are kept: most often the next index has the same.
#[derive(Clone, Copy)]
pub struct PositionWalk {
    /// How many squares are kept.
    pieces: u32,
    /// The place of their choice among the choices of as many squares.
    choice: u32,
    /// Their mask.
    mask: u32,
    ghost kept: { slice_get (choices pieces squares) choice ≡ Some (squares_of mask) },
}

impl PositionWalk {
    /// No index has been asked yet: no square is kept, which is the one choice of none.
    pub fn new() -> PositionWalk {
        PositionWalk {
            pieces: 0,
            choice: 0,
            mask: 0,
        }
    }

    /// The position with pieces of these kinds on the squares of the choice with this place among
    /// the choices of as many squares; none where a man would stand on its farthest row.
    fn place(&mut self, pieces: u32, choice: u32, kinds: u32, to_move: Side) -> Option<Position>
        requires pieces { pieces ≤ 3 }
        requires choice { choice < choose pieces 32 }
        requires kinds { kinds < 4 ^ pieces }
        ensures { (chosen : List ℕ) → slice_get (choices pieces squares) choice ≡ Some chosen
            → let cells = with_pieces_on (replicate 32 Empty) chosen kinds in
            MatchOption result (IsFalse (all_allowed 1 cells))
            (λ p. (p ≡ record { cells = cells; to_move = to_move }) × IsTrue (all_allowed 1 cells)) }
    {
        if self.pieces == pieces && self.choice == choice {
            return position_on(self.mask, pieces, kinds, to_move);
        }
        let found = position_of(pieces, choice, kinds, to_move);
        if let Some(p) = &found {
            *self = PositionWalk {
                pieces,
                choice,
                mask: p.occupied(),
            };
        }
        found
    }

    /// The position at an index of the table of three pieces; none where the index is no position.
    pub fn position_at(&mut self, index: u32) -> Option<Position>
        requires { index < entry_count 3 }
        ensures value { result ≡ position_at index }
        ensures lawful { IfSome result (λ p. IsLawful p) }
        ensures few { (k : ℕ) → k ≤ 3 → index < entry_count k
            → IfSome result (λ p. piece_count p ≤ k) }
        ensures index { IfSome result (λ p. index_of p ≡ index) }
    {
        let pieces = block_of(index);
        let place = index - first_index(pieces);
        let to_move = if place % 2 == 0 {
            Side::Black
        } else {
            Side::White
        };
        let weight = kinds_of(pieces);
        self.place(pieces, place / 2 / weight, place / 2 % weight, to_move)
    }
}

/// The position at an index of the table of three pieces; none where the index is no position.
pub fn position_at(index: u32) -> Option<Position>
    requires { index < entry_count 3 }
    ensures value { result ≡ position_at index }
    ensures lawful { IfSome result (λ p. IsLawful p) }
    ensures few { (k : ℕ) → k ≤ 3 → index < entry_count k → IfSome result (λ p. piece_count p ≤ k) }
    ensures index { IfSome result (λ p. index_of p ≡ index) }
{
    PositionWalk::new().position_at(index)
}
