//! The masks of a position as its mover sees them.
ghost use Rattle.std.specs.Prelude.{◌&&◌, not};
ghost use Rattle.draughts_board.specs.Masks.{IsMaskOf, stands_in};

use draughts_board::{Position, Side};

/// The squares of the mover's men, of its kings and of its enemies, and the empty ones.
#[derive(Clone, Copy, Debug)]
pub(crate) struct Forces {
    pub(crate) mover: Side,
    pub(crate) men: u32,
    pub(crate) kings: u32,
    pub(crate) enemies: u32,
    pub(crate) free: u32,
}

/// The squares that stand in neither mask.
#[inline]
fn outside(black: u32, white: u32) -> u32
    ensures { IsMaskOf (λ n. not (stands_in black n) && not (stands_in white n)) result }
{
    !black & !white
}

impl Forces {
    ghost use Rattle.draughts_board.specs.Board.{IsLawful};
    ghost use Rattle.swift_moves.specs.Forces.{AreForces};

    /// The masks of the position.
    #[inline]
    pub(crate) fn of(p: &Position) -> Forces
        ensures masks { AreForces p.now result }
        ensures lawful { IsLawful p.now }
    {
        let [black_men, black_kings, white_men, white_kings] = p.masks();
        let black = black_men | black_kings;
        let white = white_men | white_kings;
        let free = outside(black, white);
        match p.to_move() {
            Side::Black => Forces {
                mover: Side::Black,
                men: black_men,
                kings: black_kings,
                enemies: white,
                free,
            },
            Side::White => Forces {
                mover: Side::White,
                men: white_men,
                kings: white_kings,
                enemies: black,
                free,
            },
        }
    }
}
