//! Masks and their squares.
ghost use Rattle.std.specs.Prelude.{◌≡◌, ◌==◌};
ghost use Rattle.std.specs.List.{list_any};
ghost use Rattle.draughts_board.specs.Geometry.{IsSquare, squares};
ghost use Rattle.draughts_board.specs.Masks.{stands_in};

use draughts_board::Square;

/// Some square stands in the mask.
#[inline]
pub(crate) fn is_any(mask: u32) -> bool
    ensures { result ≡ list_any (stands_in mask) squares }
{
    mask != 0
}

/// The square stands in the mask.
#[inline]
pub(crate) fn holds(mask: u32, square: Square) -> bool
    ensures value { result ≡ stands_in mask square }
    ensures square { IsSquare square }
{
    (mask >> (square.number() - 1)) & 1 == 1
}
