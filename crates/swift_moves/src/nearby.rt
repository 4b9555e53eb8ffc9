//! Which squares lie near a square.
ghost use Rattle.std.specs.Prelude.{◌&&◌};
ghost use Rattle.draughts_board.specs.Geometry.{IsSquare, are_near, is_square};
ghost use Rattle.draughts_board.specs.Rules.{may_go};
ghost use Rattle.draughts_board.specs.Masks.{IsMaskOf};
ghost use Rattle.draughts_board.specs.declared.pieces.Cell.TheVariants.{Man};
ghost use Rattle.draughts_board.specs.declared.pieces.Side.TheVariants.{Black, White};

use crate::ways::forward;
use draughts_board::{Cell, Square};

/// The squares one row up from each square and one column away, where White's men step to.
static UP: [u32; 32] = [
    0x0000_0000,
    0x0000_0000,
    0x0000_0000,
    0x0000_0000,
    0x0000_0001,
    0x0000_0003,
    0x0000_0006,
    0x0000_000C,
    0x0000_0030,
    0x0000_0060,
    0x0000_00C0,
    0x0000_0080,
    0x0000_0100,
    0x0000_0300,
    0x0000_0600,
    0x0000_0C00,
    0x0000_3000,
    0x0000_6000,
    0x0000_C000,
    0x0000_8000,
    0x0001_0000,
    0x0003_0000,
    0x0006_0000,
    0x000C_0000,
    0x0030_0000,
    0x0060_0000,
    0x00C0_0000,
    0x0080_0000,
    0x0100_0000,
    0x0300_0000,
    0x0600_0000,
    0x0C00_0000,
];

/// The squares one row down from each square and one column away, where Black's men step to.
static DOWN: [u32; 32] = [
    0x0000_0030,
    0x0000_0060,
    0x0000_00C0,
    0x0000_0080,
    0x0000_0100,
    0x0000_0300,
    0x0000_0600,
    0x0000_0C00,
    0x0000_3000,
    0x0000_6000,
    0x0000_C000,
    0x0000_8000,
    0x0001_0000,
    0x0003_0000,
    0x0006_0000,
    0x000C_0000,
    0x0030_0000,
    0x0060_0000,
    0x00C0_0000,
    0x0080_0000,
    0x0100_0000,
    0x0300_0000,
    0x0600_0000,
    0x0C00_0000,
    0x3000_0000,
    0x6000_0000,
    0xC000_0000,
    0x8000_0000,
    0x0000_0000,
    0x0000_0000,
    0x0000_0000,
    0x0000_0000,
];

/// The squares near this one and one row up.
#[inline]
fn near_up(square: Square) -> u32
    ensures near { IsMaskOf
        (λ n. is_square n && are_near square n && may_go (Man White) square n) result }
    ensures square { IsSquare square }
{
    UP[usize::from(square.number()) - 1]
}

/// The squares near this one and one row down.
#[inline]
fn near_down(square: Square) -> u32
    ensures near { IsMaskOf
        (λ n. is_square n && are_near square n && may_go (Man Black) square n) result }
    ensures square { IsSquare square }
{
    DOWN[usize::from(square.number()) - 1]
}

/// The squares to which the piece on this one may step where they are empty.
#[inline]
pub(crate) fn near(piece: Cell, square: Square) -> u32
    ensures { IsMaskOf (λ n. is_square n && are_near square n && may_go piece square n) result }
{
    let up = near_up(square);
    let down = near_down(square);
    match piece {
        Cell::Empty => 0,
        Cell::Man(side) => forward(side, up, down),
        Cell::King(_) => up | down,
    }
}
