//! For each square the squares near it, and those a jump away.
ghost use Rattle.std.specs.Prelude.{◌≡◌};
ghost use Rattle.draughts_board.specs.Geometry.{IsSquare};
ghost use Rattle.draughts_rules.specs.NearSquares.{neighbour_row, jump_row};

use draughts_board::Square;

/// The row of square n stands at place n - 1: the squares one row and one column from it in rising
/// order, and then zeros.
static NEIGHBOURS: [[u8; 4]; 32] = [
    [5, 6, 0, 0],
    [6, 7, 0, 0],
    [7, 8, 0, 0],
    [8, 0, 0, 0],
    [1, 9, 0, 0],
    [1, 2, 9, 10],
    [2, 3, 10, 11],
    [3, 4, 11, 12],
    [5, 6, 13, 14],
    [6, 7, 14, 15],
    [7, 8, 15, 16],
    [8, 16, 0, 0],
    [9, 17, 0, 0],
    [9, 10, 17, 18],
    [10, 11, 18, 19],
    [11, 12, 19, 20],
    [13, 14, 21, 22],
    [14, 15, 22, 23],
    [15, 16, 23, 24],
    [16, 24, 0, 0],
    [17, 25, 0, 0],
    [17, 18, 25, 26],
    [18, 19, 26, 27],
    [19, 20, 27, 28],
    [21, 22, 29, 30],
    [22, 23, 30, 31],
    [23, 24, 31, 32],
    [24, 32, 0, 0],
    [25, 0, 0, 0],
    [25, 26, 0, 0],
    [26, 27, 0, 0],
    [27, 28, 0, 0],
];

/// The same of the squares two rows and two columns away, where a jump ends.
static JUMP_TARGETS: [[u8; 4]; 32] = [
    [10, 0, 0, 0],
    [9, 11, 0, 0],
    [10, 12, 0, 0],
    [11, 0, 0, 0],
    [14, 0, 0, 0],
    [13, 15, 0, 0],
    [14, 16, 0, 0],
    [15, 0, 0, 0],
    [2, 18, 0, 0],
    [1, 3, 17, 19],
    [2, 4, 18, 20],
    [3, 19, 0, 0],
    [6, 22, 0, 0],
    [5, 7, 21, 23],
    [6, 8, 22, 24],
    [7, 23, 0, 0],
    [10, 26, 0, 0],
    [9, 11, 25, 27],
    [10, 12, 26, 28],
    [11, 27, 0, 0],
    [14, 30, 0, 0],
    [13, 15, 29, 31],
    [14, 16, 30, 32],
    [15, 31, 0, 0],
    [18, 0, 0, 0],
    [17, 19, 0, 0],
    [18, 20, 0, 0],
    [19, 0, 0, 0],
    [22, 0, 0, 0],
    [21, 23, 0, 0],
    [22, 24, 0, 0],
    [23, 0, 0, 0],
];

/// The numbers of the squares near this one, in rising order, and then zeros.
#[inline]
pub(crate) fn neighbours(from: Square) -> [u8; 4]
    ensures row { result ≡ neighbour_row from }
    ensures square { IsSquare from }
{
    NEIGHBOURS[(from.number() - 1) as usize]
}

/// The numbers of the squares a jump away from this one, in rising order, and then zeros.
#[inline]
pub(crate) fn jump_targets(from: Square) -> [u8; 4]
    ensures row { result ≡ jump_row from }
    ensures square { IsSquare from }
{
    JUMP_TARGETS[(from.number() - 1) as usize]
}
