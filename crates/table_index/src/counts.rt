//! How many choices of squares and of kinds there are, and where each block of indices begins.
ghost use Rattle.std.specs.Prelude.{◌≡◌, ◌≤◌, ◌<◌, ◌+◌, ◌*◌, ◌^◌};
ghost use Rattle.table_index.specs.Order.{first_index, block_of, side_number};
ghost use Rattle.table_index.specs.Counting.{choose};

use draughts_board::Side;

/// In how many ways one can choose two squares, by the number of squares from 0 on.
static PAIRS: [u32; 33] = [
    0, 0, 1, 3, 6, 10, 15, 21, 28, 36, 45, 55, 66, 78, 91, 105, 120, 136, 153, 171, 190, 210, 231,
    253, 276, 300, 325, 351, 378, 406, 435, 465, 496,
];

/// The same of three squares.
static TRIPLES: [u32; 33] = [
    0, 0, 0, 1, 4, 10, 20, 35, 56, 84, 120, 165, 220, 286, 364, 455, 560, 680, 816, 969, 1140,
    1330, 1540, 1771, 2024, 2300, 2600, 2925, 3276, 3654, 4060, 4495, 4960,
];

/// In how many ways one can choose two of these squares.
#[inline]
fn pairs_of(squares: u32) -> u32
    requires { squares ≤ 32 }
    ensures { result ≡ choose 2 squares }
{
    PAIRS[squares as usize]
}

/// In how many ways one can choose three of these squares.
#[inline]
fn triples_of(squares: u32) -> u32
    requires { squares ≤ 32 }
    ensures { result ≡ choose 3 squares }
{
    TRIPLES[squares as usize]
}

/// In how many ways one can choose the squares of `pieces` pieces out of these.
#[inline]
pub(crate) fn choices_of(pieces: u32, squares: u32) -> u32
    requires pieces { pieces ≤ 3 }
    requires squares { squares ≤ 32 }
    ensures { result ≡ choose pieces squares }
{
    match pieces {
        0 => 1,
        1 => squares,
        2 => pairs_of(squares),
        _ => triples_of(squares),
    }
}

/// In how many ways `pieces` pieces can be men and kings of either side.
pub(crate) fn kinds_of(pieces: u32) -> u32
    requires { pieces ≤ 3 }
    ensures { result ≡ 4 ^ pieces }
{
    match pieces {
        0 => 1,
        1 => 4,
        2 => 16,
        _ => 64,
    }
}

/// The first index of the block of `pieces` pieces; of 4, the end of the block of 3.
pub(crate) fn first_index(pieces: u32) -> u32
    requires { pieces ≤ 4 }
    ensures { result ≡ first_index pieces }
{
    match pieces {
        0 => 0,
        1 => 2,
        2 => 258,
        3 => 16_130,
        _ => 651_010,
    }
}

/// In which block an index lies.
pub(crate) fn block_of(index: u32) -> u32
    ensures { result ≡ block_of index }
{
    if index < first_index(1) {
        0
    } else if index < first_index(2) {
        1
    } else if index < first_index(3) {
        2
    } else {
        3
    }
}

/// The index of the place that a choice of squares, the kinds and the side to move have in the block of `pieces` pieces.
pub(crate) fn index_at(pieces: u32, choice: u32, kinds: u32, to_move: Side) -> u32
    requires pieces { pieces ≤ 3 }
    requires choice { choice < choose pieces 32 }
    requires kinds { kinds < 4 ^ pieces }
    ensures value { result
        ≡ first_index pieces + (choice * 4 ^ pieces + kinds) * 2 + side_number to_move }
    ensures range { result < first_index (pieces + 1) }
{
    let side = match to_move {
        Side::Black => 0,
        Side::White => 1,
    };
    first_index(pieces) + (choice * kinds_of(pieces) + kinds) * 2 + side
}
