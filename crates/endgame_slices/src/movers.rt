//! Steps and jumps of all pieces together, on masks of 32 bits in which square n is the bit of value 2^(n - 1).
use draughts_board::Side;

/// The squares one row down of these, to the left.
#[inline]
fn down_left(squares: u32) -> u32 {
    (0x0707_0707 & (squares << 3)) | (0xF0F0_F0F0 & (squares << 4))
}

/// The squares one row down of these, to the right.
#[inline]
fn down_right(squares: u32) -> u32 {
    (0x0F0F_0F0F & (squares << 4)) | (0xE0E0_E0E0 & (squares << 5))
}

/// The squares one row up of these, to the left.
#[inline]
fn up_left(squares: u32) -> u32 {
    (0x0707_0707 & (squares >> 5)) | (0xF0F0_F0F0 & (squares >> 4))
}

/// The squares one row up of these, to the right.
#[inline]
fn up_right(squares: u32) -> u32 {
    (0x0F0F_0F0F & (squares >> 4)) | (0xE0E0_E0E0 & (squares >> 3))
}

/// The squares that a man of the side may step to from these, on an empty board.
#[inline]
pub(crate) fn man_steps(side: Side, squares: u32) -> u32 {
    match side {
        Side::Black => down_left(squares) | down_right(squares),
        Side::White => up_left(squares) | up_right(squares),
    }
}

/// The squares that a king may step to from these, on an empty board.
#[inline]
pub(crate) fn king_steps(squares: u32) -> u32 {
    down_left(squares) | down_right(squares) | up_left(squares) | up_right(squares)
}

/// How many steps the kings on these squares have to squares that are empty.
#[inline]
pub(crate) fn count_king_steps(kings: u32, empty: u32) -> u32 {
    let left = (down_left(kings) & empty).count_ones() + (up_left(kings) & empty).count_ones();
    let right = (down_right(kings) & empty).count_ones() + (up_right(kings) & empty).count_ones();
    left + right
}

/// The side, with men and kings on these squares, has a jump over an enemy to an empty square.
#[inline]
pub(crate) fn has_jump(side: Side, men: u32, kings: u32, enemies: u32, empty: u32) -> bool {
    let below = up_left(up_left(empty) & enemies) | up_right(up_right(empty) & enemies);
    let above = down_left(down_left(empty) & enemies) | down_right(down_right(empty) & enemies);
    let forward = match side {
        Side::Black => below,
        Side::White => above,
    };
    (men & forward) | (kings & (below | above)) != 0
}
