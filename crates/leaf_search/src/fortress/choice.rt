//! What a move costs a set that is being grown.
use draughts_board::{Position, Side};

/// The squares that stand at most 0, 1, 2, 3 and 4 rows and columns away from a square of a double corner (1, 5, 28 and 32),
/// where one king holds against two; square n is the bit of value 2^(n - 1).
const NEAR_DOUBLE_CORNERS: [u32; 5] = [
    0x8800_0011,
    0x8C80_0131,
    0xCCCC_3333,
    0xCECF_F373,
    0xEEFF_FF77,
];

/// What a step of the way to a double corner costs, in one attempt after the other.
pub(crate) const CORNER_WEIGHTS: [u32; 3] = [8, 16, 32];

/// The same where it is known which positions are lost.
pub(crate) const KNOWING_CORNER_WEIGHT: u32 = 32;

/// The masks of a side's men and kings.
pub(crate) type Pieces = (u32, u32);

/// The masks of the side's men and kings; square n is the bit of value 2^(n - 1).
pub(crate) fn pieces_of(p: &Position, side: Side) -> Pieces {
    let [black_men, black_kings, white_men, white_kings] = p.masks();
    match side {
        Side::Black => (black_men, black_kings),
        Side::White => (white_men, white_kings),
    }
}

/// How many rows and columns the nearest of these kings stands away from a double corner, at most 5.
fn corner_distance(kings: u32) -> u32 {
    let mut distance = 0_u32;
    for near in &NEAR_DOUBLE_CORNERS {
        if kings & *near != 0 {
            return distance;
        }
        distance = distance.saturating_add(1);
    }
    distance
}

/// What a move costs: each position that it brings into the set, the way of the side's kings to a double corner (each
/// step so much), a configuration of its pieces that was not seen before, and each reply that it allows.
pub(crate) fn cost(
    fresh: u32,
    replies: u32,
    pieces: Pieces,
    seen: bool,
    corner_weight: u32,
) -> u32 {
    let news = if seen { 0 } else { 4_u32 };
    fresh
        .saturating_mul(4)
        .saturating_add(corner_distance(pieces.1).saturating_mul(corner_weight))
        .saturating_add(news)
        .saturating_add(replies)
}
