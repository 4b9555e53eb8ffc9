//! The jumps of a king on the empty board, and the squares beside them.
ghost use Rattle.std.specs.Prelude.{◌≡◌, ◌+◌, ◌<◌, nat_lt, if◌then◌else◌, slice_index_or};
ghost use Rattle.capture_positions.specs.Walk.{jump_numbered, squares_beside};

use draughts_board::Square;

/// How many jumps there are.
pub const JUMP_COUNT: u32 = 72;

/// How many squares there are beside the three of a jump.
pub const OTHER_COUNT: u32 = 29;

/// The starts and the ends of the jumps, in rising order.
const JUMPS: [(u8, u8); 72] = [
    (1, 10),
    (2, 9),
    (2, 11),
    (3, 10),
    (3, 12),
    (4, 11),
    (5, 14),
    (6, 13),
    (6, 15),
    (7, 14),
    (7, 16),
    (8, 15),
    (9, 2),
    (9, 18),
    (10, 1),
    (10, 3),
    (10, 17),
    (10, 19),
    (11, 2),
    (11, 4),
    (11, 18),
    (11, 20),
    (12, 3),
    (12, 19),
    (13, 6),
    (13, 22),
    (14, 5),
    (14, 7),
    (14, 21),
    (14, 23),
    (15, 6),
    (15, 8),
    (15, 22),
    (15, 24),
    (16, 7),
    (16, 23),
    (17, 10),
    (17, 26),
    (18, 9),
    (18, 11),
    (18, 25),
    (18, 27),
    (19, 10),
    (19, 12),
    (19, 26),
    (19, 28),
    (20, 11),
    (20, 27),
    (21, 14),
    (21, 30),
    (22, 13),
    (22, 15),
    (22, 29),
    (22, 31),
    (23, 14),
    (23, 16),
    (23, 30),
    (23, 32),
    (24, 15),
    (24, 31),
    (25, 18),
    (26, 17),
    (26, 19),
    (27, 18),
    (27, 20),
    (28, 19),
    (29, 22),
    (30, 21),
    (30, 23),
    (31, 22),
    (31, 24),
    (32, 23),
];

/// A jump of a king on the empty board.
#[derive(Clone, Copy)]
pub(crate) struct Jump {
    /// Where it starts.
    pub(crate) start: Square,
    /// The square that it passes over.
    pub(crate) over: Square,
    /// Where it ends.
    pub(crate) end: Square,
}

/// The jump of this number, from 0.
pub(crate) fn jump_numbered(number: u32) -> Jump
    requires { number < JUMP_COUNT }
    ensures { result ≡ jump_numbered number }
{
    let (start, end) = JUMPS[number as usize];
    let start = Square::new(start).unwrap();
    let end = Square::new(end).unwrap();
    Jump {
        start,
        over: start.between(end),
        end,
    }
}

/// The number of a square in the list from which this one is taken out.
fn past(number: u8, taken: u8) -> u8
    requires { number < 64 }
    ensures { result ≡ (if nat_lt number taken then number else number + 1) }
{
    if number < taken { number } else { number + 1 }
}

/// The square at this place, from 0, in the rising list of the squares beside the jump of this
/// number.
pub(crate) fn square_beside(number: u32, place: u32) -> Square
    requires number { number < JUMP_COUNT }
    requires place { place < OTHER_COUNT }
    ensures { result ≡ slice_index_or (squares_beside (jump_numbered number)) place 0 }
{
    let jump = jump_numbered(number);
    let (start, end) = (jump.start.number(), jump.end.number());
    let behind_least = past(place as u8 + 1, start.min(end));
    let behind_two = past(behind_least, jump.over.number());
    Square::new(past(behind_two, start.max(end))).unwrap()
}
