//! Choices of squares, in order: the choice with the lower highest square comes first, and so on downwards.
ghost use Rattle.std.specs.Prelude.{◌<◌};

use crate::bits::{Bits, lowest_bits};

/// The columns of a row of [`Choices`]: a side has at most 12 pieces.
const COLUMNS: usize = 16;

/// How many numbers there are, with room for each row from 0 to 32 squares.
const NUMBERS: usize = 1_024;

/// How many choices there are of some squares among others.
#[derive(Drop)]
pub(crate) struct Choices {
    counts: [u32; NUMBERS],
}

/// The place of the number of choices of `chosen` among `squares`.
#[inline]
fn place_of(squares: u32, chosen: u32) -> usize
    ensures { result < NUMBERS }
{
    (squares as usize * COLUMNS + chosen as usize) % NUMBERS
}

impl Choices {
    /// The numbers of choices among up to 32 squares, by the triangle in which each is the sum of two above it.
    pub(crate) fn new() -> Choices {
        let mut counts = [0; NUMBERS];
        for place in 0..NUMBERS {
            if place % COLUMNS == 0 {
                counts[place] = 1;
            } else if place > COLUMNS {
                counts[place] = u32::saturating_add(
                    counts[place - COLUMNS],
                    counts[place - COLUMNS - 1],
                );
            }
        }
        Choices { counts }
    }

    /// How many choices there are of `chosen` among `squares`.
    #[inline]
    pub(crate) fn count(&self, squares: u32, chosen: u32) -> u32 {
        self.counts[place_of(squares, chosen)]
    }

    /// The place of these squares among the choices of as many of those that are free.
    #[inline]
    pub(crate) fn rank(&self, squares: u32, free: u32) -> u32 {
        let mut rank = 0_u32;
        let mut chosen = 0_u32;
        for square in Bits(squares) {
            chosen = chosen.wrapping_add(1);
            let below = free & square.wrapping_sub(1);
            rank = rank.wrapping_add(self.count(below.count_ones(), chosen));
        }
        rank
    }

    /// The squares with this place among the choices of `chosen` of those that are free.
    pub(crate) fn squares_at(&self, rank: u32, chosen: u32, free: u32) -> u32 {
        let mut squares = 0;
        let mut left = rank;
        let mut wanted = chosen;
        for place in (0_u32..32).rev() {
            let square = 1_u32 << place;
            if wanted == 0 || free & square == 0 {
                continue;
            }
            let below = self.count((free & square.wrapping_sub(1)).count_ones(), wanted);
            if left >= below {
                left -= below;
                squares |= square;
                wanted -= 1;
            }
        }
        squares
    }
}

/// The choice that comes after these squares among those that are free; the last one is followed by any.
#[inline]
pub(crate) fn next_choice(squares: u32, free: u32) -> u32 {
    let lowest = squares & squares.wrapping_neg();
    let carried = (squares | !free).wrapping_add(lowest) & free;
    let moved = (squares & !carried).count_ones();
    if moved <= 1 {
        return carried;
    }
    carried | lowest_bits(free, moved - 1)
}
