//! The positions of a slice in their order.
use crate::bits::lowest_bits;
use crate::choices::next_choice;
use crate::slices::{Kings, Layout};
use draughts_board::Side;

/// A walk through the positions of a slice in their order.
#[derive(Drop)]
pub(crate) struct Walk {
    layout: Layout,
    kings: Kings,
    /// How many ways White's kings have still to stand beside Black's.
    white_left: u32,
}

impl Walk {
    /// The walk that begins with the first position.
    pub(crate) fn of(layout: &Layout) -> Walk {
        let black = lowest_bits(layout.free, layout.black_kings);
        Walk {
            layout: *layout,
            kings: Kings {
                black,
                white: lowest_bits(layout.free & !black, layout.white_kings),
                to_move: Side::Black,
            },
            white_left: layout.white_ways,
        }
    }

    /// Where the kings stand, and whose turn it is.
    #[inline]
    pub(crate) fn kings(&self) -> &Kings {
        &self.kings
    }

    /// Goes on to the next position.
    #[inline]
    pub(crate) fn advance(&mut self) {
        if self.kings.to_move == Side::Black {
            self.kings.to_move = Side::White;
            return;
        }
        self.kings.to_move = Side::Black;
        let free = self.layout.free;
        if self.white_left > 1 {
            self.white_left -= 1;
            self.kings.white = next_choice(self.kings.white, free & !self.kings.black);
            return;
        }
        self.kings.black = next_choice(self.kings.black, free);
        self.kings.white = lowest_bits(free & !self.kings.black, self.layout.white_kings);
        self.white_left = self.layout.white_ways;
    }
}
