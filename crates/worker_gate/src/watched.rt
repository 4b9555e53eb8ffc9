//! An oracle by which a gate hears how many positions a search has looked at.
ghost use Rattle.std.specs.Prelude.{◌≡◌};

use crate::gates::Gate;
use draughts_board::Position;
use std::cell::Cell;
use strategy_certificate::{Answer, Oracle};

/// After how many positions the gate of a search hears of them.
const POSITIONS_BETWEEN: u64 = 4_096;

/// The oracle of one search, which asks it of each position that it looks at. It answers as the oracle below it, and its gate
/// hears of the positions now and then.
#[derive(Drop)]
pub(crate) struct Watched<'a, O: Oracle, G: Gate> {
    oracle: &'a O,
    gate: &'a G,
    /// How many positions more the search looks at until the gate hears of `POSITIONS_BETWEEN`.
    left: Cell<u64>,
}

impl<'a, O: Oracle, G: Gate> Watched<'a, O, G> {
    /// The oracle of a search that has not begun.
    pub(crate) fn new(oracle: &'a O, gate: &'a G) -> Watched<'a, O, G>
        ensures { result.oracle.now ≡ oracle.now }
    {
        Watched {
            oracle,
            gate,
            left: Cell::new(POSITIONS_BETWEEN),
        }
    }

    /// The search has ended: the gate hears of the last positions.
    pub(crate) fn ends(&self) {
        self.gate
            .looked_at(POSITIONS_BETWEEN.saturating_sub(self.left.get()));
        self.left.set(POSITIONS_BETWEEN);
    }

    /// One position more was looked at.
    fn count(&self) {
        match self.left.get() {
            0 | 1 => {
                self.left.set(POSITIONS_BETWEEN);
                self.gate.looked_at(POSITIONS_BETWEEN);
            }
            left => self.left.set(left - 1),
        }
    }
}

impl<O: Oracle, G: Gate> Oracle for Watched<'_, O, G> {
    ghost piece_limit = { λ w. O.piece_limit w.oracle.now };

    ghost answer_at = { λ w. O.answer_at w.oracle.now };

    fn pieces(&self) -> u8 {
        self.oracle.pieces()
    }

    fn answer(&self, p: &Position) -> Option<Answer> {
        self.count();
        self.oracle.answer(p)
    }
}
