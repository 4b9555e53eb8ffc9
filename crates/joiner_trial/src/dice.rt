//! Numbers and positions that look random and are the same in each run.
ghost use Rattle.std.specs.Prelude.{◌<◌};

use draughts_board::{Cell, Position, Side};

/// A linear congruential generator.
#[derive(Drop)]
pub(crate) struct Dice {
    state: u64,
}

impl Dice {
    /// One that begins with the seed.
    pub(crate) fn new(seed: u64) -> Dice {
        Dice { state: seed }
    }

    /// A number below `sides`.
    pub(crate) fn roll(&mut self, sides: u64) -> u64
        requires { 0 < sides }
        ensures { result < sides }
    {
        self.state = self
            .state
            .wrapping_mul(6364136223846793005)
            .wrapping_add(1442695040888963407);
        (self.state >> 33) % sides
    }

    /// A piece of either side.
    fn piece(&mut self) -> Cell {
        match self.roll(4) {
            0 => Cell::Man(Side::Black),
            1 => Cell::Man(Side::White),
            2 => Cell::King(Side::Black),
            _ => Cell::King(Side::White),
        }
    }

    /// A position of at most `pieces` pieces; none where the pieces that were rolled are none.
    pub(crate) fn position(&mut self, pieces: u8) -> Option<Position> {
        let mut cells = [Cell::Empty; 32];
        for _ in 0..pieces {
            let square = self.roll(32) as usize;
            cells[square] = self.piece();
        }
        let to_move = match self.roll(2) {
            0 => Side::Black,
            _ => Side::White,
        };
        Position::place(cells, to_move).ok()
    }
}
