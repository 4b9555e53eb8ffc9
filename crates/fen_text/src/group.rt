//! What one item of a list names.
use draughts_board::{Cell, Side, Square};

/// A king or a man of the side on every square from the first to the last.
#[derive(Clone, Copy)]
pub(crate) struct Group {
    pub(crate) side: Side,
    pub(crate) king: bool,
    pub(crate) first: Square,
    pub(crate) last: Square,
}

impl Group {
    ghost use Rattle.std.specs.Prelude.{◌≡◌};
    ghost use Rattle.fen_text.specs.Spelled.{piece_of};

    /// What stands on each of its squares.
    pub(crate) fn piece(&self) -> Cell
        ensures { result ≡ piece_of self.now.side self.now.king }
    {
        if self.king {
            Cell::King(self.side)
        } else {
            Cell::Man(self.side)
        }
    }
}
