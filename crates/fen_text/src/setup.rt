//! What is kept while a text is read.
use crate::group::Group;
use draughts_board::{Cell, Square};

/// The cells named so far, that of square n at place n - 1, and the least square named more than
/// once.
#[derive(Clone, Copy)]
pub(crate) struct Setup {
    pub(crate) cells: [Cell; 32],
    pub(crate) twice: Option<Square>,
}

impl Setup {
    ghost use Rattle.std.specs.Prelude.{◌≡◌, ◌≤◌, ◌++◌, ◌∷◌, [], List};
    ghost use Rattle.draughts_board.specs.Geometry.{IsSquare};
    ghost use Rattle.fen_text.specs.Spelled.{Group as Named};
    ghost use Rattle.fen_text.specs.Setup.{HoldsGroups, cells_with, twice_with};
    ghost use Rattle.fen_text.specs.Seen.{group_seen};

    /// An empty board.
    pub(crate) fn new() -> Setup
        ensures { HoldsGroups result.cells result.twice [] }
    {
        Setup {
            cells: [Cell::Empty; 32],
            twice: None,
        }
    }

    /// Names the square with the piece. What stands there already stays, and the square is then
    /// named twice.
    fn put(&mut self, square: Square, piece: Cell)
        ensures cells { self.new.cells ≡ cells_with self.old.cells square piece }
        ensures twice { self.new.twice ≡ twice_with self.old.cells self.old.twice square }
        ensures square { IsSquare square }
    {
        let place = (square.number() - 1) as usize;
        if self.cells[place].is_empty() {
            self.cells[place] = piece;
            return;
        }
        self.twice = match self.twice {
            Some(least) if least.number() < square.number() => Some(least),
            _ => Some(square),
        };
    }

    /// Names all squares of the group.
    pub(crate) fn add(&mut self, group: &Group)
        requires { group.now.first ≤ group.now.last }
        ensures { (groups : List Named) → HoldsGroups self.old.cells self.old.twice groups
            → HoldsGroups self.new.cells self.new.twice (groups ++ group_seen group.now ∷ []) }
    {
        let piece = group.piece();
        for number in group.first.number()..group.last.number() + 1 {
            self.put(Square::new(number).unwrap(), piece);
        }
    }
}
