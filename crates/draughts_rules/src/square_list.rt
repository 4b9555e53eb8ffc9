//! A short list of squares that takes no memory.
use draughts_board::Square;
use std::marker::Model;

/// At most 13 squares: as many as the longest capture has, and more than a side has pieces. A
/// contract sees a list.
#[derive(Drop)]
pub(crate) struct SquareList {
    squares: [Square; 13],
    len: u8,
}

impl Model for SquareList {
    ghost use Rattle.std.specs.Prelude.{◌≡◌, ◌≤◌, ℕ, List, take, length};

    ghost Value = { List ℕ };

    ghost view = { λ s. take s.len s.squares };

    ghost invariant = { λ s. (s.len ≤ 13) × (length s.squares ≡ 13) };
}

impl SquareList {
    ghost use Rattle.std.specs.Prelude.{◌≡◌, ◌<◌, ◌≤◌, ◌++◌, ◌∷◌, [], length, if◌then◌else◌};

    /// No square. The other one only fills the unused places.
    pub(crate) fn empty(filler: Square) -> SquareList
        ensures { result ≡ [] }
    {
        SquareList {
            squares: [filler; 13],
            len: 0,
        }
    }

    /// One square.
    pub(crate) fn of(square: Square) -> SquareList
        ensures { result ≡ square ∷ [] }
    {
        SquareList {
            squares: [square; 13],
            len: 1,
        }
    }

    /// The squares.
    pub(crate) fn as_slice(&self) -> &[Square]
        ensures value { result.now ≡ self.now }
        ensures most { length self.now ≤ 13 }
    {
        &self.squares[..self.len as usize]
    }

    /// The list with one more square at its end.
    pub(crate) fn with(&self, square: Square) -> SquareList
        requires { length self.now < 13 }
        ensures { result ≡ self.now ++ square ∷ [] }
    {
        let mut squares = self.squares;
        squares[self.len as usize] = square;
        SquareList {
            squares,
            len: self.len + 1,
        }
    }

    /// Adds a square at the end, if it is to be kept. It is written in any case, so that nothing
    /// branches.
    #[inline]
    pub(crate) fn push_if(&mut self, square: Square, keep: bool)
        requires { length self.old < 13 }
        ensures { self.new ≡ self.old ++ (if keep then square ∷ [] else []) }
    {
        self.squares[self.len as usize] = square;
        self.len += u8::from(keep);
    }
}
