//! Moves, as the path of the piece.
use crate::squares::Square;
use std::cmp::Ordering;
use std::hash::{Hash, Hasher};
use std::marker::Model;

/// A move: the squares that the piece stands on, from the first to the last, 2 to 13 of them.
///
/// A step has two squares. A capture has one more than it jumps over pieces, so at most 13. A
/// contract sees a move as its path, a list of square numbers. Moves are ordered by their paths,
/// square by square.
#[derive(Clone, Copy, Debug)]
pub struct Move {
    // The path, and then square 1 in each place that is left.
    squares: [Square; 13],
    len: u8,
}

impl Model for Move {
    ghost use Rattle.std.specs.Prelude.{ℕ, List, take, length};
    ghost use Rattle.draughts_board.specs.Path.{IsPadded, padded, length-path};

    ghost Value = { List ℕ };

    ghost view = { λ m. take m.len m.squares };

    ghost invariant = { λ m. IsPadded m.squares m.len };

    ghost inverse = { λ path. record { squares = padded path; len = length path } };

    ghost inverse_ok = { λ m h i. record {
      squares = h.rest i;
      len = length-path m.squares m.len h i;
    } };
}

impl Move {
    ghost use Rattle.std.specs.Prelude.{◌≡◌, ◌≤◌, ◌<◌, ◌⊎◌, ◌↔◌, ◌++◌, ◌∷◌, [], IsNone, IfSome, length, All};
    ghost use Rattle.draughts_board.specs.Geometry.{IsSquare};

    /// The move with this path; none exactly where the path has not 2 to 13 squares. Whether it is
    /// legal depends on the position.
    pub fn of(path: &[Square]) -> Option<Move>
        ensures none { IsNone result ↔ ((length path.now < 2) ⊎ (13 < length path.now)) }
        ensures some { IfSome result (λ m. m ≡ path.now) }
    {
        if path.len() < 2 || path.len() > 13 {
            return None;
        }
        Some(Move {
            squares: Square::padded(path),
            len: path.len() as u8,
        })
    }

    /// The move from the one square to the other, with none between.
    #[inline]
    pub fn direct(from: Square, to: Square) -> Move
        requires from { IsSquare from }
        requires to { IsSquare to }
        ensures { result ≡ from ∷ to ∷ [] }
    {
        let mut squares = [Square::LEAST; 13];
        squares[0] = from;
        squares[1] = to;
        Move { squares, len: 2 }
    }

    /// The move with one more square at its end.
    #[inline]
    pub fn extended(&self, to: Square) -> Move
        requires room { length self.now < 13 }
        requires to { IsSquare to }
        ensures { result ≡ self.now ++ to ∷ [] }
    {
        let mut squares = self.squares;
        squares[self.len as usize] = to;
        Move {
            squares,
            len: self.len + 1,
        }
    }

    /// Its path.
    #[inline]
    pub fn path(&self) -> &[Square]
        ensures value { result.now ≡ self.now }
        ensures least { 2 ≤ length self.now }
        ensures most { length self.now ≤ 13 }
        ensures squares { All IsSquare self.now }
    {
        &self.squares[..self.len as usize]
    }
}

impl PartialEq for Move {
    ghost use Rattle.std.specs.Prelude.{◌==◌};
    ghost use Rattle.std.proofs.Common.{rules};
    ghost use Rattle.std.specs.Cmp.Rules.{comparing};
    ghost use Rattle.std.specs.Cmp.Lexicographic.{pointwise};

    ghost eq = { pointwise ◌==◌ };

    ghost laws = { Prim.search (comparing, rules) };

    fn eq(&self, other: &Move) -> bool {
        self.path() == other.path()
    }
}

impl Eq for Move {
    ghost use Rattle.std.proofs.Common.{rules};
    ghost use Rattle.std.specs.Cmp.Rules.{comparing};

    ghost laws = { Prim.search (comparing, rules) };
}

impl Ord for Move {
    ghost use Rattle.std.proofs.Common.{rules};
    ghost use Rattle.std.specs.Cmp.Rules.{comparing};
    ghost use Rattle.std.specs.Cmp.Lexicographic.{slice_cmp};
    ghost use Rattle.std.specs.Ordering.{nat_cmp};

    ghost cmp = { slice_cmp nat_cmp };

    ghost total = { Prim.search (comparing, rules) };

    ghost matches_partial_cmp = { Prim.search (comparing, rules) };

    ghost matches_eq = { Prim.search (comparing, rules) };

    fn cmp(&self, other: &Move) -> Ordering {
        self.path().cmp(other.path())
    }
}

impl PartialOrd for Move {
    ghost use Rattle.std.proofs.Common.{rules};
    ghost use Rattle.std.specs.Cmp.{partial_order_from_own_ties};
    ghost use Rattle.std.specs.Cmp.Rules.{comparing};
    ghost use Rattle.std.specs.Cmp.Lexicographic.{slice_cmp};
    ghost use Rattle.std.specs.Ordering.{nat_cmp, as_partial_cmp};

    ghost partial_cmp = { as_partial_cmp (slice_cmp nat_cmp) };

    ghost laws = { partial_order_from_own_ties (Prim.search (comparing, rules))
        (Prim.search (comparing, rules)) };

    fn partial_cmp(&self, other: &Move) -> Option<Ordering> {
        Some(self.cmp(other))
    }
}

impl Hash for Move {
    ghost use Rattle.std.proofs.Common.{rules};
    ghost use Rattle.std.specs.Hash as fed;
    ghost use Rattle.std.specs.Cmp.Rules.{hashing};

    ghost hash_input = { fed.slice fed.u8 };

    ghost respects_eq = { Prim.search (hashing, rules) };

    fn hash<H: Hasher>(&self, state: &mut H) {
        self.path().hash(state);
    }
}
