//! The 32 dark squares.
use std::marker::Model;

/// A dark square, by its number from 1 to 32.
///
/// Row `r`, from 0 on Black's side to 7, holds the squares `4r + 1` to `4r + 4`. A contract sees a
/// square as its number.
#[derive(Clone, Copy, PartialEq, Eq, PartialOrd, Ord, Hash, Debug)]
pub struct Square {
    number: u8,
}

impl Model for Square {
    ghost use Rattle.std.specs.Prelude.{ℕ};
    ghost use Rattle.draughts_board.specs.Geometry.{IsSquare};

    ghost Value = { ℕ };

    ghost view = { λ s. s.number };

    ghost invariant = { λ s. IsSquare s.number };

    ghost inverse = { λ n. record { number = n } };
}

impl Square {
    /// Square 1.
    pub(crate) const LEAST: Square = Square { number: 1 };

    ghost use Rattle.std.specs.Prelude.{◌≡◌, ◌≤◌, ◌<◌, ◌↔◌, ◌==◌, ◌∷◌, ◌-◌, IsNone, IfSome, length, All};
    ghost use Rattle.std.specs.Int.Bits.{bit_and};
    ghost use Rattle.draughts_board.specs.Path.{padded};
    ghost use Rattle.draughts_board.specs.Geometry.{IsSquare, squares, row, column, are_jump_apart, are_near, between};
    ghost use Rattle.draughts_board.specs.Masks.{IsMaskOf, squares_of};

    /// The square of this number; none exactly where the number is not 1 to 32.
    pub fn new(n: u8) -> Option<Square>
        ensures none { IsNone result ↔ (¬ IsSquare n) }
        ensures some { IfSome result (λ s. s ≡ n) }
    {
        if (1..=32).contains(&n) {
            Some(Square { number: n })
        } else {
            None
        }
    }

    /// Its number, 1 to 32.
    pub fn number(self) -> u8
        ensures value { result ≡ self }
        ensures range { IsSquare self }
    {
        self.number
    }

    /// The mask of this square alone, in which square n is the bit of value 2^(n - 1).
    #[inline]
    pub fn bit(self) -> u32
        ensures value { IsMaskOf (λ n. n == self) result }
        ensures range { IsSquare self }
    {
        1 << (self.number() - 1)
    }

    /// The lowest square of the mask. `mask & (mask - 1)` holds the others.
    #[inline]
    pub fn lowest(mask: u32) -> Square
        requires { 0 < mask }
        ensures first { squares_of mask ≡ result ∷ squares_of (bit_and mask (mask - 1)) }
        ensures square { IsSquare result }
    {
        Square {
            number: mask.trailing_zeros() as u8 + 1,
        }
    }

    /// Its row, 0 (Black's first) to 7 (White's first).
    pub fn row(self) -> u8
        ensures value { result ≡ row self }
        ensures range { result ≤ 7 }
    {
        (self.number() - 1) / 4
    }

    /// Its column, 0 to 7.
    pub fn column(self) -> u8
        ensures value { result ≡ column self }
        ensures range { result ≤ 7 }
    {
        let place = (self.number() - 1) % 4;
        if self.row() % 2 == 0 {
            2 * place + 1
        } else {
            2 * place
        }
    }

    /// The squares lie one row and one column apart.
    pub fn is_near(self, to: Square) -> bool
        ensures { result ≡ are_near self to }
    {
        self.row().abs_diff(to.row()) == 1 && self.column().abs_diff(to.column()) == 1
    }

    /// The squares lie two rows and two columns apart.
    pub fn is_jump_apart(self, to: Square) -> bool
        ensures { result ≡ are_jump_apart self to }
    {
        self.row().abs_diff(to.row()) == 2 && self.column().abs_diff(to.column()) == 2
    }

    /// The square that a jump from here to there passes over. Its row and column are the means of
    /// theirs.
    pub fn between(self, to: Square) -> Square
        ensures { result ≡ between self to }
    {
        let row = (self.row() + to.row()) / 2;
        let column = (self.column() + to.column()) / 2;
        Square {
            number: 4 * row + column / 2 + 1,
        }
    }

    /// The squares, and then square 1 in each of 13 places that is left.
    pub(crate) fn padded(path: &[Square]) -> [Square; 13]
        requires { length path.now ≤ 13 }
        ensures value { result ≡ padded path.now }
        ensures squares { All IsSquare path.now }
    {
        let mut squares = [Square::LEAST; 13];
        for (i, square) in path.iter().enumerate() {
            squares[i] = Square {
                number: square.number,
            };
        }
        squares
    }

    /// All squares, in rising order.
    pub fn all() -> [Square; 32]
        ensures { result ≡ squares }
    {
        let mut all = [Square::LEAST; 32];
        for i in 0..32 {
            all[i] = Square {
                number: i as u8 + 1,
            };
        }
        all
    }
}
