//! Sides, what stands on a square, and what a position is worth.
ghost use Rattle.std.specs.Prelude.{◌≡◌};

/// A player, and the colour of its pieces.
///
/// Black starts on squares 1 to 12 and moves first; its men go towards higher rows, White's towards
/// lower ones.
#[derive(Clone, Copy, PartialEq, Eq, PartialOrd, Ord, Hash, Debug)]
pub enum Side {
    Black,
    White,
}

impl Side {
    ghost use Rattle.draughts_board.specs.Board.{other};

    /// The opponent.
    pub fn other(self) -> Side
        ensures { result ≡ other self }
    {
        match self {
            Side::Black => Side::White,
            Side::White => Side::Black,
        }
    }
}

/// What a position is worth: a side has a forced win, or neither has.
#[derive(Clone, Copy, PartialEq, Eq, PartialOrd, Ord, Hash, Debug)]
pub enum Value {
    BlackWins,
    WhiteWins,
    Draw,
}

/// What stands on a square.
#[derive(Clone, Copy, PartialEq, Eq, PartialOrd, Ord, Hash, Debug)]
pub enum Cell {
    Empty,
    Man(Side),
    King(Side),
}

impl Cell {
    ghost use Rattle.draughts_board.specs.Board.{belongs, is_empty, turned_cell};

    /// No piece stands there.
    pub fn is_empty(self) -> bool
        ensures { result ≡ is_empty self }
    {
        matches!(self, Cell::Empty)
    }

    /// A piece of the side stands there.
    pub fn belongs_to(self, side: Side) -> bool
        ensures { result ≡ belongs side self }
    {
        match self {
            Cell::Empty => false,
            Cell::Man(owner) => owner == side,
            Cell::King(owner) => owner == side,
        }
    }

    /// The same piece in the other colour.
    pub fn turned(self) -> Cell
        ensures { result ≡ turned_cell self }
    {
        match self {
            Cell::Empty => Cell::Empty,
            Cell::Man(owner) => Cell::Man(owner.other()),
            Cell::King(owner) => Cell::King(owner.other()),
        }
    }
}
