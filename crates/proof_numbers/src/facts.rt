//! Facts of a position.
ghost use Rattle.std.specs.Prelude.{◌≡◌, false, IsTrue};

use draughts_board::{Side, Value};

/// Which of the four facts of a position are known: that a side has a forced win, and that a side
/// holds, which says that the other side has no forced win. A side that wins holds, and the other
/// side then does not.
#[derive(Clone, Copy, PartialEq, Eq, PartialOrd, Ord, Hash, Debug)]
pub struct Facts {
    /// Black has a forced win.
    pub black_wins: bool,
    /// White has a forced win.
    pub white_wins: bool,
    /// White has no forced win.
    pub black_holds: bool,
    /// Black has no forced win.
    pub white_holds: bool,
    pub ghost black: { IsTrue black_wins → IsTrue black_holds × (white_holds ≡ false) },
    pub ghost white: { IsTrue white_wins → IsTrue white_holds × (black_holds ≡ false) },
}

impl Facts {
    ghost use Rattle.std.specs.Prelude.{◌↔◌};
    ghost use Rattle.proof_numbers.specs.Known.{nothing_known, value_known, win_known, hold_known, knows_win, knows_hold, known_value, includes, joined, is_decided, IsConsistent};
    ghost use Rattle.proof_numbers.specs.Facts.{known};

    /// Nothing is known.
    pub fn none() -> Facts
        ensures { known result ≡ nothing_known }
    {
        Facts {
            black_wins: false,
            white_wins: false,
            black_holds: false,
            white_holds: false,
        }
    }

    /// All four facts of a position of this value.
    pub fn of_value(value: Value) -> Facts
        ensures { known result ≡ value_known value }
    {
        Facts {
            black_wins: value == Value::BlackWins,
            white_wins: value == Value::WhiteWins,
            black_holds: value != Value::WhiteWins,
            white_holds: value != Value::BlackWins,
        }
    }

    /// What a win of the side tells: that it wins, and so holds.
    pub fn of_win(side: Side) -> Facts
        ensures { known result ≡ win_known side }
    {
        Facts {
            black_wins: side == Side::Black,
            white_wins: side == Side::White,
            black_holds: side == Side::Black,
            white_holds: side == Side::White,
        }
    }

    /// What a hold of the side tells: that and nothing else.
    pub fn of_hold(side: Side) -> Facts
        ensures { known result ≡ hold_known side }
    {
        Facts {
            black_wins: false,
            white_wins: false,
            black_holds: side == Side::Black,
            white_holds: side == Side::White,
        }
    }

    /// The side is known to have a forced win.
    pub fn knows_win(&self, side: Side) -> bool
        ensures { result ≡ knows_win side (known self.now) }
    {
        match side {
            Side::Black => self.black_wins,
            Side::White => self.white_wins,
        }
    }

    /// The other side is known to have no forced win.
    pub fn knows_hold(&self, side: Side) -> bool
        ensures { result ≡ knows_hold side (known self.now) }
    {
        match side {
            Side::Black => self.black_holds,
            Side::White => self.white_holds,
        }
    }

    /// It is known whether the goal has a forced win.
    pub fn decide(&self, goal: Side) -> bool
        ensures { result ≡ is_decided goal (known self.now) }
    {
        self.knows_win(goal) || self.knows_hold(goal.other())
    }

    /// The value, where the facts known leave one alone.
    pub fn value(&self) -> Option<Value>
        ensures { result ≡ known_value (known self.now) }
    {
        if self.black_wins {
            return Some(Value::BlackWins);
        }
        if self.white_wins {
            return Some(Value::WhiteWins);
        }
        if self.black_holds && self.white_holds {
            return Some(Value::Draw);
        }
        None
    }

    /// All that the other facts know is known here too.
    pub fn includes(&self, other: &Facts) -> bool
        ensures { result ≡ includes (known self.now) (known other.now) }
    {
        (self.black_wins || !other.black_wins)
            && (self.white_wins || !other.white_wins)
            && (self.black_holds || !other.black_holds)
            && (self.white_holds || !other.white_holds)
    }

    /// All that is known here or there. The caller knows that the two do not contradict each other.
    pub fn joined(&self, other: &Facts) -> Facts
        requires { IsConsistent (joined (known self.now) (known other.now)) }
        ensures { known result ≡ joined (known self.now) (known other.now) }
    {
        Facts {
            black_wins: self.black_wins || other.black_wins,
            white_wins: self.white_wins || other.white_wins,
            black_holds: self.black_holds || other.black_holds,
            white_holds: self.white_holds || other.white_holds,
        }
    }
}
