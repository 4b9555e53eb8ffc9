//! Positions that have no children in a tree yet, and their numbers.
ghost use Rattle.std.specs.Prelude.{◌≡◌};
ghost use Rattle.proof_numbers.specs.Numbers.{mobility, counted_moves, leaf_numbers};
ghost use Rattle.proof_numbers.specs.Facts.{known};

use crate::facts::Facts;
use crate::numbers::{Number, Numbers};
use draughts_board::{Position, Side};

/// A leaf counts this number of moves at most.
pub const MOST_MOVES: u8 = 64;

/// A position, what is known of it, and its mobility.
#[derive(Clone, Copy, PartialEq, Eq, Debug)]
pub struct Child {
    /// Where the move led.
    pub position: Position,
    /// What is known there.
    pub facts: Facts,
    /// How many successors the position has, at most 64, and 1 where it has none.
    pub moves: u8,
    pub ghost counted: { moves ≡ mobility position },
}

/// The mobility of a position with `successors` successors: the lesser of that and 64, and 1 where there
/// is none.
pub fn mobility(successors: usize) -> u8
    ensures { result ≡ counted_moves successors }
{
    if successors == 0 {
        return 1;
    }
    successors.min(MOST_MOVES as usize) as u8
}

/// The numbers of a position that has no children yet, for the goal: (0, infinite) where its win is
/// known; else (infinite, 0) where the other side's hold is known or the node repeats; else (1,
/// `moves`) where the goal moves, and (`moves`, 1) where the other side does.
pub fn leaf(facts: Facts, repeats: bool, goal: Side, mover: Side, moves: u8) -> Numbers
    ensures { result ≡ leaf_numbers goal (known facts) repeats mover moves }
{
    if facts.knows_win(goal) {
        return Numbers {
            proof: Number::Finite(0),
            disproof: Number::Infinite,
        };
    }
    if facts.knows_hold(goal.other()) || repeats {
        return Numbers {
            proof: Number::Infinite,
            disproof: Number::Finite(0),
        };
    }
    if goal == mover {
        Numbers {
            proof: Number::Finite(1),
            disproof: Number::Finite(moves as u128),
        }
    } else {
        Numbers {
            proof: Number::Finite(moves as u128),
            disproof: Number::Finite(1),
        }
    }
}
