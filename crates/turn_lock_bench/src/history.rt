//! The value that lock and mutex keep: the turns that were taken.
ghost use Rattle.std.specs.Prelude.{◌≡◌, ◌++◌, ◌∷◌, [], length, OnOk, OnErr};

use std::alloc::{AllocError, Global};
use std::marker::Model;
use turn_lock::Kept;

/// One turn: who took it, and its number among this caller's turns, from 0.
#[derive(Clone, Copy, Debug, PartialEq, Eq)]
pub struct Turn {
    pub caller: u32,
    pub number: u32,
}

/// The turns that were taken, in order. Contracts see a list.
#[derive(Drop)]
pub struct History {
    turns: Vec<Turn>,
}

impl Model for History {
    ghost use Rattle.std.specs.Prelude.{List};
    ghost use Rattle.turn_lock_bench.specs.declared.history.Turn.{Turn};

    ghost Value = { List Turn };

    ghost view = { λ h. h.turns.items };
}

impl Kept for History {
    type Entry = Turn;

    ghost entries = { λ history. history };

    // A turn may add any entry.
    ghost may_add = { λ _. Unit {0} };

    fn count(&self) -> u64 {
        self.turns.len() as u64
    }
}

impl History {
    /// A history without turns.
    pub fn new(alloc: Global) -> Self
        ensures { result ≡ [] }
    {
        History {
            turns: Vec::new(alloc),
        }
    }

    /// How many turns it has.
    pub fn len(&self) -> usize
        ensures { result ≡ length self.now }
    {
        self.turns.len()
    }

    /// Puts one turn behind the others.
    pub fn push(&mut self, turn: Turn) -> Result<(), AllocError>
        ensures ok { OnOk result (self.new ≡ self.old ++ turn ∷ []) }
        ensures err { OnErr result (self.new ≡ self.old) }
    {
        self.turns.push(turn)?;
        Ok(())
    }

    /// Whether the caller's turns are those from 0 to `turns`, in rising order, each once.
    pub fn is_in_order(&self, caller: u32, turns: u32) -> bool {
        let of_caller = self.turns.iter().filter(|turn| turn.caller == caller);
        of_caller.map(|turn| turn.number).eq(0..turns)
    }
}
