//! A table that counts how often it is asked.
use draughts_board::Position;
use endgame_table::Table;
use std::cell::Cell;
use strategy_certificate::{Answer, Oracle};

/// A table that counts how often it is asked: a search asks it of each position that it looks at.
#[derive(Drop)]
pub(crate) struct Counted<'a> {
    table: &'a Table,
    asked: Cell<u64>,
}

impl<'a> Counted<'a> {
    /// The table, which was not asked yet.
    pub(crate) fn new(table: &'a Table) -> Counted<'a> {
        Counted {
            table,
            asked: Cell::new(0),
        }
    }

    /// How often it was asked.
    pub(crate) fn asked(&self) -> u64 {
        self.asked.get()
    }
}

impl Oracle for Counted<'_> {
    ghost use Rattle.endgame_table.specs.Entries.{answers};

    ghost piece_limit = { λ c. c.table.now.pieces };

    ghost answer_at = { λ c. answers c.table.now.pieces c.table.now.numbers };

    fn pieces(&self) -> u8 {
        self.table.pieces()
    }

    fn answer(&self, p: &Position) -> Option<Answer> {
        self.asked.set(self.asked.get().saturating_add(1));
        self.table.answer(p)
    }
}
