//! Tables: an answer for each position with few pieces.
use crate::numbers::answer_of;
use draughts_board::{Position, Side};
use std::marker::Model;
use strategy_certificate::{Answer, Oracle};
use table_index::index_of;

/// The answers at all positions with at most 2 or at most 3 pieces, which are sound.
///
/// Contracts see the number of pieces, and the number at each index.
#[derive(Drop)]
pub struct Table {
    pieces: u8,
    numbers: Vec<u32>,
}

impl Model for Table {
    ghost use Rattle.endgame_table.specs.Entries.{Entries, IsTable};

    ghost Value = { Entries };

    ghost view = { λ t. record { pieces = t.pieces; numbers = t.numbers.items } };

    ghost invariant = { λ t. IsTable t.pieces t.numbers.items };
}

impl Table {
    ghost use Rattle.std.specs.Prelude.{◌≡◌, ◌<◌, ◌↔◌, IsNone, length};
    ghost use Rattle.draughts_board.specs.Board.{piece_count};
    ghost use Rattle.endgame_table.specs.Entries.{IsTable, answers};

    /// The table of these numbers, where the caller knows that they are sound.
    pub fn of_sound(pieces: u8, numbers: Vec<u32>) -> Table
        requires { IsTable pieces numbers.items }
        ensures { result ≡ record { pieces = pieces; numbers = numbers.items } }
    {
        Table { pieces, numbers }
    }

    /// For how many pieces the table is, 2 or 3.
    pub fn pieces(&self) -> u8
        ensures value { result ≡ self.now.pieces }
        ensures table { IsTable self.now.pieces self.now.numbers }
    {
        self.pieces
    }

    /// How many indices the table has.
    pub fn len(&self) -> usize
        ensures value { result ≡ length self.now.numbers }
        ensures table { IsTable self.now.pieces self.now.numbers }
    {
        self.numbers.len()
    }

    /// The number at each index: 0 is a draw, 2r + 1 a loss of rank r and 2r + 2 a win of rank r, of the side to move;
    /// 4294967295 stands at an index that is no position.
    pub fn numbers(&self) -> &[u32]
        ensures value { result.now ≡ self.now.numbers }
        ensures table { IsTable self.now.pieces self.now.numbers }
    {
        &self.numbers
    }

    /// The answer at the position: none exactly where it has more pieces than the table.
    pub fn probe(&self, p: &Position) -> Option<Answer>
        ensures value { result ≡ answers self.now.pieces self.now.numbers p.now }
        ensures none { IsNone result ↔ (self.now.pieces < piece_count p.now) }
        ensures table { IsTable self.now.pieces self.now.numbers }
    {
        if p.count(Side::Black) + p.count(Side::White) > self.pieces {
            return None;
        }
        answer_of(self.numbers[index_of(p) as usize])
    }
}

impl Oracle for Table {
    ghost use Rattle.endgame_table.specs.Entries.{answers};

    ghost piece_limit = { λ t. t.pieces };

    ghost answer_at = { λ t. answers t.pieces t.numbers };

    fn pieces(&self) -> u8 {
        self.pieces
    }

    fn answer(&self, p: &Position) -> Option<Answer> {
        self.probe(p)
    }
}
