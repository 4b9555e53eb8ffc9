//! Answers of endgame tables, and who gives them.
use draughts_board::Position;

/// The number of positions of at most three pieces. Each rank in a sound table of two or three
/// pieces is below it.
pub const TABLE_POSITIONS: u64 = 651_010;

/// What an endgame table says of a position, for the side to move, with a bound on the plies to the
/// end.
#[derive(Clone, Copy, PartialEq, Eq, Debug)]
pub enum Answer {
    /// The side to move wins in at most this number of plies.
    Win(u32),
    /// The side to move loses in at most this number of plies.
    Loss(u32),
    /// Neither side has a forced win.
    Draw,
}

/// Who answers for the positions with few pieces, by the one sound table for that number of pieces.
pub trait Oracle {
    ghost use Rattle.std.specs.Prelude.{◌≡◌, ℕ, Option};
    ghost use Rattle.draughts_board.specs.Board.{Board};
    ghost use Rattle.draughts_board.specs.Draughts.{draughts};
    ghost use Rattle.strategy_certificate.specs.Tables.{IsSoundTable, IsTableSize};
    ghost use Rattle.strategy_certificate.specs.declared.oracle.Answer.{Answer};

    ghost piece_limit: { Self → ℕ };

    ghost answer_at: { Self → Board → Option Answer };

    /// For how many pieces it answers, 2 or 3. What it answers is sound.
    fn pieces(&self) -> u8
        ensures value { result ≡ piece_limit self.now }
        ensures range { IsTableSize result }
        ensures sound { IsSoundTable draughts (piece_limit self.now) (answer_at self.now) };

    /// The answer at this position: none exactly where it has more pieces than that. What it
    /// answers is sound.
    fn answer(&self, p: &Position) -> Option<Answer>
        ensures value { result ≡ answer_at self.now p.now }
        ensures sound { IsSoundTable draughts (piece_limit self.now) (answer_at self.now) };
}
