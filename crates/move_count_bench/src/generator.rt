//! The two move generators under one name.
ghost use Rattle.std.specs.Prelude.{◌≡◌, IfOk};
ghost use Rattle.draughts_board.specs.Rules.{AreLegalPaths, IsLegal, after};
ghost use Rattle.draughts_board.specs.Play.{legal_paths};

use draughts_board::{Move, Position};
use std::alloc::{AllocError, Global};

/// A move generator.
#[derive(Clone, Copy, PartialEq, Eq, Debug)]
pub enum Generator {
    /// `draughts_rules`.
    Plain,
    /// `swift_moves`.
    Swift,
}

impl Generator {
    /// The legal moves.
    pub fn legal_moves(self, alloc: Global, p: &Position) -> Result<Vec<Move>, AllocError>
        ensures exact { IfOk result (λ moves. moves.items ≡ legal_paths p.now) }
        ensures rules { IfOk result (λ moves. AreLegalPaths p.now moves.items) }
    {
        match self {
            Generator::Plain => draughts_rules::legal_moves(alloc, p),
            Generator::Swift => swift_moves::legal_moves(alloc, p),
        }
    }

    /// The position after a legal move.
    pub fn apply(self, p: &Position, m: &Move) -> Position
        requires { IsLegal p.now m.now }
        ensures { result ≡ after p.now m.now }
    {
        match self {
            Generator::Plain => draughts_rules::apply(p, m),
            Generator::Swift => swift_moves::apply(p, m),
        }
    }

    /// Its name on the command line and in the output.
    pub fn name(self) -> &'static str {
        match self {
            Generator::Plain => "plain",
            Generator::Swift => "swift",
        }
    }
}
