//! What parts of both kinds have: positions, each with the move chosen there.
use draughts_board::{Move, Position};
use strategy_certificate::{HoldPart, WinPart};

/// Positions, each with the move chosen there, looked up by position and by place.
pub(crate) trait Strategy {
    ghost use Rattle.std.specs.Prelude.{◌≡◌, ◌<◌, ◌↔◌, ℕ, List, Option, Some, length, slice_get};
    ghost use Rattle.draughts_board.specs.Board.{Board};
    ghost use Rattle.strategy_certificate.specs.Parts.{HasDistinctPositions};
    ghost use Rattle.strategy_certificate.specs.Places.{StandsAt};

    ghost rows: { Self → List (Board × Option (List ℕ)) };

    /// Does nothing: no position stands twice.
    fn note_distinct(&self)
        ensures { HasDistinctPositions (rows self.now) };

    /// The position at this place, counted from 0, and the move chosen there.
    fn choice(&self, place: usize) -> (Position, Option<Move>)
        requires { place < length (rows self.now) }
        ensures { slice_get (rows self.now) place ≡ Some result };

    /// The place of this position; none exactly where it has none.
    fn place_of(&self, p: &Position) -> Option<usize>
        ensures { (i : ℕ) → (result ≡ Some i) ↔ StandsAt (rows self.now) i p.now };
}

impl Strategy for HoldPart {
    ghost rows = { λ part. part.entries };

    fn note_distinct(&self) {
        let _count = self.len();
    }

    fn choice(&self, place: usize) -> (Position, Option<Move>) {
        self.entry(place)
    }

    fn place_of(&self, p: &Position) -> Option<usize> {
        self.place(p)
    }
}

impl Strategy for WinPart {
    ghost use Rattle.std.specs.Prelude.{map};
    ghost use Rattle.strategy_certificate.specs.Parts.{without_rank};

    ghost rows = { λ part. map without_rank part.entries };

    fn note_distinct(&self) {
        let _count = self.len();
    }

    fn choice(&self, place: usize) -> (Position, Option<Move>) {
        let (p, e) = self.entry(place);
        (p, e.chosen)
    }

    fn place_of(&self, p: &Position) -> Option<usize> {
        self.place(p)
    }
}
