//! Why a text is no FEN.
use draughts_board::{PlaceRefusal, Side, Square};
use thiserror::Error;

/// Why a text is no FEN. Places are bytes from 0.
///
/// The first three that a reader from the front meets are `BadLetter`, `BadSquare` and `Truncated`;
/// of a text that has the form, `Twice` is tried first, then `TooMany`, then `ManOnLastRow`.
#[derive(Clone, Copy, PartialEq, Eq, Debug, Error)]
pub enum FenRefusal {
    /// At this byte a letter, `:`, `,`, the full stop or the end is due, and it is none that may
    /// stand there.
    #[error("byte {0} may not stand there")]
    BadLetter(usize),
    /// At this byte a square is due, and none that may stand there does.
    #[error("no square at byte {0}")]
    BadSquare(usize),
    /// The least square that is named more than once.
    #[error("square {} is named more than once", .0.number())]
    Twice(Square),
    /// The side has more than 12 pieces; Black is counted first.
    #[error("{} has more than 12 pieces", name(*.0))]
    TooMany(Side),
    /// The least square with a man on its farthest row: a Black man on 29 to 32, a White man on 1
    /// to 4.
    #[error("the man on square {} is on its farthest row", .0.number())]
    ManOnLastRow(Square),
    /// The text ends where a letter, a `:` or a square is due.
    #[error("the text ends too early")]
    Truncated,
}

/// The name of a side.
fn name(side: Side) -> &'static str {
    match side {
        Side::Black => "Black",
        Side::White => "White",
    }
}

impl From<PlaceRefusal> for FenRefusal {
    ghost use Rattle.std.specs.Prelude.{◌≡◌};
    ghost use Rattle.fen_text.specs.Refusal.{of_place};

    ghost from_gives = { λ refusal result. result ≡ of_place refusal };

    /// What cells that are no position are refused as.
    fn from(refusal: PlaceRefusal) -> FenRefusal {
        match refusal {
            PlaceRefusal::TooMany(side) => FenRefusal::TooMany(side),
            PlaceRefusal::ManOnLastRow(square) => FenRefusal::ManOnLastRow(square),
        }
    }
}
