//! Why a play is refused.
ghost use Rattle.std.specs.Prelude.{◌≡◌};
ghost use Rattle.certificate_plays.specs.declared.refusals.LinesRefusal.TheVariants as refusals;

use draughts_board::{Position, Side};
use std::alloc::AllocError;

/// Why a line of the source is refused.
#[derive(Clone, Copy, Debug, PartialEq, Eq)]
pub enum LineFault {
    /// It is no move word.
    BadLine,
    /// It means no legal move.
    Illegal,
    /// It means legal moves that lead to different positions.
    Ambiguous,
    /// The play is won before it.
    AfterEnd,
}

/// Why a play by a certificate against the lines of a source is refused.
#[derive(Clone, Copy, Debug, PartialEq, Eq)]
pub enum LinesRefusal {
    /// The certificate does not say that this side holds.
    NotHeld(Side),
    /// This line, counted from 1, is refused, where the play stands at this position.
    Line {
        number: usize,
        position: Position,
        fault: LineFault,
    },
    /// Memory ran out.
    Memory(AllocError),
}

impl From<AllocError> for LinesRefusal {
    ghost from_gives = { λ error refusal. refusal ≡ refusals.Memory error };

    /// Memory ran out.
    fn from(error: AllocError) -> LinesRefusal {
        LinesRefusal::Memory(error)
    }
}
