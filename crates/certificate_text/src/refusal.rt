//! Why a text is no certificate's.
ghost use Rattle.std.specs.Prelude.{◌≡◌};
ghost use Rattle.certificate_text.specs.declared.refusal.TextRefusal.TheVariants as refusals;

use std::alloc::AllocError;
use thiserror::Error;

/// Why a text is no certificate's. Lines count from 1.
#[derive(Clone, Copy, PartialEq, Eq, Debug, Error)]
pub enum TextRefusal {
    /// This line is none that may stand there; its field of a position is not looked at.
    #[error("line {0} may not stand there")]
    BadLine(usize),
    /// This line may stand there, but its field of a position is no FEN as it is printed.
    #[error("the position of line {0} is no printed FEN")]
    BadFen(usize),
    /// The position of this entry line has an entry in the same part already.
    #[error("the position of line {0} stands in its part already")]
    Doubled(usize),
    /// Where a line is due no line end stands in the rest of the text.
    #[error("the text ends too early")]
    Truncated,
    /// Bytes stand behind the line `end`; they begin this line.
    #[error("line {0} stands behind the end")]
    AfterEnd(usize),
    /// There was no memory for the certificate.
    #[error("out of memory")]
    Memory(AllocError),
}

impl From<AllocError> for TextRefusal {
    ghost from_gives = { λ error refusal. refusal ≡ refusals.Memory error };

    /// Want of memory.
    fn from(error: AllocError) -> TextRefusal {
        TextRefusal::Memory(error)
    }
}
