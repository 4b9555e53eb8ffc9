//! Why a text is refused.
ghost use Rattle.std.specs.Prelude.{◌≡◌};
ghost use Rattle.pdn_text.specs.declared.refusal.PdnRefusal.TheVariants as refusals;

use std::alloc::AllocError;
use thiserror::Error;

/// The fault that stands first in a text. Places are byte offsets from 0.
#[derive(Debug, Drop, Error)]
pub enum PdnRefusal {
    /// A byte that begins no item stands here; a `$` without a digit too.
    #[error("byte {0} begins nothing that may stand there")]
    BadByte(usize),
    /// What stands here from `[` on is no tag.
    #[error("no tag stands at byte {0}")]
    OpenTag(usize),
    /// The comment whose `{` stands here is never closed. It may stand inside a variation.
    #[error("the comment at byte {0} is not closed")]
    OpenComment(usize),
    /// The variation whose outermost `(` stands here is never closed, though each comment in it is.
    #[error("the variation at byte {0} is not closed")]
    OpenVariation(usize),
    /// The word that begins here is no result, no move number and no move.
    #[error("the word at byte {0} is no move")]
    BadMove(usize),
    /// A 4,097th game begins.
    #[error("more than 4,096 games")]
    TooManyGames,
    /// Memory ran out.
    #[error("out of memory")]
    Memory(AllocError),
}

impl From<AllocError> for PdnRefusal {
    ghost from_gives = { λ error refusal. refusal ≡ refusals.Memory error };

    /// Want of memory.
    fn from(error: AllocError) -> PdnRefusal {
        PdnRefusal::Memory(error)
    }
}
