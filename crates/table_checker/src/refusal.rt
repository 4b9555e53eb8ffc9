//! Why bytes are no endgame table.
ghost use Rattle.std.specs.Prelude.{◌≡◌};
ghost use Rattle.table_checker.specs.declared.refusal.TableRefusal.TheVariants as refusals;

use std::alloc::AllocError;
use thiserror::Error;

/// Why bytes are no endgame table.
#[derive(Clone, Copy, Debug, PartialEq, Eq, Error)]
pub enum TableRefusal {
    /// The first 8 bytes are not `DRTABLE` and a byte of 2 or 3.
    #[error("no table of 2 or 3 pieces begins so")]
    BadHead,
    /// There are not 8 bytes and 4 for each index; both lengths are in bytes.
    #[error("{found} bytes where a table has {due}")]
    WrongLength { found: usize, due: usize },
    /// The first index at which the number that is kept does not fit those of the next positions.
    #[error("the number {kept} at index {index} does not fit")]
    BadEntry { index: u32, kept: u32 },
    /// Memory ran out.
    #[error("out of memory")]
    Memory(AllocError),
}

impl From<AllocError> for TableRefusal {
    ghost from_gives = { λ error refusal. refusal ≡ refusals.Memory error };

    /// Want of memory.
    fn from(error: AllocError) -> TableRefusal {
        TableRefusal::Memory(error)
    }
}
