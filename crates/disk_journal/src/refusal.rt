//! Why a disk is not read as a journal.
ghost use Rattle.std.specs.Prelude.{◌≡◌};
ghost use Rattle.disk_journal.specs.declared.refusal.JournalRefusal.TheVariants as refusals;

use std::alloc::AllocError;
use thiserror::Error;

/// Why a disk is not read as a journal.
#[derive(Clone, Copy, Debug, PartialEq, Eq, Error)]
pub enum JournalRefusal {
    /// A call of the disk failed.
    #[error("the disk refused a call")]
    DiskFault,
    /// More than 9 bytes, and the first 8 are no head.
    #[error("no journal")]
    NotAJournal,
    /// The head is that of a journal for tables of other pieces.
    #[error("a journal for tables of {found} pieces, not of {asked}")]
    OtherTable { found: u8, asked: u8 },
    /// At this place, counted from 0, a gate is due, and the file ends there or no sound frame
    /// stands behind it.
    #[error("the journal is damaged at byte {0}")]
    Damaged(u64),
    #[error("out of memory")]
    Memory(AllocError),
}

impl From<bench_disk::DiskFault> for JournalRefusal {
    ghost from_gives = { λ _ refusal. refusal ≡ refusals.DiskFault };

    fn from(_: bench_disk::DiskFault) -> JournalRefusal {
        JournalRefusal::DiskFault
    }
}

impl From<AllocError> for JournalRefusal {
    ghost from_gives = { λ error refusal. refusal ≡ refusals.Memory error };

    fn from(error: AllocError) -> JournalRefusal {
        JournalRefusal::Memory(error)
    }
}
