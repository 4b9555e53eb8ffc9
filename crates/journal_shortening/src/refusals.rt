//! Why no shorter journal is written.
ghost use Rattle.std.specs.Prelude.{◌≡◌};
ghost use Rattle.journal_shortening.specs.Refusals.{of_from};
ghost use Rattle.journal_shortening.specs.declared.refusals.CompactRefusal.TheVariants as refusals;

use disk_journal::JournalRefusal;
use std::alloc::AllocError;
use thiserror::Error;

/// Why no shorter journal is written, or none is chosen.
#[derive(Clone, Copy, Debug, PartialEq, Eq, Error)]
pub enum CompactRefusal {
    /// A call of the disk that is read failed.
    #[error("the disk of the journal refused a call")]
    FromDisk,
    /// More than 9 bytes, and the first 8 are no head.
    #[error("no journal")]
    NotAJournal,
    /// A gate is due at this place and no sound frame stands there, or the length field of a payload
    /// stands there that is no lawful record.
    #[error("the journal is damaged at byte {0}")]
    Damaged(u64),
    /// A call of the disk that is written failed.
    #[error("the disk of the new journal refused a call")]
    IntoDisk,
    /// The disk to be written has this number of bytes, more than 9.
    #[error("the new journal has {0} bytes already")]
    NotFresh(u64),
    #[error("out of memory")]
    Memory(AllocError),
}

impl From<JournalRefusal> for CompactRefusal {
    ghost from_gives = { λ fault refusal. refusal ≡ of_from fault };

    /// The journal is not read as records.
    fn from(fault: JournalRefusal) -> CompactRefusal {
        match fault {
            JournalRefusal::DiskFault => CompactRefusal::FromDisk,
            JournalRefusal::NotAJournal => CompactRefusal::NotAJournal,
            JournalRefusal::OtherTable { .. } => CompactRefusal::NotAJournal,
            JournalRefusal::Damaged(at) => CompactRefusal::Damaged(at),
            JournalRefusal::Memory(error) => CompactRefusal::Memory(error),
        }
    }
}

impl From<AllocError> for CompactRefusal {
    ghost from_gives = { λ error refusal. refusal ≡ refusals.Memory error };

    /// Memory ran out.
    fn from(error: AllocError) -> CompactRefusal {
        CompactRefusal::Memory(error)
    }
}
