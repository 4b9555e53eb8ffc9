//! Why a journal is not reported, or a root not certified.
ghost use Rattle.std.specs.Prelude.{◌≡◌};
ghost use Rattle.disk_journal.specs.declared.refusal.JournalRefusal.TheVariants as journal;
ghost use Rattle.journal_looks.specs.Conversions.{of_look};
ghost use Rattle.journal_looks.specs.declared.refusals.LookRefusal.TheVariants as refusals;

use disk_journal::JournalRefusal;
use opening_report::Refusal;
use std::alloc::AllocError;
use thiserror::Error;

/// Why a journal is not reported, or a root not certified.
#[derive(Clone, Copy, Debug, PartialEq, Eq, Error)]
pub enum LookRefusal {
    /// The disk is not read as records: it failed, its bytes are no journal or a damaged one, or
    /// memory ran out. The place of a damage is that of a gate, or of the length field of a payload
    /// that is no lawful record.
    #[error("{0}")]
    Journal(JournalRefusal),
    /// No root has this number, counted from 1.
    #[error("there is no root {0}")]
    NoRoot(u32),
    /// The root with this number, counted from 1, has no value yet.
    #[error("root {0} has no value yet")]
    UnsettledRoot(u32),
}

impl From<JournalRefusal> for LookRefusal {
    ghost from_gives = { λ fault refusal. refusal ≡ refusals.Journal fault };

    /// The disk is not read as records.
    fn from(fault: JournalRefusal) -> LookRefusal {
        LookRefusal::Journal(fault)
    }
}

impl From<AllocError> for LookRefusal {
    ghost from_gives = { λ error refusal. refusal ≡ refusals.Journal (journal.Memory error) };

    /// Memory ran out.
    fn from(error: AllocError) -> LookRefusal {
        LookRefusal::Journal(JournalRefusal::Memory(error))
    }
}

impl From<LookRefusal> for Refusal {
    ghost from_gives = { λ fault refusal. refusal ≡ of_look fault };

    /// The look at the journal is refused.
    fn from(fault: LookRefusal) -> Refusal {
        match fault {
            LookRefusal::Journal(fault) => Refusal::from(fault),
            LookRefusal::NoRoot(number) => Refusal::NoRoot(number),
            LookRefusal::UnsettledRoot(number) => Refusal::UnsettledRoot(number),
        }
    }
}
