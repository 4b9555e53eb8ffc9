//! Why a run comes to no output.
ghost use Rattle.std.specs.Prelude.{◌≡◌};
ghost use Rattle.journal_runs.specs.Conversions.{of_run};
ghost use Rattle.journal_runs.specs.declared.refusals.RunRefusal.TheVariants as refusals;
ghost use Rattle.disk_journal.specs.declared.refusal.JournalRefusal.TheVariants as journal;

use disk_journal::JournalRefusal;
use opening_report::Refusal;
use std::alloc::AllocError;
use thiserror::Error;

/// Why a run comes to no output.
#[derive(Clone, Copy, Debug, PartialEq, Eq, Error)]
pub enum RunRefusal {
    /// The disk failed, its bytes are no journal for the table or a damaged one, or memory ran out. The place of a damage
    /// is that of a gate, or of the length field of a payload that is no lawful record.
    #[error("{0}")]
    Journal(JournalRefusal),
    /// There would be more than 65,536 roots.
    #[error("too many roots")]
    TooManyRoots,
}

impl From<JournalRefusal> for RunRefusal {
    ghost from_gives = { λ fault refusal. refusal ≡ refusals.Journal fault };

    /// The disk is not read as a journal, or no longer written as one.
    fn from(fault: JournalRefusal) -> RunRefusal {
        RunRefusal::Journal(fault)
    }
}

impl From<AllocError> for RunRefusal {
    ghost from_gives = { λ error refusal. refusal ≡ refusals.Journal (journal.Memory error) };

    /// Memory ran out.
    fn from(error: AllocError) -> RunRefusal {
        RunRefusal::Journal(JournalRefusal::Memory(error))
    }
}

impl From<RunRefusal> for Refusal {
    ghost from_gives = { λ fault refusal. refusal ≡ of_run fault };

    /// The run on the journal is refused.
    fn from(fault: RunRefusal) -> Refusal {
        match fault {
            RunRefusal::Journal(fault) => Refusal::from(fault),
            RunRefusal::TooManyRoots => Refusal::TooManyRoots,
        }
    }
}
