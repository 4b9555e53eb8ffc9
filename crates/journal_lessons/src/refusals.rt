//! Why a certificate is not learnt.
ghost use Rattle.std.specs.Prelude.{◌≡◌};
ghost use Rattle.disk_journal.specs.declared.refusal.JournalRefusal.TheVariants as journal;
ghost use Rattle.journal_lessons.specs.Conversions.{of_lesson};
ghost use Rattle.journal_lessons.specs.declared.refusals.LearnRefusal.TheVariants as refusals;

use disk_journal::JournalRefusal;
use opening_report::Refusal;
use std::alloc::AllocError;
use thiserror::Error;

/// Why a certificate is not learnt.
#[derive(Clone, Copy, Debug, PartialEq, Eq, Error)]
pub enum LearnRefusal {
    /// The disk is not read as records for the certificate's table: it failed, its bytes are no such
    /// journal or a damaged one, or memory ran out.
    #[error("{0}")]
    Journal(JournalRefusal),
    /// The root of this number, counted from 1, is expanded: what is learnt of it would not be used.
    #[error("root {0} is expanded")]
    RootExpanded(u32),
    /// No room for one root more is left.
    #[error("there are too many roots")]
    TooManyRoots,
}

impl From<JournalRefusal> for LearnRefusal {
    ghost from_gives = { λ fault refusal. refusal ≡ refusals.Journal fault };

    /// The disk is not read as records.
    fn from(fault: JournalRefusal) -> LearnRefusal {
        LearnRefusal::Journal(fault)
    }
}

impl From<AllocError> for LearnRefusal {
    ghost from_gives = { λ error refusal. refusal ≡ refusals.Journal (journal.Memory error) };

    /// Memory ran out.
    fn from(error: AllocError) -> LearnRefusal {
        LearnRefusal::Journal(JournalRefusal::Memory(error))
    }
}

impl From<LearnRefusal> for Refusal {
    ghost from_gives = { λ fault refusal. refusal ≡ of_lesson fault };

    /// The certificate is not learnt.
    fn from(fault: LearnRefusal) -> Refusal {
        match fault {
            LearnRefusal::Journal(fault) => Refusal::from(fault),
            LearnRefusal::RootExpanded(number) => Refusal::RootExpanded(number),
            LearnRefusal::TooManyRoots => Refusal::TooManyRoots,
        }
    }
}
