//! Why a bench refuses.
ghost use Rattle.std.specs.Prelude.{◌≡◌};
ghost use Rattle.bench_core.specs.declared.refusals.LeaseRefusal.TheVariants as lease;
ghost use Rattle.bench_core.specs.declared.refusals.ReadyRefusal.TheVariants as ready;
ghost use Rattle.bench_core.specs.declared.refusals.ApplyRefusal.TheVariants as apply;
ghost use Rattle.bench_core.specs.declared.refusals.ReplayRefusal.TheVariants as replay;
ghost use Rattle.bench_core.specs.Replaying.{of_text, of_record};

use bench_records::RecordRefusal;
use lease_table::LeaseId;
use std::alloc::AllocError;
use thiserror::Error;

/// Why a worker gets no lease.
#[derive(Clone, Copy, PartialEq, Eq, Debug, Error)]
pub enum LeaseRefusal {
    /// The session failed. A bench by itself never answers this.
    #[error("the session failed")]
    Failed,
    /// Every root is settled.
    #[error("every root is settled")]
    Done,
    /// The session's work records reach its budget.
    #[error("{records} records reach the budget of {budget}")]
    Spent { records: u64, budget: u32 },
    /// Every open leaf is leased. This is the number of leases that live.
    #[error("every open leaf is leased; {live} leases live")]
    NoLeaf { live: usize },
    /// There was no memory for the lease.
    #[error("out of memory")]
    Memory(AllocError),
}

impl From<AllocError> for LeaseRefusal {
    ghost from_gives = { λ error refusal. refusal ≡ lease.Memory error };

    fn from(error: AllocError) -> LeaseRefusal {
        LeaseRefusal::Memory(error)
    }
}

/// Why a result is not staged.
#[derive(Clone, Copy, PartialEq, Eq, Debug, Error)]
pub enum ReadyRefusal {
    /// The lease does not live, or a result of it is staged already.
    #[error("the lease does not live, or has its result")]
    Stale(LeaseId),
    /// There was no memory for the result.
    #[error("out of memory")]
    Memory(AllocError),
}

impl From<AllocError> for ReadyRefusal {
    ghost from_gives = { λ error refusal. refusal ≡ ready.Memory error };

    fn from(error: AllocError) -> ReadyRefusal {
        ReadyRefusal::Memory(error)
    }
}

/// Why a record is not applied.
#[derive(Clone, Copy, PartialEq, Eq, Debug, Error)]
pub(crate) enum ApplyRefusal {
    /// It is not lawful for the tree as it is.
    #[error("the record is not lawful")]
    Unlawful,
    /// There was no memory for it.
    #[error("out of memory")]
    Memory(AllocError),
}

impl From<AllocError> for ApplyRefusal {
    ghost from_gives = { λ error refusal. refusal ≡ apply.Memory error };

    fn from(error: AllocError) -> ApplyRefusal {
        ApplyRefusal::Memory(error)
    }
}

/// Why a payload is not replayed.
#[derive(Clone, Copy, PartialEq, Eq, Debug, Error)]
pub enum ReplayRefusal {
    /// It is the text of no record behind the records of the bench. This is never want of memory.
    #[error("{0}")]
    Unread(RecordRefusal),
    /// Its record is not lawful for the tree as it is.
    #[error("the record is not lawful")]
    Unlawful,
    /// There was no memory for it.
    #[error("out of memory")]
    Memory(AllocError),
}

impl From<AllocError> for ReplayRefusal {
    ghost from_gives = { λ error refusal. refusal ≡ replay.Memory error };

    fn from(error: AllocError) -> ReplayRefusal {
        ReplayRefusal::Memory(error)
    }
}

impl From<RecordRefusal> for ReplayRefusal {
    ghost from_gives = { λ refusal result. result ≡ of_text refusal };

    fn from(refusal: RecordRefusal) -> ReplayRefusal {
        match refusal {
            RecordRefusal::Memory(error) => ReplayRefusal::Memory(error),
            RecordRefusal::BadKind => ReplayRefusal::Unread(refusal),
            RecordRefusal::BadField(_) => ReplayRefusal::Unread(refusal),
            RecordRefusal::Trailing(_) => ReplayRefusal::Unread(refusal),
        }
    }
}

impl From<ApplyRefusal> for ReplayRefusal {
    ghost from_gives = { λ refusal result. result ≡ of_record refusal };

    fn from(refusal: ApplyRefusal) -> ReplayRefusal {
        match refusal {
            ApplyRefusal::Unlawful => ReplayRefusal::Unlawful,
            ApplyRefusal::Memory(error) => ReplayRefusal::Memory(error),
        }
    }
}
