//! Why a session refuses.
ghost use Rattle.std.specs.Prelude.{◌≡◌};
ghost use Rattle.tree_manager.specs.declared.refusals.BeginRefusal.TheVariants as begin;
ghost use Rattle.tree_manager.specs.declared.refusals.StageRefusal.TheVariants as stage;
ghost use Rattle.tree_manager.specs.Sessions.{stage_refusal};

use bench_core::ReadyRefusal;
use lease_table::LeaseId;
use std::alloc::AllocError;
use thiserror::Error;

/// Why a result is not staged.
#[derive(Clone, Copy, PartialEq, Eq, Debug, Error)]
pub enum StageRefusal {
    /// The session failed.
    #[error("the session failed")]
    Failed,
    /// The lease does not live, or a result of it is staged already.
    #[error("the lease does not live, or has its result")]
    Stale(LeaseId),
    /// There was no memory for the result.
    #[error("out of memory")]
    Memory(AllocError),
}

impl From<AllocError> for StageRefusal {
    ghost from_gives = { λ error refusal. refusal ≡ stage.Memory error };

    fn from(error: AllocError) -> StageRefusal {
        StageRefusal::Memory(error)
    }
}

impl From<ReadyRefusal> for StageRefusal {
    ghost from_gives = { λ error refusal. refusal ≡ stage_refusal error };

    fn from(error: ReadyRefusal) -> StageRefusal {
        match error {
            ReadyRefusal::Stale(id) => StageRefusal::Stale(id),
            ReadyRefusal::Memory(error) => StageRefusal::Memory(error),
        }
    }
}

/// Why nothing is committed.
#[derive(Clone, Copy, PartialEq, Eq, Debug, Error)]
pub enum CommitRefusal {
    /// The session failed before.
    #[error("the session failed")]
    Failed,
    /// The disk refused a call, and the session fails with it.
    #[error("the disk refused a call")]
    Disk,
}

/// Why no roots begin.
#[derive(Clone, Copy, PartialEq, Eq, Debug, Error)]
pub enum BeginRefusal {
    /// The session failed before.
    #[error("the session failed")]
    Failed,
    /// There would be more than 65,536 roots.
    #[error("too many roots")]
    TooManyRoots,
    /// The disk refused a call, and the session fails with it.
    #[error("the disk refused a call")]
    Disk,
    /// There was no memory for the roots.
    #[error("out of memory")]
    Memory(AllocError),
}

impl From<AllocError> for BeginRefusal {
    ghost from_gives = { λ error refusal. refusal ≡ begin.Memory error };

    fn from(error: AllocError) -> BeginRefusal {
        BeginRefusal::Memory(error)
    }
}
