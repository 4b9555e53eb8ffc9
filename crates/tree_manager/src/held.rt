//! A session on the heap.
ghost use Rattle.std.specs.Prelude.{◌≡◌, IfOk, IfErr};

use crate::entries::Entry;
use crate::session::Session;
use bench_disk::Disk;
use std::alloc::{AllocFailed, Global};
use std::marker::Model;
use turn_lock::Kept;

/// A session on the heap, so that the lock hands its address alone from thread to thread. Contracts see the session.
#[derive(Drop)]
pub struct HeldSession<D: Disk> {
    pub(crate) session: Box<Session<D>>,
}

impl<D: Disk> Model for HeldSession<D> {
    ghost use Rattle.std.specs.Coded.{codes};
    ghost use Rattle.proof_tree.specs.Code.{forest_code};
    ghost use Rattle.tree_manager.specs.Sessions.{SessionState};

    ghost Value = { SessionState D };

    ghost coded = { Prim.hlevel (codes, forest_code) };

    ghost view = { λ held. held.session.value };
}

impl<D: Disk> Kept for HeldSession<D> {
    ghost use Rattle.tree_manager.specs.Sessions.{MayAddInTurn};

    type Entry = Entry;

    ghost entries = { λ held. held.line };

    ghost may_add = { MayAddInTurn };

    fn count(&self) -> u64 {
        self.session.len()
    }
}

impl<D: Disk> HeldSession<D> {
    /// Puts the session on the heap. Want of memory hands it back.
    pub(crate) fn new(alloc: Global, session: Session<D>) -> Result<HeldSession<D>, Session<D>>
        ensures ok { IfOk result (λ held. held ≡ session) }
        ensures handed_back { IfErr result (λ refused. refused ≡ session) }
    {
        match Box::new(alloc, session) {
            Ok(session) => Ok(HeldSession { session }),
            Err(AllocFailed { value }) => Err(value),
        }
    }

    /// The session itself.
    pub(crate) fn into_session(self) -> Session<D>
        ensures { result ≡ self }
    {
        let Self { session } = self;
        Box::into_inner(session)
    }
}
