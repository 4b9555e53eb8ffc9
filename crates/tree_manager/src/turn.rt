//! The session in the hand of a pass that has the turn.
ghost use Rattle.std.specs.Prelude.{◌≡◌, ◌≤◌, length, false, Ok, IfOk};
ghost use Rattle.std.specs.List.{AllByRecursion as Each};
ghost use Rattle.draughts_board.specs.Draughts.{draughts};
ghost use Rattle.draughts_board.specs.Game.{is_at_sight};
ghost use Rattle.bench_disk.specs.Disk.{IsHonest};
ghost use Rattle.bench_core.specs.States.{lease_answer};
ghost use Rattle.tree_manager.specs.Receipts.{acknowledgements};
ghost use Rattle.tree_manager.specs.Taken.{IsSameSession, TurnGoesOn};
ghost use Rattle.tree_manager.specs.Turns.{GrowsByTurns, Leases, StagesNumbered, Commits, Releases};

use crate::held::HeldSession;
use crate::refusals::{CommitRefusal, StageRefusal};
use crate::session::Session;
use bench_core::{LeaseRefusal, LeaseResult};
use bench_disk::Disk;
use disk_journal::Receipt;
use lease_table::{Lease, LeaseId, Stale};
use std::marker::Model;
use std::snapshot::Snapshot;
use turn_lock::{Kept, TurnLock};

/// The session in the hand of the pass that has the turn, for `leave` to take back. Contracts see of which lock it is, the
/// session as the turn found it, and the session as it is now.
///
/// The session is the one that was found: only these calls change it, its line goes on by what they add, and its disk is the
/// same.
pub struct Turn<D: Disk> {
    session: Box<Session<D>>,
    /// How many entries its line had when the turn began.
    entered: u64,
    found: Snapshot<HeldSession<D>>,
    lock: Snapshot<TurnLock<HeldSession<D>>>,
}

impl<D: Disk> Model for Turn<D> {
    ghost use Rattle.std.specs.Prelude.{◌≡◌, length};
    ghost use Rattle.std.specs.Coded.{codes};
    ghost use Rattle.proof_tree.specs.Code.{forest_code};
    ghost use Rattle.tree_manager.specs.Taken.{TurnState, IsSameSession};

    ghost Value = { TurnState D };

    ghost coded = { Prim.hlevel (codes, forest_code) };

    ghost view = { λ turn. record {
      start = record { lock = turn.lock.value; found = turn.found.value };
      session = turn.session.value;
    } };

    ghost invariant = { λ turn. (turn.entered ≡ length turn.found.value.line)
        × IsSameSession D.Disk turn.found.value turn.session.value };
}

impl<D: Disk> Turn<D> {
    /// The turn that begins with what was found in the lock.
    pub(crate) fn new(lock: &TurnLock<HeldSession<D>>, held: HeldSession<D>) -> Turn<D>
        ensures lock { result.start.lock ≡ lock.now }
        ensures found { result.start.found ≡ held }
        ensures session { result.session ≡ held }
    {
        let entered = held.count();
        let found = Snapshot::of(&held);
        let HeldSession { session } = held;
        Turn {
            session,
            entered,
            found,
            lock: Snapshot::of(lock),
        }
    }

    /// The session, for the lock, and how many entries its line had when the turn began.
    pub(crate) fn into_held(self) -> (HeldSession<D>, u64)
        ensures held { result.0 ≡ self.session }
        ensures entered { result.1 ≡ length self.start.found.line }
        ensures line { GrowsByTurns self.start.found.line result.0.line }
        ensures fewer { result.1 ≤ length result.0.line }
    {
        let Self {
            session,
            entered,
            found: _,
            lock: _,
        } = self;
        (HeldSession { session }, entered)
    }

    /// The session. It is the one that the turn found, on the same disk.
    pub fn session(&self) -> &Session<D>
        ensures session { result.now ≡ self.now.session }
        ensures same { IsSameSession D.Disk self.now.start.found self.now.session }
    {
        &self.session
    }

    /// Leases the next leaf to a worker, as the session does.
    pub fn lease(&mut self, worker: u32) -> Result<Lease, LeaseRefusal>
        ensures goes_on { TurnGoesOn self.old self.new }
        ensures turn { Leases self.old.session.line self.new.session.line worker result }
        ensures answer { IfOk result
            (λ lease. lease_answer self.old.session.core.state worker ≡ Ok lease) }
        ensures sight { IfOk result (λ lease.
            is_at_sight draughts self.old.session.core.state.settings.pieces lease.position ≡ false) }
    {
        self.session.lease(worker)
    }

    /// Stages a result, as the session does, and answers with the number of its record in the journal, from 1.
    pub fn stage_numbered(&mut self, found: LeaseResult) -> Result<u64, StageRefusal>
        ensures goes_on { TurnGoesOn self.old self.new }
        ensures turn { StagesNumbered self.old.session.line self.new.session.line
            found.lease found.outcome result }
    {
        self.session.stage_numbered(found)
    }

    /// Ends a lease without a result, as the session does.
    pub fn release(&mut self, id: LeaseId) -> Result<(), Stale>
        ensures goes_on { TurnGoesOn self.old self.new }
        ensures turn { Releases self.old.session.line self.new.session.line id result }
    {
        self.session.release(id)
    }

    /// Commits, as the session does.
    pub(crate) fn commit(&mut self) -> Result<Receipt, CommitRefusal>
        ensures goes_on { TurnGoesOn self.old self.new }
        ensures turn { Commits self.old.session.line self.new.session.line result }
        ensures moments { IsHonest D.TELLS → IfOk result (λ receipt.
            Each (λ ack. ack.moment ≤ receipt.moment) (acknowledgements self.new.session.line)) }
    {
        self.session.commit()
    }
}
