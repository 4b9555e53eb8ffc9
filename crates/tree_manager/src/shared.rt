//! One session for many threads, each of which enters it with a pass.
//!
//! A pass's front is the session's line as this pass last saw it. It only grows, so no turn takes back what another pass
//! has seen. What an answer means stands in `specs/Turns.antt`, and speaks of the front alone.
//!
//! `lease`, `stage`, `commit`, `release` and `count_roots` are one call of the session in one turn. Whoever has several
//! calls to make in one turn makes them between `enter` and `leave`.
ghost use Rattle.std.specs.Prelude.{◌≡◌, ◌≤◌, ◌⊎◌, length, IfOk, IfErr};
ghost use Rattle.std.specs.List.{AllByRecursion as Each};
ghost use Rattle.bench_disk.specs.Disk.{IsHonest};
ghost use Rattle.turn_lock.specs.Seen.{IsOutside};
ghost use Rattle.bench_core.specs.Cores.{IsOutcomeOf};
ghost use Rattle.tree_manager.specs.Receipts.{acknowledgements};
ghost use Rattle.tree_manager.specs.Taken.{HasTurn, TurnGoesOn};
ghost use Rattle.tree_manager.specs.Turns.{GrowsByTurns, InOneTurn, AsksForSearch, Leases, StagesNumbered, Commits, Releases, Counts};

use crate::counting::RootCounts;
use crate::held::HeldSession;
use crate::refusals::{CommitRefusal, StageRefusal};
use crate::session::Session;
use crate::turn::Turn;
use bench_core::{LeaseRefusal, LeaseResult};
use bench_disk::Disk;
use certificate_checker::Outcome;
use disk_journal::Receipt;
use lease_table::{Lease, LeaseId, Stale};
use std::alloc::{AllocError, Global};
use std::marker::Model;
use std::sync::Wait;
use std::sync::atomic::{AtomicBool, AtomicU64, Ordering};
use std::thread;
use turn_lock::{Kept, Pass, TurnLock};

/// How often a pass that waits for another's commit looks for it at most.
const MOST_LOOKS: u32 = 256;

/// In how many looks running no pass sleeps, where none is waited for any more.
const CALM_LOOKS: u32 = 8;

/// A session that many threads share. Contracts see which lock it is.
#[derive(Drop)]
pub struct SharedBench<D: Disk> {
    lock: TurnLock<HeldSession<D>>,
    /// How many commits succeeded.
    commits: AtomicU64,
    /// Passes slept when the last of them ended: it took them long to wait for it.
    is_slow: AtomicBool,
    alloc: Global,
}

impl<D: Disk> Model for SharedBench<D> {
    ghost use Rattle.turn_lock.specs.Seen.{LockId};

    ghost Value = { LockId };

    ghost view = { λ shared. shared.lock };
}

/// What a thread enters a shared bench with. Contracts see its front, the session's line as this pass last saw it.
///
/// A pass that is dropped outside a call takes nothing with it.
pub type BenchPass<D> = Pass<HeldSession<D>>;

impl<D: Disk> SharedBench<D> {
    /// A shared bench over the session, and its first pass. Want of memory hands the session back.
    pub fn new(
        alloc: Global,
        session: Session<D>,
    ) -> Result<(SharedBench<D>, BenchPass<D>), (Session<D>, AllocError)>
        ensures outside { IfOk result (λ made. IsOutside made.0 made.1) }
        ensures front { IfOk result (λ made. made.1.front ≡ session.line) }
        ensures handed_back { IfErr result (λ refused. refused.0 ≡ session) }
    {
        let held = match HeldSession::new(alloc, session) {
            Ok(held) => held,
            Err(session) => return Err((session, AllocError)),
        };
        match TurnLock::new(alloc, held) {
            Ok((lock, pass)) => {
                let shared = SharedBench {
                    lock,
                    commits: AtomicU64::new(0),
                    is_slow: AtomicBool::new(false),
                    alloc,
                };
                Ok((shared, pass))
            }
            Err((held, error)) => Err((held.into_session(), error)),
        }
    }

    /// Waits until the pass has the turn, and hands it the session, for `leave` to take back.
    ///
    /// It never returns where another pass was dropped with the turn.
    pub fn enter<R: Wait>(&self, rt: &R, pass: &mut BenchPass<D>) -> Turn<D>
        requires outside { IsOutside self.now pass.old }
        ensures turn { HasTurn self.now pass.new result.start }
        ensures whole { pass.new.front ≡ result.session.line }
        ensures grows { GrowsByTurns pass.old.front pass.new.front }
    {
        let held = self.lock.enter(rt, pass);
        Turn::new(&self.lock, held)
    }

    /// Puts the session back that the pass found, and gives the turn up. The pass's front is then the session's line, which
    /// goes on from the front before.
    pub fn leave(&self, pass: &mut BenchPass<D>, turn: Turn<D>)
        requires turn { HasTurn self.now pass.old turn.start }
        ensures outside { IsOutside self.now pass.new }
        ensures front { pass.new.front ≡ turn.session.line }
        ensures grows { GrowsByTurns pass.old.front pass.new.front }
    {
        let (held, entered) = turn.into_held();
        let count = held.count();
        let added = count - entered;
        self.lock.note(pass, &held, added);
        self.lock.leave(pass, held);
    }

    /// Leases the next leaf to a worker, in one turn. It waits while another pass has the turn, and refuses as a session does.
    /// The leaf is not decided at sight, and the lease has the session's depth and tables, which no turn changes.
    pub fn lease<R: Wait>(
        &self,
        rt: &R,
        pass: &mut BenchPass<D>,
        worker: u32,
    ) -> Result<Lease, LeaseRefusal>
        requires outside { IsOutside self.now pass.old }
        ensures outside { IsOutside self.now pass.new }
        ensures grows { GrowsByTurns pass.old.front pass.new.front }
        ensures turn { InOneTurn pass.old.front pass.new.front
            (λ found new. Leases found new worker result) }
        ensures settings { IfOk result (AsksForSearch pass.old.front) }
    {
        let mut turn = self.enter(rt, pass);
        let answer = turn.lease(worker);
        self.leave(pass, turn);
        answer
    }

    /// Stages the result of a lease's search, in one turn, and keeps the lease for it. The answer is the number of its record
    /// in the journal, from 1. A refusal drops the outcome. `Stale` comes where the lease does not live, or has its result.
    ///
    /// The record's sheet is made before the turn. Where there is no memory for it, no turn is taken.
    pub fn stage<R: Wait>(
        &self,
        rt: &R,
        pass: &mut BenchPass<D>,
        lease: &Lease,
        outcome: Outcome,
    ) -> Result<u64, StageRefusal>
        requires outside { IsOutside self.now pass.old }
        requires outcome { IsOutcomeOf lease.now outcome }
        ensures outside { IsOutside self.now pass.new }
        ensures grows { GrowsByTurns pass.old.front pass.new.front }
        ensures turn { InOneTurn pass.old.front pass.new.front
            (λ found new. StagesNumbered found new lease.now outcome result) }
    {
        let found = LeaseResult::new(self.alloc, lease, outcome)?;
        let mut turn = self.enter(rt, pass);
        let answer = turn.stage_numbered(found);
        self.leave(pass, turn);
        answer
    }

    /// Makes all durable that any pass has staged, in one turn, and applies it. `Disk` comes where the disk refused a call in
    /// this turn; the session has failed from then on.
    pub fn commit<R: Wait>(&self, rt: &R, pass: &mut BenchPass<D>) -> Result<Receipt, CommitRefusal>
        requires outside { IsOutside self.now pass.old }
        ensures outside { IsOutside self.now pass.new }
        ensures grows { GrowsByTurns pass.old.front pass.new.front }
        ensures turn { InOneTurn pass.old.front pass.new.front
            (λ found new. Commits found new result) }
        ensures moment { IsHonest D.TELLS → IfOk result (λ receipt.
            Each (λ ack. ack.moment ≤ receipt.moment) (acknowledgements pass.new.front)) }
    {
        let mut turn = self.enter(rt, pass);
        let answer = self.commit_in_turn(&mut turn);
        self.leave(pass, turn);
        answer
    }

    /// Commits as the session does, between `enter` and `leave`, and notes for the other passes that it did, and whether any
    /// of them sleeps over it.
    pub fn commit_in_turn(&self, turn: &mut Turn<D>) -> Result<Receipt, CommitRefusal>
        ensures goes_on { TurnGoesOn turn.old turn.new }
        ensures turn { Commits turn.old.session.line turn.new.session.line result }
        ensures moments { IsHonest D.TELLS → IfOk result (λ receipt.
            Each (λ ack. ack.moment ≤ receipt.moment) (acknowledgements turn.new.session.line)) }
    {
        let receipt = turn.commit()?;
        self.commits.fetch_add(1, Ordering::SeqCst);
        self.is_slow
            .store(self.lock.has_sleepers(), Ordering::SeqCst);
        Ok(receipt)
    }

    /// Whether passes fell asleep over the last commit, so that it pays to let them stage before the next one. It may have
    /// changed when the answer comes, so nothing but patience should rest on it.
    pub fn is_slow(&self) -> bool {
        self.is_slow.load(Ordering::SeqCst)
    }

    /// Lets passes that sleep stage what they have, as long as there are any and no commit comes, and at most for a number of
    /// looks. No clause speaks of this waiting.
    pub fn wait_for_commit(&self) {
        let commits = self.commits.load(Ordering::SeqCst);
        let mut calm = 0u32;
        for _ in 0..MOST_LOOKS {
            calm = if self.lock.has_sleepers() {
                0
            } else {
                calm.saturating_add(1)
            };
            if calm == CALM_LOOKS || self.commits.load(Ordering::SeqCst) != commits {
                return;
            }
            thread::yield_now();
        }
    }

    /// Ends a lease without a result, in one turn. It takes no memory. `Stale` comes where the lease does not live or has its
    /// result, or where the session has failed.
    pub fn release<R: Wait>(
        &self,
        rt: &R,
        pass: &mut BenchPass<D>,
        id: LeaseId,
    ) -> Result<(), Stale>
        requires outside { IsOutside self.now pass.old }
        ensures outside { IsOutside self.now pass.new }
        ensures grows { GrowsByTurns pass.old.front pass.new.front }
        ensures turn { InOneTurn pass.old.front pass.new.front
            (λ found new. Releases found new id result) }
    {
        let mut turn = self.enter(rt, pass);
        let answer = turn.release(id);
        self.leave(pass, turn);
        answer
    }

    /// How many roots there are, and how many of them are settled, in one turn. It changes nothing, and looks at each root once.
    pub fn count_roots<R: Wait>(&self, rt: &R, pass: &mut BenchPass<D>) -> RootCounts
        requires outside { IsOutside self.now pass.old }
        ensures outside { IsOutside self.now pass.new }
        ensures grows { GrowsByTurns pass.old.front pass.new.front }
        ensures turn { InOneTurn pass.old.front pass.new.front
            (λ found new. Counts found new result) }
    {
        let turn = self.enter(rt, pass);
        let counts = RootCounts::of(turn.session().bench().tree());
        self.leave(pass, turn);
        counts
    }

    /// A second pass, which has seen what the first has.
    pub fn split(&self, pass: &mut BenchPass<D>) -> BenchPass<D>
        requires outside { IsOutside self.now pass.old }
        ensures same { pass.new ≡ pass.old }
        ensures copy { result ≡ pass.old }
    {
        self.lock.split(pass)
    }

    /// Ends the other pass, and takes the longer of the two fronts, of which the other is a beginning.
    pub fn join_pass(&self, pass: &mut BenchPass<D>, other: BenchPass<D>)
        requires outside { IsOutside self.now pass.old × IsOutside self.now other }
        ensures outside { IsOutside self.now pass.new }
        ensures longer { (pass.new.front ≡ pass.old.front) ⊎ (pass.new.front ≡ other.front) }
        ensures this { GrowsByTurns pass.old.front pass.new.front }
        ensures that { GrowsByTurns other.front pass.new.front }
    {
        self.lock.join_pass(pass, other);
    }

    /// Waits until no other pass has the turn, and hands the session out for good, with all that any pass has seen of it,
    /// and with the lock's count of the entries of its line.
    pub fn finish<R: Wait>(self, rt: &R, pass: BenchPass<D>) -> (Session<D>, u64)
        requires outside { IsOutside self pass }
        ensures grows { GrowsByTurns pass.front result.0.line }
        ensures count { length result.0.line ≡ result.1 }
    {
        let Self { lock, .. } = self;
        let (held, count) = lock.close(rt, pass);
        (held.into_session(), count)
    }
}
