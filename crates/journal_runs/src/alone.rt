//! The work on a session by one thread.
ghost use Rattle.std.specs.Prelude.{◌≡◌, ◌≤◌, ◌<◌, ◌+◌, IfSome, IfNone};
ghost use Rattle.turn_lock.specs.Growth.{GrowsTo};
ghost use Rattle.tree_manager.specs.Sessions.{MayAddInTurn};
ghost use Rattle.journal_runs.specs.Ends.{IsEndedBy, IsIdle};

use bench_core::LeaseRefusal;
use bench_disk::Disk;
use certificate_checker::MOST_DEPTH;
use leaf_search::Memo;
use std::alloc::{AllocError, Global};
use strategy_certificate::Oracle;
use tree_manager::{Session, StageRefusal};
use worker_gate::{Ended, Gate, search_lease};

/// How many positions are remembered in which looking ahead shows no win.
const REMEMBERED: usize = 65_536;

/// The worker that the one thread is.
pub(crate) const ONLY_WORKER: u32 = 1;

/// Searches the leaf that is next, and commits what was found: one work record more is applied. Else it answers why not.
#[tactic(auto, using(worker_gate::proofs::SearchingLemmas::leased_can_be))]
fn settle_leaf<D: Disk, O: Oracle, G: Gate>(
    alloc: Global,
    session: &mut Session<D>,
    oracle: &O,
    gate: &G,
    memo: &mut Memo,
) -> Option<Ended>
    requires tables { O.piece_limit oracle.now ≡ session.old.core.state.settings.pieces }
    requires depth { session.old.core.state.settings.depth ≤ MOST_DEPTH }
    requires memo { memo.old ≡ O.piece_limit oracle.now }
    requires idle { IsIdle session.old }
    ensures memo { memo.new ≡ memo.old }
    ensures grows { GrowsTo MayAddInTurn session.old.line session.new.line }
    ensures ended { IfSome result (λ ended. IsEndedBy ended session.new) }
    ensures idle { IfNone result (IsIdle session.new) }
    ensures settings { session.new.core.state.settings ≡ session.old.core.state.settings }
    ensures unspent { IfNone result
        (session.old.core.state.work < session.old.core.state.settings.budget) }
    ensures one_more { IfNone result
        (session.new.core.state.work ≡ session.old.core.state.work + 1) }
{
    let lease = match session.lease(ONLY_WORKER) {
        Ok(lease) => lease,
        Err(LeaseRefusal::Done) => return Some(Ended::Done),
        Err(LeaseRefusal::Spent { .. }) => return Some(Ended::Spent),
        Err(LeaseRefusal::Failed) => return Some(Ended::Failed),
        Err(LeaseRefusal::Memory(_)) => return Some(Ended::Memory),
        Err(LeaseRefusal::NoLeaf { .. }) => unreachable!(),
    };
    let outcome = match search_lease(alloc, &lease, oracle, gate, memo) {
        Ok(outcome) => outcome,
        Err(AllocError) => return Some(Ended::Memory),
    };
    match session.stage(&lease, outcome) {
        Ok(()) => {}
        Err(StageRefusal::Failed) => return Some(Ended::Failed),
        Err(StageRefusal::Memory(_)) => return Some(Ended::Memory),
        Err(StageRefusal::Stale(_)) => unreachable!(),
    }
    match session.commit() {
        Ok(_) => None,
        Err(_) => Some(Ended::Failed),
    }
}

/// Settles leaf after leaf of an idle session, until every root is settled or the budget is spent. The gate hears of the positions
/// that the searches look at, and holds nobody.
///
/// With `Done` and `Spent` the session is idle again: all that was found is applied.
pub fn work_alone<D: Disk, O: Oracle, G: Gate>(
    alloc: Global,
    session: &mut Session<D>,
    oracle: &O,
    gate: &G,
) -> Ended
    requires tables { O.piece_limit oracle.now ≡ session.old.core.state.settings.pieces }
    requires depth { session.old.core.state.settings.depth ≤ MOST_DEPTH }
    requires idle { IsIdle session.old }
    ensures grows { GrowsTo MayAddInTurn session.old.line session.new.line }
    ensures settings { session.new.core.state.settings ≡ session.old.core.state.settings }
    ensures ended { IsEndedBy result session.new }
{
    let mut memo = match Memo::new(alloc, oracle.pieces(), REMEMBERED) {
        Ok(memo) => memo,
        Err(AllocError) => return Ended::Memory,
    };
    loop {
        if let Some(ended) = settle_leaf(alloc, session, oracle, gate, &mut memo) {
            return ended;
        }
    }
}
