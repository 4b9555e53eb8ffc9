//! The first pass of a run: one search for each root, before there is a second one for any.
ghost use Rattle.std.specs.Prelude.{◌≡◌, ◌≤◌, ◌+◌, ◌-◌, ◌++◌, [], ℕ, List, true, length, All, Contains, IfOk, IfErr, IfSome, IfNone, OnOk};
ghost use Rattle.std.specs.List.{AllByRecursion as Each};
ghost use Rattle.proof_tree.specs.Forest.{nodes};
ghost use Rattle.bench_core.specs.Answers.{unkept};
ghost use Rattle.bench_core.specs.Cores.{record_of};
ghost use Rattle.bench_core.specs.States.{IsSoundState};
ghost use Rattle.lease_table.specs.declared.leases.Lease.{Lease as GivenLease};
ghost use Rattle.tree_manager.specs.declared.entries.Entry.TheVariants as entry;
ghost use Rattle.tree_manager.specs.Histories.{IsCoreOf};
ghost use Rattle.tree_manager.specs.Sessions.{Appends};
ghost use Rattle.tree_manager.specs.Turns.{GrowsByTurns, AsksForSearch};
ghost use Rattle.worker_gate.specs.Work.{CanSearch, is_value_told};
ghost use Rattle.journal_runs.specs.Ample.{IsSettledOrFresh, unsettled_roots};
ghost use Rattle.journal_runs.specs.FirstPass.{Applies, GrowsNoRoot, HasRoomForEach, IsAllLeased, IsPassingWith, IsSearched, IsStoppedBy, LeasesNext, leases_found, leases_waiting};
ghost use Rattle.journal_runs.specs.declared.first_pass.TheConstants.{MOST_FIRST};

use crate::alone::ONLY_WORKER;
use bench_core::{LeaseRefusal, LeaseResult};
use bench_disk::Disk;
use lease_table::Lease;
use proof_tree::Tree;
use std::alloc::{AllocError, Global};
use std::collections::VecDeque;
use std::thread::Threads;
use strategy_certificate::Oracle;
use tree_manager::{Session, StageRefusal};
use worker_gate::{Ended, Gate, LeafFound, search_together};

/// How many roots are searched in the first pass at most: while a root waits, each pick looks at it.
pub const MOST_FIRST: usize = 4_096;

/// How many roots there are for each worker between two commits.
const ROOTS_EACH: usize = 8;

/// Searches each unexpanded root without a value that the pick can reach, once, and records what it found.
///
/// It takes no more than 4,096 of them, than the budget leaves records, and than leases live at once, which is `lease`. It
/// ends before its time where the session or memory fails.
#[tactic(auto, using(tree_manager::proofs::TurnLemmas::grows_then, crate::proofs::FirstPassLemmas::by_turns))]
pub(crate) fn first_pass<R: Threads + Sync, D: Disk, O: Oracle + Sync, G: Gate + Sync>(
    rt: &R,
    alloc: Global,
    session: &mut Session<D>,
    workers: u8,
    lease: u32,
    oracle: &O,
    gate: &G,
) -> Result<(), Ended>
    requires { CanSearch (O.piece_limit oracle.now) session.old.line }
    ensures grows { GrowsByTurns session.old.line session.new.line }
    ensures stands { OnOk result (IsCoreOf session.new.line session.new.core) }
    ensures searched { HasRoomForEach session.old.core lease
        → OnOk result (IsSearched session.new.core) }
    ensures stopped { IfErr result (λ ended. IsStoppedBy ended session.new) }
{
    let most = most_first(session, lease);
    let waiting = search_roots(rt, alloc, session, workers, most, oracle, gate)?;
    record_rest(session, waiting)
}

/// Searches at most `most` roots. What tells a root's value is committed as it comes. All else comes back, and waits until the
/// last root was leased: so no root grows before that, and none has a second search.
#[tactic(auto, using(crate::proofs::FirstPassLemmas::ungrown_then, crate::proofs::FirstPassLemmas::by_turns, worker_gate::proofs::SearchingLemmas::can_search_on))]
fn search_roots<R: Threads + Sync, D: Disk, O: Oracle + Sync, G: Gate + Sync>(
    rt: &R,
    alloc: Global,
    session: &mut Session<D>,
    workers: u8,
    most: usize,
    oracle: &O,
    gate: &G,
) -> Result<VecDeque<LeaseResult>, Ended>
    requires { CanSearch (O.piece_limit oracle.now) session.old.line }
    ensures ungrown { GrowsNoRoot session.old.line session.new.line }
    ensures all { IsPassingWith session.old.core [] most → IfOk result (λ waiting.
        IsAllLeased session.new.core (leases_waiting waiting.items)) }
    ensures stopped { IfErr result (λ ended. IsStoppedBy ended session.new) }
{
    let mut waiting = VecDeque::new(alloc);
    let mut left = most;
    let most_together = usize::from(workers).max(1) * ROOTS_EACH;
    while left > 0 {
        let roots = lease_roots(alloc, session, left.min(most_together))?;
        if roots.is_empty() {
            break;
        }
        left -= roots.len();
        gate.look(session.bench());
        let found = match search_together(rt, alloc, &roots, workers, oracle, gate) {
            Ok(found) => found,
            Err(AllocError) => return Err(Ended::Memory),
        };
        record_values(session, found, &mut waiting)?;
    }
    Ok(waiting)
}

/// How many roots the first pass takes: all that are fresh, as far as the limits go.
fn most_first<D: Disk>(session: &Session<D>, lease: u32) -> usize
    ensures few { result ≤ MOST_FIRST }
    ensures records { result
        ≤ session.now.core.state.settings.budget - session.now.core.state.work }
    ensures leases { result ≤ lease }
    ensures all { Each IsSettledOrFresh (nodes session.now.core.state.forest)
        → unsettled_roots session.now.core.state.forest ≤ MOST_FIRST
        → unsettled_roots session.now.core.state.forest + session.now.core.state.work
        ≤ session.now.core.state.settings.budget
        → unsettled_roots session.now.core.state.forest ≤ lease
        → result ≡ unsettled_roots session.now.core.state.forest }
    ensures sound { IsSoundState session.now.core.state }
{
    let bench = session.bench();
    let records_left = u64::from(bench.budget()).saturating_sub(bench.work()) as usize;
    fresh_roots(bench.tree())
        .min(MOST_FIRST)
        .min(records_left)
        .min(lease as usize)
}

/// How many roots without a value the pick passes to when they are leased: those before the first that was expanded.
fn fresh_roots(tree: &Tree) -> usize
    ensures { Each IsSettledOrFresh (nodes tree.now.forest)
        → result ≡ unsettled_roots tree.now.forest }
{
    let mut fresh = 0;
    for place in 0..tree.roots() {
        if tree.settled(place + 1).is_some() {
            continue;
        }
        if tree.leaf(tree.root_node(place + 1).number()).is_none() {
            break;
        }
        fresh += 1;
    }
    fresh
}

/// Leases at most `most` roots, as long as the pick gives one.
#[tactic(auto, using(crate::proofs::FirstPassLemmas::ungrown_then))]
fn lease_roots<D: Disk>(
    alloc: Global,
    session: &mut Session<D>,
    most: usize,
) -> Result<Vec<Lease>, Ended>
    ensures ungrown { GrowsNoRoot session.old.line session.new.line }
    ensures leases { IfOk result (λ roots. All (AsksForSearch session.new.line) roots.items) }
    ensures few { IfOk result (λ roots. length roots.items ≤ most) }
    ensures passes { (leased : List GivenLease) (rest : ℕ) → most ≤ rest
        → IsPassingWith session.old.core leased rest → IfOk result (λ roots.
        IsPassingWith session.new.core (leased ++ roots.items) (rest - length roots.items)) }
    ensures all { (leased : List GivenLease) (rest : ℕ) → 1 ≤ most → most ≤ rest
        → IsPassingWith session.old.core leased rest → IfOk result (λ roots.
        roots.items ≡ [] → IsAllLeased session.new.core leased) }
    ensures stopped { IfErr result (λ ended. IsStoppedBy ended session.new) }
{
    let mut roots = Vec::new(alloc);
    while roots.len() < most {
        if roots.reserve(1).is_err() {
            return Err(Ended::Memory);
        }
        match lease_root(session)? {
            Some(root) => roots.push_reserved(root),
            None => break,
        }
    }
    Ok(roots)
}

/// Leases the next root; none where nothing is left to lease.
#[tactic(auto, using(crate::proofs::FirstPassLemmas::lease_ungrown))]
fn lease_root<D: Disk>(session: &mut Session<D>) -> Result<Option<Lease>, Ended>
    ensures ungrown { GrowsNoRoot session.old.line session.new.line }
    ensures lease { IfOk result (λ next. IfSome next (AsksForSearch session.new.line)) }
    ensures next { (leased : List GivenLease) (rest : ℕ)
        → IsPassingWith session.old.core leased (rest + 1)
        → IfOk result (LeasesNext session.new.core leased rest) }
    ensures unchanged { IfOk result (λ next. IfNone next (session.new ≡ session.old)) }
    ensures stopped { IfErr result (λ ended. IsStoppedBy ended session.new) }
{
    match session.lease(ONLY_WORKER) {
        Ok(lease) => Ok(Some(lease)),
        Err(LeaseRefusal::Done) => Ok(None),
        Err(LeaseRefusal::Spent { .. }) => Ok(None),
        Err(LeaseRefusal::NoLeaf { .. }) => Ok(None),
        Err(LeaseRefusal::Failed) => Err(Ended::Failed),
        Err(LeaseRefusal::Memory(_)) => Err(Ended::Memory),
    }
}

/// Records what tells a root's value, and lets the rest wait.
#[tactic(auto, using(crate::proofs::FirstPassLemmas::ungrown_then))]
fn record_values<D: Disk>(
    session: &mut Session<D>,
    mut found: VecDeque<LeafFound>,
    waiting: &mut VecDeque<LeaseResult>,
) -> Result<(), Ended>
    ensures ungrown { GrowsNoRoot session.old.line session.new.line }
    ensures passes { (rest : ℕ) → IsPassingWith session.old.core
        (leases_waiting waiting.old.items ++ leases_found found.items) rest
        → OnOk result (IsPassingWith session.new.core
        (leases_waiting waiting.new.items) rest) }
    ensures stopped { IfErr result (λ ended. IsStoppedBy ended session.new) }
{
    while let Some(
        LeafFound {
            result,
            tells_value,
        },
    ) = found.pop_front()
    {
        if tells_value {
            stage(session, result)?;
            continue;
        }
        if waiting.reserve(1).is_err() {
            return Err(Ended::Memory);
        }
        waiting.push_back_reserved(result);
    }
    commit(session)
}

/// Records what has waited.
#[tactic(auto, using(tree_manager::proofs::TurnLemmas::grows_then, crate::proofs::FirstPassLemmas::by_turns))]
fn record_rest<D: Disk>(
    session: &mut Session<D>,
    mut waiting: VecDeque<LeaseResult>,
) -> Result<(), Ended>
    ensures grows { GrowsByTurns session.old.line session.new.line }
    ensures stands { OnOk result (IsCoreOf session.new.line session.new.core) }
    ensures searched { IsAllLeased session.old.core (leases_waiting waiting.items)
        → OnOk result (IsSearched session.new.core) }
    ensures stopped { IfErr result (λ ended. IsStoppedBy ended session.new) }
{
    while let Some(result) = waiting.pop_front() {
        stage(session, result)?;
    }
    commit(session)
}

/// Stages a result, and drops it where its lease has ended.
#[tactic(auto, using(crate::proofs::FirstPassLemmas::stage_ungrown))]
fn stage<D: Disk>(session: &mut Session<D>, found: LeaseResult) -> Result<(), Ended>
    ensures grows { GrowsByTurns session.old.line session.new.line }
    ensures ungrown { is_value_told found.outcome ≡ true
        → GrowsNoRoot session.old.line session.new.line }
    ensures staged { Contains session.old.core.state.leases.rows (unkept found.lease)
        → OnOk result (Appends session.old
        (entry.Put (record_of found.lease found.outcome)) session.new) }
    ensures stopped { IfErr result (λ ended. IsStoppedBy ended session.new) }
{
    match session.stage_numbered(found) {
        Ok(_) | Err(StageRefusal::Stale(_)) => Ok(()),
        Err(StageRefusal::Failed) => Err(Ended::Failed),
        Err(StageRefusal::Memory(_)) => Err(Ended::Memory),
    }
}

/// Commits what is staged.
#[tactic(auto, using(crate::proofs::FirstPassLemmas::commit_ungrown))]
fn commit<D: Disk>(session: &mut Session<D>) -> Result<(), Ended>
    ensures ungrown { GrowsNoRoot session.old.line session.new.line }
    ensures applies { OnOk result (Applies session.old.core session.new.core) }
    ensures none_staged { OnOk result (session.new.core.staged ≡ []) }
    ensures stands { OnOk result (IsCoreOf session.new.line session.new.core) }
    ensures stopped { IfErr result (λ ended. IsStoppedBy ended session.new) }
{
    match session.commit() {
        Ok(_) => Ok(()),
        Err(_) => Err(Ended::Failed),
    }
}
