//! The work of one worker.
ghost use Rattle.std.specs.Prelude.{◌≡◌, ◌≤◌, [], length, All, OnOk, IfOk, IfErr};
ghost use Rattle.turn_lock.specs.Seen.{IsOutside};
ghost use Rattle.tree_manager.specs.Lines.{recorded};
ghost use Rattle.tree_manager.specs.Taken.{HasTurn, TurnGoesOn};
ghost use Rattle.tree_manager.specs.Turns.{GrowsByTurns, AsksForSearch};
ghost use Rattle.worker_gate.specs.Work.{CanSearch, CanSearchLeaf, ShowsEnd};

use crate::gates::Gate;
use crate::hand::{Hand, commit_unless_applied, release_leases, stage_results, take_leaves};
use crate::pauses::Pause;
use crate::searching::search_lease;
use bench_core::{LeaseRefusal, LeaseResult};
use bench_disk::Disk;
use leaf_search::Memo;
use lease_table::Lease;
use std::alloc::{AllocError, Global};
use std::collections::VecDeque;
use std::sync::Wait;
use strategy_certificate::Oracle;
use tree_manager::{BenchPass, SharedBench, Turn};

/// How many positions a worker remembers in which looking ahead shows no win.
const REMEMBERED: usize = 65_536;

/// How work on a session ended.
#[derive(Clone, Copy, PartialEq, Eq, Debug)]
pub enum Ended {
    /// Every root is settled.
    Done,
    /// The session's work records reach its budget, and some root is unsettled.
    Spent,
    /// The disk refused a commit.
    Failed,
    /// Memory ran out.
    Memory,
}

/// Leases, searches, stages and commits, leaf after leaf, until every root is settled or the budget is spent.
///
/// In a turn it stages what it found, commits it, and leases what it searches next: one leaf, and more where it has to wait
/// for its turns. Where commits take long, it stages in one turn and commits in another, so that one commit does for many
/// workers. While every open leaf is leased the worker waits, and takes next to no time of a processor. A result that comes
/// too late is dropped. Leases for whose search or results there is no memory are released, and the work ends.
#[tactic(auto, using(tree_manager::proofs::TurnLemmas::grows_then, crate::proofs::SearchingLemmas::can_search_on))]
pub fn work<R: Wait, D: Disk, O: Oracle, G: Gate>(
    rt: &R,
    alloc: Global,
    shared: &SharedBench<D>,
    pass: &mut BenchPass<D>,
    worker: u32,
    oracle: &O,
    gate: &G,
) -> Ended
    requires outside { IsOutside shared.now pass.old }
    requires settings { CanSearch (O.piece_limit oracle.now) pass.old.front }
    ensures outside { IsOutside shared.now pass.new }
    ensures grows { GrowsByTurns pass.old.front pass.new.front }
    ensures ended { ShowsEnd result pass.new.front }
{
    let mut memo = match Memo::new(alloc, oracle.pieces(), REMEMBERED) {
        Ok(memo) => memo,
        Err(AllocError) => return Ended::Memory,
    };
    let mut pause = Pause::new();
    let mut hand = Hand::new(alloc);
    for _ in rt.forever() {
        match trade(rt, shared, pass, worker, &mut hand) {
            Ok(()) => {}
            Err(Ended::Memory) => return give_back(rt, shared, pass, &hand.leases),
            Err(ended) => return ended,
        }
        if hand.leases.is_empty() {
            pause.rest(rt);
            continue;
        }
        pause = Pause::new();
        let searched = search_leaves(
            rt,
            alloc,
            shared,
            pass,
            &hand.leases,
            &mut hand.results,
            oracle,
            gate,
            &mut memo,
        );
        if searched.is_err() {
            return give_back(rt, shared, pass, &hand.leases);
        }
    }
    unreachable!()
}

/// Hands in what the worker found, and takes what it searches next; nothing, where every open leaf is leased.
fn trade<R: Wait, D: Disk>(
    rt: &R,
    shared: &SharedBench<D>,
    pass: &mut BenchPass<D>,
    worker: u32,
    hand: &mut Hand,
) -> Result<(), Ended>
    requires outside { IsOutside shared.now pass.old }
    ensures outside { IsOutside shared.now pass.new }
    ensures grows { GrowsByTurns pass.old.front pass.new.front }
    ensures leases { OnOk result (All (AsksForSearch pass.new.front) hand.new.leases.items) }
    ensures ended { IfErr result (λ ended. ShowsEnd ended pass.new.front) }
{
    let mut turn = shared.enter(rt, pass);
    hand.note_wait(pass.has_waited());
    let number = match stage_results(&mut turn, &mut hand.results) {
        Ok(number) => number,
        Err(ended) => {
            shared.leave(pass, turn);
            return Err(ended);
        }
    };
    hand.leases.clear();
    let mut turn = let_others_stage(rt, shared, pass, turn, number);
    let traded = commit_and_take(shared, &mut turn, number, worker, hand);
    shared.leave(pass, turn);
    traded
}

/// Where the worker has staged a record, and commits take long, gives the turn up, so that others stage what they have and one
/// commit does for all, and waits for the next turn.
fn let_others_stage<R: Wait, D: Disk>(
    rt: &R,
    shared: &SharedBench<D>,
    pass: &mut BenchPass<D>,
    turn: Turn<D>,
    number: u64,
) -> Turn<D>
    requires turn { HasTurn shared.now pass.old turn.start }
    ensures turn { HasTurn shared.now pass.new result.start }
    ensures grows { GrowsByTurns pass.old.front pass.new.front }
    ensures goes_on { GrowsByTurns turn.session.line result.session.line }
{
    if number == 0 || !shared.is_slow() {
        return turn;
    }
    shared.leave(pass, turn);
    shared.wait_for_commit();
    shared.enter(rt, pass)
}

/// Sees to it in a turn that the record of this number is durable, and takes leaves; none, where every open leaf is leased.
#[tactic(auto, using(tree_manager::proofs::TakenLemmas::turn_then, tree_manager::proofs::TakenLemmas::turn_stays))]
fn commit_and_take<D: Disk>(
    shared: &SharedBench<D>,
    turn: &mut Turn<D>,
    number: u64,
    worker: u32,
    hand: &mut Hand,
) -> Result<(), Ended>
    requires number { number ≤ length (recorded turn.old.session.line) }
    requires none { hand.old.leases.items ≡ [] }
    ensures goes_on { TurnGoesOn turn.old turn.new }
    ensures leases { OnOk result
        (All (AsksForSearch turn.new.session.line) hand.new.leases.items) }
    ensures ended { IfErr result (λ ended. ShowsEnd ended turn.new.session.line) }
{
    commit_unless_applied(shared, turn, number)?;
    let taken = take_leaves(turn, worker, &mut hand.leases, hand.wanted);
    hand.note_leases();
    match taken {
        Ok(()) | Err(LeaseRefusal::NoLeaf { .. }) => Ok(()),
        Err(LeaseRefusal::Done) => Err(Ended::Done),
        Err(LeaseRefusal::Spent { .. }) => Err(Ended::Spent),
        Err(LeaseRefusal::Failed) => Err(Ended::Failed),
        Err(LeaseRefusal::Memory(_)) => Err(Ended::Memory),
    }
}

/// Searches the leaves one after another, and keeps what it found.
#[tactic(auto, using(tree_manager::proofs::TurnLemmas::grows_then))]
fn search_leaves<R: Wait, D: Disk, O: Oracle, G: Gate>(
    rt: &R,
    alloc: Global,
    shared: &SharedBench<D>,
    pass: &mut BenchPass<D>,
    leases: &[Lease],
    results: &mut VecDeque<LeaseResult>,
    oracle: &O,
    gate: &G,
    memo: &mut Memo,
) -> Result<(), AllocError>
    requires outside { IsOutside shared.now pass.old }
    requires settings { All (CanSearchLeaf (O.piece_limit oracle.now)) leases.now }
    requires memo { memo.old ≡ O.piece_limit oracle.now }
    ensures outside { IsOutside shared.now pass.new }
    ensures grows { GrowsByTurns pass.old.front pass.new.front }
    ensures memo { memo.new ≡ memo.old }
{
    for lease in leases {
        pass_gate(rt, shared, pass, lease, gate);
        results.reserve(1)?;
        results.push_back_reserved(search_leaf(alloc, lease, oracle, gate, memo)?);
    }
    Ok(())
}

/// Searches a leaf that was leased, and makes the sheet of what it found.
fn search_leaf<O: Oracle, G: Gate>(
    alloc: Global,
    lease: &Lease,
    oracle: &O,
    gate: &G,
    memo: &mut Memo,
) -> Result<LeaseResult, AllocError>
    requires settings { CanSearchLeaf (O.piece_limit oracle.now) lease.now }
    requires memo { memo.old ≡ O.piece_limit oracle.now }
    ensures lease { IfOk result (λ found. found.lease ≡ lease.now) }
    ensures memo { memo.new ≡ memo.old }
{
    let outcome = search_lease(alloc, lease, oracle, gate, memo)?;
    LeaseResult::new(alloc, lease, outcome)
}

/// Lets the gate look at the bench, in a turn that changes nothing.
fn show_bench<R: Wait, D: Disk, G: Gate>(
    rt: &R,
    shared: &SharedBench<D>,
    pass: &mut BenchPass<D>,
    gate: &G,
)
    requires outside { IsOutside shared.now pass.old }
    ensures outside { IsOutside shared.now pass.new }
    ensures grows { GrowsByTurns pass.old.front pass.new.front }
{
    let turn = shared.enter(rt, pass);
    gate.look(turn.session().bench());
    shared.leave(pass, turn);
}

/// Passes the gate, and shows it the bench, where it wants to look.
fn pass_gate<R: Wait, D: Disk, G: Gate>(
    rt: &R,
    shared: &SharedBench<D>,
    pass: &mut BenchPass<D>,
    lease: &Lease,
    gate: &G,
)
    requires outside { IsOutside shared.now pass.old }
    ensures outside { IsOutside shared.now pass.new }
    ensures grows { GrowsByTurns pass.old.front pass.new.front }
{
    gate.before_search(lease);
    if gate.wants_look() {
        show_bench(rt, shared, pass, gate);
        gate.tell();
    }
}

/// Releases leases for whose work there is no memory.
fn give_back<R: Wait, D: Disk>(
    rt: &R,
    shared: &SharedBench<D>,
    pass: &mut BenchPass<D>,
    leases: &[Lease],
) -> Ended
    requires outside { IsOutside shared.now pass.old }
    ensures outside { IsOutside shared.now pass.new }
    ensures grows { GrowsByTurns pass.old.front pass.new.front }
    ensures ended { ShowsEnd result pass.new.front }
{
    let mut turn = shared.enter(rt, pass);
    release_leases(&mut turn, leases);
    shared.leave(pass, turn);
    Ended::Memory
}
