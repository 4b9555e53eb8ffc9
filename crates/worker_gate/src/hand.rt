//! What a worker has in hand, and what it does with it in a turn.
ghost use Rattle.std.specs.Prelude.{◌≡◌, ◌≤◌, [], length, All, OnOk, IfOk, IfErr, OnErr};
ghost use Rattle.tree_manager.specs.Lines.{recorded, applied_in};
ghost use Rattle.tree_manager.specs.Taken.{TurnGoesOn};
ghost use Rattle.tree_manager.specs.Turns.{AsksForSearch, Leases};
ghost use Rattle.worker_gate.specs.Work.{ShowsEnd};

use crate::worker::Ended;
use bench_core::{LeaseRefusal, LeaseResult};
use bench_disk::Disk;
use lease_table::Lease;
use std::alloc::Global;
use std::collections::VecDeque;
use tree_manager::{Session, SharedBench, StageRefusal, Turn};

/// How many leaves a worker has leased at most.
const MOST_LEASED: usize = 8;

/// How many leases all workers may be given from one turn of a worker to its next, where it still asks for more: a pick looks
/// at the leaves that are leased.
const MOST_TOGETHER: u128 = 32;

/// What a worker has in hand between two turns.
#[derive(Drop)]
pub(crate) struct Hand {
    /// The leases of the leaves that it searches.
    pub(crate) leases: Vec<Lease>,
    /// What it found, in the order of the leases.
    pub(crate) results: VecDeque<LeaseResult>,
    /// For how many leaves it asks in its next turn.
    pub(crate) wanted: usize,
    /// The number of the first lease that it was given last, and how many all workers were given from the one before on.
    last: u128,
    given: u128,
}

impl Hand {
    /// It has nothing, and asks for one leaf.
    pub(crate) fn new(alloc: Global) -> Hand
        ensures { result.leases.items ≡ [] }
    {
        Hand {
            leases: Vec::new(alloc),
            results: VecDeque::new(alloc),
            wanted: 1,
            last: 0,
            given: 0,
        }
    }

    /// It asks for twice as many leaves as before, up to the most, where it had to wait for its turn and few leases are about,
    /// and else for half as many: where turns are what workers wait for, they make fewer and longer ones.
    pub(crate) fn note_wait(&mut self, has_waited: bool)
        ensures leases { self.new.leases ≡ self.old.leases }
    {
        self.wanted = if has_waited && self.given <= MOST_TOGETHER {
            self.wanted.saturating_mul(2).min(MOST_LEASED)
        } else {
            (self.wanted / 2).max(1)
        };
    }

    /// Notes which leases it was given.
    pub(crate) fn note_leases(&mut self)
        ensures leases { self.new.leases ≡ self.old.leases }
    {
        if let Some(first) = self.leases.first() {
            let number = first.id.number();
            self.given = number.saturating_sub(self.last);
            self.last = number;
        }
    }
}

/// Stages the results in a turn, in order, and drops those that come too late. The answer is the number of the last record
/// that it staged, and 0 where it staged none.
#[tactic(auto, using(tree_manager::proofs::TakenLemmas::turn_then, tree_manager::proofs::TakenLemmas::turn_stays))]
pub(crate) fn stage_results<D: Disk>(
    turn: &mut Turn<D>,
    results: &mut VecDeque<LeaseResult>,
) -> Result<u64, Ended>
    ensures goes_on { TurnGoesOn turn.old turn.new }
    ensures number { IfOk result (λ number. number ≤ length (recorded turn.new.session.line)) }
    ensures ended { IfErr result (λ ended. ShowsEnd ended turn.new.session.line) }
{
    let mut number = 0;
    while let Some(found) = results.pop_front() {
        match turn.stage_numbered(found) {
            Ok(staged) => number = staged,
            Err(StageRefusal::Stale(_)) => {}
            Err(StageRefusal::Failed) => return Err(Ended::Failed),
            Err(StageRefusal::Memory(_)) => return Err(Ended::Memory),
        }
    }
    Ok(number)
}

/// Releases the leases in a turn. Some of them may have ended by themselves.
#[tactic(auto, using(tree_manager::proofs::TakenLemmas::turn_then, tree_manager::proofs::TakenLemmas::turn_stays))]
pub(crate) fn release_leases<D: Disk>(turn: &mut Turn<D>, leases: &[Lease])
    ensures { TurnGoesOn turn.old turn.new }
{
    for lease in leases {
        let _ = turn.release(lease.id);
    }
}

/// Sees to it in a turn that the record of this number is durable and applied, by a commit of this worker or of another.
pub(crate) fn commit_unless_applied<D: Disk>(
    shared: &SharedBench<D>,
    turn: &mut Turn<D>,
    number: u64,
) -> Result<(), Ended>
    requires { number ≤ length (recorded turn.old.session.line) }
    ensures goes_on { TurnGoesOn turn.old turn.new }
    ensures applied { OnOk result (number ≤ length (applied_in turn.new.session.line)) }
    ensures ended { IfErr result (λ ended. ShowsEnd ended turn.new.session.line) }
{
    if turn.session().has_applied(number) {
        return Ok(());
    }
    match shared.commit_in_turn(turn) {
        Ok(_) => Ok(()),
        Err(_) => Err(Ended::Failed),
    }
}

/// How many work records the budget of a session leaves.
fn left_of_budget<D: Disk>(session: &Session<D>) -> usize {
    let bench = session.bench();
    u64::from(bench.budget()).saturating_sub(bench.work()) as usize
}

/// Leases up to this number of leaves to a worker in a turn, and no more than the budget leaves. It is refused only where it gets
/// none.
#[tactic(auto, using(tree_manager::proofs::TakenLemmas::turn_then, tree_manager::proofs::TakenLemmas::turn_stays))]
pub(crate) fn take_leaves<D: Disk>(
    turn: &mut Turn<D>,
    worker: u32,
    leases: &mut Vec<Lease>,
    wanted: usize,
) -> Result<(), LeaseRefusal>
    requires { leases.old.items ≡ [] }
    ensures goes_on { TurnGoesOn turn.old turn.new }
    ensures leases { OnOk result (All (AsksForSearch turn.new.session.line) leases.new.items) }
    ensures none { OnErr result (leases.new.items ≡ []) }
    ensures refused { IfErr result
        (λ refusal. Leases turn.old.session.line turn.new.session.line worker (Err refusal)) }
{
    leases.reserve(1)?;
    leases.push_reserved(turn.lease(worker)?);
    let most = wanted.min(left_of_budget(turn.session()));
    for _ in 1..most {
        if leases.reserve(1).is_err() {
            break;
        }
        match turn.lease(worker) {
            Ok(lease) => leases.push_reserved(lease),
            Err(_) => break,
        }
    }
    Ok(())
}
