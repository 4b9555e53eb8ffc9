//! One worker, whose steps are timed one by one.
ghost use Rattle.std.specs.Prelude.{◌≡◌, IfOk};
ghost use Rattle.turn_lock.specs.Seen.{IsOutside};
ghost use Rattle.bench_core.specs.Cores.{IsOutcomeOf};
ghost use Rattle.tree_manager.specs.Taken.{TurnGoesOn};

use crate::alone::outcome_of;
use crate::roots::{End, PIECES};
use crate::together::{end_of, share};
use anyhow::{Result, bail};
use bench_core::{LeaseRefusal, LeaseResult};
use bench_disk::Disk;
use certificate_checker::Outcome;
use endgame_table::Table;
use leaf_search::Memo;
use lease_table::Lease;
use std::alloc::Global;
use std::sync::Wait;
use std::time::Instant;
use tree_manager::{BenchPass, SharedBench, Turn};

/// The number of the worker.
const WORKER: u32 = 1;

/// So often it asks for a lease at most.
const MOST_ASKED: u32 = 10_000;

/// How many positions it remembers in which looking ahead shows no win.
const REMEMBERED: usize = 65_536;

/// How many nanoseconds its work took by the clock.
#[derive(Clone, Copy, PartialEq, Eq, Debug, Default)]
pub(crate) struct Spent {
    pub(crate) search: u128,
    /// Making the sheet of what was found, before the turn.
    pub(crate) sheets: u128,
    /// The turns, in which it stages and commits what it found and leases the next leaf.
    pub(crate) turns: u128,
}

impl Spent {
    /// How many there were.
    pub(crate) fn in_all(&self) -> u128 {
        self.search
            .saturating_add(self.sheets)
            .saturating_add(self.turns)
    }
}

/// What one worker came to, and how long its calls took.
#[derive(Clone, Copy)]
pub(crate) struct ByHand {
    pub(crate) end: End,
    pub(crate) spent: Spent,
}

/// The next lease, and none where all roots are settled.
fn next_of(answer: Result<Lease, LeaseRefusal>) -> Result<Option<Lease>> {
    match answer {
        Ok(lease) => Ok(Some(lease)),
        Err(LeaseRefusal::Done) => Ok(None),
        Err(refusal) => Err(refusal.into()),
    }
}

/// What the search comes to that the lease asks for.
fn search_leased(
    rt: &HostRuntime,
    lease: &Lease,
    table: &Table,
    memo: &mut Memo,
    spent: &mut Spent,
) -> Result<Outcome>
    ensures { IfOk result (IsOutcomeOf lease.now) }
{
    let start = Instant::now(rt)?;
    let outcome = outcome_of(rt.alloc(), lease, table, memo);
    spent.search = spent.search.saturating_add(start.elapsed(rt)?.as_nanos());
    match outcome {
        Some(outcome) => Ok(outcome),
        None => bail!("the lease is of no search, or memory ran out"),
    }
}

/// Stages in a turn what was found, commits it, and asks for the next leaf.
#[tactic(auto, using(tree_manager::proofs::TakenLemmas::turn_then))]
fn settle<D: Disk>(
    shared: &SharedBench<D>,
    turn: &mut Turn<D>,
    found: LeaseResult,
) -> Result<Option<Lease>>
    ensures { TurnGoesOn turn.old turn.new }
{
    turn.stage_numbered(found)?;
    shared.commit_in_turn(turn)?;
    next_of(turn.lease(WORKER))
}

/// Makes the sheet of what was found, and hands it in, in one turn, for the next lease.
#[tactic(auto, using(tree_manager::proofs::TakenLemmas::has_turn_on))]
fn hand_in<R: Wait, D: Disk>(
    waiting: &R,
    rt: &HostRuntime,
    shared: &SharedBench<D>,
    pass: &mut BenchPass<D>,
    lease: &Lease,
    outcome: Outcome,
    spent: &mut Spent,
) -> Result<Option<Lease>>
    requires outside { IsOutside shared.now pass.old }
    requires outcome { IsOutcomeOf lease.now outcome }
    ensures { IsOutside shared.now pass.new }
{
    let start = Instant::now(rt)?;
    let found = LeaseResult::new(rt.alloc(), lease, outcome)?;
    let sheets = start.elapsed(rt)?.as_nanos();
    let start = Instant::now(rt)?;
    let mut turn = shared.enter(waiting, pass);
    let next = settle(shared, &mut turn, found);
    shared.leave(pass, turn);
    let turns = start.elapsed(rt)?.as_nanos();
    spent.sheets = spent.sheets.saturating_add(sheets);
    spent.turns = spent.turns.saturating_add(turns);
    next
}

/// Leases, searches, stages and commits until all roots are settled.
fn work_off<R: Wait, D: Disk>(
    waiting: &R,
    rt: &HostRuntime,
    shared: &SharedBench<D>,
    pass: &mut BenchPass<D>,
    table: &Table,
) -> Result<Spent>
    requires { IsOutside shared.now pass.old }
    ensures { IsOutside shared.now pass.new }
{
    let mut memo = Memo::new(rt.alloc(), table.pieces(), REMEMBERED)?;
    let mut spent = Spent::default();
    let mut next = next_of(shared.lease(waiting, pass, WORKER))?;
    for _ in 0..MOST_ASKED {
        let Some(lease) = next else {
            break;
        };
        let outcome = search_leased(rt, &lease, table, &mut memo, &mut spent)?;
        next = hand_in(waiting, rt, shared, pass, &lease, outcome, &mut spent)?;
    }
    Ok(spent)
}

/// Lets one worker work on the disk's journal until all roots are settled.
pub(crate) fn work_by_hand<R: Wait, D: Disk + Drop>(
    waiting: &R,
    rt: &HostRuntime,
    disk: D,
    table: &Table,
) -> Result<ByHand>
    requires { table.now.pieces ≡ PIECES }
{
    let (shared, mut pass) = share(rt.alloc(), disk, table)?;
    let spent = work_off(waiting, rt, &shared, &mut pass, table);
    let end = end_of(waiting, shared, pass);
    Ok(ByHand { end, spent: spent? })
}
