//! Workers at a bench with the roots W:W16,23:B12, a White win, and B:W21:B10,17, a Black win, each by the first move.
ghost use Rattle.std.specs.Prelude.{◌≡◌, ◌≤◌, IfOk};
ghost use Rattle.bench_core.specs.declared.settings.TheConstants.{MOST_WORK};
ghost use Rattle.turn_lock.specs.Seen.{IsOutside};
ghost use Rattle.worker_gate.specs.Work.{CanSearch};

use crate::sessions::session_with;
use bench_core::{Bench, Settings};
use bench_disk::{Disk, FuseDisk, MemoryDisk};
use draughts_board::{Position, Value};
use endgame_table::{Table, fill};
use fen_text::{FenRefusal, read_fen};
use lease_table::Lease;
use proof_tree::Tree;
use std::alloc::{AllocError, Global};
use std::sync::Wait;
use std::sync::atomic::{AtomicU64, Ordering};
use std::test::*;
use std::thread::Threads;
use tree_manager::{BenchPass, RootCounts, Session, SharedBench};
use worker_gate::{Ended, Gate, MeetGate, OpenGate, run_workers, work};

/// How the work ended, how many work records there are then, and what the two roots are worth, where that is settled.
type End = (Ended, u64, Option<Value>, Option<Value>);

/// Pieces 2, depth 1 and lease 10.
fn settings(budget: u32) -> Settings
    requires { budget ≤ MOST_WORK }
    ensures { result.pieces ≡ 2 }
{
    Settings {
        pieces: 2,
        depth: 1,
        budget,
        lease: 10,
    }
}

/// The two roots.
fn both_roots() -> Result<[Position; 2], FenRefusal> {
    Ok([read_fen(b"W:W16,23:B12")?, read_fen(b"B:W21:B10,17")?])
}

/// A disk whose journal has the first root, and the second where that is asked for.
fn disk_with_roots(alloc: Global, has_second: bool) -> Result<MemoryDisk, Fail> {
    let both = both_roots()?;
    let session = session_with(alloc, if has_second { &both } else { &both[..1] })?;
    Ok(session.into_disk())
}

/// A shared bench on the disk, and its first pass. A refusal hands the disk back.
fn share<D: Disk>(
    alloc: Global,
    disk: D,
    table: &Table,
    budget: u32,
) -> Result<(SharedBench<D>, BenchPass<D>), D>
    requires pieces { table.now.pieces ≡ 2 }
    requires budget { budget ≤ 5 }
    ensures outside { IfOk result (λ made. IsOutside made.0 made.1) }
    ensures settings { IfOk result (λ made. CanSearch 2 made.1.front) }
{
    let session = match Session::attach(alloc, disk, settings(budget), table) {
        Ok(session) => session,
        Err((disk, _)) => return Err(disk),
    };
    match SharedBench::new(alloc, session) {
        Ok(made) => Ok(made),
        Err((session, _)) => Err(session.into_disk()),
    }
}

/// What a root is worth, where there is one and it is settled.
fn worth(tree: &Tree, root: u32) -> Option<Value>
    requires { 1 ≤ root }
{
    if tree.roots() < root {
        return None;
    }
    tree.settled(root)
}

/// Ends the sharing: the disk, and what the session came to.
fn come_to<R: Wait, D: Disk>(
    rt: &R,
    shared: SharedBench<D>,
    pass: BenchPass<D>,
    ended: Ended,
) -> (D, End)
    requires { IsOutside shared pass }
{
    let (session, _) = shared.finish(rt, pass);
    let bench = session.bench();
    let end = (
        ended,
        bench.work(),
        worth(bench.tree(), 1),
        worth(bench.tree(), 2),
    );
    (session.into_disk(), end)
}

/// The work of a number of workers on the disk, if its journal is attached.
fn run_on<R: Threads + Wait + Sync, D: Disk + Send, G: Gate + Sync>(
    rt: &R,
    alloc: Global,
    disk: D,
    table: &Table,
    budget: u32,
    workers: u8,
    gate: &G,
) -> (D, Option<End>)
    requires pieces { table.now.pieces ≡ 2 }
    requires budget { budget ≤ 5 }
{
    let (shared, mut pass) = match share(alloc, disk, table, budget) {
        Ok(made) => made,
        Err(disk) => return (disk, None),
    };
    let ended = run_workers(rt, alloc, &shared, &mut pass, workers, table, gate);
    let (disk, end) = come_to(rt, shared, pass, ended);
    (disk, Some(end))
}

/// The work of worker 1, alone, on the disk, if its journal is attached.
fn work_on<R: Wait, D: Disk>(
    rt: &R,
    alloc: Global,
    disk: D,
    table: &Table,
    budget: u32,
) -> (D, Option<End>)
    requires pieces { table.now.pieces ≡ 2 }
    requires budget { budget ≤ 5 }
{
    let (shared, mut pass) = match share(alloc, disk, table, budget) {
        Ok(made) => made,
        Err(disk) => return (disk, None),
    };
    let ended = work(rt, alloc, &shared, &mut pass, 1, table, &OpenGate);
    let (disk, end) = come_to(rt, shared, pass, ended);
    (disk, Some(end))
}

/// One work record settles the first root, a White win, and there is no second.
const WON: End = (Ended::Done, 1, Some(Value::WhiteWins), None);

/// The budget is spent with no work record: the first root is not settled, and there is no second.
const SPENT: End = (Ended::Spent, 0, None, None);

/// Two work records settle both roots, a White win and a Black win.
const BOTH_WON: End = (
    Ended::Done,
    2,
    Some(Value::WhiteWins),
    Some(Value::BlackWins),
);

/// The ends of the work of one worker on a disk with the first root: alone, and in a thread.
fn ends_of_one<R: Threads + Wait + Sync>(
    rt: &R,
    alloc: Global,
    budget: u32,
) -> Result<[Option<End>; 2], Fail>
    requires { budget ≤ 5 }
{
    let table = fill(alloc, 2)?;
    let disk = disk_with_roots(alloc, false)?;
    let (_, alone) = work_on(rt, alloc, disk, &table, budget);
    let disk = disk_with_roots(alloc, false)?;
    let (_, in_thread) = run_on(rt, alloc, disk, &table, budget, 1, &OpenGate);
    Ok([alone, in_thread])
}

#[test]
fn one_leaf_takes_one_work_record(rt: HostRuntime) -> Result<(), Fail> {
    assert_eq!(rt; ends_of_one(&rt, rt.alloc(), 5)?, [Some(WON), Some(WON)]);
    Ok(())
}

#[test]
fn no_budget_leaves_no_work_record(rt: HostRuntime) -> Result<(), Fail> {
    assert_eq!(rt;
        ends_of_one(&rt, rt.alloc(), 0)?,
        [Some(SPENT), Some(SPENT)]
    );
    Ok(())
}

/// The end of the work of `workers` workers on a disk with both roots.
fn end_of<R: Threads + Wait + Sync, G: Gate + Sync>(
    rt: &R,
    alloc: Global,
    workers: u8,
    gate: &G,
) -> Result<Option<End>, Fail> {
    let table = fill(alloc, 2)?;
    let disk = disk_with_roots(alloc, true)?;
    let (_, end) = run_on(rt, alloc, disk, &table, 5, workers, gate);
    Ok(end)
}

#[test]
fn searches_run_at_the_same_time(rt: HostRuntime) -> Result<(), Fail> {
    let gate = MeetGate::new();
    let end = end_of(&rt, rt.alloc(), 4, &gate)?;
    assert_eq!(rt; (end, gate.met()), (Some(BOTH_WON), true));
    Ok(())
}

/// Wants to look at the bench before each search, and adds up what it sees.
#[derive(Drop)]
struct AddingGate {
    /// How often it looked.
    shown: AtomicU64,
    /// How many roots it saw.
    all: AtomicU64,
    /// How many of them were settled.
    settled: AtomicU64,
}

impl AddingGate {
    /// It saw nothing.
    fn new() -> AddingGate {
        AddingGate {
            shown: AtomicU64::new(0),
            all: AtomicU64::new(0),
            settled: AtomicU64::new(0),
        }
    }

    /// How often it looked, and the sums.
    fn sums(&self) -> (u64, u64, u64) {
        (
            self.shown.load(Ordering::SeqCst),
            self.all.load(Ordering::SeqCst),
            self.settled.load(Ordering::SeqCst),
        )
    }
}

impl Gate for AddingGate {
    fn before_search(&self, _lease: &Lease) {}

    fn wants_look(&self) -> bool {
        true
    }

    fn look(&self, bench: &Bench) {
        let counts = RootCounts::of(bench.tree());
        self.shown.fetch_add(1, Ordering::SeqCst);
        self.all.fetch_add(u64::from(counts.all), Ordering::SeqCst);
        self.settled
            .fetch_add(u64::from(counts.settled), Ordering::SeqCst);
    }
}

#[test]
fn a_gate_sees_how_many_roots_are_settled(rt: HostRuntime) -> Result<(), Fail> {
    let gate = AddingGate::new();
    let end = end_of(&rt, rt.alloc(), 1, &gate)?;
    // before the first search 0 of 2, before the second 1 of 2
    assert_eq!(rt; (end, gate.sums()), (Some(BOTH_WON), (2, 4, 1)));
    Ok(())
}

/// Whether the journal on a disk is attached.
fn attaches(alloc: Global, disk: MemoryDisk, table: &Table) -> bool
    requires { table.now.pieces ≡ 2 }
{
    Session::attach(alloc, disk, settings(5), table).is_ok()
}

/// Whether each image that a crash now may leave, of the first eight choices, is attached.
fn images_attach(alloc: Global, disk: &MemoryDisk, table: &Table) -> Result<bool, AllocError>
    requires { table.now.pieces ≡ 2 }
{
    for choice in 0..8 {
        if !attaches(alloc, disk.crash(choice)?, table) {
            return Ok(false);
        }
    }
    Ok(true)
}

/// The end of the work of four workers on a disk with both roots that fails behind `pass` calls, and whether each image of
/// it is attached then.
fn end_on_fuse<R: Threads + Wait + Sync>(
    rt: &R,
    alloc: Global,
    table: &Table,
    pass: u64,
) -> Result<(Option<End>, bool), Fail>
    requires { table.now.pieces ≡ 2 }
{
    let fuse = FuseDisk::new(disk_with_roots(alloc, true)?, pass);
    let (fuse, end) = run_on(rt, alloc, fuse, table, 5, 4, &OpenGate);
    Ok((end, images_attach(alloc, &fuse.into_inner(), table)?))
}

/// Whether work on a disk that fails may end so.
fn may_end(end: Option<End>) -> bool {
    match end {
        None => true,
        Some((Ended::Failed, work, _, _)) => work < 2,
        Some(end) => end == BOTH_WON,
    }
}

/// Whether the disk refused a commit of the work, and whether the work was done.
fn failed_or_done(end: Option<End>) -> (bool, bool) {
    match end {
        None => (false, false),
        Some((ended, _, _, _)) => (ended == Ended::Failed, ended == Ended::Done),
    }
}

/// How many of a session's calls of the disk pass at most, before each later one fails.
const MOST_CALLS: u64 = 40;

/// Whether work on each such disk ends as it may and leaves images that are attached; and whether any failed, and any was
/// done.
fn ends_on_fuses<R: Threads + Wait + Sync>(
    rt: &R,
    alloc: Global,
) -> Result<(bool, bool, bool), Fail> {
    let table = fill(alloc, 2)?;
    let mut found = (true, false, false);
    for pass in 0..MOST_CALLS {
        let (end, attach) = end_on_fuse(rt, alloc, &table, pass)?;
        let (failed, done) = failed_or_done(end);
        found.0 = found.0 && attach && may_end(end);
        found = (found.0, found.1 || failed, found.2 || done);
    }
    Ok(found)
}

#[test]
fn a_disk_that_fails_ends_all_workers(rt: HostRuntime) -> Result<(), Fail> {
    assert_eq!(rt; ends_on_fuses(&rt, rt.alloc())?, (true, true, true));
    Ok(())
}
