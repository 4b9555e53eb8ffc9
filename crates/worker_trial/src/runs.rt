//! A session that is worked on until its roots are settled.
ghost use Rattle.std.specs.Prelude.{◌≡◌, ◌≤◌, IfOk};
ghost use Rattle.turn_lock.specs.Seen.{IsOutside};
ghost use Rattle.worker_gate.specs.Work.{CanSearch};

use crate::pauses::PauseGate;
use crate::roots::settings;
use anyhow::{Result, bail};
use bench_disk::MemoryDisk;
use draughts_board::Value;
use endgame_table::Table;
use proof_tree::Tree;
use std::alloc::{AllocError, Global};
use std::io;
use std::sync::Wait;
use std::thread::Threads;
use tree_manager::{BenchPass, Session, SharedBench};
use worker_gate::{Ended, OpenGate, run_workers, work};

/// The number of the worker that works alone.
const ONLY_WORKER: u32 = 1;

/// In the session of the one worker a lease lasts for this number of leases given.
const LONE_LEASE: u32 = 1;

/// What a session came to.
#[derive(Drop)]
pub(crate) struct Run {
    /// The value of each root, in order.
    pub(crate) values: Vec<Option<Value>>,
    /// The same, where the session's journal is read again.
    pub(crate) read_back: Vec<Option<Value>>,
    /// How many work records there are.
    pub(crate) work: u64,
}

/// How many of the roots have this value.
fn count_of(values: &[Option<Value>], value: Value) -> usize {
    values.iter().filter(|one| **one == Some(value)).count()
}

impl Run {
    /// Prints how many roots have each value, and how many work records that took.
    pub(crate) fn print(&self, rt: &impl Print) -> io::Result<()> {
        let values = self.values.as_slice();
        let (roots, work) = (values.len(), self.work);
        let white = count_of(values, Value::WhiteWins);
        let black = count_of(values, Value::BlackWins);
        let drawn = count_of(values, Value::Draw);
        println!(rt;
            "{roots} roots, {work} searches by one worker: {white} won by White, {black} by Black, {drawn} drawn"
        )
    }
}

/// A shared session on the disk, and its first pass.
fn share(
    alloc: Global,
    disk: MemoryDisk,
    table: &Table,
    lease: u32,
) -> Result<(SharedBench<MemoryDisk>, BenchPass<MemoryDisk>)>
    requires pieces { table.now.pieces ≡ 2 }
    requires lasts { 1 ≤ lease }
    requires lease { lease ≤ 3 }
    ensures outside { IfOk result (λ made. IsOutside made.0 made.1) }
    ensures settings { IfOk result (λ made. CanSearch 2 made.1.front) }
{
    let session = match Session::attach(alloc, disk, settings(lease), table) {
        Ok(session) => session,
        Err((_, refusal)) => return Err(refusal.into()),
    };
    match SharedBench::new(alloc, session) {
        Ok(made) => Ok(made),
        Err((_, error)) => Err(error.into()),
    }
}

/// The value of each root, in order.
fn root_values(alloc: Global, tree: &Tree) -> Result<Vec<Option<Value>>, AllocError> {
    let mut values = Vec::new(alloc);
    for place in 0..tree.roots() {
        let value = tree.settled(place + 1);
        values.push(value)?;
    }
    Ok(values)
}

/// The value of each root of a session, in order.
fn values_of(
    alloc: Global,
    session: Session<MemoryDisk>,
) -> Result<Vec<Option<Value>>, AllocError> {
    root_values(alloc, session.bench().tree())
}

/// The session that reads the journal on the disk again.
fn read_again(alloc: Global, disk: MemoryDisk, table: &Table) -> Result<Session<MemoryDisk>>
    requires { table.now.pieces ≡ 2 }
{
    match Session::attach(alloc, disk, settings(LONE_LEASE), table) {
        Ok(session) => Ok(session),
        Err((_, refusal)) => Err(refusal.into()),
    }
}

/// The value of each root by the journal on the disk, in order.
fn values_on(alloc: Global, disk: MemoryDisk, table: &Table) -> Result<Vec<Option<Value>>>
    requires { table.now.pieces ≡ 2 }
{
    Ok(values_of(alloc, read_again(alloc, disk, table)?)?)
}

/// Ends the sharing, where every root is settled: what the session came to.
fn come_to<R: Wait>(
    rt: &R,
    alloc: Global,
    shared: SharedBench<MemoryDisk>,
    pass: BenchPass<MemoryDisk>,
    ended: Ended,
    table: &Table,
) -> Result<Run>
    requires outside { IsOutside shared pass }
    requires pieces { table.now.pieces ≡ 2 }
{
    let (session, _) = shared.finish(rt, pass);
    if ended != Ended::Done {
        bail!("the work ended as {ended:?}");
    }
    let values = root_values(alloc, session.bench().tree())?;
    let work = session.bench().work();
    let read_back = values_on(alloc, session.into_disk(), table)?;
    Ok(Run {
        values,
        read_back,
        work,
    })
}

/// What one worker comes to on a copy of the disk.
pub(crate) fn run_alone<R: Wait>(
    rt: &R,
    alloc: Global,
    disk: &MemoryDisk,
    table: &Table,
) -> Result<Run>
    requires { table.now.pieces ≡ 2 }
{
    let (shared, mut pass) = share(alloc, disk.crash(1)?, table, LONE_LEASE)?;
    let ended = work(rt, alloc, &shared, &mut pass, ONLY_WORKER, table, &OpenGate);
    come_to(rt, alloc, shared, pass, ended, table)
}

/// What `workers` workers who pass the gate come to on a copy of the disk, where a lease lasts for this number of leases given.
pub(crate) fn run_together<R: Threads + Wait + Sync>(
    rt: &R,
    alloc: Global,
    disk: &MemoryDisk,
    table: &Table,
    workers: u8,
    lease: u32,
    gate: &PauseGate,
) -> Result<Run>
    requires pieces { table.now.pieces ≡ 2 }
    requires lasts { 1 ≤ lease }
    requires lease { lease ≤ 3 }
{
    let (shared, mut pass) = share(alloc, disk.crash(1)?, table, lease)?;
    let ended = run_workers(rt, alloc, &shared, &mut pass, workers, table, gate);
    come_to(rt, alloc, shared, pass, ended, table)
}
