//! Workers in threads.
ghost use Rattle.std.specs.Prelude.{◌≡◌, IfOk};
ghost use Rattle.turn_lock.specs.Seen.{IsOutside};
ghost use Rattle.worker_gate.specs.Work.{CanSearch};

use crate::roots::{End, PIECES, settings};
use anyhow::Result;
use bench_disk::Disk;
use endgame_table::Table;
use std::alloc::Global;
use std::rt::CpuClock;
use std::sync::Wait;
use std::thread::Threads;
use std::time::Instant;
use tree_manager::{BenchPass, Session, SharedBench};
use worker_gate::{OpenGate, run_workers};

/// What workers came to, and in how many nanoseconds: by the clock, and of the processors.
#[derive(Clone, Copy)]
pub(crate) struct Together {
    pub(crate) end: End,
    pub(crate) spent: u128,
    pub(crate) processors: u128,
}

/// A shared bench on the disk, and its first pass.
pub(crate) fn share<D: Disk + Drop>(
    alloc: Global,
    disk: D,
    table: &Table,
) -> Result<(SharedBench<D>, BenchPass<D>)>
    requires { table.now.pieces ≡ PIECES }
    ensures outside { IfOk result (λ made. IsOutside made.0 made.1) }
    ensures settings { IfOk result (λ made. CanSearch PIECES made.1.front) }
{
    let session = match Session::attach(alloc, disk, settings(), table) {
        Ok(session) => session,
        Err((_, refusal)) => return Err(refusal.into()),
    };
    match SharedBench::new(alloc, session) {
        Ok(made) => Ok(made),
        Err((_, error)) => Err(error.into()),
    }
}

/// Lets `workers` workers work until all roots are settled: in how many nanoseconds, by the clock, and of the processors.
fn time_workers<R: Threads + Wait + Sync, D: Disk + Send>(
    threads: &R,
    rt: &HostRuntime,
    shared: &SharedBench<D>,
    pass: &mut BenchPass<D>,
    workers: u8,
    table: &Table,
) -> Result<(u128, u128)>
    requires pieces { table.now.pieces ≡ PIECES }
    requires outside { IsOutside shared.now pass.old }
    requires settings { CanSearch PIECES pass.old.front }
    ensures { IsOutside shared.now pass.new }
{
    let used = rt.process_cpu_time()?;
    let start = Instant::now(rt)?;
    run_workers(threads, rt.alloc(), shared, pass, workers, table, &OpenGate);
    let spent = start.elapsed(rt)?.as_nanos();
    let processors = rt
        .process_cpu_time()?
        .as_nanos()
        .saturating_sub(used.as_nanos());
    Ok((spent, processors))
}

/// Ends the sharing: what the session came to.
pub(crate) fn end_of<R: Wait, D: Disk + Drop>(
    waiting: &R,
    shared: SharedBench<D>,
    pass: BenchPass<D>,
) -> End
    requires { IsOutside shared pass }
{
    let (session, _) = shared.finish(waiting, pass);
    End::of(&session)
}

/// Lets `workers` workers work on the disk's journal until all roots are settled.
pub(crate) fn work_together<R: Threads + Wait + Sync, D: Disk + Drop + Send>(
    threads: &R,
    rt: &HostRuntime,
    disk: D,
    workers: u8,
    table: &Table,
) -> Result<Together>
    requires { table.now.pieces ≡ PIECES }
{
    let (shared, mut pass) = share(rt.alloc(), disk, table)?;
    let timed = time_workers(threads, rt, &shared, &mut pass, workers, table);
    let end = end_of(threads, shared, pass);
    let (spent, processors) = timed?;
    Ok(Together {
        end,
        spent,
        processors,
    })
}
