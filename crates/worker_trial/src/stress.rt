//! Many runs by many workers, each compared with that of one worker.
ghost use Rattle.std.specs.Prelude.{◌≡◌, ◌≤◌};

use crate::pauses::PauseGate;
use crate::runs::{Run, run_together};
use crate::tally::Tally;
use anyhow::{Result, bail, ensure};
use bench_disk::MemoryDisk;
use draughts_board::Value;
use endgame_table::Table;
use std::alloc::Global;
use std::sync::Wait;
use std::thread::Threads;

/// How many runs there are.
pub(crate) const RUNS: u32 = 1_000;

/// How many workers share a session, beside the caller, who works on where they end.
pub(crate) const WORKERS: u8 = 8;

/// A lease lasts for this number of leases given at most.
const LONGEST_LEASE: u32 = 3;

/// Compares the values of the roots with those of one worker.
fn compare(seed: u32, alone: &[Option<Value>], together: &[Option<Value>]) -> Result<()> {
    let (roots, others) = (alone.len(), together.len());
    ensure!(
        roots == others,
        "seed {seed}: {others} roots, and not {roots}"
    );
    for (index, (one, many)) in alone.iter().zip(together).enumerate() {
        if one != many {
            bail!("seed {seed}, root {index} counted from 0: {many:?}, and {one:?} by one worker");
        }
    }
    Ok(())
}

/// The runs in which a lease lasts for this number of leases given, each compared with that of one worker.
fn run_lease<R: Threads + Wait + Sync>(
    rt: &R,
    alloc: Global,
    disk: &MemoryDisk,
    table: &Table,
    alone: &Run,
    lease: u32,
) -> Result<Tally>
    requires pieces { table.now.pieces ≡ 2 }
    requires lasts { 1 ≤ lease }
    requires lease { lease ≤ 3 }
{
    let mut tally = Tally::new(lease);
    for seed in 0..RUNS {
        if seed % LONGEST_LEASE != lease - 1 {
            continue;
        }
        let gate = PauseGate::new(u64::from(seed));
        let run = match run_together(rt, alloc, disk, table, WORKERS, lease, &gate) {
            Ok(run) => run,
            Err(error) => bail!("seed {seed}: {error}"),
        };
        compare(seed, alone.values.as_slice(), run.values.as_slice())?;
        compare(seed, alone.values.as_slice(), run.read_back.as_slice())?;
        tally.add(gate.searches(), run.work);
    }
    Ok(tally)
}

/// All runs: what their searches came to, for each lease.
pub(crate) fn stress<R: Threads + Wait + Sync>(
    rt: &R,
    alloc: Global,
    disk: &MemoryDisk,
    table: &Table,
    alone: &Run,
) -> Result<Vec<Tally>>
    requires { table.now.pieces ≡ 2 }
{
    let mut tallies = Vec::new(alloc);
    for lease in 1..=LONGEST_LEASE {
        tallies.push(run_lease(rt, alloc, disk, table, alone, lease)?)?;
    }
    Ok(tallies)
}
