//! Many leases of a tree of some thousand nodes, 64 of them alive at a time.
use crate::tabled::TabledBench;
use anyhow::{Result, bail};
use draughts_board::Position;
use endgame_table::Table;
use lease_table::LeaseId;
use std::alloc::Global;

/// By how many searches the tree grows.
const SEARCHES: u32 = 500;

/// How many workers ask in turn; a lease that is not released lasts for as many leases given.
pub(crate) const WORKERS: u32 = 64;

/// How many are given where each is compared with those before it.
const COMPARED: u32 = 100_000;

/// How many work records a session may have.
pub(crate) const BUDGET: u32 = 1_000_000;

/// The first position of a game begins as a root, and is applied.
fn begin_start(bench: &mut TabledBench<'_>) -> Result<()> {
    if bench.begin(Position::start())?.is_none() {
        bail!("no root began");
    }
    bench.apply();
    Ok(())
}

/// The next leaf is leased and searched, and its result is applied.
fn search_next(alloc: Global, bench: &mut TabledBench<'_>) -> Result<()> {
    let lease = bench.ask(0)?;
    if bench.hand_in(alloc, &lease)?.is_err() {
        bail!("the result was refused");
    }
    bench.apply();
    Ok(())
}

/// Releases the lease that `followed` followed, of which this is the last, if it lives.
pub(crate) fn release_earlier(bench: &mut TabledBench<'_>, id: LeaseId, followed: u32) {
    if let Some(number) = id.number().checked_sub(u128::from(followed)) {
        let _is_released = bench.release(LeaseId::new(number)).is_ok();
    }
}

/// Gives `count` leases. Each is released when `released` more were given, or abandoned. The highest number of a node among
/// them.
pub(crate) fn give(bench: &mut TabledBench<'_>, count: u32, released: Option<u32>) -> Result<u64> {
    let mut highest = 0;
    for worker in 0..count {
        let lease = bench.ask(worker % WORKERS)?;
        highest = lease.node.max(highest);
        if let Some(followed) = released {
            release_earlier(bench, lease.id, followed);
        }
    }
    Ok(highest)
}

/// The first position of a game begins as a root, and the tree grows below it.
pub(crate) fn grow(alloc: Global, bench: &mut TabledBench<'_>) -> Result<()> {
    begin_start(bench)?;
    for _ in 0..SEARCHES {
        search_next(alloc, bench)?;
    }
    Ok(())
}

/// Gives `count` leases. How many of them are of a leaf that one of the 63 before them is of.
fn give_apart(bench: &mut TabledBench<'_>, count: u32) -> Result<u32> {
    let mut repeated = 0u32;
    let mut recent = [u64::MAX; WORKERS as usize];
    for worker in 0..count {
        let place = (worker % WORKERS) as usize;
        recent[place] = u64::MAX;
        let lease = bench.ask(worker % WORKERS)?;
        if recent.contains(&lease.node) {
            repeated = repeated.saturating_add(1);
        }
        recent[place] = lease.node;
    }
    Ok(repeated)
}

/// Gives leases of a tree that grew, and prints how many are of a leaf that is leased.
fn tell_apart(rt: &(impl Print + Alloc<A = Global>), bench: &mut TabledBench<'_>) -> Result<()> {
    grow(rt.alloc(), bench)?;
    let nodes = bench.bench().tree().len();
    let repeated = give_apart(bench, COMPARED)?;
    println!(rt; "{nodes} nodes, {COMPARED} leases given: {repeated} of a leaf that is leased")?;
    Ok(())
}

/// Gives leases, and prints how many are of a leaf that is leased.
pub(crate) fn tell_leases(rt: &(impl Print + Alloc<A = Global>), table: &Table) -> Result<()> {
    let mut bench = TabledBench::new(rt.alloc(), table, 0, BUDGET, WORKERS)?;
    tell_apart(rt, &mut bench)
}
