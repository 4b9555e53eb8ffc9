//! Stops a session at each call of its disk, and attaches again what a crash leaves.
//!
//! A session begins three roots and works until all are settled, on a disk in memory that refuses
//! every call from one on. Of the images that a crash may then leave, each attaches, has the
//! records that were acknowledged and all or none of the commit that failed, and goes on to the
//! end. Its tree is compared node by node with that of the session that stopped or, where the image
//! has the commit that failed, with that of a session that was never stopped, as it was behind that
//! commit. A difference ends the program with an error. For each number of calls that the disk
//! takes it prints how many images have how many records, and how many nodes were compared. Before,
//! it plays a session worked out by hand.
#![tactic(auto)]

mod images;
mod searching;
mod trees;
mod worked;
mod working;

use crate::images::{Seen, Unstopped, look_at_all};
use crate::worked::goes_as_worked;
use crate::working::{Stop, run};
use anyhow::{Result, bail};
use bench_disk::{Disk, FuseDisk, MemoryDisk};
use disk_journal::read_journal;
use endgame_table::{Table, fill};
use std::alloc::Global;

/// Prints which images were seen, where the session stopped there.
fn print_seen(rt: &impl Print, calls: u64, stop: &Stop, seen: Seen) -> Result<()> {
    let Seen {
        without,
        with,
        nodes,
    } = seen;
    let before = stop.acknowledged;
    let behind = before.saturating_add(stop.waiting);
    print!(rt; "{calls} calls: ")?;
    match (without, with) {
        (_, 0) => print!(rt; "{without} images with {before} records")?,
        (0, _) => print!(rt; "{with} images with {behind} records")?,
        _ => print!(rt; "{without} images with {before} records, {with} with {behind}")?,
    }
    println!(rt; ", {nodes} nodes compared")?;
    Ok(())
}

/// Stops a session behind `calls` calls of its disk, looks at the images and prints what was seen.
fn stop_behind(
    rt: &(impl Print + Alloc<A = Global>),
    calls: u64,
    unstopped: Unstopped<'_>,
    table: &Table,
) -> Result<Seen> {
    let disk = FuseDisk::new(MemoryDisk::new(rt.alloc()), calls);
    let (stop, disk) = run(rt.alloc(), disk, table)?;
    let seen = look_at_all(rt.alloc(), &disk.into_inner(), &stop, unstopped, table)?;
    print_seen(rt, calls, &stop, seen)?;
    Ok(seen)
}

/// Stops a session at each of `calls` calls of its disk, and behind the last, and prints what was seen in all.
fn stop_at_all(
    rt: &(impl Print + Alloc<A = Global>),
    calls: u64,
    unstopped: Unstopped<'_>,
    table: &Table,
) -> Result<()> {
    let mut total = Seen::default();
    for passed in 0..=calls {
        total.add(stop_behind(rt, passed, unstopped, table)?);
    }
    let Seen {
        without,
        with,
        nodes,
    } = total;
    println!(rt;
        "{without} images without the commit that failed, {with} with it, {nodes} nodes compared"
    )?;
    Ok(())
}

/// Plays the worked session with leases that last for one lease given, and for two.
fn play_worked(rt: &(impl Print + Alloc<A = Global>), table: &Table) -> Result<()> {
    if !goes_as_worked(rt.alloc(), MemoryDisk::new(rt.alloc()), 1, table)? {
        bail!("where a lease lasts for one, the worked session differs");
    }
    println!(rt; "lease 1: leases 1 and 2 of one leaf, 1 is stale, 2 makes record 2, then done")?;
    if !goes_as_worked(rt.alloc(), MemoryDisk::new(rt.alloc()), 2, table)? {
        bail!("where a lease lasts for two, the worked session differs");
    }
    println!(rt; "lease 2: no leaf with 1 live, and lease 2 once lease 1 is released")?;
    Ok(())
}

fn main(rt: HostRuntime) -> Result<()> {
    let alloc = rt.alloc();
    let table = fill(alloc, 2)?;
    play_worked(&rt, &table)?;
    let (stop, mut disk) = run(alloc, MemoryDisk::new(alloc), &table)?;
    if !stop.done {
        bail!("some root is not settled");
    }
    let calls = disk.moment();
    let (_, all) = read_journal(alloc, &mut disk)?;
    let (records, commits, nodes) = (stop.acknowledged, stop.commits.len(), stop.tree.len());
    println!(rt; "{records} records in {commits} commits, {calls} calls, {nodes} nodes")?;
    let unstopped = Unstopped {
        payloads: &all,
        commits: &stop.commits,
    };
    stop_at_all(&rt, calls, unstopped, &table)
}
