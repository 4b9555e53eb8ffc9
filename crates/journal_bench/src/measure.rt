//! How many commits and payloads a second.
ghost use Rattle.std.specs.Prelude.{◌<◌, length};

use crate::AT_ONCE;
use crate::commits::{SHORT, attach, commit_often, payload_of};
use anyhow::Result;
use bench_disk::{Disk, FileDisk, MemoryDisk};
use std::fs;
use std::time::Instant;

/// How often is committed.
const COMMITS: u64 = 400;

/// How many there are a second, if `count` take this number of microseconds.
fn per_second(count: u64, microseconds: u128) -> u128 {
    u128::from(count) * 1_000_000 / microseconds.max(1)
}

/// Microseconds that a number of commits takes on a new journal.
fn time_commits<D: Disk + Drop>(rt: &HostRuntime, disk: D, at_once: usize) -> Result<u128> {
    let payload = payload_of(rt.alloc(), SHORT)?;
    let mut journal = attach(rt.alloc(), disk)?;
    let start = Instant::now(rt)?;
    commit_often(&mut journal, &payload, at_once, COMMITS)?;
    Ok(start.elapsed(rt)?.as_micros())
}

/// Microseconds that a number of writes of a frame's size takes on a disk, one behind another and each
/// with a sync.
fn time_writes<D: Disk + Drop>(rt: &HostRuntime, disk: D, size: usize) -> Result<u128> {
    let mut disk = disk;
    let bytes = payload_of(rt.alloc(), size)?;
    let start = Instant::now(rt)?;
    for _ in 0..COMMITS {
        let at = disk.len()?;
        disk.write_at(at, &bytes)?;
        disk.sync()?;
    }
    Ok(start.elapsed(rt)?.as_micros())
}

/// Prints the rates of one kind of disk.
fn tell(rt: &HostRuntime, place: &str, at_once: usize, journal: u128, bare: u128) -> Result<()> {
    let commits = per_second(COMMITS, journal);
    let payloads = commits.saturating_mul(at_once as u128);
    let writes = per_second(COMMITS, bare);
    println!(rt;
        "{place}, {at_once} at a time: {commits} commits/s, {payloads} payloads/s; \
        bare: {writes} writes with a sync/s"
    )?;
    Ok(())
}

/// Prints commits and payloads a second, on a file at this path and in memory.
pub fn time(rt: &HostRuntime, path: &str) -> Result<()> {
    let alloc = rt.alloc();
    for at_once in AT_ONCE {
        let size = 10 + at_once * (4 + SHORT);
        let _ = fs::remove_file(rt, path);
        let journal = time_commits(
            rt,
            FileDisk::new(rt, String::from_str(alloc, path)?),
            at_once,
        )?;
        let _ = fs::remove_file(rt, path);
        let bare = time_writes(rt, FileDisk::new(rt, String::from_str(alloc, path)?), size)?;
        tell(rt, "file", at_once, journal, bare)?;
    }
    let _ = fs::remove_file(rt, path);
    for at_once in AT_ONCE {
        let size = 10 + at_once * (4 + SHORT);
        let journal = time_commits(rt, MemoryDisk::new(alloc), at_once)?;
        let bare = time_writes(rt, MemoryDisk::new(alloc), size)?;
        tell(rt, "memory", at_once, journal, bare)?;
    }
    Ok(())
}
