//! Payloads that are committed many at a time.
ghost use Rattle.std.specs.Prelude.{◌≡◌, ◌<◌, false, length, IfOk, OnOk};

use anyhow::Result;
use bench_disk::Disk;
use disk_journal::{Journal, read_journal};
use std::alloc::{AllocError, Global};

/// The lengths of a record of a short search and of a long payload, in bytes.
pub const SHORT: usize = 86;

pub const LONG: usize = 1 << 20;

/// A payload of `size` bytes.
pub fn payload_of(alloc: Global, size: usize) -> Result<Vec<u8>, AllocError>
    ensures { IfOk result (λ payload. length payload.items ≡ size) }
{
    let mut payload = Vec::new(alloc);
    payload.resize(size, 7)?;
    Ok(payload)
}

/// A journal for tables of two pieces on a disk.
pub fn attach<D: Disk + Drop>(alloc: Global, disk: D) -> Result<Journal<D>>
    ensures { IfOk result (λ journal. journal.failed ≡ false) }
{
    match Journal::attach(alloc, disk, 2) {
        Ok((journal, _)) => Ok(journal),
        Err((_, refusal)) => Err(refusal.into()),
    }
}

/// Stages a payload `at_once` times, and commits what is staged.
fn commit<D: Disk>(journal: &mut Journal<D>, payload: &[u8], at_once: usize) -> Result<()>
    requires unfailed { journal.old.failed ≡ false }
    requires some { 0 < length payload.now }
    ensures { OnOk result (journal.new.failed ≡ false) }
{
    for _ in 0..at_once {
        journal.stage(payload)?;
    }
    let _ = journal.commit()?;
    Ok(())
}

/// Commits `commits` times, with `at_once` payloads each.
pub fn commit_often<D: Disk>(
    journal: &mut Journal<D>,
    payload: &[u8],
    at_once: usize,
    commits: u64,
) -> Result<()>
    requires unfailed { journal.old.failed ≡ false }
    requires some { 0 < length payload.now }
{
    for _ in 0..commits {
        commit(journal, payload, at_once)?;
    }
    Ok(())
}

/// Commits to a new journal, reads it back and prints how much stands there.
pub fn tell<D: Disk + Drop>(
    rt: &(impl Print + Alloc<A = Global>),
    place: &str,
    disk: D,
    size: usize,
    at_once: usize,
    commits: u64,
) -> Result<()>
    requires { 0 < size }
{
    let payload = payload_of(rt.alloc(), size)?;
    let mut journal = attach(rt.alloc(), disk)?;
    commit_often(&mut journal, &payload, at_once, commits)?;
    let number = journal.count();
    let mut disk = journal.into_disk();
    let calls = disk.moment();
    let bytes = disk.len()?;
    let (_, payloads) = read_journal(rt.alloc(), &mut disk)?;
    let read = payloads.len();
    println!(rt;
        "{place}, {at_once} of {size} bytes at a time: {number} payloads, \
        {calls} calls, {bytes} bytes, {read} read back"
    )?;
    Ok(())
}
