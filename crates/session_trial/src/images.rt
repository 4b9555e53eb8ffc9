//! What crashes leave of a session's disk.
use crate::trees::SeenTree;
use crate::working::{Committed, Stop, run, settings};
use anyhow::{Result, bail};
use bench_disk::{Disk, MemoryDisk};
use disk_journal::{Payload, read_journal};
use endgame_table::Table;
use std::alloc::Global;
use tree_manager::Session;

/// How many images are looked at of each disk: the one without what is pending, the one with all of it, and torn ones.
const IMAGES: u64 = 64;

/// What was seen of the images of a disk.
#[derive(Clone, Copy, Default)]
pub(crate) struct Seen {
    /// How many images are without the commit that failed.
    pub(crate) without: u64,
    /// How many images have it.
    pub(crate) with: u64,
    /// How many nodes of theirs were compared.
    pub(crate) nodes: u64,
}

/// A session that was never stopped: all that it committed, and its trees.
#[derive(Clone, Copy)]
pub(crate) struct Unstopped<'a> {
    pub(crate) payloads: &'a [Payload],
    pub(crate) commits: &'a [Committed],
}

impl<'a> Unstopped<'a> {
    /// Its tree behind the commit with which it had `records` records.
    fn tree(&self, records: u64) -> Result<&'a SeenTree> {
        for commit in self.commits {
            if commit.records == records {
                return Ok(&commit.tree);
            }
        }
        bail!("an image has another number of records")
    }
}

/// Whether the payloads are the first of these.
fn are_first(payloads: &[Payload], all: &[Payload]) -> bool {
    if payloads.len() > all.len() {
        return false;
    }
    payloads.iter().zip(all).all(|(one, other)| one.bytes.as_slice() == other.bytes.as_slice())
}

/// What a session has that is attached to a disk.
#[derive(Drop)]
struct Attached {
    records: u64,
    tree: SeenTree,
}

/// What the session has.
fn what_stands<D: Disk>(alloc: Global, session: &mut Session<D>) -> Result<Attached> {
    let records = session.commit()?.number;
    let tree = SeenTree::of(alloc, session.bench().tree())?;
    Ok(Attached { records, tree })
}

/// What a session has that is attached to the disk.
fn attach<D: Disk + Drop>(alloc: Global, disk: D, table: &Table) -> Result<Attached> {
    match Session::attach(alloc, disk, settings(table.pieces()), table) {
        Ok(mut session) => what_stands(alloc, &mut session),
        Err((_, refusal)) => Err(refusal.into()),
    }
}

/// Whether the disk reads as the first `number` records of all that were ever committed.
fn reads_as_first(alloc: Global, bytes: &[u8], all: &[Payload], number: u64) -> Result<bool> {
    let mut disk = MemoryDisk::of(alloc, bytes.to_vec(alloc)?)?;
    let (_, payloads) = read_journal(alloc, &mut disk)?;
    Ok(payloads.len() as u64 == number && are_first(payloads.as_slice(), all))
}

/// Whether a session that is attached to these bytes goes on until all roots are settled.
fn goes_on(alloc: Global, bytes: &[u8], table: &Table) -> Result<bool> {
    let disk = MemoryDisk::of(alloc, bytes.to_vec(alloc)?)?;
    let (stop, _) = run(alloc, disk, table)?;
    Ok(stop.done)
}

/// One image attaches, reads as the first records of all that were ever committed, and goes on to the end.
fn look(alloc: Global, image: &MemoryDisk, all: &[Payload], table: &Table) -> Result<Attached> {
    let bytes = image.bytes();
    let attached = attach(alloc, MemoryDisk::of(alloc, bytes.to_vec(alloc)?)?, table)?;
    if !reads_as_first(alloc, bytes, all, attached.records)? {
        bail!("an image reads as other records");
    }
    if !goes_on(alloc, bytes, table)? {
        bail!("an image does not go on to the end");
    }
    Ok(attached)
}

impl Seen {
    /// An image is seen. It has what was acknowledged, and the tree of the session that stopped; or the commit that failed
    /// too, and the tree of the one that was never stopped, of then.
    fn count(&mut self, stop: &Stop, attached: &Attached, unstopped: Unstopped<'_>) -> Result<()> {
        let compared = if attached.records == stop.acknowledged {
            self.without = self.without.saturating_add(1);
            stop.tree.compare(&attached.tree)?
        } else if attached.records == stop.acknowledged.saturating_add(stop.waiting) {
            self.with = self.with.saturating_add(1);
            unstopped.tree(attached.records)?.compare(&attached.tree)?
        } else {
            bail!("an image has another number of records")
        };
        self.nodes = self.nodes.saturating_add(compared);
        Ok(())
    }

    /// What was seen of the images of several disks.
    pub(crate) fn add(&mut self, other: Seen) {
        self.without = self.without.saturating_add(other.without);
        self.with = self.with.saturating_add(other.with);
        self.nodes = self.nodes.saturating_add(other.nodes);
    }
}

/// Looks at the images of a disk whose session stopped there. Each has what was acknowledged, and of the commit that
/// failed all or nothing.
pub(crate) fn look_at_all(
    alloc: Global,
    disk: &MemoryDisk,
    stop: &Stop,
    unstopped: Unstopped<'_>,
    table: &Table,
) -> Result<Seen> {
    let mut seen = Seen::default();
    for choice in 0..IMAGES {
        let image = disk.crash(choice)?;
        let attached = look(alloc, &image, unstopped.payloads, table)?;
        seen.count(stop, &attached, unstopped)?;
    }
    Ok(seen)
}
