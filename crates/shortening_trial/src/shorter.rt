//! The shorter journal of one, and the report on both.
use crate::tally::Tally;
use anyhow::{Result, bail, ensure};
use bench_disk::MemoryDisk;
use journal_looks::report;
use journal_shortening::{Sizes, compact};
use std::alloc::Global;

/// The bytes of a shorter journal, and the numbers of records.
fn compacted(alloc: Global, journal: &[u8]) -> Result<(Vec<u8>, Sizes)> {
    let mut old = MemoryDisk::of(alloc, journal.to_vec(alloc)?)?;
    match compact(alloc, &mut old, MemoryDisk::new(alloc)) {
        Ok((new, sizes)) => Ok((new.bytes().to_vec(alloc)?, sizes)),
        Err(_) => bail!("a journal is not shortened"),
    }
}

/// The bytes of the shorter journal of one. To shorten that again leaves each of its records.
pub(crate) fn shortened(alloc: Global, journal: &[u8], tally: &mut Tally) -> Result<Vec<u8>> {
    let (new, sizes) = compacted(alloc, journal)?;
    let (_, again) = compacted(alloc, &new)?;
    ensure!(
        again.before == sizes.after && again.after == sizes.after,
        "a shorter journal gets shorter once more"
    );
    tally.before = tally.before.saturating_add(sizes.before);
    tally.after = tally.after.saturating_add(sizes.after);
    Ok(new)
}

/// The report on a journal.
fn reported(alloc: Global, journal: &[u8]) -> Result<Vec<u8>> {
    let mut disk = MemoryDisk::of(alloc, journal.to_vec(alloc)?)?;
    Ok(report(alloc, &mut disk)?.text)
}

/// Both journals have the same report.
pub(crate) fn compare_reports(alloc: Global, old: &[u8], new: &[u8]) -> Result<()> {
    let one = reported(alloc, old)?;
    let other = reported(alloc, new)?;
    ensure!(one.as_slice() == other.as_slice(), "another report");
    Ok(())
}
