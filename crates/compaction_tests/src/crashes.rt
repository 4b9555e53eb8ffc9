//! What a crash leaves of a shorter journal where the making of it is stopped: no record, or all.
//!
//! At each stop these images are looked at: those that a crash's choices pick; those with the first
//! bytes alone that were written, or with the last alone, for each number of bytes; and those with
//! each other value in one byte that was written. While the gate is being opened this one byte is
//! pending, so there these are all images that the disk can leave.
//!
//! Each function here is proved too, and dearly while it holds a disk: so a run answers plain bytes,
//! and the tests look at those.
use crate::compactions::{EXPANDED, MIXED, reported};
use bench_disk::{FuseDisk, MemoryDisk};
use disk_journal::read_journal;
use journal_shortening::{Chosen, choose, compact};
use std::alloc::{AllocError, Global};
use std::process::Abort;
use std::test::Fail;

/// A journal that is made shorter.
struct Run {
    from: &'static [u8],
    /// What stands on the new disk before.
    into: &'static [u8],
    /// How many records the shorter one has.
    records: usize,
    /// The report on both.
    report: &'static str,
}

/// One root, which is settled.
const EXPANDED_RUN: Run = Run {
    from: &EXPANDED,
    into: &[],
    records: 2,
    report: "root 1 W:W25:B10,17 black-wins\nroots 1 settled 1 unsolved 0\n",
};

/// A settled root and an unsettled one, over bytes that are as good as none.
const MIXED_RUN: Run = Run {
    from: &MIXED,
    into: b"hello wor",
    records: 5,
    report: "root 1 W:W16,23:B12 white-wins\nroot 2 W:W25:B10,17 unsolved\n\
        roots 2 settled 1 unsolved 1\n",
};

/// The report on no root.
const NO_ROOTS: &str = "roots 0 settled 0 unsolved 0\n";

/// The calls of the new disk: one that measures it, and four each for `attach` and `commit`.
const CALLS: u64 = 9;

/// From this number of calls on the gate is written.
const OPENED: u64 = 8;

/// How many choices pick an image of each disk.
const CHOICES: u64 = 8;

/// What is left of the new disk behind a run.
#[derive(Drop)]
struct Left {
    is_stopped: bool,
    /// The old journal has the bytes of before.
    is_kept: bool,
    /// The bytes without the writes that are pending.
    lost: Vec<u8>,
    /// .. and with all of them.
    whole: Vec<u8>,
    /// The images that choices pick, each once.
    picked: Vec<Vec<u8>>,
}

/// The bytes of the image that this choice picks.
fn image(alloc: Global, disk: &MemoryDisk, choice: u64) -> Result<Vec<u8>, AllocError> {
    disk.crash(choice)?.bytes().to_vec(alloc)
}

/// The images that choices pick, each once.
fn picked_of(alloc: Global, disk: &MemoryDisk) -> Result<Vec<Vec<u8>>, AllocError> {
    let mut picked: Vec<Vec<u8>> = Vec::new(alloc);
    for choice in 0..CHOICES {
        let bytes = image(alloc, disk, choice)?;
        if !picked.contains(&bytes) {
            picked.push(bytes)?;
        }
    }
    Ok(picked)
}

/// What a run leaves on a new disk that passes this number of calls.
fn left_by(alloc: Global, run: &Run, calls: u64) -> Result<Left, AllocError> {
    let mut old = MemoryDisk::of(alloc, run.from.to_vec(alloc)?)?;
    let new = MemoryDisk::of(alloc, run.into.to_vec(alloc)?)?;
    let (new, is_stopped) = match compact(alloc, &mut old, FuseDisk::new(new, calls)) {
        Ok((new, _)) => (new.into_inner(), false),
        Err((new, _)) => (new.into_inner(), true),
    };
    Ok(Left {
        is_stopped,
        is_kept: old.bytes() == run.from,
        lost: image(alloc, &new, 0)?,
        whole: image(alloc, &new, 1)?,
        picked: picked_of(alloc, &new)?,
    })
}

/// The payloads of a journal of these bytes; nothing where it is refused.
fn payloads_of(alloc: Global, bytes: &[u8]) -> Result<Option<Vec<Vec<u8>>>, AllocError> {
    let mut disk = MemoryDisk::of(alloc, bytes.to_vec(alloc)?)?;
    let Ok((_, payloads)) = read_journal(alloc, &mut disk) else {
        return Ok(None);
    };
    let mut texts = Vec::new(alloc);
    for payload in payloads {
        texts.push(payload.bytes)?;
    }
    Ok(Some(texts))
}

/// Which journal counts where the new one has these bytes; nothing where that is refused.
fn chosen(alloc: Global, bytes: &[u8]) -> Result<Option<Chosen>, AllocError> {
    let mut old = MemoryDisk::new(alloc);
    let mut new = MemoryDisk::of(alloc, bytes.to_vec(alloc)?)?;
    Ok(choose(alloc, &mut old, &mut new).ok())
}

/// Which journal counts where the new one has these bytes, and these read as no record where that is
/// the old one, and as all of these where it is the new one; nothing where they read as anything else.
fn read_as(alloc: Global, bytes: &[u8], all: &[Vec<u8>]) -> Result<Option<Chosen>, AllocError> {
    let counts = chosen(alloc, bytes)?;
    let Some(read) = payloads_of(alloc, bytes)? else {
        return Ok(None);
    };
    let due = if counts == Some(Chosen::Old) {
        &all[..0]
    } else {
        all
    };
    Ok(if read.as_slice() == due { counts } else { None })
}

/// How many images read as no record, how many as all records, and how many as anything else.
#[derive(Clone, Copy, Default)]
struct Found {
    none: u64,
    all: u64,
    others: u64,
}

impl Found {
    /// Counts an image of these bytes, by what all records are.
    fn count(&mut self, alloc: Global, bytes: &[u8], all: &[Vec<u8>]) -> Result<(), AllocError> {
        match read_as(alloc, bytes, all)? {
            Some(Chosen::Old) => self.none = self.none.saturating_add(1),
            Some(Chosen::New) => self.all = self.all.saturating_add(1),
            None => self.others = self.others.saturating_add(1),
        }
        Ok(())
    }

    /// Counts these images.
    fn count_each(
        &mut self,
        alloc: Global,
        images: &[Vec<u8>],
        all: &[Vec<u8>],
    ) -> Result<(), AllocError> {
        for bytes in images {
            self.count(alloc, bytes, all)?;
        }
        Ok(())
    }
}

/// The bytes of the one text before this place, with zeros where it ends before, and those of the
/// other from there on.
fn joined(alloc: Global, one: &[u8], other: &[u8], place: usize) -> Result<Vec<u8>, AllocError> {
    let mut bytes = one[..place.min(one.len())].to_vec(alloc)?;
    if place < other.len() {
        bytes.resize(place, 0)?;
        bytes.extend_from_slice(&other[place..])?;
    }
    Ok(bytes)
}

/// The images with the first bytes alone that were written, and with the last.
fn cut_images(alloc: Global, left: &Left) -> Result<Vec<Vec<u8>>, AllocError> {
    let mut images = Vec::new(alloc);
    for place in 0..=left.whole.len() {
        images.push(joined(alloc, &left.whole, &left.lost, place)?)?;
        images.push(joined(alloc, &left.lost, &left.whole, place)?)?;
    }
    Ok(images)
}

/// The images with all that was written, but for this byte: it has each value once.
fn changed_images(alloc: Global, left: &Left, place: usize) -> Result<Vec<Vec<u8>>, AllocError> {
    let mut images = Vec::new(alloc);
    for value in 0..=255u8 {
        let mut bytes = left.whole.to_vec(alloc)?;
        if let Some(byte) = bytes.get_mut(place) {
            *byte = value;
        }
        images.push(bytes)?;
    }
    Ok(images)
}

/// The places of the bytes that were written and are pending.
fn pending_places(alloc: Global, left: &Left) -> Result<Vec<usize>, AllocError> {
    let mut places = Vec::new(alloc);
    for place in 0..left.whole.len() {
        if left.lost.get(place) != left.whole.get(place) {
            places.push(place)?;
        }
    }
    Ok(places)
}

/// Counts all images of what is left.
fn found_in(alloc: Global, left: &Left, all: &[Vec<u8>]) -> Result<Found, AllocError> {
    let mut found = Found::default();
    found.count_each(alloc, &left.picked, all)?;
    found.count_each(alloc, &cut_images(alloc, left)?, all)?;
    for place in &pending_places(alloc, left)? {
        found.count_each(alloc, &changed_images(alloc, left, *place)?, all)?;
    }
    Ok(found)
}

/// Whether the report on a disk of these bytes is on no root, where the old journal counts, or this
/// one, where the new one does.
fn is_reported(alloc: Global, bytes: &[u8], report: &str) -> Result<bool, AllocError> {
    let due = match chosen(alloc, bytes)? {
        Some(Chosen::Old) => NO_ROOTS,
        Some(Chosen::New) => report,
        None => return Ok(false),
    };
    let mut disk = MemoryDisk::of(alloc, bytes.to_vec(alloc)?)?;
    match reported(alloc, &mut disk) {
        Some(text) => Ok(text.as_slice() == due.as_bytes()),
        None => Ok(false),
    }
}

/// Whether the report on each of these images is as it is due.
fn are_reported(alloc: Global, images: &[Vec<u8>], report: &str) -> Result<bool, AllocError> {
    for bytes in images {
        if !is_reported(alloc, bytes, report)? {
            return Ok(false);
        }
    }
    Ok(true)
}

/// Whether the reports on what is left are as they are due: where one byte is pending, on all images
/// that there are, and else on those that choices pick, since a report fills a table.
fn is_due(alloc: Global, left: &Left, report: &str) -> Result<bool, AllocError> {
    match pending_places(alloc, left)?.as_slice() {
        [place] => are_reported(alloc, &changed_images(alloc, left, *place)?, report),
        _ => are_reported(alloc, &left.picked, report),
    }
}

/// All payloads of the shorter journal, where nothing stops the run.
fn all_of(alloc: Global, run: &Run) -> Result<Vec<Vec<u8>>, AllocError> {
    let left = left_by(alloc, run, CALLS)?;
    match payloads_of(alloc, &left.whole)? {
        Some(all) => Ok(all),
        None => Ok(Vec::new(alloc)),
    }
}

/// Looks at each image that is left where the new disk passes this number of calls.
fn stop_at(
    rt: &impl Abort,
    alloc: Global,
    run: &Run,
    all: &[Vec<u8>],
    calls: u64,
) -> Result<(), Fail> {
    let left = left_by(alloc, run, calls)?;
    assert_eq!(rt;
        (left.is_stopped, left.is_kept),
        (calls < CALLS, true),
        "{calls} calls"
    );
    let found = found_in(alloc, &left, all)?;
    assert_eq!(rt;
        (found.none > 0, found.all > 0, found.others),
        (calls < CALLS, calls >= OPENED, 0),
        "{calls} calls"
    );
    assert!(rt; is_due(alloc, &left, run.report)?, "{calls} calls");
    Ok(())
}

/// Stops a run at each call of the new disk, and at none.
fn stop_at_each(rt: &impl Abort, alloc: Global, run: &Run) -> Result<(), Fail> {
    let all = all_of(alloc, run)?;
    assert_eq!(rt; all.len(), run.records);
    for calls in 0..=CALLS {
        stop_at(rt, alloc, run, &all, calls)?;
    }
    Ok(())
}

#[test]
fn leaves_none_or_two_records_where_it_is_stopped(rt: HostRuntime) -> Result<(), Fail> {
    stop_at_each(&rt, rt.alloc(), &EXPANDED_RUN)
}

#[test]
fn leaves_none_or_all_of_two_roots_where_it_is_stopped(rt: HostRuntime) -> Result<(), Fail> {
    stop_at_each(&rt, rt.alloc(), &MIXED_RUN)
}
