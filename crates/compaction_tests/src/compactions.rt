//! Journals whose bytes are worked out from the format by hand, and what a shorter one keeps.
//!
//! Each function here is proved too, and dearly while it holds a disk: so a run answers plain values,
//! and the tests compare those.
use bench_disk::MemoryDisk;
use journal_looks::report;
use journal_shortening::{Chosen, CompactRefusal, Sizes, choose, compact};
use std::alloc::{AllocError, Global};
use std::test::Fail;

/// Begin of W:W25:B10,17, and Expand of it and of the nodes after 25-21 and 25-22, each committed for
/// itself. Positions have numbers.
pub(crate) const EXPANDED: [u8; 110] = [
    0x44, 0x52, 0x42, 0x45, 0x4e, 0x43, 0x48, 2, 1, 0, 0, 0, 0, 0, 0, 0, 26, 0, 0, 0, 22, 4, 0, 0,
    0, 0, 1, 0, 1, 2, 0, 0, 0, 0, 0, 1, 0, 0, 0, 0, 0, 0, 0, 1, 0, 0, 0, 0, 0, 0, 0, 13, 0, 0, 0,
    9, 3, 0, 0, 0, 0, 0, 0, 0, 0, 1, 0, 0, 0, 0, 0, 0, 0, 13, 0, 0, 0, 9, 3, 0, 0, 0, 0, 0, 0, 0,
    1, 1, 0, 0, 0, 0, 0, 0, 0, 13, 0, 0, 0, 9, 3, 0, 0, 0, 0, 0, 0, 0, 2, 0,
];

/// Begin of W:W16,23:B12, which has no value yet.
const UNSOLVED: [u8; 40] = [
    0x44, 0x52, 0x42, 0x45, 0x4e, 0x43, 0x48, 2, 1, 0, 0, 0, 0, 0, 0, 0, 22, 0, 0, 0, 18, 1, 1, 0,
    0, 8, 0, 0, 0, 0, 0, 0, 0x40, 0x80, 0, 0, 0, 0, 0, 0,
];

/// In one frame: Begin of W:W16,23:B12 and of W:W25:B10,17, nodes 0 and 1, and Expand of both. The
/// first has the children 2 to 4, and White wins at sight after 23-19. The second has the children 5
/// and 6, after 25-21 and 25-22. Expand of node 5, behind which the second root has no value yet.
pub(crate) const MIXED: [u8; 109] = [
    0x44, 0x52, 0x42, 0x45, 0x4e, 0x43, 0x48, 2, 1, 0, 0, 0, 0, 0, 0, 0, 91, 0, 0, 0, 22, 4, 0, 0,
    0, 0, 1, 0, 0, 8, 0, 0, 0, 0, 0, 0, 64, 128, 0, 0, 0, 0, 0, 0, 0, 0, 22, 4, 0, 0, 0, 1, 1, 0,
    1, 2, 0, 0, 0, 0, 0, 1, 0, 0, 0, 0, 0, 0, 0, 0, 0, 0, 9, 3, 0, 0, 0, 0, 0, 0, 0, 0, 0, 0, 0, 9,
    3, 0, 0, 0, 0, 0, 0, 0, 1, 0, 0, 0, 9, 3, 0, 0, 0, 0, 0, 0, 0, 5, 0,
];

/// What stands for it: Begin of the first, Solve of node 0; Begin of the second, whose position has
/// number 2; Expand of node 1, and of node 2, which was node 5. The entries of the Solve stand from
/// the last step of the strategy to the first, with ranks from 2^32 on: B:W16,19:B12, which is new
/// and gets number 1, and then number 0, W:W16,23:B12, with 23-19.
const SHORT: [u8; 164] = [
    0x44, 0x52, 0x42, 0x45, 0x4e, 0x43, 0x48, 2, 1, 0, 0, 0, 0, 0, 0, 0, 146, 0, 0, 0, 22, 4, 0, 0,
    0, 0, 1, 0, 0, 8, 0, 0, 0, 0, 0, 0, 64, 128, 0, 0, 0, 0, 0, 0, 0, 0, 64, 5, 0, 0, 0, 0, 0, 0,
    0, 0, 0, 0, 0, 0, 1, 2, 0, 0, 0, 2, 0, 0, 0, 1, 0, 0, 0, 8, 0, 0, 0, 0, 0, 0, 4, 128, 0, 0, 0,
    0, 0, 0, 0, 0, 1, 0, 0, 0, 0, 0, 0, 0, 0, 0, 0, 0, 0, 1, 0, 0, 0, 1, 2, 23, 19, 0, 0, 0, 22, 4,
    0, 0, 0, 2, 1, 0, 1, 2, 0, 0, 0, 0, 0, 1, 0, 0, 0, 0, 0, 0, 0, 0, 0, 0, 9, 3, 0, 0, 0, 0, 0, 0,
    0, 1, 0, 0, 0, 9, 3, 0, 0, 0, 0, 0, 0, 0, 2, 0,
];

/// Begin of B:W16,19:B12, in which Black is blocked.
const BLOCKED: [u8; 40] = [
    0x44, 0x52, 0x42, 0x45, 0x4e, 0x43, 0x48, 2, 1, 0, 0, 0, 0, 0, 0, 0, 22, 0, 0, 0, 18, 1, 0, 0,
    0, 8, 0, 0, 0, 0, 0, 0, 4, 0x80, 0, 0, 0, 0, 0, 0,
];

/// A head and an open gate, and behind that no frame: a damaged journal.
const CUT: &[u8] = b"DRBENCH\x02\x01\0\0";

/// What a run comes to: the numbers of roots and records, or why it is refused; whether the old journal
/// stays; and whether the report is the same of both.
type Came = (Result<Sizes, CompactRefusal>, bool, bool);

/// What the report on a disk is.
pub(crate) fn reported(alloc: Global, disk: &mut MemoryDisk) -> Option<Vec<u8>> {
    match report(alloc, disk) {
        Ok(written) => Some(written.text),
        Err(_) => None,
    }
}

/// Whether two disks have this report.
fn have_report(alloc: Global, one: &mut MemoryDisk, other: &mut MemoryDisk, text: &str) -> bool {
    match (reported(alloc, one), reported(alloc, other)) {
        (Some(one), Some(other)) => {
            one.as_slice() == text.as_bytes() && other.as_slice() == text.as_bytes()
        }
        _ => false,
    }
}

/// Makes a journal of these bytes shorter, on a fresh disk, where both have this report.
fn compacted(alloc: Global, from: &[u8], text: &str) -> Result<Came, AllocError> {
    let mut old = MemoryDisk::of(alloc, from.to_vec(alloc)?)?;
    match compact(alloc, &mut old, MemoryDisk::new(alloc)) {
        Ok((mut new, sizes)) => {
            let same = have_report(alloc, &mut old, &mut new, text);
            Ok((Ok(sizes), old.bytes() == from, same))
        }
        Err((new, refusal)) => Ok((Err(refusal), old.bytes() == from, new.bytes().is_empty())),
    }
}

/// Journals, the report on each and on the shorter one, and the sizes.
const COMPACTED: [(&[u8], &str, Sizes); 5] = [
    (
        &[],
        "roots 0 settled 0 unsolved 0\n",
        Sizes {
            roots: 0,
            before: 0,
            after: 0,
        },
    ),
    (
        &EXPANDED,
        "root 1 W:W25:B10,17 black-wins\nroots 1 settled 1 unsolved 0\n",
        Sizes {
            roots: 1,
            before: 4,
            after: 2,
        },
    ),
    (
        &UNSOLVED,
        "root 1 W:W16,23:B12 unsolved\nroots 1 settled 0 unsolved 1\n",
        Sizes {
            roots: 1,
            before: 1,
            after: 1,
        },
    ),
    (
        &BLOCKED,
        "root 1 B:W16,19:B12 white-wins\nroots 1 settled 1 unsolved 0\n",
        Sizes {
            roots: 1,
            before: 1,
            after: 1,
        },
    ),
    (
        &MIXED,
        "root 1 W:W16,23:B12 white-wins\nroot 2 W:W25:B10,17 unsolved\nroots 2 settled 1 unsolved 1\n",
        Sizes {
            roots: 2,
            before: 5,
            after: 5,
        },
    ),
];

#[test]
fn keeps_roots_and_values(rt: HostRuntime) -> Result<(), Fail> {
    for (from, text, due) in COMPACTED {
        assert_eq!(rt;
            compacted(rt.alloc(), from, text)?,
            (Ok(due), true, true),
            "{text}"
        );
    }
    Ok(())
}

/// Bytes that are no journal, and why.
const UNREAD: [(&[u8], CompactRefusal); 2] = [
    (b"hello worl", CompactRefusal::NotAJournal),
    (CUT, CompactRefusal::Damaged(8)),
];

#[test]
fn refuses_what_is_no_journal(rt: HostRuntime) -> Result<(), Fail> {
    for (from, refusal) in UNREAD {
        assert_eq!(rt;
            compacted(rt.alloc(), from, "")?,
            (Err(refusal), true, true)
        );
    }
    Ok(())
}

/// The bytes of the new disk behind a run, where it had these, or why the run is refused and whether
/// they stay.
fn written(
    alloc: Global,
    from: &[u8],
    into: &[u8],
) -> Result<Result<Vec<u8>, (CompactRefusal, bool)>, AllocError> {
    let mut old = MemoryDisk::of(alloc, from.to_vec(alloc)?)?;
    let new = MemoryDisk::of(alloc, into.to_vec(alloc)?)?;
    match compact(alloc, &mut old, new) {
        Ok((new, _)) => Ok(Ok(new.bytes().to_vec(alloc)?)),
        Err((new, refusal)) => Ok(Err((refusal, new.bytes() == into))),
    }
}

#[test]
fn writes_the_records_that_stand_for_others(rt: HostRuntime) -> Result<(), Fail> {
    assert_eq!(rt;
        written(rt.alloc(), &MIXED, b"hello wor")?,
        Ok(SHORT.to_vec(rt.alloc())?)
    );
    assert_eq!(rt;
        written(rt.alloc(), &MIXED, b"hello worl")?,
        Err((CompactRefusal::NotFresh(10), true))
    );
    assert_eq!(rt;
        written(rt.alloc(), b"hello worl", b"hello worl")?,
        Err((CompactRefusal::NotAJournal, true))
    );
    Ok(())
}

/// Which journal counts where the new one has these bytes.
fn chosen(alloc: Global, into: &[u8]) -> Result<Result<Chosen, CompactRefusal>, AllocError> {
    let mut old = MemoryDisk::new(alloc);
    let mut new = MemoryDisk::of(alloc, into.to_vec(alloc)?)?;
    Ok(choose(alloc, &mut old, &mut new))
}

/// Bytes of the new journal, and which journal counts.
const CHOSEN: [(&[u8], Result<Chosen, CompactRefusal>); 5] = [
    (&[], Ok(Chosen::Old)),
    (b"DRBENCH\x02\0\x05\x06", Ok(Chosen::Old)),
    (&UNSOLVED, Ok(Chosen::New)),
    (b"hello worl", Err(CompactRefusal::NotAJournal)),
    (CUT, Err(CompactRefusal::Damaged(8))),
];

#[test]
fn chooses_the_new_journal_where_it_has_a_payload(rt: HostRuntime) -> Result<(), Fail> {
    for (into, due) in CHOSEN {
        assert_eq!(rt; chosen(rt.alloc(), into)?, due);
    }
    Ok(())
}
