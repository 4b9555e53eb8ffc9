//! How much work was spent in the tree of each root, of journals whose bytes are worked out from the format by hand.
use bench_disk::MemoryDisk;
use journal_looks::read_records;
use root_work::work_of_roots;
use std::alloc::Global;
use std::test::Fail;
use strategy_certificate::Oracle;

/// Begin of W:W16,23:B12: a frame of 22 bytes, and a record of 18. The next gate stands at 39.
const BEGUN: [u8; 39] = [
    0x44, 0x52, 0x42, 0x45, 0x4e, 0x43, 0x48, 2, 1, 0, 0, 0, 0, 0, 0, 0, 22, 0, 0, 0, 18, 1, 1, 0,
    0, 8, 0, 0, 0, 0, 0, 0, 0x40, 0x80, 0, 0, 0, 0, 0,
];

/// Expand of its node 0: a frame of 13 bytes, and a record of 9.
const FIRST: [u8; 22] = [
    1, 0, 0, 0, 0, 0, 0, 0, 13, 0, 0, 0, 9, 3, 0, 0, 0, 0, 0, 0, 0, 0,
];

/// Expand of node 1, the first child of node 0.
const SECOND: [u8; 22] = [
    1, 0, 0, 0, 0, 0, 0, 0, 13, 0, 0, 0, 9, 3, 0, 0, 0, 0, 0, 0, 0, 1,
];

/// The work of the first root of a journal of these pieces, behind which a gate is closed; none of a journal that is
/// not read.
fn work(alloc: Global, pieces: &[&[u8]]) -> Result<Option<u64>, Fail> {
    let mut bytes = Vec::new(alloc);
    for piece in pieces {
        bytes.extend_from_slice(piece)?;
    }
    bytes.push(0)?;
    let mut disk = MemoryDisk::of(alloc, bytes)?;
    let Ok(read) = read_records(alloc, &mut disk) else {
        return Ok(None);
    };
    let work = work_of_roots(alloc, &read.bench, read.table.pieces(), &read.payloads)?;
    Ok(work.first().copied())
}

#[test]
fn records_of_a_tree_are_counted(rt: HostRuntime) -> Result<(), Fail> {
    assert_eq!(rt; work(rt.alloc(), &[&BEGUN])?, Some(0));
    assert_eq!(rt; work(rt.alloc(), &[&BEGUN, &FIRST])?, Some(1));
    assert_eq!(rt; work(rt.alloc(), &[&BEGUN, &FIRST, &SECOND])?, Some(2));
    Ok(())
}
