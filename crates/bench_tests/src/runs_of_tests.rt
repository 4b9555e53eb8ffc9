//! Runs of `bench` with the objects in memory, each on the disk that the run before it left, and
//! what is due of each.
//!
//! Each function here is proved too, and dearly while it holds an object or a clause of `bench`: so
//! one function runs `bench`, and the tests are lists of runs.
use bench_commands::bench;
use bench_disk::{Disk, FaultDisk, MemoryDisk};
use bench_edges::{MemorySink, MemorySource, Status};
use std::alloc::Global;
use std::process::Abort;
use std::sync::Wait;
use std::test::Fail;
use std::thread::Threads;
use worker_gate::{Gate, OpenGate};

/// What the objects of a run do: the numbers, from 0 on, of the reads, the writes and the calls of
/// the disk that fail, and whether each read and each write moves one byte at most.
#[derive(Clone, Copy)]
pub(crate) struct Faults<'a> {
    pub(crate) reads: &'a [u64],
    pub(crate) writes: &'a [u64],
    pub(crate) disk: &'a [u64],
    pub(crate) is_slow: bool,
}

/// Nothing fails, and reads and writes move all they may.
pub(crate) const NO_FAULTS: Faults<'static> = Faults {
    reads: &[],
    writes: &[],
    disk: &[],
    is_slow: false,
};

/// What is due of the disk's bytes behind a run.
#[derive(Clone, Copy)]
pub(crate) enum Leaves {
    /// They are not looked at.
    Anything,
    /// They are those of before.
    Same,
    /// They are these.
    Bytes(&'static [u8]),
    /// They begin with these.
    Front(&'static [u8]),
}

/// A run, and what is due of it.
#[derive(Clone, Copy)]
pub(crate) struct Run {
    pub(crate) words: &'static [&'static str],
    pub(crate) source: &'static str,
    pub(crate) faults: Faults<'static>,
    pub(crate) status: Status,
    pub(crate) written: &'static str,
    /// How many bytes of the source are not read.
    pub(crate) left: usize,
    pub(crate) leaves: Leaves,
}

/// A run over no source that writes nothing, for the fields that a run does not name.
pub(crate) const RUN: Run = Run {
    words: &[],
    source: "",
    faults: NO_FAULTS,
    status: Status::Done,
    written: "",
    left: 0,
    leaves: Leaves::Anything,
};

/// What a run came to.
#[derive(Drop)]
pub(crate) struct Seen {
    pub(crate) status: Status,
    pub(crate) written: Vec<u8>,
    /// How many bytes of the source are not read.
    pub(crate) left: usize,
    /// The bytes of the disk.
    pub(crate) disk: Vec<u8>,
}

/// Runs `bench` on a disk of these bytes.
pub(crate) fn run_bench<R: Threads + Wait + Sync, G: Gate + Sync>(
    rt: &R,
    alloc: Global,
    words: &[&str],
    source: &[u8],
    disk: &[u8],
    faults: Faults<'_>,
    gate: &G,
) -> Result<Seen, Fail> {
    let mut source = MemorySource::new(source.to_vec(alloc)?, faults.reads.to_vec(alloc)?);
    let mut sink = MemorySink::new(alloc, faults.writes.to_vec(alloc)?);
    if faults.is_slow {
        source = source.at_most(1);
        sink = sink.at_most(1);
    }
    let disk = MemoryDisk::of(alloc, disk.to_vec(alloc)?)?;
    let disk = FaultDisk::new(disk, faults.disk.to_vec(alloc)?);
    let (status, disk) = bench(rt, alloc, words, &mut source, &mut sink, disk, gate);
    Ok(Seen {
        status,
        written: sink.bytes().to_vec(alloc)?,
        left: source.left().len(),
        disk: disk.into_inner().bytes().to_vec(alloc)?,
    })
}

/// The bytes that are due of the disk behind a run, on a disk that had these bytes before it and
/// those behind it.
fn due<'a>(leaves: Leaves, before: &'a [u8], behind: &'a [u8]) -> &'a [u8] {
    match leaves {
        Leaves::Anything => behind,
        Leaves::Same => before,
        Leaves::Bytes(bytes) => bytes,
        Leaves::Front(bytes) => match behind.starts_with(bytes) {
            true => behind,
            false => bytes,
        },
    }
}

/// Compares what a run came to with what is due of it, on a disk that had these bytes.
fn compare(rt: &impl Abort, seen: &Seen, run: &Run, held: &[u8]) {
    let words = run.words;
    let disk = seen.disk.as_slice();
    assert_eq!(rt;
        seen.written.as_slice(),
        run.written.as_bytes(),
        "{words:?}"
    );
    assert_eq!(rt;
        (seen.status, seen.left),
        (run.status, run.left),
        "{words:?}"
    );
    assert_eq!(rt; disk, due(run.leaves, held, disk), "{words:?}");
}

/// Runs on a disk of these bytes, compares what the run comes to, and gives the bytes of the disk
/// behind it.
fn expect_run<R: Abort + Threads + Wait + Sync>(
    rt: &R,
    alloc: Global,
    disk: &[u8],
    run: &Run,
) -> Result<Vec<u8>, Fail> {
    let source = run.source.as_bytes();
    let seen = run_bench(rt, alloc, run.words, source, disk, run.faults, &OpenGate)?;
    compare(rt, &seen, run, disk);
    Ok(seen.disk)
}

/// Does these runs, one after the other, the first on a disk of these bytes, compares what each comes
/// to, and gives the bytes of the disk behind the last.
pub(crate) fn expect_runs<R: Abort + Threads + Wait + Sync>(
    rt: &R,
    alloc: Global,
    disk: &[u8],
    runs: &[Run],
) -> Result<Vec<u8>, Fail> {
    let mut disk = disk.to_vec(alloc)?;
    for run in runs {
        disk = expect_run(rt, alloc, &disk, run)?;
    }
    Ok(disk)
}
