//! What a run hands back to its source.
use bench_commands::bench;
use bench_disk::MemoryDisk;
use bench_edges::{MemorySink, MemorySource};
use program_edges::KeepingSource;
use std::alloc::Global;
use std::sync::Wait;
use std::test::Fail;
use std::thread::Threads;
use worker_gate::OpenGate;

/// Words, and what a run by them hands back of the source `*`. The source's second read fails, where
/// that is said.
const HANDED_BACK: [(&[&str], bool, &[u8]); 4] = [
    // Openings are read of it, and it is no certificate.
    (&["-", "solve", "--budget", "0"], false, b"*"),
    (&["-", "verify"], false, b"*"),
    // A source that fails is not read to its end, and `report` reads none.
    (&["-", "solve", "--budget", "0"], true, b""),
    (&["-", "report"], false, b""),
];

/// What a run hands back of the source `*`, whose second read fails or does not.
fn handed_back<R: Threads + Wait + Sync>(
    rt: &R,
    alloc: Global,
    words: &[&str],
    fails: bool,
) -> Result<Vec<u8>, Fail> {
    let failing: &[u64] = if fails { &[1] } else { &[] };
    let source = MemorySource::new(b"*".to_vec(alloc)?, failing.to_vec(alloc)?);
    let mut source = KeepingSource::new(source);
    let mut sink = MemorySink::new(alloc, Vec::new(alloc));
    let disk = MemoryDisk::new(alloc);
    bench(rt, alloc, words, &mut source, &mut sink, disk, &OpenGate);
    Ok(source.kept().to_vec(alloc)?)
}

#[test]
fn what_was_read_comes_back(rt: HostRuntime) -> Result<(), Fail> {
    for (words, fails, due) in HANDED_BACK {
        let found = handed_back(&rt, rt.alloc(), words, fails)?;
        assert_eq!(rt; found.as_slice(), due);
    }
    Ok(())
}
