//! Runs of `play` with the objects in memory, on a journal whose bytes were worked out from the format
//! by hand, and what is due of each by the rules of play and the manual.
use crate::running::play;
use bench_disk::MemoryDisk;
use bench_edges::{MemorySink, MemorySource, Status};
use std::alloc::Global;
use std::test::Fail;

/// Begin of B:W25:B10,13, and Solve of it by a Black win part of six entries, in one frame.
const WON: [u8; 238] = [
    68, 82, 66, 69, 78, 67, 72, 2, 1, 0, 0, 0, 0, 0, 0, 0, 0xdc, 0, 0, 0, 18, 1, 0, 0, 0, 18, 0, 0,
    0, 0, 0, 1, 0, 0, 0, 0, 0, 0, 0, 0, 0, 0, 0xc2, 2, 0, 0, 0, 0, 0, 0, 0, 0, 0, 0, 0, 18, 0, 0,
    0, 0, 0, 1, 0, 0, 0, 0, 0, 0, 0, 1, 1, 0, 0, 0, 6, 0, 0, 0, 18, 0, 0, 0, 0, 0, 1, 0, 0, 0, 0,
    0, 0, 0, 0, 0, 0, 0, 0, 0, 0, 3, 2, 13, 17, 1, 0, 1, 2, 0, 0, 0, 0, 0, 1, 0, 0, 0, 0, 0, 0, 0,
    0, 0, 0, 0, 0, 0, 0, 2, 0, 0, 0, 1, 2, 0, 0, 0, 0, 0, 0, 16, 0, 0, 0, 0, 0, 0, 0, 0, 0, 0, 0,
    0, 0, 1, 2, 10, 14, 1, 0, 1, 32, 0, 0, 0, 0, 0, 0, 16, 0, 0, 0, 0, 0, 0, 0, 0, 0, 0, 0, 0, 0,
    0, 0, 0, 0, 1, 2, 0, 0, 0, 0, 0, 0, 32, 0, 0, 0, 0, 0, 0, 0, 0, 0, 0, 0, 0, 0, 1, 2, 17, 26, 1,
    2, 0, 2, 0, 0, 0, 0, 0, 0, 0, 0, 0, 0, 0, 0, 0, 0, 0, 0, 0, 0, 0, 0, 0, 0, 0,
];

/// The side that is played, the source, and what is due: the status, and what is written.
type Row = (&'static str, &'static str, Status, &'static str);

const ROWS: [Row; 6] = [
    (
        "black",
        "25-21\n",
        Status::Done,
        "position B:W25:B10,13\nmove 13-17\nmove 10-14\nwon\n",
    ),
    (
        "black",
        "25-22",
        Status::Done,
        "position B:W25:B10,13\nmove 13-17\nmove 17x26\nwon\n",
    ),
    (
        "black",
        "",
        Status::Done,
        "position B:W25:B10,13\nmove 13-17\nopen W:W25:B10,17\n",
    ),
    (
        "black",
        "25-29\n",
        Status::Input,
        "refused input line 1 illegal\n",
    ),
    (
        "black",
        "25-21\n25-22\n",
        Status::Input,
        "refused input line 2 after-end\n",
    ),
    ("white", "", Status::Input, "refused input not-held white\n"),
];

/// How a play of this side against this source ended, whether this was written, and whether the
/// journal's bytes stayed.
fn played(
    alloc: Global,
    side: &str,
    source: &str,
    due: &str,
) -> Result<(Status, bool, bool), Fail> {
    let mut source = MemorySource::new(source.as_bytes().to_vec(alloc)?, Vec::new(alloc));
    let mut sink = MemorySink::new(alloc, Vec::new(alloc));
    let disk = MemoryDisk::of(alloc, WON.to_vec(alloc)?)?;
    let (status, disk) = play(alloc, &["P", "1", side], &mut source, &mut sink, disk);
    Ok((
        status,
        sink.bytes() == due.as_bytes(),
        disk.bytes() == WON.as_slice(),
    ))
}

#[test]
fn plays_by_the_certificate(rt: HostRuntime) -> Result<(), Fail> {
    for (side, source, status, due) in ROWS {
        let found = played(rt.alloc(), side, source, due)?;
        assert_eq!(rt; found, (status, true, true), "{} {}", side, source);
    }
    Ok(())
}
