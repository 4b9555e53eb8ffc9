//! Runs at what a source and a journal may have at most, and one past it. The limits of options stand in the tests of words.
use crate::runs_of_tests::{NO_FAULTS, Seen, run_bench};
use bench_edges::Status;
use std::alloc::{AllocError, Global};
use std::sync::Wait;
use std::test::Fail;
use std::thread::Threads;
use worker_gate::OpenGate;

/// `solve` without work.
const AT_SIGHT: &[&str] = &["-", "solve", "--budget", "0"];

const TABLE_CHECK: &[&str] = &["-", "table-check"];

/// The start, from which a game without moves has its opening.
const ONE_ROOT: &str =
    "root 1 B:W21,22,23,24,25,26,27,28,29,30,31,32:B1,2,3,4,5,6,7,8,9,10,11,12 unsolved\n\
    roots 1 settled 0 unsolved 1\n";

/// Words, a byte and how often it stands in the source, and what is due.
type Row = (&'static [&'static str], u8, usize, Status, &'static str);

const SOURCES: [Row; 7] = [
    (
        AT_SIGHT,
        b' ',
        16_777_216,
        Status::Done,
        "roots 0 settled 0 unsolved 0\n",
    ),
    (
        AT_SIGHT,
        b' ',
        16_777_217,
        Status::Input,
        "refused input too-long\n",
    ),
    (AT_SIGHT, b'*', 4_096, Status::Unsolved, ONE_ROOT),
    (
        AT_SIGHT,
        b'*',
        4_097,
        Status::Input,
        "refused input pdn too-many-games\n",
    ),
    (
        AT_SIGHT,
        b'(',
        100_000,
        Status::Input,
        "refused input pdn open-variation 0\n",
    ),
    (
        TABLE_CHECK,
        0,
        4_194_304,
        Status::Input,
        "refused input table bad-head\n",
    ),
    (
        TABLE_CHECK,
        0,
        4_194_305,
        Status::Input,
        "refused input too-long\n",
    ),
];

#[test]
fn sources_as_long_as_may_be(rt: HostRuntime) -> Result<(), Fail> {
    let alloc = rt.alloc();
    for (words, byte, count, status, line) in SOURCES {
        let source: Vec<u8> = vec![in alloc; byte; count]?;
        let seen = run_bench(&rt, alloc, words, &source, &[], NO_FAULTS, &OpenGate)?;
        let said = (seen.status, seen.written.as_slice(), seen.left);
        assert!(rt; said == (status, line.as_bytes(), 0), "{words:?} {count}");
    }
    Ok(())
}

/// The record of version 1 that begins a root, behind its length. The number says where kings stand: its lowest eight bits of Black on
/// 1 to 8, the next eight of White on 17 to 24, and one more of White on 10. Kings of Black stand on 31 and 32, one of White on 9.
fn root_numbered(number: u32) -> [u8; 22] {
    let [_, one_more, white, black] = number.to_be_bytes();
    let others = if one_more == 0 { 1 } else { 3 };
    [
        0, 0, 0, 18, 1, 0, 0, 0, 0, 0, 0xc0, 0, 0, black, 0, 0, 0, 0, 0, white, others, 0,
    ]
}

/// The bytes of a journal that begins `count` roots in one frame.
fn journal_of(alloc: Global, count: u32) -> Result<Vec<u8>, AllocError> {
    let mut bytes = b"DRBENCH\x02\x01".to_vec(alloc)?;
    bytes.extend_from_slice(&(count as u64 * 22).to_be_bytes())?;
    for number in 0..count {
        bytes.extend_from_slice(&root_numbered(number))?;
    }
    bytes.push(0)?;
    Ok(bytes)
}

/// A run without work on a journal of `roots` roots.
fn run_on<R: Threads + Wait + Sync>(
    rt: &R,
    alloc: Global,
    roots: u32,
    source: &str,
) -> Result<Seen, Fail> {
    let journal = journal_of(alloc, roots)?;
    run_bench(
        rt,
        alloc,
        AT_SIGHT,
        source.as_bytes(),
        &journal,
        NO_FAULTS,
        &OpenGate,
    )
}

/// The opening that is root 1 of these journals, and one that is no root of the first two.
const OLD: &str = "[FEN \"B:WK9:BK31,K32\"] *";

const NEW: &str = "[FEN \"B:WK9,K10:BK31,K32\"] *";

/// How many roots stand, the source, the status, and the end of what is written. A damaged journal is so at the record of the root
/// that is one too many: 17 bytes and 65,536 records of 22 stand before it.
const JOURNALS: [(u32, &str, Status, &str); 4] = [
    (
        65_535,
        NEW,
        Status::Unsolved,
        "roots 65536 settled 0 unsolved 65536\n",
    ),
    (
        65_536,
        OLD,
        Status::Unsolved,
        "roots 65536 settled 0 unsolved 65536\n",
    ),
    (65_536, NEW, Status::Input, "refused input too-many-roots\n"),
    (
        65_537,
        OLD,
        Status::Journal,
        "refused journal damaged byte 1441809\n",
    ),
];

/// A run that is refused writes its line alone.
fn is_due(seen: &Seen, status: Status, end: &str) -> bool {
    let is_alone = status == Status::Unsolved || seen.written.len() == end.len();
    seen.status == status && is_alone && seen.written.ends_with(end.as_bytes())
}

#[test]
fn journals_of_as_many_roots_as_may_be(rt: HostRuntime) -> Result<(), Fail> {
    for (roots, source, status, end) in JOURNALS {
        let seen = run_on(&rt, rt.alloc(), roots, source)?;
        assert!(rt; is_due(&seen, status, end), "{roots}");
    }
    Ok(())
}
