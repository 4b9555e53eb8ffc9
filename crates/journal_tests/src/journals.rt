//! Journals on disks in memory and on files. Places and bytes are worked out from the format by
//! hand.
//!
//! Each function here is proved too, and dearly while it holds a journal. So a few functions, over
//! any disk, lead a journal and answer plain values, and the tests compare those.
use bench_disk::{Disk, FaultDisk, FileDisk, Fuse, FuseDisk, MemoryDisk, ShortDisk};
use disk_journal::{Journal, JournalRefusal, Payload, read_journal};
use std::alloc::{AllocError, Global};
use std::fs;
use std::process::Abort;
use std::test::Fail;

/// The payloads 01 and 02, committed one by one, for tables of two pieces. The gates stand at 8, 22
/// and 36.
const TWO: [u8; 37] = [
    0x44, 0x52, 0x42, 0x45, 0x4e, 0x43, 0x48, 2, 1, 0, 0, 0, 0, 0, 0, 0, 5, 0, 0, 0, 1, 0x01, 1, 0,
    0, 0, 0, 0, 0, 0, 5, 0, 0, 0, 1, 0x02, 0,
];

/// The payloads 01, 02 and 03, committed at once. The gates stand at 8 and 32.
const THREE: [u8; 33] = [
    0x44, 0x52, 0x42, 0x45, 0x4e, 0x43, 0x48, 2, 1, 0, 0, 0, 0, 0, 0, 0, 15, 0, 0, 0, 1, 0x01, 0,
    0, 0, 1, 0x02, 0, 0, 0, 1, 0x03, 0,
];

/// Those, and then the payload 04. The gates stand at 8, 32 and 46.
const FOUR: [u8; 47] = [
    0x44, 0x52, 0x42, 0x45, 0x4e, 0x43, 0x48, 2, 1, 0, 0, 0, 0, 0, 0, 0, 15, 0, 0, 0, 1, 0x01, 0,
    0, 0, 1, 0x02, 0, 0, 0, 1, 0x03, 1, 0, 0, 0, 0, 0, 0, 0, 5, 0, 0, 0, 1, 0x04, 0,
];

/// Five payloads, of 1, 1, 2, 1 and 3 bytes, for tables of three pieces: one in the frame at 8,
/// three in that at 22, one in that at 47. The closed gate stands at 63.
const FIVE: [u8; 64] = [
    0x44, 0x52, 0x42, 0x45, 0x4e, 0x43, 0x48, 3, 1, 0, 0, 0, 0, 0, 0, 0, 5, 0, 0, 0, 1, 0xaa, 1, 0,
    0, 0, 0, 0, 0, 0, 16, 0, 0, 0, 1, 0xb1, 0, 0, 0, 2, 0xc1, 0xc2, 0, 0, 0, 1, 0xd1, 1, 0, 0, 0,
    0, 0, 0, 0, 7, 0, 0, 0, 3, 0xe1, 0xe2, 0xe3, 0,
];

/// A payload that is staged, or, where there is none, that the one staged last is dropped.
type Step = Option<&'static [u8]>;

/// What a commit told: how many payloads were staged; the number of the receipt, if there is one,
/// and how many calls of the disk it took; how many payloads are then staged and committed.
type Told = (usize, Option<(u64, u64)>, usize, u64);

/// The journal on this disk, or the disk again and why there is none.
fn attach<D: Disk + Drop>(
    rt: &impl Abort,
    alloc: Global,
    disk: D,
    pieces: u8,
) -> Result<(Journal<D>, Vec<Payload>), (D, JournalRefusal)> {
    assert!(rt; pieces == 2 || pieces == 3);
    match Journal::attach(alloc, disk, pieces) {
        Ok((journal, payloads)) => {
            assert_eq!(rt;
                (journal.count(), journal.staged(), journal.is_failed()),
                (payloads.len() as u64, 0, false)
            );
            Ok((journal, payloads))
        }
        Err(refused) => Err(refused),
    }
}

/// The journal for tables of two pieces on this disk, and its payloads.
fn open<D: Disk + Drop>(rt: &impl Abort, alloc: Global, disk: D) -> (Journal<D>, Vec<Payload>) {
    match attach(rt, alloc, disk, 2) {
        Ok(opened) => opened,
        Err((_, refusal)) => panic!(rt; "refused: {refusal}"),
    }
}

/// A disk in memory with these bytes.
fn memory(alloc: Global, bytes: &[u8]) -> Result<MemoryDisk, AllocError> {
    MemoryDisk::of(alloc, bytes.to_vec(alloc)?)
}

/// A disk over a file in memory that holds these bytes, takes five at a call and does not tell
/// them.
fn quiet(alloc: Global, bytes: &[u8]) -> Result<ShortDisk<Fuse>, AllocError> {
    Ok(ShortDisk::new(memory(alloc, bytes)?, Fuse::new(u64::MAX), 5))
}

/// Does these steps.
fn stage_all<D: Disk>(
    rt: &impl Abort,
    journal: &mut Journal<D>,
    steps: &[Step],
) -> Result<(), AllocError> {
    for step in steps {
        match step {
            Some(payload) => {
                assert!(rt; !payload.is_empty() && !journal.is_failed());
                journal.stage(payload)?;
            }
            None => {
                assert!(rt; journal.staged() > 0);
                journal.unstage();
            }
        }
    }
    Ok(())
}

/// Does these steps and commits.
fn commit<D: Disk>(
    rt: &impl Abort,
    journal: &mut Journal<D>,
    steps: &[Step],
) -> Result<Told, AllocError> {
    stage_all(rt, journal, steps)?;
    assert!(rt; !journal.is_failed());
    let staged = journal.staged();
    let before = journal.disk().moment();
    let receipt = match journal.commit() {
        Ok(receipt) => Some((receipt.number, receipt.moment.wrapping_sub(before))),
        Err(_) => None,
    };
    assert_eq!(rt; journal.is_failed(), receipt.is_none());
    Ok((staged, receipt, journal.staged(), journal.count()))
}

/// Opens the journal on this disk and does these steps, with a commit behind each group of them.
/// What each commit told, and the disk.
fn commit_all<D: Disk + Drop>(
    rt: &impl Abort,
    alloc: Global,
    disk: D,
    groups: &[&[Step]],
) -> Result<(Vec<Told>, D), AllocError> {
    let (mut journal, _) = open(rt, alloc, disk);
    let mut told = Vec::new(alloc);
    for steps in groups {
        told.push(commit(rt, &mut journal, steps)?)?;
    }
    Ok((told, journal.into_disk()))
}

/// Stops where the payloads do not stand at these places or do not hold these bytes.
fn compare(rt: &impl Abort, payloads: &[Payload], wanted: &[(u64, &[u8])]) {
    assert_eq!(rt; payloads.len(), wanted.len());
    for (payload, &(at, bytes)) in payloads.iter().zip(wanted) {
        assert_eq!(rt; payload.at, at);
        assert_eq!(rt; payload.bytes.as_slice(), bytes);
    }
}

#[test]
fn begins_a_journal(rt: HostRuntime) -> Result<(), Fail> {
    let (journal, payloads) = open(&rt, rt.alloc(), MemoryDisk::new(rt.alloc()));
    assert_eq!(rt;
        (journal.opened(), journal.pieces(), payloads.len()),
        (1, 2, 0)
    );
    assert_eq!(rt; journal.disk().bytes(), b"DRBENCH\x02\0".as_slice());
    Ok(())
}

/// The commits of `TWO`, and what they tell.
const ONE_BY_ONE: [&[Step]; 2] = [&[Some(&[1])], &[Some(&[2])]];

const ONE_BY_ONE_TOLD: [Told; 2] = [(1, Some((1, 4)), 0, 1), (1, Some((2, 4)), 0, 2)];

#[test]
fn commits_payloads_one_by_one(rt: HostRuntime) -> Result<(), Fail> {
    let (told, disk) = commit_all(&rt, rt.alloc(), MemoryDisk::new(rt.alloc()), &ONE_BY_ONE)?;
    assert_eq!(rt; told.as_slice(), ONE_BY_ONE_TOLD.as_slice());
    assert_eq!(rt; disk.bytes(), TWO.as_slice());
    let (_, payloads) = open(&rt, rt.alloc(), disk);
    compare(&rt, &payloads, &[(17, &[1]), (31, &[2])]);
    Ok(())
}

#[test]
fn commits_what_is_staged(rt: HostRuntime) -> Result<(), Fail> {
    let groups: [&[Step]; 3] = [
        &[],
        &[Some(&[1]), Some(&[2]), Some(&[9, 9, 9]), None, Some(&[3])],
        &[],
    ];
    let (told, disk) = commit_all(&rt, rt.alloc(), MemoryDisk::new(rt.alloc()), &groups)?;
    let wanted: [Told; 3] = [
        (0, Some((0, 0)), 0, 0),
        (3, Some((3, 4)), 0, 3),
        (0, Some((3, 0)), 0, 3),
    ];
    assert_eq!(rt; told.as_slice(), wanted.as_slice());
    assert_eq!(rt; disk.bytes(), THREE.as_slice());
    // The next frame stands behind that one.
    let (told, disk) = commit_all(&rt, rt.alloc(), disk, &[&[Some(&[4])]])?;
    assert_eq!(rt; told.as_slice(), [(1, Some((4, 4)), 0, 4)].as_slice());
    assert_eq!(rt; disk.bytes(), FOUR.as_slice());
    let (_, payloads) = open(&rt, rt.alloc(), disk);
    compare(
        &rt,
        &payloads,
        &[(17, &[1]), (22, &[2]), (27, &[3]), (41, &[4])],
    );
    Ok(())
}

/// Commits that a crash cuts off.
struct Crash {
    /// What stands on the disk at first, and how many payloads that are.
    bytes: &'static [u8],
    before: usize,
    /// What is committed.
    steps: &'static [Step],
    /// The least length of an image of before the frame is synced, and of one behind that.
    least: (usize, usize),
    /// How many syncs an attach does where the disk does not tell its bytes.
    syncs: u64,
}

const CRASHES: [Crash; 2] = [
    Crash {
        bytes: &TWO,
        before: 2,
        steps: &[Some(&[3])],
        least: (37, 51),
        syncs: 1,
    },
    Crash {
        bytes: &[],
        before: 0,
        steps: &[Some(&[1]), Some(&[2]), Some(&[3])],
        least: (9, 33),
        syncs: 2,
    },
];

/// Whether some image that a crash leaves has the payloads of before, and whether some has three.
/// None has any other number, and each payload holds its own.
fn read_images(
    rt: &impl Abort,
    alloc: Global,
    disk: &MemoryDisk,
    before: usize,
    least: usize,
) -> Result<(bool, bool), AllocError> {
    let mut found = (false, false);
    for choice in 0..64u64 {
        let image = disk.crash(choice)?;
        assert!(rt; image.bytes().len() >= least, "choice {choice}");
        let (_, payloads) = open(rt, alloc, image);
        let count = payloads.len();
        assert!(rt; count == before || count == 3, "choice {choice}");
        assert!(rt; are_numbered(&payloads), "choice {choice}");
        found = (found.0 || count == before, found.1 || count == 3);
    }
    Ok(found)
}

/// Whether the first payloads are 01, 02 and 03.
fn are_numbered(payloads: &[Payload]) -> bool {
    let mut numbered = true;
    for (payload, number) in payloads.iter().zip([1, 2, 3]) {
        numbered &= payload.bytes.as_slice() == [number].as_slice();
    }
    numbered
}

/// Stops where the commit of which `passed` calls were passed, of at most four, did not tell what it
/// should, or where a crash leaves what it should not.
fn compare_crash(
    rt: &impl Abort,
    alloc: Global,
    crash: &Crash,
    passed: u64,
    told: &[Told],
    disk: &MemoryDisk,
) -> Result<(), AllocError> {
    let staged = crash.steps.len();
    let wanted = match passed {
        4 => (staged, Some((3, 4)), 0, 3),
        _ => (staged, None, staged, crash.before as u64),
    };
    assert_eq!(rt; told, [wanted].as_slice(), "{passed} calls");
    let least = if passed < 3 {
        crash.least.0
    } else {
        crash.least.1
    };
    let found = read_images(rt, alloc, disk, crash.before, least)?;
    assert_eq!(rt; found, (passed < 4, passed > 2), "{passed} calls");
    Ok(())
}

/// A crash behind `calls` calls of the commit, at a disk that tells its bytes and at one that does
/// not.
fn crash_behind(
    rt: &impl Abort,
    alloc: Global,
    crash: &Crash,
    calls: u64,
    passed: u64,
) -> Result<(), AllocError> {
    let pass = calls.saturating_add(passed);
    let disk = FuseDisk::new(memory(alloc, crash.bytes)?, pass);
    let (told, disk) = commit_all(rt, alloc, disk, &[crash.steps])?;
    compare_crash(rt, alloc, crash, passed, &told, &disk.into_inner())?;

    let disk = FuseDisk::new(quiet(alloc, crash.bytes)?, pass);
    let (told, disk) = commit_all(rt, alloc, disk, &[crash.steps])?;
    let file = disk.into_inner();
    compare_crash(rt, alloc, crash, passed, &told, file.file().disk())?;
    // The second call and the fourth are syncs.
    let syncs = (passed >= 2) as u64 + (passed >= 4) as u64;
    assert_eq!(rt; file.file().syncs(), crash.syncs.saturating_add(syncs));
    Ok(())
}

/// How many calls of the disk it takes to open the journal that these bytes are.
fn calls_to_open(rt: &impl Abort, alloc: Global, bytes: &[u8]) -> Result<u64, AllocError> {
    let (journal, _) = open(rt, alloc, memory(alloc, bytes)?);
    Ok(journal.disk().moment())
}

/// A crash behind each call of the commit.
fn crash_at_each_call(rt: &impl Abort, alloc: Global, crash: &Crash) -> Result<(), AllocError> {
    let calls = calls_to_open(rt, alloc, crash.bytes)?;
    for passed in 0..5u64 {
        crash_behind(rt, alloc, crash, calls, passed)?;
    }
    Ok(())
}

#[test]
fn crash_leaves_all_of_a_commit_or_none(rt: HostRuntime) -> Result<(), Fail> {
    for crash in &CRASHES {
        crash_at_each_call(&rt, rt.alloc(), crash)?;
    }
    Ok(())
}

#[test]
fn tells_payloads_and_places(rt: HostRuntime) -> Result<(), Fail> {
    let wanted: [(u64, &[u8]); 5] = [
        (17, &[0xaa]),
        (31, &[0xb1]),
        (36, &[0xc1, 0xc2]),
        (42, &[0xd1]),
        (56, &[0xe1, 0xe2, 0xe3]),
    ];
    let (pieces, payloads) = read_journal(rt.alloc(), &mut memory(rt.alloc(), &FIVE)?)?;
    assert_eq!(rt; pieces, 3);
    compare(&rt, &payloads, &wanted);
    // The same over a disk that does not tell its bytes.
    let (pieces, payloads) = read_journal(rt.alloc(), &mut quiet(rt.alloc(), &FIVE)?)?;
    assert_eq!(rt; pieces, 3);
    compare(&rt, &payloads, &wanted);
    Ok(())
}

#[test]
fn refusals_say_why(rt: HostRuntime) -> Result<(), Fail> {
    let table = [
        (JournalRefusal::DiskFault, "the disk refused a call"),
        (JournalRefusal::NotAJournal, "no journal"),
        (
            JournalRefusal::OtherTable { found: 2, asked: 3 },
            "a journal for tables of 2 pieces, not of 3",
        ),
        (
            JournalRefusal::Damaged(22),
            "the journal is damaged at byte 22",
        ),
        (JournalRefusal::Memory(AllocError), "out of memory"),
    ];
    for (refusal, wanted) in table {
        let text = format!(in rt.alloc(); "{refusal}")?;
        assert_eq!(rt; text.as_str(), wanted);
    }
    Ok(())
}

/// How many payloads are attached, or why none is. A refusal hands the disk back as it was.
fn attach_to(
    rt: &impl Abort,
    alloc: Global,
    bytes: &[u8],
    pieces: u8,
) -> Result<Result<usize, JournalRefusal>, AllocError> {
    match attach(rt, alloc, memory(alloc, bytes)?, pieces) {
        Ok((_, payloads)) => Ok(Ok(payloads.len())),
        Err((disk, refusal)) => {
            assert_eq!(rt; disk.bytes(), bytes);
            Ok(Err(refusal))
        }
    }
}

/// What the five payloads are read as with this other value at a place.
fn read_with_changed(place: usize, value: u8) -> Result<usize, JournalRefusal> {
    match (place, value) {
        // The head; the pieces.
        (0..=6, _) => Err(JournalRefusal::NotAJournal),
        (7, 2) => Err(JournalRefusal::OtherTable { found: 2, asked: 3 }),
        (7, _) => Err(JournalRefusal::NotAJournal),
        // A gate that is closed.
        (8, _) => Ok(0),
        (22, _) => Ok(1),
        (47, _) => Ok(4),
        // The closed gate, opened at the end of the file.
        (63, 1) => Err(JournalRefusal::Damaged(63)),
        (63, _) => Ok(5),
        // The bytes of a payload.
        (21 | 35 | 40 | 41 | 46 | 60..=62, _) => Ok(5),
        // A shorter body of the second frame, which ends behind its first or second payload; the
        // next byte is 0.
        (30, 5) => Ok(2),
        (30, 11) => Ok(3),
        // A longer payload in it, which ends where another one does.
        (34, 7) => Ok(4),
        (34, 12) => Ok(3),
        (39, 7) => Ok(4),
        // Any other length.
        (9..=20, _) => Err(JournalRefusal::Damaged(8)),
        (23..=45, _) => Err(JournalRefusal::Damaged(22)),
        _ => Err(JournalRefusal::Damaged(47)),
    }
}

/// Stops where the five payloads with another byte at a place are not read by the format.
fn change_at(rt: &impl Abort, alloc: Global, place: usize, old: u8) -> Result<(), AllocError> {
    for value in 0..=255u8 {
        let mut bytes = FIVE;
        assert!(rt; place < bytes.len());
        bytes[place] = value;
        let wanted = if value == old {
            Ok(5)
        } else {
            read_with_changed(place, value)
        };
        let found = attach_to(rt, alloc, &bytes, 3)?;
        assert_eq!(rt; found, wanted, "{value} at {place}");
    }
    Ok(())
}

#[test]
fn reads_each_changed_byte_by_the_format(rt: HostRuntime) -> Result<(), Fail> {
    for (place, &old) in FIVE.iter().enumerate() {
        change_at(&rt, rt.alloc(), place, old)?;
    }
    Ok(())
}

/// Stops where this number of bytes of the five payloads are not read by the format.
fn cut_at(rt: &impl Abort, alloc: Global, bytes: &[u8]) -> Result<(), AllocError> {
    let end = bytes.len();
    let wanted = match end {
        10..=21 => Err(JournalRefusal::Damaged(8)),
        22..=46 => Err(JournalRefusal::Damaged(22)),
        47..=62 => Err(JournalRefusal::Damaged(47)),
        63 => Err(JournalRefusal::Damaged(63)),
        64 => Ok(5),
        _ => Ok(0),
    };
    let found = attach_to(rt, alloc, bytes, 3)?;
    assert_eq!(rt; found, wanted, "{end} bytes");

    let mut disk = memory(alloc, bytes)?;
    let read = read_journal(alloc, &mut disk).map(|read| (read.0, read.1.len()));
    let pieces = if end <= 9 { 2 } else { 3 };
    assert_eq!(rt; read, wanted.map(|count| (pieces, count)), "{end} bytes");
    assert_eq!(rt; disk.bytes(), bytes);
    Ok(())
}

#[test]
fn reads_each_prefix_by_the_format(rt: HostRuntime) -> Result<(), Fail> {
    for end in 0..=FIVE.len() {
        cut_at(&rt, rt.alloc(), &FIVE[..end])?;
    }
    Ok(())
}

#[test]
fn refuses_what_is_no_journal(rt: HostRuntime) -> Result<(), Fail> {
    let other = JournalRefusal::OtherTable { found: 2, asked: 3 };
    let rows: [(&[u8], u8, Result<usize, JournalRefusal>); 4] = [
        (b"hello worl", 2, Err(JournalRefusal::NotAJournal)),
        (b"DRBENCH\x02\x01\0", 2, Err(JournalRefusal::Damaged(8))),
        (b"DRBENCH\x02\x01\0", 3, Err(other)),
        (b"DRBENCH\x02\x07\0", 2, Ok(0)),
    ];
    for (bytes, pieces, wanted) in rows {
        let found = attach_to(&rt, rt.alloc(), bytes, pieces)?;
        assert_eq!(rt; found, wanted);
    }
    Ok(())
}

#[test]
fn reads_behind_an_open_gate_alone(rt: HostRuntime) -> Result<(), Fail> {
    // A third payload, behind a gate of this value.
    for (gate, wanted) in [(1, 3), (7, 2)] {
        let mut third = TWO.to_vec(rt.alloc())?;
        third.pop();
        third.extend_from_slice(&[gate, 0, 0, 0, 0, 0, 0, 0, 5, 0, 0, 0, 1, 0x03, 0])?;
        let found = attach_to(&rt, rt.alloc(), &third, 2)?;
        assert_eq!(rt; found, Ok(wanted), "a gate of {gate}");
    }
    Ok(())
}

/// A disk that holds `TWO` and of whose calls the one of this number fails.
fn missing(alloc: Global, number: u64) -> Result<FaultDisk<MemoryDisk>, AllocError> {
    Ok(FaultDisk::new(memory(alloc, &TWO)?, [number].to_vec(alloc)?))
}

/// Stops where an attach does not miss this call, or does not count it.
fn attach_without(rt: &impl Abort, alloc: Global, number: u64) -> Result<(), AllocError> {
    match attach(rt, alloc, missing(alloc, number)?, 2) {
        Ok(_) => panic!(rt; "call {number} is not missed"),
        Err((disk, refusal)) => {
            assert_eq!(rt; (refusal, disk.faults()), (JournalRefusal::DiskFault, 1));
            let inner = disk.into_inner();
            assert_eq!(rt; inner.bytes(), TWO.as_slice());
        }
    }
    Ok(())
}

/// Stops where a commit does not miss this call, or does not count it.
fn commit_without(rt: &impl Abort, alloc: Global, number: u64) -> Result<(), AllocError> {
    let disk = missing(alloc, number)?;
    let (told, disk) = commit_all(rt, alloc, disk, &[&[Some(&[3])]])?;
    assert_eq!(rt; told.as_slice(), [(1, None, 1, 2)].as_slice());
    assert_eq!(rt; disk.faults(), 1);
    Ok(())
}

#[test]
fn counts_each_fault(rt: HostRuntime) -> Result<(), Fail> {
    let calls = calls_to_open(&rt, rt.alloc(), &TWO)?;
    for number in 0..calls {
        attach_without(&rt, rt.alloc(), number)?;
    }
    for number in calls..calls.saturating_add(4) {
        commit_without(&rt, rt.alloc(), number)?;
    }
    Ok(())
}

/// A disk over the file at this path.
fn on_file<'a>(rt: &'a HostRuntime, path: &str) -> Result<FileDisk<&'a HostRuntime>, AllocError> {
    Ok(FileDisk::new(rt, String::from_str(rt.alloc(), path)?))
}

#[test]
fn file_keeps_the_journal(rt: HostRuntime) -> Result<(), Fail> {
    let path = "disk_journal_two.journal";
    let _ = fs::remove_file(&rt, path);
    let (told, disk) = commit_all(&rt, rt.alloc(), on_file(&rt, path)?, &ONE_BY_ONE)?;
    assert_eq!(rt; told.as_slice(), ONE_BY_ONE_TOLD.as_slice());
    drop(disk);
    let bytes = fs::read(&rt, path)?;
    assert_eq!(rt; bytes.as_slice(), TWO.as_slice());

    let (journal, payloads) = open(&rt, rt.alloc(), on_file(&rt, path)?);
    assert_eq!(rt; payloads.len(), 2);
    drop(journal);
    fs::remove_file(&rt, path)?;
    Ok(())
}
