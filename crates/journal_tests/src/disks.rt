//! Each kind of disk, called through the bound, and what a crash leaves.
//!
//! Each function here is proved too, the dearer the more it calls and compares. So one function,
//! over any disk, does a list of calls and compares what they answer.
ghost use Rattle.std.specs.Prelude.{◌≡◌};

use bench_disk::{
    Disk, DiskFault, FailingCalls, FailingDisk, FaultDisk, FileDisk, FileHandle, FuseDisk,
    HandleDisk, MemoryDisk, Plan, ShortDisk,
};
use memory_file::MemoryFile;
use std::alloc::{AllocError, Global};
use std::process::Abort;
use std::test::Fail;
use std::{fs, io};

/// A call of a disk. A read has the buffer of all reads.
#[derive(Clone, Copy)]
enum Step<'a> {
    Length,
    Read(u64),
    Write(u64, &'a [u8]),
    Sync,
}

use Step::{Length, Read, Sync, Write};

/// The length; the count of bytes read; 0 of another call.
type Answer = Result<u64, DiskFault>;

const DONE: Answer = Ok(0);

const REFUSED: Answer = Err(DiskFault);

/// Calls, and what each of them answers.
type Calls<'a> = &'a [(Step<'a>, Answer)];

/// Does the call. At a disk that tells its bytes a write is at place 0.
fn call<D: Disk>(rt: &impl Abort, disk: &mut D, step: Step, into: &mut [u8]) -> Answer {
    match step {
        Length => disk.len(),
        Read(at) => Ok(disk.read_at(at, into)? as u64),
        Write(at, from) => {
            assert!(rt; at == 0 || !D::TELLS);
            disk.write_at(at, from)?;
            DONE
        }
        Sync => {
            disk.sync()?;
            DONE
        }
    }
}

/// Does these calls, and stops where one does not answer this, or where these are not the moment
/// and the faults behind them.
fn lead<D: Disk>(
    rt: &impl Abort,
    disk: &mut D,
    calls: Calls,
    into: &mut [u8],
    moment_and_faults: (u64, u64),
) {
    for (number, &(step, answer)) in calls.iter().enumerate() {
        assert_eq!(rt; call(rt, disk, step, into), answer, "call {number}");
    }
    assert_eq!(rt; (disk.moment(), disk.faults()), moment_and_faults);
}

/// Stops where the bytes are not these.
fn compare(rt: &impl Abort, bytes: &[u8], wanted: &[u8]) {
    assert_eq!(rt; bytes, wanted);
}

/// A disk in memory that holds these bytes.
fn memory(alloc: Global, bytes: &[u8]) -> Result<MemoryDisk, AllocError> {
    MemoryDisk::of(alloc, bytes.to_vec(alloc)?)
}

const FIRST_CALLS: [(Step, Answer); 5] = [
    (Length, Ok(0)),
    (Write(0, &[1, 2, 3]), DONE),
    (Sync, DONE),
    (Read(1), Ok(2)),
    (Length, Ok(3)),
];

#[test]
fn memory_disk_reads_what_was_written(rt: HostRuntime) -> Result<(), Fail> {
    let mut disk = MemoryDisk::new(rt.alloc());
    let mut into = [9; 8];
    lead(&rt, &mut disk, &FIRST_CALLS, &mut into, (5, 0));
    compare(&rt, &into, &[2, 3, 9, 9, 9, 9, 9, 9]);
    compare(&rt, disk.bytes(), &[1, 2, 3]);
    Ok(())
}

/// Writes where the bytes stand or end.
fn write(rt: &impl Abort, disk: &mut MemoryDisk, at: u64, from: &[u8]) {
    assert!(rt; at <= disk.bytes().len() as u64);
    assert!(rt; disk.write_at(at, from).is_ok());
}

/// Eight bytes, and three writes behind the last sync, one of which ends two bytes past the end.
fn with_three_pending(rt: &impl Abort, alloc: Global) -> Result<MemoryDisk, AllocError> {
    let mut disk = memory(alloc, &[10, 11, 12, 13, 14, 15, 16, 17])?;
    lead(rt, &mut disk, &[(Sync, DONE)], &mut [], (1, 0));
    write(rt, &mut disk, 0, &[20]);
    write(rt, &mut disk, 2, &[22, 23, 24]);
    write(rt, &mut disk, 6, &[26, 27, 28, 29]);
    Ok(disk)
}

/// The bytes of the image that a crash leaves, on a disk that was not called yet.
fn image(
    rt: &impl Abort,
    alloc: Global,
    disk: &MemoryDisk,
    choice: u64,
) -> Result<Vec<u8>, AllocError> {
    let image = disk.crash(choice)?;
    assert_eq!(rt; (image.moment(), image.faults()), (0, 0));
    image.bytes().to_vec(alloc)
}

/// Stops where a crash does not leave these bytes at this choice.
fn compare_image(
    rt: &impl Abort,
    alloc: Global,
    disk: &MemoryDisk,
    choice: u64,
    wanted: &[u8],
) -> Result<(), AllocError> {
    compare(rt, &image(rt, alloc, disk, choice)?, wanted);
    Ok(())
}

/// The images of 64 choices, each once.
fn images(rt: &impl Abort, alloc: Global, disk: &MemoryDisk) -> Result<Vec<Vec<u8>>, AllocError> {
    let mut images: Vec<Vec<u8>> = Vec::new(alloc);
    for choice in 0..64u64 {
        let bytes = image(rt, alloc, disk, choice)?;
        if !images.contains(&bytes) {
            images.push(bytes)?;
        }
    }
    Ok(images)
}

/// Whether some image has this byte at the place, whether some has another one there, and whether
/// some ends right before it.
fn found_at(images: &[Vec<u8>], place: usize, old: u8) -> (bool, bool, bool) {
    let mut found = (false, false, false);
    for bytes in images {
        match bytes.get(place) {
            Some(&byte) if byte == old => found.0 = true,
            Some(_) => found.1 = true,
            None => found.2 |= bytes.len() == place,
        }
    }
    found
}

/// What the images have at each place, with the byte of before the write that is torn there. The
/// last place is the one behind all.
const FOUND: [(u8, (bool, bool, bool)); 11] = [
    (10, (true, true, false)),
    (11, (true, false, false)),
    (12, (true, true, false)),
    (13, (true, true, false)),
    (14, (true, true, false)),
    (15, (true, false, false)),
    (16, (true, true, false)),
    (17, (true, true, false)),
    (28, (true, true, true)),
    (29, (true, true, true)),
    (0, (false, false, true)),
];

/// Stops where the images of 64 choices do not have this at each place.
fn compare_images(rt: &impl Abort, alloc: Global, disk: &MemoryDisk) -> Result<(), AllocError> {
    let images = images(rt, alloc, disk)?;
    assert!(rt; images.len() >= 10);
    for (place, &(old, wanted)) in FOUND.iter().enumerate() {
        assert_eq!(rt; found_at(&images, place, old), wanted, "place {place}");
    }
    Ok(())
}

#[test]
fn crash_tears_pending_writes_alone(rt: HostRuntime) -> Result<(), Fail> {
    let disk = with_three_pending(&rt, rt.alloc())?;
    let lost = [10, 11, 12, 13, 14, 15, 16, 17];
    compare_image(&rt, rt.alloc(), &disk, 0, &lost)?;
    let whole = [20, 11, 22, 23, 24, 15, 26, 27, 28, 29];
    compare_image(&rt, rt.alloc(), &disk, 1, &whole)?;
    compare_images(&rt, rt.alloc(), &disk)?;
    Ok(())
}

#[test]
fn crash_leaves_what_was_synced(rt: HostRuntime) -> Result<(), Fail> {
    let mut disk = with_three_pending(&rt, rt.alloc())?;
    lead(&rt, &mut disk, &[(Sync, DONE)], &mut [], (5, 0));
    let whole = [20, 11, 22, 23, 24, 15, 26, 27, 28, 29];
    for choice in 0..64u64 {
        compare_image(&rt, rt.alloc(), &disk, choice, &whole)?;
    }
    Ok(())
}

/// Does these calls of a failing disk, and stops where the disk below was not called so often, or
/// does not hold these bytes.
fn lead_failing<P: Plan + Drop>(
    rt: &impl Abort,
    mut disk: FailingDisk<MemoryDisk, P>,
    calls: Calls,
    moment_and_faults: (u64, u64),
    wanted: &[u8],
) {
    let mut into = [9; 8];
    lead(rt, &mut disk, calls, &mut into, moment_and_faults);
    compare(rt, &into, &[2, 9, 9, 9, 9, 9, 9, 9]);
    let disk = disk.into_inner();
    assert_eq!(rt; disk.moment(), moment_and_faults.0);
    compare(rt, disk.bytes(), wanted);
}

const FUSE_CALLS: [(Step, Answer); 8] = [
    (Write(0, &[7]), DONE),
    (Sync, DONE),
    (Read(1), Ok(1)),
    (Length, Ok(2)),
    (Write(0, &[8]), REFUSED),
    (Sync, REFUSED),
    (Read(0), REFUSED),
    (Length, REFUSED),
];

#[test]
fn fuse_disk_passes_its_calls(rt: HostRuntime) -> Result<(), Fail> {
    let disk = FuseDisk::new(memory(rt.alloc(), &[1, 2])?, 4);
    lead_failing(&rt, disk, &FUSE_CALLS, (4, 4), &[7, 2]);
    Ok(())
}

const FAULT_CALLS: [(Step, Answer); 8] = [
    (Sync, REFUSED),
    (Sync, DONE),
    (Sync, DONE),
    (Write(0, &[8]), REFUSED),
    (Sync, DONE),
    (Write(0, &[7]), DONE),
    (Read(1), Ok(1)),
    (Length, Ok(2)),
];

#[test]
fn fault_disk_fails_given_calls(rt: HostRuntime) -> Result<(), Fail> {
    let failing = [3, 0, 3].to_vec(rt.alloc())?;
    let disk = FaultDisk::new(memory(rt.alloc(), &[1, 2])?, failing);
    lead_failing(&rt, disk, &FAULT_CALLS, (6, 2), &[7, 2]);
    Ok(())
}

/// The disk over a file that holds these bytes, takes three at a call, and fails the call of this
/// number.
fn short(alloc: Global, bytes: &[u8], failing: u64) -> Result<ShortDisk<FailingCalls>, AllocError> {
    let plan = FailingCalls::new([failing].to_vec(alloc)?);
    Ok(ShortDisk::new(memory(alloc, bytes)?, plan, 3))
}

const SHORT_CALLS: [(Step, Answer); 4] = [
    (Length, Ok(8)),
    (Read(0), Ok(8)),
    (Read(3), Ok(5)),
    (Write(4, b"GHTSMEN"), DONE),
];

#[test]
fn disk_over_a_short_file_does_all_or_faults(rt: HostRuntime) -> Result<(), Fail> {
    let mut disk = short(rt.alloc(), b"draughts", u64::MAX)?;
    let mut into = [9; 8];
    lead(&rt, &mut disk, &SHORT_CALLS, &mut into, (4, 0));
    compare(&rt, &into, b"ughtshts");
    compare_short(&rt, &disk, (0, 0), b"drauGHTSMEN");
    lead(&rt, &mut disk, &[(Sync, DONE); 12], &mut [], (16, 0));
    compare_short(&rt, &disk, (12, 1), b"drauGHTSMEN");
    compare_image(&rt, rt.alloc(), disk.file().disk(), 0, b"drauGHTSMEN")?;
    Ok(())
}

/// On eight bytes, three of which can be read or written at a call.
const TOLD_CALLS: [(Step, Answer); 5] = [
    (Length, Ok(8)),
    (Read(0), Ok(8)),
    (Read(3), Ok(5)),
    (Write(0, b"DRAUGHTSMEN"), DONE),
    (Length, Ok(11)),
];

/// Stops where the file holds other bytes, or where they outlast a crash and should not, or the other
/// way round.
fn compare_told(rt: &impl Abort, disk: &HandleDisk<MemoryFile>, wanted: &[u8], is_lasting: bool) {
    let file = disk.file();
    compare(rt, file.bytes(), wanted);
    assert_eq!(rt; file.is_lasting(), is_lasting);
}

#[test]
fn disk_over_a_file_that_tells(rt: HostRuntime) -> Result<(), Fail> {
    let bytes = b"draughts".to_vec(rt.alloc())?;
    let mut disk = HandleDisk::over(MemoryFile::of(rt.alloc(), bytes, 3)?);
    let mut into = [9; 8];
    lead(&rt, &mut disk, &TOLD_CALLS, &mut into, (5, 0));
    compare(&rt, &into, b"ughtshts");
    compare_told(&rt, &disk, b"DRAUGHTSMEN", false);
    lead(&rt, &mut disk, &[(Sync, DONE)], &mut [], (6, 0));
    compare_told(&rt, &disk, b"DRAUGHTSMEN", true);
    lead(&rt, &mut disk, &[(Write(0, b"d"), DONE)], &mut [], (7, 0));
    compare_told(&rt, &disk, b"dRAUGHTSMEN", false);
    Ok(())
}

/// Whether the bytes outlast a crash behind one sync, behind that of the folder, and behind another
/// sync.
fn lasting(file: &mut MemoryFile) -> io::Result<[bool; 3]>
    requires { file.old.moment ≡ 0 }
{
    file.sync()?;
    let alone = file.is_lasting();
    file.sync_folder()?;
    let entered = file.is_lasting();
    file.sync()?;
    Ok([alone, entered, file.is_lasting()])
}

#[test]
fn a_file_lasts_behind_its_folder(rt: HostRuntime) -> Result<(), Fail> {
    let mut file = MemoryFile::of(rt.alloc(), b"new".to_vec(rt.alloc())?, 3)?;
    let found = lasting(&mut file).ok();
    assert_eq!(rt; found, Some([false, false, true]));
    Ok(())
}

/// Stops where the file and its folder were not synced so often, or where it holds other bytes.
fn compare_short(
    rt: &impl Abort,
    disk: &ShortDisk<FailingCalls>,
    syncs: (u64, u64),
    wanted: &[u8],
) {
    let file = disk.file();
    assert_eq!(rt; (file.syncs(), file.folder_syncs()), syncs);
    compare(rt, file.disk().bytes(), wanted);
}

/// What a write of six bytes over two, a sync, a read and a sync answer; how often the file and its
/// folder are then synced; what the file holds.
type Fault = ([Answer; 4], (u64, u64), &'static [u8]);

// By the call of the file that fails: two writes; the sync of the folder and that of the file, both
// of which are done again behind a fault; two of the reads.
const FAULTS: [Fault; 6] = [
    ([REFUSED, DONE, Ok(2), DONE], (2, 1), &[1, 2]),
    ([REFUSED, DONE, Ok(3), DONE], (2, 1), &[3, 4, 5]),
    ([DONE, REFUSED, Ok(6), DONE], (1, 1), &[3, 4, 5, 6, 7, 8]),
    ([DONE, REFUSED, Ok(6), DONE], (1, 2), &[3, 4, 5, 6, 7, 8]),
    ([DONE, DONE, REFUSED, DONE], (2, 1), &[3, 4, 5, 6, 7, 8]),
    ([DONE, DONE, REFUSED, DONE], (2, 1), &[3, 4, 5, 6, 7, 8]),
];

/// Does those calls of a disk over a file that fails its call of this number.
fn lead_faulty(
    rt: &impl Abort,
    alloc: Global,
    failing: u64,
    fault: &Fault,
) -> Result<(), AllocError> {
    let mut disk = short(alloc, &[1, 2], failing)?;
    let &([write, sync, read, again], syncs, wanted) = fault;
    let calls = [
        (Write(0, &[3, 4, 5, 6, 7, 8]), write),
        (Sync, sync),
        (Read(0), read),
        (Sync, again),
    ];
    lead(rt, &mut disk, &calls, &mut [9; 8], (4, 1));
    compare_short(rt, &disk, syncs, wanted);
    Ok(())
}

#[test]
fn disk_over_a_short_file_counts_each_fault(rt: HostRuntime) -> Result<(), Fail> {
    for (failing, fault) in FAULTS.iter().enumerate() {
        lead_faulty(&rt, rt.alloc(), failing as u64, fault)?;
    }
    Ok(())
}

#[test]
fn syncs_go_on(rt: HostRuntime) -> Result<(), Fail> {
    let mut disk = MemoryDisk::new(rt.alloc());
    for byte in 0..12u8 {
        let moment = 2 * byte as u64 + 2;
        lead(
            &rt,
            &mut disk,
            &[(Write(0, &[byte]), DONE), (Sync, DONE)],
            &mut [],
            (moment, 0),
        );
        compare_image(&rt, rt.alloc(), &disk, 0, &[byte])?;
    }
    Ok(())
}

/// Does these calls of the disk over the file at this path, which no call reached yet.
fn lead_file(
    rt: &impl Abort,
    files: &HostRuntime,
    path: &str,
    calls: Calls,
    into: &mut [u8],
    moment_and_faults: (u64, u64),
) -> Result<(), AllocError> {
    let mut disk = FileDisk::new(files, String::from_str(files.alloc(), path)?);
    lead(rt, &mut disk, calls, into, moment_and_faults);
    Ok(())
}

/// Removes the file at the path, and stops where it does not hold these bytes.
fn take_file(rt: &impl Abort, files: &HostRuntime, path: &str, wanted: &[u8]) -> Result<(), Fail> {
    compare(rt, &fs::read(files, path)?, wanted);
    fs::remove_file(files, path)?;
    Ok(())
}

const NEW_CALLS: [(Step, Answer); 4] = [
    (Length, Ok(0)),
    (Write(0, &[1, 2, 3]), DONE),
    (Sync, DONE),
    (Read(1), Ok(2)),
];

const AGAIN_CALLS: [(Step, Answer); 4] = [
    (Read(0), Ok(3)),
    (Length, Ok(3)),
    (Read(3), Ok(0)),
    (Read(u64::MAX), Ok(0)),
];

#[test]
fn file_disk_keeps_a_new_file(rt: HostRuntime) -> Result<(), Fail> {
    let path = "bench_disk_new.bytes";
    let _ = fs::remove_file(&rt, path);
    let mut into = [9; 8];
    lead_file(&rt, &rt, path, &[], &mut into, (0, 0))?;
    assert!(rt; !fs::exists(&rt, path)?, "no call came yet");
    lead_file(&rt, &rt, path, &NEW_CALLS, &mut into, (4, 0))?;
    compare(&rt, &into, &[2, 3, 9, 9, 9, 9, 9, 9]);
    lead_file(&rt, &rt, path, &AGAIN_CALLS, &mut into, (4, 0))?;
    compare(&rt, &into, &[1, 2, 3, 9, 9, 9, 9, 9]);
    take_file(&rt, &rt, path, &[1, 2, 3])
}

/// 200,003 bytes, more than one call of the system need take, of which none stands a block behind
/// its like.
fn long_bytes(alloc: Global) -> Result<Vec<u8>, AllocError> {
    let mut bytes = Vec::new(alloc);
    for number in 0..200_003u32 {
        bytes.push((number % 251) as u8)?;
    }
    Ok(bytes)
}

/// Writes these bytes to the file at the path, and syncs.
fn store(rt: &impl Abort, files: &HostRuntime, path: &str, bytes: &[u8]) -> Result<(), AllocError> {
    let calls = [(Write(0, bytes), DONE), (Sync, DONE)];
    lead_file(rt, files, path, &calls, &mut [], (2, 0))
}

#[test]
fn file_disk_keeps_a_long_file(rt: HostRuntime) -> Result<(), Fail> {
    let path = "bench_disk_long.bytes";
    let _ = fs::remove_file(&rt, path);
    let mut bytes = long_bytes(rt.alloc())?;
    store(&rt, &rt, path, &bytes)?;
    // The read has room for seven bytes more.
    let mut into: Vec<u8> = Vec::new(rt.alloc());
    into.resize(200_010, 9)?;
    lead_file(&rt, &rt, path, &[(Read(0), Ok(200_003))], &mut into, (1, 0))?;
    take_file(&rt, &rt, path, &bytes)?;
    bytes.resize(200_010, 9)?;
    compare(&rt, &into, &bytes);
    Ok(())
}

const OLD_CALLS: [(Step, Answer); 6] = [
    (Write(0, b"D"), DONE),
    (Sync, DONE),
    (Read(1), Ok(7)),
    (Length, Ok(8)),
    (Write(8, b"!?"), DONE),
    (Write(u64::MAX, b"far"), REFUSED),
];

#[test]
fn file_disk_keeps_an_old_file(rt: HostRuntime) -> Result<(), Fail> {
    let path = "bench_disk_old.bytes";
    fs::write(&rt, path, "draughts")?;
    let mut into = [9; 8];
    lead_file(&rt, &rt, path, &OLD_CALLS, &mut into, (6, 1))?;
    compare(&rt, &into, b"raughts\x09");
    take_file(&rt, &rt, path, b"Draughts!?")
}

const REFUSED_CALLS: [(Step, Answer); 4] = [
    (Length, REFUSED),
    (Read(0), REFUSED),
    (Write(0, b"x"), REFUSED),
    (Sync, REFUSED),
];

#[test]
fn file_disk_counts_what_is_refused(rt: HostRuntime) -> Result<(), Fail> {
    let path = "bench_disk_kept.bytes";
    fs::write(&rt, path, "kept")?;
    // A file stands where a folder is due.
    let below = "bench_disk_kept.bytes/below";
    lead_file(&rt, &rt, below, &REFUSED_CALLS, &mut [9; 8], (4, 4))?;
    take_file(&rt, &rt, path, b"kept")
}

#[test]
fn disk_fault_says_what_happened(rt: HostRuntime) -> Result<(), Fail> {
    let text = format!(in rt.alloc(); "{DiskFault}")?;
    assert_eq!(rt; text.as_str(), "the disk refused a call");
    Ok(())
}
