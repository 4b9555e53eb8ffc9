//! Runs in which the disk stops at a call, and runs in which one call of the disk, one read or one write fails: each call once. What
//! is due was worked out by hand from the rules of play.
use crate::journal_tests::{TWO, WHOLE};
use crate::runs_of_tests::{Faults, NO_FAULTS, run_bench};
use bench_commands::bench;
use bench_disk::{FuseDisk, MemoryDisk};
use bench_edges::{MemorySink, MemorySource, Status};
use std::alloc::{AllocError, Global};
use std::sync::Wait;
use std::test::Fail;
use std::thread::Threads;
use worker_gate::OpenGate;

/// `solve` of two roots, each of which takes one record of work.
const SOLVE: &[&str] = &["-", "solve", "--depth", "1", "--budget", "2"];

/// That run makes four calls of the disk to begin a journal, and at least two commits, of four calls each. It makes fewer than 64.
const LEAST_CALLS: u64 = 12;

const MOST_CALLS: u64 = 64;

/// How many images that a crash may leave are looked at, of each disk.
const IMAGES: u64 = 8;

/// What a report says of a crashed disk, and its status: no roots, or both, each with its value or
/// with none.
const REPORTS: [(Status, &str); 5] = [
    (Status::Done, "roots 0 settled 0 unsolved 0\n"),
    (
        Status::Unsolved,
        "root 1 W:W16,23:B12 unsolved\nroot 2 B:W21:B10,17 unsolved\n\
            roots 2 settled 0 unsolved 2\n",
    ),
    (
        Status::Unsolved,
        "root 1 W:W16,23:B12 white-wins\nroot 2 B:W21:B10,17 unsolved\n\
            roots 2 settled 1 unsolved 1\n",
    ),
    (
        Status::Unsolved,
        "root 1 W:W16,23:B12 unsolved\nroot 2 B:W21:B10,17 black-wins\n\
            roots 2 settled 1 unsolved 1\n",
    ),
    (Status::Done, WHOLE),
];

/// The bytes of images that a crash now may leave.
fn images_of(alloc: Global, disk: &MemoryDisk) -> Result<Vec<Vec<u8>>, AllocError> {
    let mut images = Vec::new(alloc);
    for choice in 0..IMAGES {
        images.push(disk.crash(choice)?.bytes().to_vec(alloc)?)?;
    }
    Ok(images)
}

/// The status of a run on an empty disk that passes this number of calls, and the bytes of
/// images that a crash behind it may leave.
fn stopped<R: Threads + Wait + Sync>(
    rt: &R,
    alloc: Global,
    pass: u64,
) -> Result<(Status, Vec<Vec<u8>>), Fail> {
    let mut source = MemorySource::new(TWO.as_bytes().to_vec(alloc)?, Vec::new(alloc));
    let mut sink = MemorySink::new(alloc, Vec::new(alloc));
    let disk = FuseDisk::new(MemoryDisk::new(alloc), pass);
    let (status, disk) = bench(rt, alloc, SOLVE, &mut source, &mut sink, disk, &OpenGate);
    Ok((status, images_of(alloc, &disk.into_inner())?))
}

/// Whether a report on a disk of these bytes says what it may.
fn is_reported<R: Threads + Wait + Sync>(
    rt: &R,
    alloc: Global,
    bytes: &[u8],
) -> Result<bool, Fail> {
    let seen = run_bench(
        rt,
        alloc,
        &["-", "report"],
        &[],
        bytes,
        NO_FAULTS,
        &OpenGate,
    )?;
    let said = (seen.status, seen.written.as_slice());
    Ok(
        REPORTS
            .iter()
            .any(|(status, text)| said == (*status, text.as_bytes())),
    )
}

/// Whether the same run on a disk of these bytes settles both roots.
fn goes_on<R: Threads + Wait + Sync>(rt: &R, alloc: Global, bytes: &[u8]) -> Result<bool, Fail> {
    let seen = run_bench(
        rt,
        alloc,
        SOLVE,
        TWO.as_bytes(),
        bytes,
        NO_FAULTS,
        &OpenGate,
    )?;
    Ok(seen.status == Status::Done && seen.written.as_slice() == WHOLE.as_bytes())
}

/// Whether each of these images is reported as it may be, and gone on with.
fn are_recovered<R: Threads + Wait + Sync>(
    rt: &R,
    alloc: Global,
    images: &[Vec<u8>],
) -> Result<bool, Fail> {
    for image in images {
        if !(is_reported(rt, alloc, image)? && goes_on(rt, alloc, image)?) {
            return Ok(false);
        }
    }
    Ok(true)
}

#[test]
fn a_disk_that_stops_loses_nothing(rt: HostRuntime) -> Result<(), Fail> {
    for pass in 0..MOST_CALLS {
        let (status, images) = stopped(&rt, rt.alloc(), pass)?;
        if status == Status::Done {
            assert!(rt; pass >= LEAST_CALLS, "{pass}");
            return Ok(());
        }
        assert!(rt; status == Status::Disk, "{pass}");
        assert!(rt; are_recovered(&rt, rt.alloc(), &images)?, "{pass}");
    }
    Err(Fail::from("each run was stopped"))
}

#[test]
fn a_call_of_the_disk_fails_alone(rt: HostRuntime) -> Result<(), Fail> {
    for call in 0..MOST_CALLS {
        let faults = Faults {
            disk: &[call],
            ..NO_FAULTS
        };
        let source = TWO.as_bytes();
        let seen = run_bench(&rt, rt.alloc(), SOLVE, source, &[], faults, &OpenGate)?;
        if seen.status == Status::Done {
            assert!(rt; call >= LEAST_CALLS, "{call}");
            return Ok(());
        }
        assert!(rt; seen.status == Status::Disk, "{call}");
        assert!(rt; goes_on(&rt, rt.alloc(), &seen.disk)?, "{call}");
    }
    Err(Fail::from("each run failed"))
}

/// A game of a club.
const CLUB: &str = "[Event \"Club\"]\n[GameType \"21\"]\n\
    1. 11-15! 22-18 {a centre man} 2. 15x22 $1 (2. 15x22 26x17) 25x18 1/2-1/2\n";

/// Whether the run on that game is refused for this read, and the disk untouched.
fn is_unread<R: Threads + Wait + Sync>(
    rt: &R,
    alloc: Global,
    read: u64,
    is_slow: bool,
) -> Result<bool, Fail> {
    let words = ["-", "solve", "--budget", "20"];
    let faults = Faults {
        reads: &[read],
        is_slow,
        ..NO_FAULTS
    };
    let seen = run_bench(rt, alloc, &words, CLUB.as_bytes(), &[], faults, &OpenGate)?;
    let is_refused = seen.status == Status::Read
        && seen.written.as_slice() == b"refused read\n".as_slice();
    Ok(is_refused && seen.disk.is_empty())
}

/// The reads of the game at once are its bytes and the end; one byte at a time, each byte and the
/// end.
#[test]
fn a_read_fails(rt: HostRuntime) -> Result<(), Fail> {
    for (last, is_slow) in [(1, false), (CLUB.len() as u64, true)] {
        for read in 0..=last {
            assert!(rt; is_unread(&rt, rt.alloc(), read, is_slow)?, "{read}");
        }
    }
    Ok(())
}

/// What a sink has taken of the report of a run by four workers, in which this write fails.
fn taken<R: Threads + Wait + Sync>(
    rt: &R,
    alloc: Global,
    write: u64,
    is_slow: bool,
) -> Result<(Status, Vec<u8>), Fail> {
    let words = ["-", "solve", "--workers", "4", "--depth", "1"];
    let faults = Faults {
        writes: &[write],
        is_slow,
        ..NO_FAULTS
    };
    let seen = run_bench(rt, alloc, &words, TWO.as_bytes(), &[], faults, &OpenGate)?;
    Ok((seen.status, seen.written))
}

/// The report is written at once, or one byte at a time: as many bytes of it are taken as writes came
/// before.
#[test]
fn a_write_fails(rt: HostRuntime) -> Result<(), Fail> {
    let all = WHOLE.as_bytes();
    for (writes, is_slow) in [(1, false), (all.len(), true)] {
        for write in 0..writes {
            let (status, front) = taken(&rt, rt.alloc(), write as u64, is_slow)?;
            assert!(rt; status == Status::Write && front.len() == write, "{write}");
            assert!(rt; all.starts_with(&front), "{write}");
        }
    }
    Ok(())
}
