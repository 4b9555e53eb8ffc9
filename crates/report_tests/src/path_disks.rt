//! Disks by a word: a file's, one in memory, and one of which each call fails.
use bench_disk::{Access, Disk, DiskFault, FileDisk, MemoryDisk};
use program_edges::{PathDisk, Standards};
use std::process::Abort;
use std::test::Fail;
use std::{fs, io};

/// Writes three bytes and syncs: the length behind that, the moment and the faults.
fn keep<D: Disk>(disk: &mut D) -> (Result<u64, DiskFault>, u64, u64) {
    let is_written = disk.write_at(0, b"abc").is_ok() && disk.sync().is_ok();
    let length = if is_written {
        disk.len()
    } else {
        Err(DiskFault)
    };
    (length, disk.moment(), disk.faults())
}

/// Reads from place 1 into two bytes.
fn read<D: Disk>(disk: &mut D) -> (Result<usize, DiskFault>, [u8; 2]) {
    let mut into = [0; 2];
    (disk.read_at(1, &mut into), into)
}

#[test]
fn a_path_names_its_file(rt: HostRuntime) -> Result<(), Fail> {
    let path = "program_edges.bytes";
    let _ = fs::remove_file(&rt, path);
    let standards = Standards::take(&rt);
    let mut disk = standards
        .disk_of(&rt, path, Access::Writes)
        .map_err(|_| "no memory")?;
    assert!(rt; !fs::exists(&rt, path)?, "no call came yet");
    assert!(rt; keep(&mut disk) == (Ok(3), 3, 0));
    let mut again = standards
        .disk_of(&rt, path, Access::Writes)
        .map_err(|_| "no memory")?;
    assert!(rt; read(&mut again) == (Ok(2), *b"bc"));
    Ok(())
}

#[test]
fn a_file_that_is_looked_at_is_not_made(rt: HostRuntime) -> Result<(), Fail> {
    let path = "program_edges.missing";
    let _ = fs::remove_file(&rt, path);
    let standards = Standards::take(&rt);
    let mut disk = standards
        .disk_of(&rt, path, Access::Looks)
        .map_err(|_| "no memory")?;
    assert!(rt; disk.len() == Ok(0) && read(&mut disk) == (Ok(0), [0; 2]) && disk.is_missing());
    assert!(rt; disk.write_at(0, b"abc") == Err(DiskFault) && !fs::exists(&rt, path)?);
    Ok(())
}

/// What is said of the file at this path where its length is asked.
fn cause_at(rt: &HostRuntime, path: &str) -> Result<Option<io::ErrorKind>, Fail> {
    let standards = Standards::take(rt);
    let mut disk = standards
        .disk_of(rt, path, Access::Looks)
        .map_err(|_| "no memory")?;
    let _ = disk.len();
    Ok(disk.cause())
}

#[test]
fn the_cause_is_the_systems(rt: HostRuntime) -> Result<(), Fail> {
    assert!(rt; cause_at(&rt, "/")? == Some(io::ErrorKind::IsADirectory));
    assert!(rt; cause_at(&rt, "missing/file")? == Some(io::ErrorKind::NotFound));
    Ok(())
}

#[test]
fn a_hyphen_is_no_path(rt: HostRuntime) -> Result<(), Fail> {
    let standards = Standards::take(&rt);
    let mut disk = standards
        .disk_of(&rt, "-", Access::Looks)
        .map_err(|_| "no memory")?;
    assert!(rt; keep(&mut disk) == (Ok(3), 3, 0) && !fs::exists(&rt, "-")?);
    assert!(rt; read(&mut disk) == (Ok(2), *b"bc"));
    // A place past the end of a disk in memory.
    assert!(rt; disk.write_at(9, b"far") == Err(DiskFault) && disk.faults() == 1);
    Ok(())
}

#[test]
fn no_disk_fails_each_call(rt: HostRuntime) {
    let mut disk: PathDisk<FileDisk<&HostRuntime>> = PathDisk::nothing();
    assert!(rt; keep(&mut disk) == (Err(DiskFault), 0, 1));
    assert!(rt; read(&mut disk) == (Err(DiskFault), [0; 2]) && disk.len() == Err(DiskFault));
    assert!(rt; disk.sync() == Err(DiskFault) && disk.faults() == 4);
}
