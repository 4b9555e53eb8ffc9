//! The descriptors of standard input, output and error, taken before a file is opened.
ghost use Rattle.std.specs.Prelude.{◌≡◌, ◌≢◌, None, IfOk, codes};
ghost use Rattle.std.specs.String.{string_bytes};
ghost use Rattle.program_edges.specs.Below.{IsOnFile, IsOnMemory, IsOnNothing};

use crate::path_disk::PathDisk;
use bench_disk::{Access, FileDisk, MemoryDisk};
use bench_edges::Status;
use std::fs::{File, TryLockError, metadata};
use std::io;
use std::os::fd::{AsRawFd, RawFd};

/// The highest of the descriptors of standard input, output and error.
const LAST_STANDARD: RawFd = 2;

/// A folder that is there on every system. Opened to be read it can be neither read nor written as a
/// file.
const ROOT_FOLDER: &str = "/";

/// The word for a disk in memory.
const MEMORY_WORD: &str = "-";

/// Those of standard input, output and error that were closed, taken: the system gives a file the
/// lowest descriptor that is free, so what is printed never goes into a file that is opened while
/// these are held.
#[derive(Drop)]
pub struct Standards {
    taken: Option<[Option<File>; 3]>,
}

/// Takes the lowest free descriptor, where it is one of the three standard ones: a file that is
/// opened later then gets another. What is read from it or written to it fails, as it does with a
/// descriptor that is closed.
fn take_standard(rt: &HostRuntime) -> io::Result<Option<File>> {
    let taken = File::open(rt, ROOT_FOLDER)?;
    if taken.as_raw_fd() > LAST_STANDARD {
        return Ok(None);
    }
    Ok(Some(taken))
}

impl Standards {
    /// Takes those that are closed. Keep what this answers until the run has ended.
    pub fn take(rt: &HostRuntime) -> Standards {
        let taken = match (take_standard(rt), take_standard(rt), take_standard(rt)) {
            (Ok(first), Ok(second), Ok(third)) => Some([first, second, third]),
            _ => None,
        };
        Standards { taken }
    }

    /// The disk that a word names: `-` is an empty one in memory, and any other word is a file's
    /// path, which is opened as `access` says. No call reaches the file system yet. Where the standard
    /// descriptors could not be taken, no file is opened: each call of that disk fails. Gives the exit
    /// status where there is no memory for the path.
    pub fn disk_of<'a>(
        &self,
        rt: &'a HostRuntime,
        word: &str,
        access: Access,
    ) -> Result<PathDisk<FileDisk<&'a HostRuntime>>, u8>
        ensures memory { word.now ≡ codes "-" → IfOk result (λ disk. IsOnMemory disk.below) }
        ensures file { word.now ≢ codes "-" → self.now.taken ≢ None → IfOk result (λ disk.
            IsOnFile (λ under. string_bytes under.file.path ≡ word.now) disk.below) }
        ensures nothing { word.now ≢ codes "-" → self.now.taken ≡ None →
            IfOk result (λ disk. IsOnNothing disk.below) }
    {
        if word == MEMORY_WORD {
            return Ok(PathDisk::memory(MemoryDisk::new(rt.alloc())));
        }
        if self.taken.is_none() {
            return Ok(PathDisk::nothing());
        }
        let path = String::from_str(rt.alloc(), word).map_err(|_| Status::Memory.number())?;
        Ok(PathDisk::file(FileDisk::at(rt, path, access)))
    }

    /// Another run has the file that a word names open to write to it, as far as that can be seen: it
    /// holds the lock on it. Nothing is made or kept open.
    pub fn has_other_run(&self, rt: &HostRuntime, word: &str) -> bool {
        if word == MEMORY_WORD || self.taken.is_none() || !is_file(rt, word) {
            return false;
        }
        match File::open(rt, word) {
            Ok(file) => matches!(file.try_lock(), Err(TryLockError::WouldBlock)),
            Err(_) => false,
        }
    }
}

/// There is a file at this path.
fn is_file(rt: &HostRuntime, path: &str) -> bool {
    match metadata(rt, path) {
        Ok(found) => found.is_file(),
        Err(_) => false,
    }
}
