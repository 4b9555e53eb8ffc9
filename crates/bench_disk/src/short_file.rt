//! A file in memory that does a part of what is asked.
ghost use Rattle.std.specs.Prelude.{◌≡◌, ◌≤◌, [], false, length, IfOk, IsErr};

use crate::failing_plan::Plan;
use crate::{Disk, FileHandle, HandleDisk, MemoryDisk};
use std::io;

/// A file in memory that reads and writes few bytes at a call, fails the calls that a plan says,
/// and counts its syncs.
///
/// It does not tell its bytes, as a file of the operating system does not: what stands on it has no
/// clause on bytes to rest on, and is tried by tests alone.
#[derive(Drop)]
pub struct ShortFile<P: Plan + Drop> {
    disk: MemoryDisk,
    plan: P,
    most: usize,
    syncs: u64,
    folder_syncs: u64,
}

/// A disk over such a file.
pub type ShortDisk<P> = HandleDisk<ShortFile<P>>;

impl<P: Plan + Drop> HandleDisk<ShortFile<P>> {
    /// The disk over a file that holds what this disk does, and that reads and writes at most
    /// `most` bytes at a call.
    pub fn new(disk: MemoryDisk, plan: P, most: usize) -> ShortDisk<P>
        ensures moment { result.moment ≡ 0 }
        ensures faults { result.faults ≡ 0 }
    {
        HandleDisk::over(ShortFile {
            disk,
            plan,
            most,
            syncs: 0,
            folder_syncs: 0,
        })
    }
}

impl<P: Plan + Drop> ShortFile<P> {
    /// The bytes, and what a crash may leave of them.
    pub fn disk(&self) -> &MemoryDisk
        ensures { result.now ≡ self.now.disk }
    {
        &self.disk
    }

    /// How many syncs were Ok.
    pub fn syncs(&self) -> u64
        ensures { result ≡ self.now.syncs }
    {
        self.syncs
    }

    /// How many syncs of the folder were Ok.
    pub fn folder_syncs(&self) -> u64
        ensures { result ≡ self.now.folder_syncs }
    {
        self.folder_syncs
    }

    /// Fails where the plan says so.
    fn step(&mut self) -> io::Result<()>
        ensures { self.new.disk ≡ self.old.disk }
    {
        if self.plan.step() {
            return Err(io::Error::from(io::ErrorKind::Other));
        }
        Ok(())
    }
}

/// The error for a fault of the disk in memory.
fn failed<T>() -> io::Result<T>
    ensures { IsErr result }
{
    Err(io::Error::from(io::ErrorKind::Other))
}

impl<P: Plan + Drop> FileHandle for ShortFile<P> {
    const TELLS: bool = false;

    ghost TELLS = { false };

    // It tells nothing, so that these say nothing.
    ghost reads = { λ _. [] };

    ghost images = { λ _ _. Unit {0} };

    ghost images_since = { λ _ _ _. Unit {0} };

    ghost moment = { λ _. 0 };

    ghost is_entered = { λ _. false };

    ghost reads_is_image = { λ _ _. tt };

    ghost now_counts = { λ _ _ _ _ _ _. tt };

    ghost earlier_counts = { λ _ _ _ _ _ _ _. tt };

    ghost only_now = { λ _ _ _ _. tt };

    fn len(&mut self) -> io::Result<u64> {
        self.step()?;
        Ok(self.disk.bytes().len() as u64)
    }

    fn read_at(&mut self, at: u64, into: &mut [u8]) -> io::Result<usize> {
        self.step()?;
        let count = into.len().min(self.most);
        match self.disk.read_at(at, &mut into[..count]) {
            Ok(count) => Ok(count),
            Err(_) => failed(),
        }
    }

    fn write_at(&mut self, at: u64, from: &[u8]) -> io::Result<usize> {
        self.step()?;
        if at > self.disk.bytes().len() as u64 {
            return failed();
        }
        let count = from.len().min(self.most);
        match self.disk.write_at(at, &from[..count]) {
            Ok(()) => Ok(count),
            Err(_) => failed(),
        }
    }

    fn sync(&mut self) -> io::Result<()> {
        self.step()?;
        if self.disk.sync().is_err() {
            return failed();
        }
        self.syncs = self.syncs.saturating_add(1);
        Ok(())
    }

    fn sync_folder(&mut self) -> io::Result<()> {
        self.step()?;
        self.folder_syncs = self.folder_syncs.saturating_add(1);
        Ok(())
    }

    fn pause(&mut self) {}
}
