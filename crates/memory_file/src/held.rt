//! A file in memory, with all writes and syncs since it was made.
ghost use Rattle.std.specs.Prelude.{◌≡◌, ◌+◌, ◌-◌, ◌<◌, ◌≤◌, ◌^◌, ◌++◌, [], ◌∷◌, true, false, length, reverse, IfOk, IsErr, IsTrue, OnOk, OnErr};
ghost use Rattle.std.proofs.Props.{props};
ghost use Rattle.bench_disk.specs.Disk.{NothingPending, written};
ghost use Rattle.memory_file.specs.Changes.{AreEnded, IsImage, bytes_after};

use crate::changes::{Change, Step};
use bench_disk::FileHandle;
use std::alloc::{AllocError, Global};
use std::io;

/// A file in memory that tells its bytes. Nothing of it is known to outlast a crash until its folder
/// and then the file were synced.
///
/// It fails only where it finds no memory. Places count from 0.
#[derive(Drop)]
pub struct MemoryFile {
    alloc: Global,
    start: Vec<u8>,
    steps: Vec<Step>,
    bytes: Vec<u8>,
    moment: u64,
    most: usize,
    is_entered: bool,
    is_lasting: bool,
    ghost replayed: { bytes.items ≡ bytes_after start.items (reverse steps.items) },
    ghost ended: { AreEnded moment (reverse steps.items) } by { Prim.hlevel props },
    ghost some: { 1 ≤ most },
    ghost lasting: { IsTrue is_lasting →
        NothingPending bytes.items (IsImage start.items (reverse steps.items)) },
}

impl MemoryFile {
    ghost use Rattle.memory_file.specs.Files.{IsNewFile, images_of, reads_of};

    /// A file that holds these bytes, and that reads and writes at most `most` bytes at a call. It takes
    /// the bytes over, and makes one copy of them.
    pub fn of(alloc: Global, bytes: Vec<u8>, most: usize) -> Result<MemoryFile, AllocError>
        requires { 1 ≤ most }
        ensures { IfOk result (λ file. IsNewFile file bytes.items) }
    {
        Ok(MemoryFile {
            alloc,
            start: bytes.to_vec(alloc)?,
            steps: Vec::new(alloc),
            bytes,
            moment: 0,
            most,
            is_entered: false,
            is_lasting: false,
        })
    }

    /// The bytes that it now gives. This is no call of the file.
    pub fn bytes(&self) -> &[u8]
        ensures { result.now ≡ reads_of self.now }
    {
        &self.bytes
    }

    /// Whether its last change is a sync that made all bytes outlast a crash.
    pub fn is_lasting(&self) -> bool
        ensures flag { result ≡ self.now.is_lasting }
        ensures lasting { IsTrue result → NothingPending (reads_of self.now) (images_of self.now) }
    {
        self.is_lasting
    }

    /// The bytes with these in the place of what stands there.
    fn with_written(&self, at: usize, from: &[u8]) -> Result<Vec<u8>, AllocError>
        requires { at ≤ length self.now.bytes.items }
        ensures { IfOk result (λ v. v.items ≡ written self.now.bytes.items at from.now) }
    {
        let mut bytes = self.bytes[..at].to_vec(self.alloc)?;
        bytes.extend_from_slice(from)?;
        let behind = at.saturating_add(from.len());
        if behind < self.bytes.len() {
            bytes.extend_from_slice(&self.bytes[behind..])?;
        }
        Ok(bytes)
    }

    /// Writes, and keeps the change. It takes its memory first.
    fn write(&mut self, at: usize, from: &[u8]) -> Result<(), AllocError>
        requires { at ≤ length self.old.bytes.items }
        ensures ok { OnOk result ((v : _) × (v.items ≡ from.now) × (self.new.steps.items
            ≡ self.old.steps.items
            ++ (record { moment = self.old.moment; change = Change.Wrote at v }) ∷ [])) }
        ensures bytes { OnOk result
            (self.new.bytes.items ≡ written self.old.bytes.items at from.now) }
        ensures err { OnErr result ((self.new.steps.items ≡ self.old.steps.items) ×
            (self.new.bytes.items ≡ self.old.bytes.items)) }
        ensures start { self.new.start.items ≡ self.old.start.items }
        ensures moment { self.new.moment ≡ self.old.moment }
        ensures entered { self.new.is_entered ≡ self.old.is_entered }
    {
        let whole = self.with_written(at, from)?;
        let bytes = from.to_vec(self.alloc)?;
        self.steps.push(Step {
            moment: self.moment,
            change: Change::Wrote {
                at: at as u64,
                bytes,
            },
        })?;
        self.bytes = whole;
        self.is_lasting = false;
        Ok(())
    }
}

/// The error where no memory was found.
fn failed<T>() -> io::Result<T>
    ensures { IsErr result }
{
    Err(io::Error::from(io::ErrorKind::Other))
}

impl FileHandle for MemoryFile {
    const TELLS: bool = true;

    ghost TELLS = { true };

    ghost reads = { λ file. file.bytes.items };

    ghost images = { λ file. IsImage file.start.items (reverse file.steps.items) };

    ghost use Rattle.memory_file.specs.Files.{images_since_of};

    ghost images_since = { images_since_of };

    ghost moment = { λ file. file.moment };

    ghost is_entered = { λ file. file.is_entered };

    ghost use Rattle.memory_file.specs.ChangeLaws as laws;

    ghost reads_is_image = { λ file _. laws.reads_is_image file.start.items
        (reverse file.steps.items) file.bytes.items file.replayed };

    ghost now_counts = { λ file t image _ le now. (
      le,
      laws.now_counts file.start.items
          (reverse file.steps.items) t image now,
    ) };

    ghost earlier_counts = { λ file s t image _ le since. laws.earlier_counts file.start.items
        (reverse file.steps.items) file.moment s t image le since };

    ghost only_now = { λ file image _ since. laws.only_now file.start.items
        (reverse file.steps.items) file.moment image file.ended since.1 };

    fn len(&mut self) -> io::Result<u64> {
        Ok(self.bytes.len() as u64)
    }

    fn read_at(&mut self, at: u64, into: &mut [u8]) -> io::Result<usize> {
        if at >= self.bytes.len() as u64 {
            return Ok(0);
        }
        let rest = &self.bytes[at as usize..];
        let count = rest.len().min(into.len()).min(self.most);
        into[..count].copy_from_slice(&rest[..count]);
        Ok(count)
    }

    fn write_at(&mut self, at: u64, from: &[u8]) -> io::Result<usize> {
        let count = from.len().min(self.most);
        match self.write(at as usize, &from[..count]) {
            Ok(()) => Ok(count),
            Err(_) => failed(),
        }
    }

    fn sync(&mut self) -> io::Result<()> {
        let now = self.moment;
        if !self.is_entered {
            self.moment = now + 1;
            return Ok(());
        }
        let step = Step {
            moment: now,
            change: Change::Synced,
        };
        if self.steps.push(step).is_err() {
            self.moment = now + 1;
            return failed();
        }
        self.moment = now + 1;
        self.is_lasting = true;
        Ok(())
    }

    fn sync_folder(&mut self) -> io::Result<()> {
        self.is_entered = true;
        Ok(())
    }

    fn pause(&mut self) {
        self.moment += 1;
    }
}
