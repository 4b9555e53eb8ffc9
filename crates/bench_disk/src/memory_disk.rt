//! A disk in memory. It keeps what it held at first, and all calls since.
ghost use Rattle.std.specs.Prelude.{◌≡◌, ◌+◌, ◌<◌, ◌≤◌, ◌^◌, ◌++◌, [], ◌∷◌, true, length, reverse, IfOk, OnOk, OnErr};
ghost use Rattle.bench_disk.specs.Calls.{IsImage, IsImageSince, bytes_after};
ghost use Rattle.bench_disk.specs.Disk.{written};

use crate::call::Call;
use crate::torn::{Picks, overwrite, torn};
use crate::{Disk, DiskFault, MOST_LENGTH};
use std::alloc::{AllocError, Global};

/// An honest disk in memory, from which one can ask what a crash leaves.
///
/// Its moment is the number of its calls that were Ok. It fails only where it finds no memory.
#[derive(Drop)]
pub struct MemoryDisk {
    alloc: Global,
    start: Vec<u8>,
    calls: Vec<Call>,
    bytes: Vec<u8>,
    faults: u64,
    ghost replayed: { bytes.items ≡ bytes_after start.items (reverse calls.items) },
    ghost bounded: { length bytes.items ≤ 2 ^ 62 },
}

impl MemoryDisk {
    ghost use Rattle.bench_disk.specs.MemoryDisk.{IsNewDisk, images_of, reads_of, synced_of};

    /// An empty disk.
    pub fn new(alloc: Global) -> MemoryDisk
        ensures { IsNewDisk result [] }
    {
        MemoryDisk {
            alloc,
            start: Vec::new(alloc),
            calls: Vec::new(alloc),
            bytes: Vec::new(alloc),
            faults: 0,
        }
    }

    /// A disk that holds these bytes, with nothing pending. It takes them over, and makes one copy
    /// for what it held at first. More than 2^62 bytes are answered as want of memory.
    pub fn of(alloc: Global, bytes: Vec<u8>) -> Result<MemoryDisk, AllocError>
        ensures { IfOk result (λ disk. IsNewDisk disk bytes.items) }
    {
        if bytes.len() as u64 > MOST_LENGTH {
            return Err(AllocError);
        }
        Ok(MemoryDisk {
            alloc,
            start: bytes.to_vec(alloc)?,
            calls: Vec::new(alloc),
            bytes,
            faults: 0,
        })
    }

    /// The bytes that it now gives. This is no call of the device.
    pub fn bytes(&self) -> &[u8]
        ensures { result.now ≡ reads_of self.now }
    {
        &self.bytes
    }

    /// A disk that holds one image that a crash now may leave.
    ///
    /// Choice 0 leaves out the pending writes, choice 1 has all of them. Each other choice tears
    /// them: it picks the bytes of the ranges written and those past the old end, and where the
    /// file ends.
    pub fn crash(&self, choice: u64) -> Result<MemoryDisk, AllocError>
        ensures image { IfOk result (λ disk. images_of self.now (reads_of disk)) }
        ensures fresh { IfOk result (λ disk. IsNewDisk disk (reads_of disk)) }
        ensures lost { choice ≡ 0 → IfOk result (λ disk. reads_of disk ≡ synced_of self.now) }
        ensures whole { choice ≡ 1 → IfOk result (λ disk. reads_of disk ≡ reads_of self.now) }
    {
        match choice {
            0 => self.without_pending(),
            1 => MemoryDisk::of(self.alloc, self.bytes.to_vec(self.alloc)?),
            _ => self.with_torn(Picks::new(choice)),
        }
    }

    /// The bytes of the last sync.
    fn without_pending(&self) -> Result<MemoryDisk, AllocError>
        ensures fresh { IfOk result (λ disk. IsNewDisk disk (reads_of disk)) }
        ensures lost { IfOk result (λ disk. reads_of disk ≡ synced_of self.now) }
    {
        let mut synced = self.start.to_vec(self.alloc)?;
        let mut bytes = self.start.to_vec(self.alloc)?;
        for call in &self.calls {
            match call {
                Call::Look => {}
                Call::Sync => synced = bytes.to_vec(self.alloc)?,
                Call::Write { at, bytes: from } => overwrite(&mut bytes, *at as usize, from)?,
            }
        }
        MemoryDisk::of(self.alloc, synced)
    }

    /// The bytes of the last sync, torn by each write since.
    fn with_torn(&self, mut picks: Picks) -> Result<MemoryDisk, AllocError>
        ensures image { IfOk result (λ disk. images_of self.now (reads_of disk)) }
        ensures fresh { IfOk result (λ disk. IsNewDisk disk (reads_of disk)) }
    {
        let mut image = self.start.to_vec(self.alloc)?;
        let mut bytes = self.start.to_vec(self.alloc)?;
        for call in &self.calls {
            match call {
                Call::Look => {}
                Call::Sync => image = bytes.to_vec(self.alloc)?,
                Call::Write { at, bytes: from } => {
                    image = torn(self.alloc, &image, *at as usize, from, &mut picks)?;
                    overwrite(&mut bytes, *at as usize, from)?;
                }
            }
        }
        MemoryDisk::of(self.alloc, image)
    }

    /// Writes and keeps the call. It takes its memory first.
    fn write(&mut self, at: usize, from: &[u8]) -> Result<(), AllocError>
        requires { at ≤ length self.old.bytes.items }
        ensures ok { OnOk result ((v : _) × (v.items ≡ from.now) ×
            (self.new.calls.items ≡ self.old.calls.items ++ (Call.Write at v) ∷ [])) }
        ensures bytes { OnOk result (self.new.bytes.items ≡ written self.old.bytes.items at
            from.now) }
        ensures bound { OnOk result (at + length from.now ≤ 2 ^ 62) }
        ensures err { OnErr result ((self.new.calls.items ≡ self.old.calls.items) ×
            (self.new.bytes.items ≡ self.old.bytes.items)) }
        ensures start { self.new.start.items ≡ self.old.start.items }
        ensures faults { self.new.faults ≡ self.old.faults }
    {
        if from.len() as u64 > MOST_LENGTH - at as u64 {
            return Err(AllocError);
        }
        let bytes = from.to_vec(self.alloc)?;
        self.calls.push(Call::Write {
            at: at as u64,
            bytes,
        })?;
        if overwrite(&mut self.bytes, at, from).is_err() {
            self.calls.pop();
            return Err(AllocError);
        }
        Ok(())
    }
}

impl Disk for MemoryDisk {
    const TELLS: bool = true;

    ghost TELLS = { true };

    ghost reads = { λ disk. disk.bytes.items };

    ghost images = { λ disk. IsImage disk.start.items (reverse disk.calls.items) };

    ghost images_since = { λ disk. IsImageSince disk.start.items (reverse disk.calls.items) };

    ghost moment = { λ disk. length disk.calls.items };

    ghost faults = { λ disk. disk.faults };

    ghost use Rattle.bench_disk.specs.CallLaws as laws;

    ghost reads_is_image = { λ disk _. laws.reads_is_image disk.start.items disk.calls.items
        disk.bytes.items disk.replayed };

    ghost now_counts = { λ disk t image _ le now. laws.now_counts disk.start.items disk.calls.items
        t image le now };

    ghost earlier_counts = { λ disk s t image _ le since. laws.earlier_counts disk.start.items
        (reverse disk.calls.items) s t image le since };

    ghost only_now = { λ disk image _ since. laws.only_now disk.start.items disk.calls.items image
        since };

    fn len(&mut self) -> Result<u64, DiskFault> {
        if self.calls.push(Call::Look).is_err() {
            self.faults = self.faults.saturating_add(1);
            return Err(DiskFault);
        }
        Ok(self.bytes.len() as u64)
    }

    fn read_at(&mut self, at: u64, into: &mut [u8]) -> Result<usize, DiskFault> {
        if self.calls.push(Call::Look).is_err() {
            self.faults = self.faults.saturating_add(1);
            return Err(DiskFault);
        }
        if at >= self.bytes.len() as u64 {
            return Ok(0);
        }
        let rest = &self.bytes[at as usize..];
        let count = rest.len().min(into.len());
        into[..count].copy_from_slice(&rest[..count]);
        Ok(count)
    }

    fn write_at(&mut self, at: u64, from: &[u8]) -> Result<(), DiskFault> {
        match self.write(at as usize, from) {
            Ok(()) => Ok(()),
            Err(_) => {
                self.faults = self.faults.saturating_add(1);
                Err(DiskFault)
            }
        }
    }

    fn sync(&mut self) -> Result<(), DiskFault> {
        if self.calls.push(Call::Sync).is_err() {
            self.faults = self.faults.saturating_add(1);
            return Err(DiskFault);
        }
        Ok(())
    }

    fn moment(&self) -> u64 {
        self.calls.len() as u64
    }

    fn faults(&self) -> u64 {
        self.faults
    }
}
