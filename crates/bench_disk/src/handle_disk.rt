//! A disk over an open file.
ghost use Rattle.std.specs.Prelude.{◌≡◌, ◌+◌, ◌-◌, ◌<◌, ◌≤◌, ◌^◌, IsTrue, IfOk, IsErr, OnErr, OnOk, Some};
ghost use Rattle.bench_disk.specs.Disk.{IsHonest};
ghost use Rattle.shared_words.specs.Counts.{HasCause};

use crate::whole::{measure, read_whole, sync_whole, write_whole};
use crate::{Disk, DiskFault, FileHandle};

/// A disk over a file that does less than was asked when it likes, and that says how much it did.
///
/// A call reads and writes on until all is done, or the file fails, or it writes nothing. A sync
/// covers the bytes and the length, and the first one also the file's entry in its folder, since
/// the file may be new. It tells its bytes where the file does.
#[derive(Drop)]
pub struct HandleDisk<F: FileHandle + Drop> {
    file: F,
    is_entered: bool,
    moment: u64,
    faults: u64,
    ghost in_step: { IsHonest F.TELLS → F.moment file ≡ moment },
    ghost entered: { IsHonest F.TELLS → IsTrue is_entered → IsTrue (F.is_entered file) },
}

impl<F: FileHandle + Drop> HandleDisk<F> {
    /// The disk over a file, which is in its first moment.
    pub fn over(file: F) -> HandleDisk<F>
        requires { IsHonest F.TELLS → F.moment file ≡ 0 }
        ensures file { result.file ≡ file }
        ensures moment { result.moment ≡ 0 }
        ensures faults { result.faults ≡ 0 }
    {
        HandleDisk {
            file,
            is_entered: false,
            moment: 0,
            faults: 0,
        }
    }

    /// The file.
    pub fn file(&self) -> &F
        ensures { result.now ≡ self.now.file }
    {
        &self.file
    }

    /// Refuses a call at the last moment, before it reaches the file.
    fn start(&mut self) -> Result<(), DiskFault>
        ensures file { self.new.file ≡ self.old.file }
        ensures moment { self.new.moment ≡ self.old.moment }
        ensures left { OnOk result (self.old.moment < 2 ^ 64 - 1) }
        ensures last { OnErr result (self.old.moment ≡ 2 ^ 64 - 1) }
        ensures entered { self.new.is_entered ≡ self.old.is_entered }
        ensures cause { HasCause self.old.faults self.new.faults result }
    {
        if self.moment == u64::MAX {
            self.faults = self.faults.saturating_add(1);
            return Err(DiskFault);
        }
        Ok(())
    }

    /// Counts it where the file did not do what was asked.
    fn counted<T: Drop>(&mut self, outcome: Option<T>) -> Result<T, DiskFault>
        ensures value { IfOk result (λ value. outcome ≡ Some value) }
        ensures file { self.new.file ≡ self.old.file }
        ensures moment { self.new.moment ≡ self.old.moment }
        ensures cause { HasCause self.old.faults self.new.faults result }
    {
        match outcome {
            Some(value) => Ok(value),
            None => {
                self.faults = self.faults.saturating_add(1);
                Err(DiskFault)
            }
        }
    }
}

impl<F: FileHandle + Drop> Disk for HandleDisk<F> {
    const TELLS: bool = F::TELLS;

    ghost TELLS = { F.TELLS };

    ghost reads = { λ disk. F.reads disk.file };

    ghost images = { λ disk. F.images disk.file };

    ghost images_since = { λ disk. F.images_since disk.file };

    ghost moment = { λ disk. disk.moment };

    ghost faults = { λ disk. disk.faults };

    ghost use Rattle.bench_disk.specs.HandleLaws as laws;

    ghost reads_is_image = { λ disk. F.reads_is_image disk.file };

    ghost now_counts = { λ disk t image tells le now. laws.now_counts F.images F.images_since
        F.moment (λ file s i. F.now_counts file s i tells) disk.file disk.moment t image
        (disk.in_step tells) le now };

    ghost earlier_counts = { λ disk. F.earlier_counts disk.file };

    ghost only_now = { λ disk image tells since. laws.only_now F.images F.images_since F.moment
        (λ file i. F.only_now file i tells) disk.file disk.moment image
        (disk.in_step tells) since };

    fn len(&mut self) -> Result<u64, DiskFault> {
        self.start()?;
        let outcome = measure(&mut self.file);
        self.file.pause();
        self.moment += 1;
        self.counted(outcome)
    }

    fn read_at(&mut self, at: u64, into: &mut [u8]) -> Result<usize, DiskFault> {
        self.start()?;
        let outcome = read_whole(&mut self.file, at, into);
        self.file.pause();
        self.moment += 1;
        self.counted(outcome)
    }

    fn write_at(&mut self, at: u64, from: &[u8]) -> Result<(), DiskFault> {
        self.start()?;
        let outcome = write_whole(&mut self.file, at, from);
        self.file.pause();
        self.moment += 1;
        self.counted(outcome)
    }

    fn sync(&mut self) -> Result<(), DiskFault> {
        self.start()?;
        let outcome = sync_whole(&mut self.file, self.is_entered);
        self.moment += 1;
        self.is_entered |= outcome.is_some();
        self.counted(outcome)
    }

    fn moment(&self) -> u64 {
        self.moment
    }

    fn faults(&self) -> u64 {
        self.faults
    }
}
