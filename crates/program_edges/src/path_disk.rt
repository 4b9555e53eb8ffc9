//! The disk that a word names.
ghost use Rattle.std.specs.Prelude.{◌≡◌, ◌+◌, ◌-◌, ◌≤◌, ◌^◌, [], false, length, min, IfOk};
ghost use Rattle.bench_disk.specs.Disk.{IsHonest};
ghost use Rattle.shared_words.specs.Counts.{one_more};
ghost use Rattle.program_edges.specs.Below.{IsOnFile, IsOnNothing};
ghost use Rattle.program_edges.specs.declared.path_disk.Below.TheVariants as below;

use bench_disk::{Disk, DiskFault, FileDisk, MemoryDisk};
use std::fs::{File, Files};
use std::io;

/// What stands below: the disk over a file, a disk in memory, or nothing.
#[derive(Drop)]
pub(crate) enum Below<F: Disk> {
    File(F),
    Memory(MemoryDisk),
    Nothing,
}

/// The disk that a word names: over a file, in memory, or one of which each call fails. So the call
/// that works on it is made once, and not once for each kind of disk.
///
/// It tells nothing, whatever stands below, since the disk over a file does not. Its moment is that
/// of the disk below. Its faults are those of that disk, and the calls that it refused itself: each
/// call where nothing stands below, and a write past the end of a disk in memory.
#[derive(Drop)]
pub struct PathDisk<F: Disk> {
    pub(crate) below: Below<F>,
    refused: u64,
    ghost silent: { IsHonest F.TELLS → ⊥ },
}

impl<F: Disk> PathDisk<F> {
    /// The disk over a file.
    pub fn file(disk: F) -> PathDisk<F>
        requires { F.TELLS ≡ false }
        ensures below { IsOnFile (λ under. under ≡ disk) result.below }
        ensures refused { result.refused ≡ 0 }
    {
        PathDisk {
            below: Below::File(disk),
            refused: 0,
        }
    }

    /// A disk in memory.
    pub fn memory(disk: MemoryDisk) -> PathDisk<F>
        requires { F.TELLS ≡ false }
        ensures below { result.below ≡ below.Memory disk }
        ensures refused { result.refused ≡ 0 }
    {
        PathDisk {
            below: Below::Memory(disk),
            refused: 0,
        }
    }

    /// No disk: each call fails.
    pub fn nothing() -> PathDisk<F>
        requires { F.TELLS ≡ false }
        ensures below { IsOnNothing result.below }
        ensures refused { result.refused ≡ 0 }
    {
        PathDisk {
            below: Below::Nothing,
            refused: 0,
        }
    }
}

impl<R: Files<File = File> + Drop> PathDisk<FileDisk<R>> {
    /// The word names a file that is not there, and none was made.
    pub fn is_missing(&self) -> bool {
        match &self.below {
            Below::File(disk) => disk.file().is_missing(),
            Below::Memory(_) => false,
            Below::Nothing => false,
        }
    }

    /// What the system said when it last refused a call.
    pub fn cause(&self) -> Option<io::ErrorKind> {
        match &self.below {
            Below::File(disk) => disk.file().cause(),
            Below::Memory(_) => None,
            Below::Nothing => None,
        }
    }
}

/// Counts a call that reaches no disk, and refuses it.
fn refusal(refused: &mut u64) -> DiskFault
    ensures { refused.new ≡ one_more refused.old }
{
    *refused = refused.saturating_add(1);
    DiskFault
}

impl<F: Disk> Disk for PathDisk<F> {
    ghost use Rattle.program_edges.specs.PathDisk.{faults_of, moment_of};

    const TELLS: bool = false;

    ghost TELLS = { false };

    // It tells nothing, so that these say nothing.
    ghost reads = { λ _. [] };

    ghost images = { λ _ _. Unit {0} };

    ghost images_since = { λ _ _ _. Unit {0} };

    ghost moment = { moment_of F.Disk };

    ghost faults = { faults_of F.Disk };

    ghost reads_is_image = { λ _ _. tt };

    ghost now_counts = { λ _ _ _ _ _ _. tt };

    ghost earlier_counts = { λ _ _ _ _ _ _ _. tt };

    ghost only_now = { λ _ _ _ _. tt };

    fn len(&mut self) -> Result<u64, DiskFault> {
        match &mut self.below {
            Below::File(disk) => disk.len(),
            Below::Memory(disk) => disk.len(),
            Below::Nothing => Err(refusal(&mut self.refused)),
        }
    }

    fn read_at(&mut self, at: u64, into: &mut [u8]) -> Result<usize, DiskFault> {
        match &mut self.below {
            Below::File(disk) => disk.read_at(at, into),
            Below::Memory(disk) => disk.read_at(at, into),
            Below::Nothing => Err(refusal(&mut self.refused)),
        }
    }

    fn write_at(&mut self, at: u64, from: &[u8]) -> Result<(), DiskFault> {
        match &mut self.below {
            Below::File(disk) => disk.write_at(at, from),
            // No clause keeps who writes to a disk that tells nothing from a place past its end, and
            // a disk in memory has none there.
            Below::Memory(disk) if at > disk.bytes().len() as u64 => Err(refusal(
                &mut self.refused,
            )),
            Below::Memory(disk) => disk.write_at(at, from),
            Below::Nothing => Err(refusal(&mut self.refused)),
        }
    }

    fn sync(&mut self) -> Result<(), DiskFault> {
        match &mut self.below {
            Below::File(disk) => disk.sync(),
            Below::Memory(disk) => disk.sync(),
            Below::Nothing => Err(refusal(&mut self.refused)),
        }
    }

    fn moment(&self) -> u64 {
        match &self.below {
            Below::File(disk) => disk.moment(),
            Below::Memory(disk) => disk.moment(),
            Below::Nothing => 0,
        }
    }

    fn faults(&self) -> u64 {
        let faults = match &self.below {
            Below::File(disk) => disk.faults(),
            Below::Memory(disk) => disk.faults(),
            Below::Nothing => 0,
        };
        faults.saturating_add(self.refused)
    }
}
