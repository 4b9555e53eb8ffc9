//! A disk with a written meaning, and disks that fail on purpose.
//!
//! [`Disk`] says what each call of a disk does to the bytes that it gives, and what a crash at any
//! moment may leave of them: between two syncs the ranges written and the bytes past the old end
//! may hold anything, the file may end anywhere past its old end, and all else stays. A disk is
//! honest where its type tells its bytes and keeps this meaning; whoever writes to an honest disk
//! by these clauses can prove what is left after a crash.
//!
//! [`MemoryDisk`] is honest, and gives any image that a crash may leave. [`FuseDisk`] and
//! [`FaultDisk`] fail at the calls that one picks. [`HandleDisk`] is a disk over any
//! [`FileHandle`], which may do less than was asked: [`FileDisk`] is that over a file of the
//! operating system, which tells no content and whose five calls are trusted, and [`ShortDisk`] is
//! that over a file in memory that does little at a call, for tests.
//!
//! Proved: each kind of disk keeps the clauses of `Disk`, and a fault is never answered without its
//! count. `HandleDisk` does so over each handle that keeps the meaning of `FileHandle`: it reads
//! and writes short reads and writes whole or counts a fault, and syncs the file and its folder's
//! entry. Neither handle of this crate tells its bytes, so of these the clauses on bytes say
//! nothing.
//!
//! Tests: journal_tests/src/disks.rt
#![tactic(auto)]

mod call;
mod disk;
mod failing_disk;
mod failing_plan;
mod file_disk;
mod file_handle;
mod handle_disk;
mod memory_disk;
mod short_file;
mod torn;
mod whole;

pub use call::Call;
pub use disk::{Disk, DiskFault, MOST_LENGTH};
pub use failing_disk::{FailingDisk, FaultDisk, FuseDisk};
pub use failing_plan::{FailingCalls, Fuse, Plan};
pub use file_disk::{Access, FileDisk, PathFile};
pub use file_handle::FileHandle;
pub use handle_disk::HandleDisk;
pub use memory_disk::MemoryDisk;
pub use short_file::{ShortDisk, ShortFile};
