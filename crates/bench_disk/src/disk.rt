//! A disk as the layers above see it.
ghost use Rattle.std.specs.Prelude.{◌≡◌, ◌+◌, ◌≤◌, ◌^◌, List, ℕ, Bool, length, IfOk, OnOk};
ghost use Rattle.bench_disk.specs.Disk.{HasRead, IsHonest, NothingPending, written};
ghost use Rattle.bench_disk.specs.Runs.{IsCall, OnlyLooks, OnlySyncs, OnlyWrites};

use thiserror::Error;

/// The most bytes that a disk holds.
pub const MOST_LENGTH: u64 = 1 << 62;

/// The disk refused a call, and counted that.
#[derive(Clone, Copy, Debug, PartialEq, Eq, Error)]
#[error("the disk refused a call")]
pub struct DiskFault;

/// Bytes that outlast the program, as far as they were synced. Places count from 0.
///
/// Every clause on bytes and images speaks of honest disks alone, those whose type tells its bytes.
/// The clauses on the moment, on the faults and on counts hold of every disk.
pub trait Disk {
    /// Whether this type of disk tells its bytes and keeps the clauses on them.
    const TELLS: bool;

    ghost TELLS: { Bool };

    /// The bytes that it now gives.
    ghost reads: { Self → List ℕ };

    /// An image of now: a crash now may leave these bytes.
    ghost images: { Self → List ℕ → Type 0 };

    /// An image since a moment: a crash at some moment since then may have left these bytes.
    ghost images_since: { Self → ℕ → List ℕ → Type 0 };

    /// The moment, which each call that is Ok raises by one, and each failed one by at most one.
    ghost moment: { Self → ℕ };

    /// How many faults there were, up to the last value of a `u64`.
    ghost faults: { Self → ℕ };

    /// How many bytes it has.
    fn len(&mut self) -> Result<u64, DiskFault>
        ensures length { IsHonest TELLS → IfOk result (λ n. n ≡ length (reads self.old)) }
        ensures bound { IfOk result (λ n. n ≤ 2 ^ 62) }
        ensures looks { IsHonest TELLS → OnlyLooks reads images images_since moment self.old
            self.new }
        ensures call { IsCall moment faults self.old self.new result };

    /// Fills the front of `into` with the bytes from place `at` on, and gives their count. It is
    /// less than asked only where the bytes end. Behind them `into` stays as it was; after a fault
    /// it may hold anything.
    fn read_at(&mut self, at: u64, into: &mut [u8]) -> Result<usize, DiskFault>
        ensures bytes { IsHonest TELLS → IfOk result
            (λ n. HasRead at (reads self.old) n into.old into.new) }
        ensures bound { IfOk result (λ n. n ≤ length into.old) }
        ensures looks { IsHonest TELLS → OnlyLooks reads images images_since moment self.old
            self.new }
        ensures call { IsCall moment faults self.old self.new result };

    /// Writes these bytes from place `at` on, over what stands there and past the end. A write that
    /// would end past place 2^62 is refused.
    fn write_at(&mut self, at: u64, from: &[u8]) -> Result<(), DiskFault>
        requires { IsHonest TELLS → at ≤ length (reads self.old) }
        ensures written { IsHonest TELLS → OnOk result
            (reads self.new ≡ written (reads self.old) at from.now) }
        ensures bound { OnOk result (at + length from.now ≤ 2 ^ 62) }
        ensures writes { IsHonest TELLS → OnlyWrites images images_since moment at (length from.now)
            self.old self.new }
        ensures call { IsCall moment faults self.old self.new result };

    /// Makes what was written outlast a crash: behind it nothing is pending.
    fn sync(&mut self) -> Result<(), DiskFault>
        ensures durable { IsHonest TELLS → OnOk result
            (NothingPending (reads self.new) (images self.new)) }
        ensures syncs { IsHonest TELLS → OnlySyncs reads images images_since moment self.old
            self.new }
        ensures call { IsCall moment faults self.old self.new result };

    /// The moment. This is no call of the device.
    fn moment(&self) -> u64
        ensures { result ≡ moment self.now };

    /// The count of faults. This is no call of the device.
    fn faults(&self) -> u64
        ensures { result ≡ faults self.now };

    /// A crash now may leave what a read gives.
    ghost reads_is_image: { (disk : Self) → IsHonest TELLS → images disk (reads disk) };

    /// An image of now is one since every moment up to now.
    ghost now_counts: { (disk : Self) (t : ℕ) (image : List ℕ) → IsHonest TELLS → t ≤ moment disk →
        images disk image → images_since disk t image };

    /// An image since a moment is one since each earlier moment.
    ghost earlier_counts: { (disk : Self) (s t : ℕ) (image : List ℕ) → IsHonest TELLS → s ≤ t →
        images_since disk t image → images_since disk s image };

    /// An image since the present moment is one of now.
    ghost only_now: { (disk : Self) (image : List ℕ) → IsHonest TELLS →
        images_since disk (moment disk) image → images disk image };
}
