//! An open file, as a disk stands on it.
ghost use Rattle.std.specs.Prelude.{◌≡◌, ◌+◌, ◌-◌, ◌<◌, ◌≤◌, ◌^◌, List, ℕ, Bool, IsTrue, length, take, IfOk, OnOk};
ghost use Rattle.bench_disk.specs.Disk.{IsHonest, NothingPending, written};
ghost use Rattle.bench_disk.specs.Handle.{HasReadSome, Looks, Pauses, Syncs, Writes};

use std::io;

/// A file that a disk stands on, as the operating system gives it: a call may do less than was
/// asked, and says how much it did. Places count from 0.
///
/// Several calls make one call of the disk, and all of them lie in one moment, which `sync` and
/// `pause` end; these are not called at the last moment. A file may be new: until the folder that
/// it stands in was synced, a crash may leave anything of it. The clauses speak of honest files
/// alone, those whose type tells its bytes, but for the bounds on counts.
pub trait FileHandle {
    /// Whether this type of file tells its bytes and keeps the clauses on them.
    const TELLS: bool;

    ghost TELLS: { Bool };

    /// The bytes that it now gives.
    ghost reads: { Self → List ℕ };

    /// An image of now: a crash now may leave these bytes.
    ghost images: { Self → List ℕ → Type 0 };

    /// An image since a moment: a crash at some moment since then may have left these bytes.
    ghost images_since: { Self → ℕ → List ℕ → Type 0 };

    /// The moment.
    ghost moment: { Self → ℕ };

    /// Whether the file's entry in its folder outlasts a crash.
    ghost is_entered: { Self → Bool };

    /// How many bytes it has.
    fn len(&mut self) -> io::Result<u64>
        ensures length { IsHonest TELLS → IfOk result (λ n. n ≡ length (reads self.old)) }
        ensures looks { IsHonest TELLS → Looks reads images images_since moment is_entered self.old
            self.new };

    /// Fills the front of `into` with bytes from place `at` on, and gives their count, which is 0
    /// only where the bytes end there or `into` is empty. Behind them `into` stays as it was.
    fn read_at(&mut self, at: u64, into: &mut [u8]) -> io::Result<usize>
        ensures bytes { IsHonest TELLS → IfOk result
            (λ n. HasReadSome at (reads self.old) n into.old into.new) }
        ensures bound { IfOk result (λ n. n ≤ length into.old) }
        ensures looks { IsHonest TELLS → Looks reads images images_since moment is_entered self.old
            self.new };

    /// Writes the front of `from` from place `at` on, and gives the count of the bytes that it
    /// wrote.
    fn write_at(&mut self, at: u64, from: &[u8]) -> io::Result<usize>
        requires { IsHonest TELLS → at ≤ length (reads self.old) }
        ensures written { IsHonest TELLS → IfOk result
            (λ n. reads self.new ≡ written (reads self.old) at (take n from.now)) }
        ensures bound { IfOk result (λ n. n ≤ length from.now) }
        ensures writes { IsHonest TELLS → Writes images images_since moment is_entered at
            (length from.now) self.old self.new };

    /// Makes the bytes outlast a crash, as far as the file's entry in its folder does. It ends the
    /// moment.
    fn sync(&mut self) -> io::Result<()>
        requires { IsHonest TELLS → moment self.old < 2 ^ 64 - 1 }
        ensures durable { IsHonest TELLS → IsTrue (is_entered self.old) →
            OnOk result (NothingPending (reads self.new) (images self.new)) }
        ensures syncs { IsHonest TELLS → Syncs reads images images_since moment is_entered self.old
            self.new };

    /// Makes the file's entry in its folder outlast a crash.
    fn sync_folder(&mut self) -> io::Result<()>
        ensures entered { IsHonest TELLS → OnOk result (IsTrue (is_entered self.new)) }
        ensures looks { IsHonest TELLS → Looks reads images images_since moment is_entered self.old
            self.new };

    /// Ends the moment, and does nothing else.
    fn pause(&mut self)
        requires { IsHonest TELLS → moment self.old < 2 ^ 64 - 1 }
        ensures pauses { IsHonest TELLS → Pauses reads images images_since moment is_entered
            self.old self.new };

    /// A crash now may leave what a read gives.
    ghost reads_is_image: { (file : Self) → IsHonest TELLS → images file (reads file) };

    /// An image of now is one since every moment up to now.
    ghost now_counts: { (file : Self) (t : ℕ) (image : List ℕ) → IsHonest TELLS → t ≤ moment file →
        images file image → images_since file t image };

    /// An image since a moment is one since each earlier moment.
    ghost earlier_counts: { (file : Self) (s t : ℕ) (image : List ℕ) → IsHonest TELLS → s ≤ t →
        images_since file t image → images_since file s image };

    /// An image since the present moment is one of now.
    ghost only_now: { (file : Self) (image : List ℕ) → IsHonest TELLS →
        images_since file (moment file) image → images file image };
}
