//! Calls of an open file that do all that was asked, or answer that they did not.
ghost use Rattle.std.specs.Prelude.{◌≡◌, ◌+◌, ◌-◌, ◌<◌, ◌≤◌, ◌^◌, IsTrue, length, IfSome, OnSome};
ghost use Rattle.bench_disk.specs.Disk.{HasRead, IsHonest, NothingPending, written};
ghost use Rattle.bench_disk.specs.Handle.{Looks, Syncs, Writes};

use crate::{FileHandle, MOST_LENGTH};

/// How many bytes the file has, where they are at most 2^62.
pub fn measure<F: FileHandle>(file: &mut F) -> Option<u64>
    ensures length { IsHonest F.TELLS → IfSome result (λ n. n ≡ length (F.reads file.old)) }
    ensures bound { IfSome result (λ n. n ≤ 2 ^ 62) }
    ensures looks { IsHonest F.TELLS → Looks F.reads F.images F.images_since F.moment F.is_entered
        file.old file.new }
{
    let len = file.len().ok()?;
    if len <= MOST_LENGTH { Some(len) } else { None }
}

/// Reads until the buffer is full or the file ends.
pub fn read_whole<F: FileHandle>(file: &mut F, at: u64, into: &mut [u8]) -> Option<usize>
    ensures bytes { IsHonest F.TELLS → IfSome result
        (λ n. HasRead at (F.reads file.old) n into.old into.new) }
    ensures bound { IfSome result (λ n. n ≤ length into.old) }
    ensures looks { IsHonest F.TELLS → Looks F.reads F.images F.images_since F.moment F.is_entered
        file.old file.new }
{
    let mut filled = 0;
    while filled < into.len() {
        let place = at.checked_add(filled as u64)?;
        let count = file.read_at(place, &mut into[filled..]).ok()?;
        if count == 0 {
            return Some(filled);
        }
        filled += count;
    }
    Some(filled)
}

/// Writes all of these bytes, where they end at place 2^62 at the latest. A call that writes none
/// of them ends it.
pub fn write_whole<F: FileHandle>(file: &mut F, at: u64, from: &[u8]) -> Option<()>
    requires { IsHonest F.TELLS → at ≤ length (F.reads file.old) }
    ensures written { IsHonest F.TELLS →
        OnSome result (F.reads file.new ≡ written (F.reads file.old) at from.now) }
    ensures bound { OnSome result (at + length from.now ≤ 2 ^ 62) }
    ensures writes { IsHonest F.TELLS →
        Writes F.images F.images_since F.moment F.is_entered at (length from.now)
        file.old file.new }
{
    if at > MOST_LENGTH || from.len() as u64 > MOST_LENGTH - at {
        return None;
    }
    let mut done = 0;
    while done < from.len() {
        let wrote = file.write_at(at + done as u64, &from[done..]).ok()?;
        if wrote == 0 {
            return None;
        }
        done += wrote;
    }
    Some(())
}

/// Makes the bytes outlast a crash, and the file's entry in its folder first, where it does not
/// yet. It ends the moment.
pub fn sync_whole<F: FileHandle>(file: &mut F, is_entered: bool) -> Option<()>
    requires entered { IsHonest F.TELLS → IsTrue is_entered → IsTrue (F.is_entered file.old) }
    requires left { IsHonest F.TELLS → F.moment file.old < 2 ^ 64 - 1 }
    ensures durable { IsHonest F.TELLS →
        OnSome result (NothingPending (F.reads file.new) (F.images file.new)) }
    ensures entered { IsHonest F.TELLS → OnSome result (IsTrue (F.is_entered file.new)) }
    ensures syncs { IsHonest F.TELLS → Syncs F.reads F.images F.images_since F.moment F.is_entered
        file.old file.new }
{
    if !is_entered && file.sync_folder().is_err() {
        file.pause();
        return None;
    }
    file.sync().ok()
}
