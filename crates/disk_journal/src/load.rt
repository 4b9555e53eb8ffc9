//! Reading a journal, and beginning one on a fresh disk.
ghost use Rattle.std.specs.Prelude.{◌≡◌, ◌⊎◌, ◌+◌, ◌≤◌, ◌<◌, ◌^◌, [], ◌∷◌, ◌++◌, ℕ, List, length, map, IfErr, IfOk, OnErr, OnOk};
ghost use Rattle.bench_disk.specs.Disk.{IsHonest, NothingPending};
ghost use Rattle.shared_words.specs.Counts.{HasCause, Rose};
ghost use Rattle.bench_disk.specs.Runs.{Leaves};
ghost use Rattle.disk_journal.specs.Format.{HasPayloads, HasPlaces, IsFresh, IsPieceCount, file_head};
ghost use Rattle.disk_journal.specs.Log.{IsAtRest, StaysOrFresh};
ghost use Rattle.std.specs.Bool.{OnFalse};
ghost use Rattle.shared_words.specs.Answers.{IsExact};
ghost use Rattle.disk_journal.specs.Contents.{IsReadAs, read_contents};
ghost use Rattle.disk_journal.specs.Reads.{OnlyReads};
ghost use Rattle.disk_journal.specs.Refusals.{Explains, ExplainsAny, says_nothing_of_file};
ghost use Rattle.disk_journal.specs.Rest.{HoldsFrames};

use crate::append::write_durably;
use crate::payload::Payload;
use crate::reader::{Frames, measure, read_frames, read_head};
use crate::refusal::JournalRefusal;
use bench_disk::{Disk, DiskFault};
use std::alloc::Global;

/// The most bytes of a file that is taken as a new journal, whatever they are.
pub const MOST_FRESH: u64 = 9;

/// Reads a journal on a disk without writing to it, and tells the pieces of its tables and its
/// payloads, in order. A fresh disk, of at most 9 bytes, gives 2 and no payload.
pub fn read_journal<D: Disk>(
    alloc: Global,
    disk: &mut D,
) -> Result<(u8, Vec<Payload>), JournalRefusal>
    // What the bytes say, or why they are refused: exactly that, unless the disk failed or memory
    // ran out.
    ensures exact { IsHonest D.TELLS → IsExact says_nothing_of_file (IsReadAs (D.reads disk.old))
        (ExplainsAny (D.reads disk.old)) (read_contents result) }
    ensures table { IfOk result (λ r. IsPieceCount r.0) }
    ensures reads { OnlyReads D.Disk disk.old disk.new (result ≡ Err JournalRefusal.DiskFault) }
{
    let len = measure(disk)?;
    if len <= MOST_FRESH {
        return Ok((2, Vec::new(alloc)));
    }
    let pieces = read_head(disk)?;
    let found = read_frames(alloc, disk, len, pieces)?;
    Ok((pieces, found.payloads))
}

/// Reads a journal for tables of these pieces on a disk of `len` bytes.
fn read_asked<D: Disk>(
    alloc: Global,
    disk: &mut D,
    len: u64,
    pieces: u8,
) -> Result<Frames, JournalRefusal>
    requires len { IsHonest D.TELLS → len ≡ length (D.reads disk.old) }
    requires long { 9 < len }
    requires bound { len ≤ 2 ^ 62 }
    ensures frames { IsHonest D.TELLS →
        IfOk result (λ f. HoldsFrames pieces (D.reads disk.old) f.gate f.payloads.items) }
    ensures bound { IfOk result (λ f. (length f.payloads.items ≤ f.gate) × (f.gate < 2 ^ 62)) }
    ensures refused { IsHonest D.TELLS → IfErr result
        (λ e. OnFalse (says_nothing_of_file e) (Explains (D.reads disk.old) pieces e)) }
    ensures reads { OnlyReads D.Disk disk.old disk.new (result ≡ Err JournalRefusal.DiskFault) }
{
    let found = read_head(disk)?;
    if found != pieces {
        return Err(JournalRefusal::OtherTable {
            found,
            asked: pieces,
        });
    }
    read_frames(alloc, disk, len, pieces)
}

/// Writes the head and a closed gate over a fresh disk.
fn begin<D: Disk>(disk: &mut D, pieces: u8) -> Result<(), DiskFault>
    requires table { IsPieceCount pieces }
    requires fresh { IsHonest D.TELLS → IsFresh (D.reads disk.old) }
    requires settled { IsHonest D.TELLS → NothingPending (D.reads disk.old) (D.images disk.old) }
    ensures at_rest { IsHonest D.TELLS →
        OnOk result (IsAtRest D.reads D.images disk.new pieces 8 []) }
    ensures begun { IsHonest D.TELLS → OnOk result (D.reads disk.new ≡ file_head pieces ++ 0 ∷ []) }
    ensures crash { IsHonest D.TELLS → Leaves D.moment D.images_since disk.old disk.new IsFresh }
    ensures later { D.moment disk.old ≤ D.moment disk.new }
    ensures cause { HasCause (D.faults disk.old) (D.faults disk.new) result }
{
    write_durably(
        disk,
        0,
        &[b'D', b'R', b'B', b'E', b'N', b'C', b'H', pieces, 0],
    )
}

/// Reads a journal for tables of these pieces from a disk with nothing pending, or begins one on a
/// fresh disk.
pub fn load<D: Disk>(alloc: Global, disk: &mut D, pieces: u8) -> Result<Frames, JournalRefusal>
    requires table { IsPieceCount pieces }
    requires settled { IsHonest D.TELLS → NothingPending (D.reads disk.old) (D.images disk.old) }
    ensures at_rest { IsHonest D.TELLS →
        IfOk result (λ f. IsAtRest D.reads D.images disk.new pieces f.gate
        (map (λ p. p.bytes.items) f.payloads.items)) }
    ensures payloads { IsHonest D.TELLS →
        IfOk result (λ f. HasPayloads pieces (D.reads disk.old)
        (map (λ p. p.bytes.items) f.payloads.items)) }
    ensures places { IsHonest D.TELLS →
        IfOk result (λ f. HasPlaces pieces (D.reads disk.old) (map (λ p. p.at) f.payloads.items)) }
    ensures bound { IfOk result (λ f. (length f.payloads.items ≤ f.gate) × (f.gate < 2 ^ 62)) }
    ensures begun { IsHonest D.TELLS → IsFresh (D.reads disk.old) →
        OnOk result (D.reads disk.new ≡ file_head pieces ++ 0 ∷ []) }
    ensures unwritten { IsHonest D.TELLS → 9 < length (D.reads disk.old) →
        (D.reads disk.new ≡ D.reads disk.old) ×
        NothingPending (D.reads disk.new) (D.images disk.new) }
    ensures settled { IsHonest D.TELLS →
        OnErr result (NothingPending (D.reads disk.new) (D.images disk.new) ⊎
        Rose (D.faults disk.old) (D.faults disk.new)) }
    ensures refused { IsHonest D.TELLS → IfErr result
        (λ e. OnFalse (says_nothing_of_file e) (Explains (D.reads disk.old) pieces e)) }
    ensures crash { IsHonest D.TELLS → Leaves D.moment D.images_since disk.old disk.new
        (StaysOrFresh (D.images disk.old) (D.reads disk.old)) }
    ensures later { D.moment disk.old ≤ D.moment disk.new }
    ensures faults { D.faults disk.old ≤ D.faults disk.new }
    ensures cause { result ≡ Err JournalRefusal.DiskFault →
        Rose (D.faults disk.old) (D.faults disk.new) }
{
    let len = measure(disk)?;
    if len <= MOST_FRESH {
        begin(disk, pieces)?;
        return Ok(Frames {
            gate: 8,
            payloads: Vec::new(alloc),
        });
    }
    read_asked(alloc, disk, len, pieces)
}
