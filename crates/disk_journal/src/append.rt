//! Writes that are on the disk when they return.
ghost use Rattle.std.specs.Prelude.{◌≡◌, ◌+◌, ◌<◌, ◌≤◌, ◌^◌, [], ◌∷◌, ◌++◌, List, ℕ, length, take, drop, IfOk, OnOk};
ghost use Rattle.bench_disk.specs.Disk.{IsHonest, IsTorn, NothingPending, written};
ghost use Rattle.shared_words.specs.Counts.{HasCause};
ghost use Rattle.bench_disk.specs.Runs.{Leaves};
ghost use Rattle.disk_journal.specs.Format.{IsFrame, IsJournal, StandsForEither, journal_front};
ghost use Rattle.disk_journal.specs.Gate.{IsClosedAt, IsClosedOrOpened, gate_text};
ghost use Rattle.disk_journal.specs.Log.{IsAtRest};

use bench_disk::{Disk, DiskFault};

/// Writes and syncs.
pub fn write_durably<D: Disk>(disk: &mut D, at: u64, bytes: &[u8]) -> Result<(), DiskFault>
    requires within { IsHonest D.TELLS → at ≤ length (D.reads disk.old) }
    requires settled { IsHonest D.TELLS → NothingPending (D.reads disk.old) (D.images disk.old) }
    ensures written { IsHonest D.TELLS →
        OnOk result (D.reads disk.new ≡ written (D.reads disk.old) at bytes.now) }
    ensures durable { IsHonest D.TELLS →
        OnOk result (NothingPending (D.reads disk.new) (D.images disk.new)) }
    ensures bound { OnOk result (at + length bytes.now ≤ 2 ^ 62) }
    ensures crash { IsHonest D.TELLS → Leaves D.moment D.images_since disk.old disk.new
        (IsTorn at (length bytes.now) (D.reads disk.old)) }
    ensures moment { OnOk result (D.moment disk.new ≡ D.moment disk.old + 2) }
    ensures calls { D.moment disk.new ≤ D.moment disk.old + 2 }
    ensures later { D.moment disk.old ≤ D.moment disk.new }
    ensures cause { HasCause (D.faults disk.old) (D.faults disk.new) result }
{
    disk.write_at(at, bytes)?;
    disk.sync()
}

/// Writes a text behind a closed gate, and opens the gate once the text is durable.
pub fn append_text<D: Disk>(disk: &mut D, gate: u64, text: &[u8]) -> Result<(), DiskFault>
    requires bound { gate < 2 ^ 62 }
    requires closed { IsHonest D.TELLS → IsClosedAt gate (D.reads disk.old) }
    requires settled { IsHonest D.TELLS → NothingPending (D.reads disk.old) (D.images disk.old) }
    ensures opened { IsHonest D.TELLS →
        OnOk result (D.reads disk.new ≡ take gate (D.reads disk.old) ++ 1 ∷ text.now ++ drop
        (gate + 1 + length text.now) (D.reads disk.old)) }
    ensures durable { IsHonest D.TELLS →
        OnOk result (NothingPending (D.reads disk.new) (D.images disk.new)) }
    ensures bound { OnOk result (gate + 1 + length text.now ≤ 2 ^ 62) }
    ensures crash { IsHonest D.TELLS → Leaves D.moment D.images_since disk.old disk.new
        (IsClosedOrOpened gate text.now (D.reads disk.old)) }
    ensures moment { OnOk result (D.moment disk.new ≡ D.moment disk.old + 4) }
    ensures calls { D.moment disk.new ≤ D.moment disk.old + 4 }
    ensures cause { HasCause (D.faults disk.old) (D.faults disk.new) result }
{
    write_durably(disk, gate + 1, text)?;
    write_durably(disk, gate, &[1])
}

/// Appends a frame to a journal, of whatever payloads the text is, and tells the place of the next
/// gate.
pub fn append_frame<D: Disk>(disk: &mut D, gate: u64, text: &[u8]) -> Result<u64, DiskFault>
    requires bound { gate < 2 ^ 62 }
    requires text { (staged : List (List ℕ)) × IsFrame staged × (text.now ≡ gate_text staged) }
    requires at_rest { IsHonest D.TELLS → (pieces : ℕ) × (payloads : List (List ℕ)) ×
        IsAtRest D.reads D.images disk.old pieces gate payloads }
    ensures at_rest { IsHonest D.TELLS → (pieces : ℕ) (payloads staged : List (List ℕ)) →
        IsFrame staged → text.now ≡ gate_text staged →
        IsAtRest D.reads D.images disk.old pieces gate payloads →
        IfOk result (λ next. IsAtRest D.reads D.images disk.new pieces next (payloads ++ staged)) }
    ensures frame { IsHonest D.TELLS → (pieces : ℕ) (frames : List (List (List ℕ)))
        (staged : List (List ℕ)) → IsFrame staged → text.now ≡ gate_text staged →
        gate ≡ length (journal_front pieces frames) →
        IsJournal pieces frames (D.reads disk.old) →
        OnOk result (IsJournal pieces (frames ++ staged ∷ []) (D.reads disk.new)) }
    ensures crash { IsHonest D.TELLS → (pieces : ℕ) (payloads staged : List (List ℕ)) →
        IsFrame staged → text.now ≡ gate_text staged →
        IsAtRest D.reads D.images disk.old pieces gate payloads →
        Leaves D.moment D.images_since disk.old disk.new
        (StandsForEither pieces payloads (payloads ++ staged)) }
    ensures bound { IfOk result (λ next. (next ≡ gate + length text.now) × (next < 2 ^ 62)) }
    ensures moment { OnOk result (D.moment disk.new ≡ D.moment disk.old + 4) }
    ensures calls { D.moment disk.new ≤ D.moment disk.old + 4 }
    ensures cause { HasCause (D.faults disk.old) (D.faults disk.new) result }
{
    append_text(disk, gate, text)?;
    Ok(gate + text.len() as u64)
}
