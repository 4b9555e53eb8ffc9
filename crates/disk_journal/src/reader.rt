//! Reading a journal from a disk, frame by frame.
ghost use Rattle.std.specs.Prelude.{◌≡◌, ◌+◌, ◌-◌, ◌≤◌, ◌<◌, ◌^◌, length, take, drop, IfErr, IfNone, IfOk, IfSome, IsErr, MatchBool, MatchOption};
ghost use Rattle.std.specs.Bool.{OnFalse};
ghost use Rattle.bench_disk.specs.Disk.{IsHonest};
ghost use Rattle.disk_journal.specs.Format.{IsPieceCount};
ghost use Rattle.disk_journal.specs.Reads.{OnlyReads};
ghost use Rattle.disk_journal.specs.Refusals.{HasHead, says_nothing_of_file};
ghost use Rattle.disk_journal.specs.Rest.{AddsFrame, BeginsGate, HoldsFrames, IsBrokenAt, IsClosed, IsDamage, IsGateWithin, LacksHead};

use crate::body::read_body;
use crate::gate::{Gate, pieces_of};
use crate::payload::Payload;
use crate::refusal::JournalRefusal;
use bench_disk::{Disk, DiskFault};
use std::alloc::Global;

/// The frames of a journal: the place of the closed gate behind them, and their payloads.
#[derive(Drop)]
pub struct Frames {
    pub gate: u64,
    pub payloads: Vec<Payload>,
}

/// Reads the head of a journal, and tells the pieces of its tables.
pub fn read_head<D: Disk>(disk: &mut D) -> Result<u8, JournalRefusal>
    ensures head { IsHonest D.TELLS → IfOk result (λ pieces. HasHead pieces (D.reads disk.old)) }
    ensures table { IfOk result IsPieceCount }
    ensures refused { IsHonest D.TELLS → IfErr result (LacksHead (D.reads disk.old)) }
    ensures reads { OnlyReads D.Disk disk.old disk.new (result ≡ Err JournalRefusal.DiskFault) }
{
    let mut start = [0; 8];
    let count = disk.read_at(0, &mut start)?;
    match pieces_of(&start[..count]) {
        Some(pieces) => Ok(pieces),
        None => Err(JournalRefusal::NotAJournal),
    }
}

/// What stands at a gate's place, on a disk of `len` bytes.
fn read_gate<D: Disk>(disk: &mut D, len: u64, gate: u64) -> Result<Gate, DiskFault>
    requires len { IsHonest D.TELLS → len ≡ length (D.reads disk.old) }
    requires within { gate ≤ len }
    ensures begins { IsHonest D.TELLS → IfOk result (BeginsGate (drop gate (D.reads disk.old))) }
    ensures within { IfOk result (IsGateWithin (len - gate)) }
    ensures reads { OnlyReads D.Disk disk.old disk.new (IsErr result) }
{
    let mut start = [0; 9];
    let count = disk.read_at(gate, &mut start)?;
    Ok(Gate::of(&start[..count], len - gate))
}

/// What stands at a gate's place. One that looks broken is looked at again if the disk has more
/// bytes by now than were counted: another run may be writing, which opens a gate only when the
/// whole frame stands behind it.
fn find_gate<D: Disk>(disk: &mut D, len: &mut u64, gate: u64) -> Result<Gate, JournalRefusal>
    requires len { IsHonest D.TELLS → len.old ≡ length (D.reads disk.old) }
    requires within { gate ≤ len.old }
    requires bound { len.old ≤ 2 ^ 62 }
    ensures begins { IsHonest D.TELLS → IfOk result (BeginsGate (drop gate (D.reads disk.old))) }
    ensures within { IfOk result (IsGateWithin (len.new - gate)) }
    ensures len { IsHonest D.TELLS → len.new ≡ length (D.reads disk.new) }
    ensures bound { (gate ≤ len.new) × (len.new ≤ 2 ^ 62) }
    ensures refused { IfErr result (λ refusal. refusal ≡ JournalRefusal.DiskFault) }
    ensures reads { OnlyReads D.Disk disk.old disk.new (result ≡ Err JournalRefusal.DiskFault) }
{
    let seen = read_gate(disk, *len, gate)?;
    if !matches!(seen, Gate::Broken) {
        return Ok(seen);
    }
    let count = measure(disk)?;
    if count <= *len {
        return Ok(seen);
    }
    *len = count;
    Ok(read_gate(disk, count, gate)?)
}

/// Fills the buffer with the bytes from place `at` on, and tells whether there were enough.
fn fill<D: Disk>(disk: &mut D, at: u64, into: &mut [u8]) -> Result<bool, DiskFault>
    ensures bytes { IsHonest D.TELLS → IfOk result (λ whole. MatchBool whole
        (into.new ≡ take (length into.old) (drop at (D.reads disk.old)))
        (length (drop at (D.reads disk.old)) < length into.old)) }
    ensures reads { OnlyReads D.Disk disk.old disk.new (IsErr result) }
{
    Ok(disk.read_at(at, into)? == into.len())
}

/// Reads the frame at a gate's place, adds its payloads to those read, and tells the place of the
/// next gate, or none where the gate is closed. The buffer is for its body.
fn read_frame<D: Disk>(
    alloc: Global,
    disk: &mut D,
    len: &mut u64,
    gate: u64,
    text: &mut Vec<u8>,
    payloads: &mut Vec<Payload>,
) -> Result<Option<u64>, JournalRefusal>
    requires len { IsHonest D.TELLS → len.old ≡ length (D.reads disk.old) }
    requires within { gate ≤ len.old }
    requires bound { len.old ≤ 2 ^ 62 }
    ensures frame { IsHonest D.TELLS → IfOk result (λ next. MatchOption next
        (IsClosed (drop gate (D.reads disk.old)))
        (λ n. AddsFrame gate n (D.reads disk.old) payloads.old.items payloads.new.items)) }
    ensures closed { IfOk result (λ next. IfNone next
        ((gate < len.new) × (payloads.new.items ≡ payloads.old.items))) }
    ensures goes { IfOk result (λ next. IfSome next
        (λ n. (gate < n) × (n ≤ len.new) × (length payloads.new.items + gate ≤ length payloads.old.items
        + n))) }
    ensures refused { IsHonest D.TELLS →
        IfErr result (λ e. OnFalse (says_nothing_of_file e)
        (IsBrokenAt gate (drop gate (D.reads disk.old)) e)) }
    ensures len { IsHonest D.TELLS → len.new ≡ length (D.reads disk.new) }
    ensures bound { len.new ≤ 2 ^ 62 }
    ensures reads { OnlyReads D.Disk disk.old disk.new (result ≡ Err JournalRefusal.DiskFault) }
{
    let size = match find_gate(disk, len, gate)? {
        Gate::Closed => return Ok(None),
        Gate::Broken => return Err(JournalRefusal::Damaged(gate)),
        Gate::Open(size) => size,
    };
    text.clear();
    text.resize(size as usize, 0)?;
    if !fill(disk, gate + 9, text)? {
        return Err(JournalRefusal::Damaged(gate));
    }
    if !read_body(alloc, text, gate + 9, payloads)? {
        return Err(JournalRefusal::Damaged(gate));
    }
    Ok(Some(gate + 9 + size))
}

/// Reads the frames of a journal, from behind its head to the first closed gate. The disk had this
/// many bytes when they were counted.
pub fn read_frames<D: Disk>(
    alloc: Global,
    disk: &mut D,
    len: u64,
    pieces: u8,
) -> Result<Frames, JournalRefusal>
    requires len { IsHonest D.TELLS → len ≡ length (D.reads disk.old) }
    requires head { IsHonest D.TELLS → HasHead pieces (D.reads disk.old) }
    requires long { 9 < len }
    requires bound { len ≤ 2 ^ 62 }
    ensures frames { IsHonest D.TELLS →
        IfOk result (λ f. HoldsFrames pieces (D.reads disk.old) f.gate f.payloads.items) }
    ensures bound { IfOk result (λ f. (length f.payloads.items ≤ f.gate) × (f.gate < 2 ^ 62)) }
    ensures refused { IsHonest D.TELLS → IfErr result
        (λ e. OnFalse (says_nothing_of_file e) (IsDamage pieces (D.reads disk.old) e)) }
    ensures reads { OnlyReads D.Disk disk.old disk.new (result ≡ Err JournalRefusal.DiskFault) }
{
    let mut len = len;
    let mut gate = 8;
    let mut text = Vec::new(alloc);
    let mut payloads = Vec::new(alloc);
    while let Some(next) = read_frame(alloc, disk, &mut len, gate, &mut text, &mut payloads)? {
        gate = next;
    }
    Ok(Frames { gate, payloads })
}

/// The number of bytes on a disk.
pub fn measure<D: Disk>(disk: &mut D) -> Result<u64, JournalRefusal>
    ensures len { IsHonest D.TELLS → IfOk result (λ n. n ≡ length (D.reads disk.old)) }
    ensures bound { IfOk result (λ n. n ≤ 2 ^ 62) }
    ensures refused { IfErr result (λ refusal. refusal ≡ JournalRefusal.DiskFault) }
    ensures reads { OnlyReads D.Disk disk.old disk.new (result ≡ Err JournalRefusal.DiskFault) }
{
    Ok(disk.len()?)
}
