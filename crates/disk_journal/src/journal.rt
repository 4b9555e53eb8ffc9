//! A journal that is attached to its disk.
ghost use Rattle.std.specs.Prelude.{◌≡◌, ◌≢◌, ◌⊎◌, ◌+◌, ◌≤◌, ◌<◌, ◌^◌, ◌↔◌, ◌++◌, [], ◌∷◌, ℕ, List, length, map, IsTrue, IsOk, IsErr, IfErr, IfOk, OnOk, OnErr, MatchResult, false};
ghost use Rattle.bench_disk.specs.Disk.{IsHonest, NothingPending};
ghost use Rattle.shared_words.specs.Counts.{HasCause, Rose};
ghost use Rattle.bench_disk.specs.Runs.{Leaves};
ghost use Rattle.disk_journal.specs.Format.{HasPayloads, IsFresh, IsJournal, IsPieceCount, StandsBetween, StandsForEither, file_head};
ghost use Rattle.shared_words.specs.Answers.{IsExact};
ghost use Rattle.disk_journal.specs.Contents.{IsAttachedAs, attached_contents};
ghost use Rattle.disk_journal.specs.Refusals.{Explains, says_nothing_of_file};

use crate::append::append_frame;
use crate::frame::Frame;
use crate::load::load;
use crate::payload::Payload;
use crate::refusal::JournalRefusal;
use bench_disk::{Disk, DiskFault};
use std::alloc::{AllocError, Global};
use std::marker::Model;

const MOST_PAYLOAD: usize = (1 << 32) - 1;

/// How many payloads stand in the journal, acknowledged at that moment of the disk.
#[derive(Clone, Copy, Debug, PartialEq, Eq)]
pub struct Receipt {
    pub number: u64,
    pub moment: u64,
}

/// A journal on a disk, to which payloads are staged and then committed.
///
/// On an honest disk a crash at any moment leaves the payloads that were acknowledged, and of those
/// that are being committed all or none. Clauses on payloads speak of honest disks.
#[derive(Drop)]
pub struct Journal<D: Disk> {
    disk: D,
    pieces: u8,
    // What is staged.
    frame: Frame,
    // The place of the closed gate.
    gate: u64,
    count: u64,
    opened: u64,
    failed: bool,
}

impl<D: Disk> Model for Journal<D> {
    ghost use Rattle.disk_journal.specs.Log.{IsSoundJournal, Log};

    ghost Value = { Log D };

    ghost view = { λ j. record {
      disk = j.disk;
      pieces = j.pieces;
      staged = j.frame;
      count =
          j.count;
      opened = j.opened;
      failed = j.failed;
    } };

    ghost invariant = { λ j. IsSoundJournal D.TELLS D.reads D.images j.disk j.pieces j.gate j.count
        j.failed };
}

impl<D: Disk> Journal<D> {
    ghost use Rattle.disk_journal.specs.Log.{StandsSince, StaysOrFresh};

    /// Reads the journal on a disk, or begins one on a fresh disk, of at most 9 bytes, whatever
    /// they are. The payloads come in order, each with its place.
    ///
    /// It begins with the opening sync. Only on a fresh disk it writes: a head and a closed gate.
    /// Every refusal hands the disk back.
    pub fn attach(
        alloc: Global,
        disk: D,
        pieces: u8,
    ) -> Result<(Journal<D>, Vec<Payload>), (D, JournalRefusal)>
        requires { IsPieceCount pieces }

        // What the bytes say, or why they are refused: exactly that, unless the disk failed or
        // memory ran out.
        ensures exact { IsHonest D.TELLS → IsExact says_nothing_of_file
            (IsAttachedAs (D.reads disk) pieces) (Explains (D.reads disk) pieces)
            (attached_contents result) }

        // The disk still reads as the payloads that it read as.
        ensures same { IsHonest D.TELLS → IfOk result
            (λ r. HasPayloads pieces (D.reads r.0.disk) (map (λ p. p.bytes.items) r.1.items)) }
        ensures begun { IsHonest D.TELLS → IsFresh (D.reads disk) →
            IfOk result (λ r. D.reads r.0.disk ≡ file_head pieces ++ 0 ∷ []) }
        ensures unwritten { IsHonest D.TELLS → 9 < length (D.reads disk) →
            MatchResult result (λ r. D.reads r.0.disk ≡ D.reads disk)
            (λ e. D.reads e.0 ≡ D.reads disk) }
        ensures state { IfOk result (λ r. (r.0.pieces ≡ pieces) × (r.0.staged ≡ []) ×
            (r.0.count ≡ length r.1.items) × (r.0.failed ≡ false)) }

        // The moment behind the opening sync, since which each crash leaves these payloads.
        ensures opened { IfOk result (λ r. r.0.opened ≡ D.moment disk + 1) }
        ensures reached { IfOk result (λ r. r.0.opened ≤ D.moment r.0.disk) }
        ensures durable { IsHonest D.TELLS →
            IfOk result (λ r. NothingPending (D.reads r.0.disk) (D.images r.0.disk)) }
        ensures since_opened { IsHonest D.TELLS →
            IfOk result (λ r. (payloads : List (List ℕ)) →
            HasPayloads pieces (D.reads disk) payloads →
            StandsSince D.images_since r.0.disk r.0.opened pieces payloads payloads) }

        // A crash since the call began leaves what it might have left before, or a fresh file of a
        // fresh one.
        ensures crash { IsHonest D.TELLS → MatchResult result
            (λ r. Leaves D.moment D.images_since disk r.0.disk
            (StaysOrFresh (D.images disk) (D.reads disk)))
            (λ e. Leaves D.moment D.images_since disk e.0
            (StaysOrFresh (D.images disk) (D.reads disk))) }

        // The disk's faults, for which alone a disk's fault is answered.
        ensures cause { MatchResult result (λ r. D.faults disk ≤ D.faults r.0.disk)
            (λ e. (D.faults disk ≤ D.faults e.0) ×
            (e.1 ≡ JournalRefusal.DiskFault → Rose (D.faults disk) (D.faults e.0))) }

        // A refusal leaves nothing pending where nothing was, unless faults rose on a fresh disk.
        ensures settled { IsHonest D.TELLS → NothingPending (D.reads disk) (D.images disk) →
            IfErr result (λ e. NothingPending (D.reads e.0) (D.images e.0) ⊎
            (IsFresh (D.reads disk) × Rose (D.faults disk) (D.faults e.0))) }
    {
        let mut disk = disk;
        let frame = match Frame::new(alloc) {
            Ok(frame) => frame,
            Err(error) => return Err((disk, JournalRefusal::Memory(error))),
        };
        if disk.sync().is_err() {
            return Err((disk, JournalRefusal::DiskFault));
        }
        let opened = disk.moment();
        match load(alloc, &mut disk, pieces) {
            Ok(found) => Ok((
                Journal {
                    disk,
                    pieces,
                    frame,
                    gate: found.gate,
                    count: found.payloads.len() as u64,
                    opened,
                    failed: false,
                },
                found.payloads,
            )),
            Err(refusal) => Err((disk, refusal)),
        }
    }

    /// Stages a payload, which `commit` then makes durable with all others that are staged. It
    /// makes the room of the whole frame, so that `commit` takes no memory. A payload of 2^32 bytes
    /// or more is answered as want of memory.
    pub fn stage(&mut self, payload: &[u8]) -> Result<(), AllocError>
        requires unfailed { self.old.failed ≡ false }
        requires some { 0 < length payload.now }
        ensures ok { OnOk result (self.new ≡ record self.old
            { staged = self.old.staged ++ payload.now ∷ [] }) }
        ensures err { OnErr result (self.new ≡ self.old) }
    {
        if payload.len() > MOST_PAYLOAD {
            return Err(AllocError);
        }
        self.frame.push(payload)
    }

    /// Drops the payload that was staged last.
    pub fn unstage(&mut self)
        requires { 0 < length self.old.staged }
        ensures staged { (last : List ℕ) × (self.old.staged ≡ self.new.staged ++ last ∷ []) }
        ensures rest { self.new ≡ record self.old { staged = self.new.staged } }
    {
        self.frame.pop();
    }

    /// Makes the staged payloads durable, in order and in one frame, and leaves none staged. It
    /// writes the frame and the next gate, closed, syncs, opens the gate before the frame and
    /// syncs: four calls of the device, whatever is staged. With nothing staged it makes none.
    ///
    /// After a fault the journal is failed, and its payloads are known again only after a new
    /// `attach`.
    pub fn commit(&mut self) -> Result<Receipt, DiskFault>
        requires { self.old.failed ≡ false }

        // The receipt, and the journal behind it.
        ensures number { IfOk result (λ receipt. receipt.number ≡ self.new.count) }
        ensures moment { IfOk result (λ receipt. receipt.moment ≡ D.moment self.new.disk) }
        ensures count { OnOk result (self.new.count ≡ self.old.count + length self.old.staged) }
        ensures staged { OnOk result (self.new.staged ≡ []) }
        ensures calls { D.moment self.new.disk ≤ D.moment self.old.disk + 4 }
        ensures four { self.old.staged ≢ [] →
            OnOk result (D.moment self.new.disk ≡ D.moment self.old.disk + 4) }
        ensures idle { self.old.staged ≡ [] → (self.new.disk ≡ self.old.disk) × IsOk result }
        ensures stays { (self.new.pieces ≡ self.old.pieces) × (self.new.opened ≡ self.old.opened) }

        // The disk then reads as the payloads of before and the staged ones, with nothing pending.
        ensures payloads { IsHonest D.TELLS → (payloads : List (List ℕ)) →
            HasPayloads self.old.pieces (D.reads self.old.disk) payloads →
            OnOk result (HasPayloads self.old.pieces (D.reads self.new.disk)
            (payloads ++ self.old.staged)) }
        ensures durable { IsHonest D.TELLS →
            OnOk result (NothingPending (D.reads self.new.disk) (D.images self.new.disk)) }

        // All that was staged stands in one frame, the last one.
        ensures frame { IsHonest D.TELLS → self.old.staged ≢ [] → (frames : List (List (List ℕ))) →
            IsJournal self.old.pieces frames (D.reads self.old.disk) →
            OnOk result (IsJournal self.old.pieces (frames ++ self.old.staged ∷ [])
            (D.reads self.new.disk)) }

        // A crash since the call began leaves the payloads of before, with all of the staged ones
        // or with none.
        ensures atomic { IsHonest D.TELLS → (payloads : List (List ℕ)) →
            HasPayloads self.old.pieces (D.reads self.old.disk) payloads →
            Leaves D.moment D.images_since self.old.disk self.new.disk
            (StandsForEither self.old.pieces payloads (payloads ++ self.old.staged)) }
        ensures crash { IsHonest D.TELLS → (payloads : List (List ℕ)) →
            HasPayloads self.old.pieces (D.reads self.old.disk) payloads →
            Leaves D.moment D.images_since self.old.disk self.new.disk
            (StandsBetween self.old.pieces payloads (payloads ++ self.old.staged)) }

        // What was acknowledged at an earlier moment stays so.
        ensures kept { IsHonest D.TELLS → (t : ℕ) (low payloads : List (List ℕ)) →
            t ≤ D.moment self.old.disk → HasPayloads self.old.pieces (D.reads self.old.disk)
            payloads →
            StandsSince D.images_since self.old.disk t self.old.pieces low payloads →
            StandsSince D.images_since self.new.disk t self.old.pieces low
            (payloads ++ self.old.staged) }

        // A crash since the receipt's moment leaves all payloads.
        ensures acknowledged { IsHonest D.TELLS →
            IfOk result (λ receipt. (payloads : List (List ℕ)) →
            HasPayloads self.old.pieces (D.reads self.new.disk) payloads →
            StandsSince D.images_since self.new.disk receipt.moment self.old.pieces payloads
            payloads) }

        // A fault, which leaves the journal failed.
        ensures failed { IsTrue self.new.failed ↔ IsErr result }
        ensures unchanged { OnErr result ((self.new.staged ≡ self.old.staged) ×
            (self.new.count ≡ self.old.count)) }
        ensures cause { HasCause (D.faults self.old.disk) (D.faults self.new.disk) result }
    {
        if self.frame.len() == 0 {
            return Ok(Receipt {
                number: self.count,
                moment: self.disk.moment(),
            });
        }
        match append_frame(&mut self.disk, self.gate, self.frame.text()) {
            Ok(gate) => {
                self.gate = gate;
                self.count += self.frame.len() as u64;
                self.frame.clear();
                Ok(Receipt {
                    number: self.count,
                    moment: self.disk.moment(),
                })
            }
            Err(fault) => {
                self.failed = true;
                Err(fault)
            }
        }
    }

    /// Whether a commit failed.
    pub fn is_failed(&self) -> bool
        ensures { result ≡ self.now.failed }
    {
        self.failed
    }

    /// How many payloads are committed.
    pub fn count(&self) -> u64
        ensures { result ≡ self.now.count }
    {
        self.count
    }

    /// How many payloads are staged.
    pub fn staged(&self) -> usize
        ensures { result ≡ length self.now.staged }
    {
        self.frame.len()
    }

    /// The pieces of the tables that the journal is for.
    pub fn pieces(&self) -> u8
        ensures { result ≡ self.now.pieces }
    {
        self.pieces
    }

    /// The moment straight behind the opening sync.
    pub fn opened(&self) -> u64
        ensures { result ≡ self.now.opened }
    {
        self.opened
    }

    /// The disk.
    pub fn disk(&self) -> &D
        ensures { result.now ≡ self.now.disk }
    {
        &self.disk
    }

    /// The disk, with what was committed.
    pub fn into_disk(self) -> D
        ensures { result ≡ self.disk }
    {
        self.disk
    }
}
