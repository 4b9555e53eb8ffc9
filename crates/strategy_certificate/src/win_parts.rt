//! Strategies by which a side wins.
ghost use Rattle.std.specs.Prelude.{◌≡◌, IfOk, OnOk, OnErr};
ghost use Rattle.strategy_certificate.specs.Parts.{merged_wins, hold_of};
ghost use Rattle.strategy_certificate.specs.Claims.{HasShortRanks};
ghost use Rattle.strategy_certificate.specs.ShortRanks.{IsShortened};
ghost use Rattle.strategy_certificate.specs.declared.certificates.Part.TheVariants as parts;

use crate::entries::{MOST_RANK, WinEntry, note_rules};
use crate::hold_parts::HoldPart;
use crate::merging::{improve_all, without_ranks};
use crate::rows::{add_new_row, find_row, place_of_row, row_at};
use crate::shortening::{ranks_of, with_short_ranks};
use draughts_board::{Position, Side};
use position_rows::PositionRows;
use std::alloc::{AllocError, Global};
use std::marker::Model;

/// Positions in which a side wins, each with a rank and, where the side is to move, its move.
///
/// A contract sees the side and the list of entries in the order in which they came. No position
/// stands twice, and no rank is above [`MOST_RANK`]. An entry is looked up, not searched for.
#[derive(Drop)]
pub struct WinPart {
    side: Side,
    entries: PositionRows<WinEntry>,
}

impl Model for WinPart {
    ghost use Rattle.strategy_certificate.specs.Parts.{WinList, IsWinList};

    ghost Value = { WinList };

    ghost view = { λ part. record { side = part.side; entries = part.entries.entries } };

    ghost invariant = { λ part. IsWinList (record {
      side = part.side;
      entries = part.entries.entries;
    }) };
}

impl WinPart {
    ghost use Rattle.std.specs.Prelude.{◌≡◌, ◌∷◌, [], ◌++◌, ◌≤◌, ◌<◌, ◌↔◌, ◌==◌, ℕ, Option, Contains, slice_get, length, take, IfOk, IfSome, IsNone, MatchBool, OnOk, OnErr, if◌then◌else◌};
    ghost use Rattle.draughts_board.specs.Board.{IsLawful};
    ghost use Rattle.strategy_certificate.specs.Parts.{HasEntry, IsInRange, IsWinList, IsWinRow};
    ghost use Rattle.strategy_certificate.specs.Places.{StandsAt};
    ghost use Rattle.strategy_certificate.specs.declared.entries.WinEntry.{WinEntry};

    /// A part of this side without entries.
    pub fn new(alloc: Global, side: Side) -> Result<WinPart, AllocError>
        ensures { IfOk result (λ part. part ≡ record { side = side; entries = [] }) }
    {
        Ok(WinPart {
            side,
            entries: PositionRows::new(alloc),
        })
    }

    /// The side that wins.
    pub fn side(&self) -> Side
        ensures value { result ≡ self.now.side }
        ensures valid { IsWinList self.now }
    {
        self.side
    }

    /// How many entries there are.
    pub fn len(&self) -> usize
        ensures value { result ≡ length self.now.entries }
        ensures valid { IsWinList self.now }
    {
        self.entries.len()
    }

    /// There is no entry.
    pub fn is_empty(&self) -> bool
        ensures { result ≡ (length self.now.entries == 0) }
    {
        self.entries.is_empty()
    }

    /// The entry at this place, counted from 0, and its position.
    pub fn entry(&self, i: usize) -> (Position, WinEntry)
        requires { i < length self.now.entries }
        ensures value { slice_get self.now.entries i ≡ Some result }
        ensures valid { IsWinRow result }
    {
        row_at(&self.entries, i)
    }

    /// The entry of this position; none exactly where it has none.
    pub fn find(&self, p: &Position) -> Option<WinEntry>
        ensures found { (e : WinEntry) → (result ≡ Some e) ↔ Contains self.now.entries (p.now, e) }
        ensures none { IsNone result ↔ (¬ HasEntry self.now.entries p.now) }
        ensures valid { IfSome result IsInRange }
    {
        find_row(&self.entries, p)
    }

    /// The place of this position's entry, counted from 0; none exactly where it has none.
    pub fn place(&self, p: &Position) -> Option<usize>
        ensures { (i : ℕ) → (result ≡ Some i) ↔ StandsAt self.now.entries i p.now }
    {
        place_of_row(&self.entries, p)
    }

    /// Adds an entry behind the others, unless the position has one; tells whether it had none. The
    /// position is hashed once.
    ///
    /// After want of memory the part is as it was.
    pub fn add_new(&mut self, p: Position, e: WinEntry) -> Result<bool, AllocError>
        requires rank { e.rank ≤ MOST_RANK }
        ensures tells { IfOk result (λ added.
            MatchBool added (¬ HasEntry self.old.entries p) (HasEntry self.old.entries p)) }
        ensures entries { IfOk result (λ added. self.new ≡ record self.old {
          entries =
              (if added then self.old.entries ++ (p, e) ∷ [] else self.old.entries);
        }) }
        ensures err { OnErr result (self.new ≡ self.old) }
        ensures valid { IsWinList self.new }
    {
        note_rules(&p, &e.chosen);
        let added = add_new_row(&mut self.entries, p, e)?;
        Ok(added)
    }

    /// Adds an entry behind the others. After want of memory the part is as it was.
    pub fn add(&mut self, p: Position, e: WinEntry) -> Result<(), AllocError>
        requires absent { ¬ HasEntry self.old.entries p }
        requires rank { e.rank ≤ MOST_RANK }
        ensures ok { OnOk result (self.new
            ≡ record self.old { entries = self.old.entries ++ (p, e) ∷ [] }) }
        ensures err { OnErr result (self.new ≡ self.old) }
    {
        self.add_new(p, e)?;
        Ok(())
    }

    /// Keeps the first `count` entries and takes back those behind them. Where there are no more,
    /// nothing changes.
    pub fn truncate(&mut self, count: usize)
        ensures { self.new ≡ record self.old { entries = take count self.old.entries } }
    {
        self.entries.truncate(count);
    }
}

/// Takes over the entries of another part of the same side, in order. A new position goes last; one
/// that is there takes the other entry, its rank and its move, exactly where that rank is smaller.
///
/// After want of memory the part is as it was.
pub fn merge_wins(_alloc: Global, into: &mut WinPart, from: &WinPart) -> Result<(), AllocError>
    requires { into.old.side ≡ from.now.side }
    ensures ok { OnOk result (into.new
        ≡ record into.old { entries = merged_wins into.old.entries from.now.entries }) }
    ensures err { OnErr result (into.new ≡ into.old) }
{
    into.entries.reserve(from.entries.len())?;
    improve_all(&mut into.entries, &from.entries);
    Ok(())
}

/// The same strategy without its ranks: a side that wins holds.
pub fn as_hold(alloc: Global, part: &WinPart) -> Result<HoldPart, AllocError>
    ensures { IfOk result (λ hold. hold ≡ hold_of part.now) }
{
    let entries = without_ranks(alloc, &part.entries)?;
    Ok(HoldPart::of(part.side, entries))
}

/// The same strategy with short ranks, in the order of its own.
///
/// A part of 2^32 different ranks or more is answered as want of memory.
pub fn short_ranks(alloc: Global, part: &WinPart) -> Result<WinPart, AllocError>
    ensures shortened { IfOk result (IsShortened part.now) }
    ensures short { IfOk result (λ short. HasShortRanks (parts.Win short)) }
{
    let ranks = ranks_of(alloc, &part.entries)?;
    if ranks.len() >= 1 << 32 {
        return Err(AllocError);
    }
    let entries = with_short_ranks(alloc, &part.entries, &ranks)?;
    let side = part.side;
    Ok(WinPart { side, entries })
}
