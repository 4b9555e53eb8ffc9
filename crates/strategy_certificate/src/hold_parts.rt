//! Strategies by which a side never loses.
ghost use Rattle.std.specs.Prelude.{◌≡◌, OnOk, OnErr};
ghost use Rattle.strategy_certificate.specs.Parts.{merged_holds};

use crate::entries::note_rules;
use crate::merging::add_all_new;
use crate::rows::{add_new_row, find_row, place_of_row, row_at};
use draughts_board::{Move, Position, Side};
use position_rows::PositionRows;
use std::alloc::{AllocError, Global};
use std::marker::Model;

/// Positions that a side holds, each with its move where the side is to move.
///
/// A contract sees the side and the list of entries in the order in which they came. No position
/// stands twice. An entry is looked up, not searched for.
#[derive(Drop)]
pub struct HoldPart {
    side: Side,
    entries: PositionRows<Option<Move>>,
}

impl Model for HoldPart {
    ghost use Rattle.strategy_certificate.specs.Parts.{HoldList, IsHoldList};

    ghost Value = { HoldList };

    ghost view = { λ part. record { side = part.side; entries = part.entries.entries } };

    ghost invariant = { λ part. IsHoldList (record {
      side = part.side;
      entries = part.entries.entries;
    }) };
}

impl HoldPart {
    ghost use Rattle.std.specs.Prelude.{◌≡◌, ◌∷◌, [], ◌++◌, ◌<◌, ◌↔◌, ◌==◌, ℕ, List, Option, Contains, slice_get, length, take, IfOk, IsNone, MatchBool, OnOk, OnErr, if◌then◌else◌};
    ghost use Rattle.strategy_certificate.specs.Parts.{HasEntry, IsHoldList, IsHoldRow};
    ghost use Rattle.strategy_certificate.specs.Places.{StandsAt};

    /// A part of this side without entries.
    pub fn new(alloc: Global, side: Side) -> Result<HoldPart, AllocError>
        ensures { IfOk result (λ part. part ≡ record { side = side; entries = [] }) }
    {
        Ok(HoldPart {
            side,
            entries: PositionRows::new(alloc),
        })
    }

    /// A part with these entries.
    pub(crate) fn of(side: Side, entries: PositionRows<Option<Move>>) -> HoldPart
        requires { IsHoldList (record { side = side; entries = entries.entries }) }
        ensures { result ≡ record { side = side; entries = entries.entries } }
    {
        HoldPart { side, entries }
    }

    /// The side that holds.
    pub fn side(&self) -> Side
        ensures value { result ≡ self.now.side }
        ensures valid { IsHoldList self.now }
    {
        self.side
    }

    /// How many entries there are.
    pub fn len(&self) -> usize
        ensures value { result ≡ length self.now.entries }
        ensures valid { IsHoldList self.now }
    {
        self.entries.len()
    }

    /// There is no entry.
    pub fn is_empty(&self) -> bool
        ensures { result ≡ (length self.now.entries == 0) }
    {
        self.entries.is_empty()
    }

    /// The position at this place, counted from 0, and the move chosen there.
    pub fn entry(&self, i: usize) -> (Position, Option<Move>)
        requires { i < length self.now.entries }
        ensures value { slice_get self.now.entries i ≡ Some result }
        ensures valid { IsHoldRow result }
    {
        row_at(&self.entries, i)
    }

    /// What is chosen at this position; none exactly where it has no entry.
    pub fn find(&self, p: &Position) -> Option<Option<Move>>
        ensures found { (chosen : Option (List ℕ))
            → (result ≡ Some chosen) ↔ Contains self.now.entries (p.now, chosen) }
        ensures none { IsNone result ↔ (¬ HasEntry self.now.entries p.now) }
    {
        find_row(&self.entries, p)
    }

    /// The place of this position's entry, counted from 0; none exactly where it has none.
    pub fn place(&self, p: &Position) -> Option<usize>
        ensures { (i : ℕ) → (result ≡ Some i) ↔ StandsAt self.now.entries i p.now }
    {
        place_of_row(&self.entries, p)
    }

    /// Adds an entry behind the others, unless the position has one; tells whether it had none. The
    /// position is hashed once.
    ///
    /// After want of memory the part is as it was.
    pub fn add_new(&mut self, p: Position, chosen: Option<Move>) -> Result<bool, AllocError>
        ensures tells { IfOk result (λ added.
            MatchBool added (¬ HasEntry self.old.entries p) (HasEntry self.old.entries p)) }
        ensures entries { IfOk result (λ added. self.new ≡ record self.old {
          entries =
              (if added then self.old.entries ++ (p, chosen) ∷ [] else self.old.entries);
        }) }
        ensures err { OnErr result (self.new ≡ self.old) }
        ensures valid { IsHoldList self.new }
    {
        note_rules(&p, &chosen);
        let added = add_new_row(&mut self.entries, p, chosen)?;
        Ok(added)
    }

    /// Adds an entry behind the others. After want of memory the part is as it was.
    pub fn add(&mut self, p: Position, chosen: Option<Move>) -> Result<(), AllocError>
        requires absent { ¬ HasEntry self.old.entries p }
        ensures ok { OnOk result (self.new
            ≡ record self.old { entries = self.old.entries ++ (p, chosen) ∷ [] }) }
        ensures err { OnErr result (self.new ≡ self.old) }
    {
        self.add_new(p, chosen)?;
        Ok(())
    }

    /// Keeps the first `count` entries and takes back those behind them. Where there are no more,
    /// nothing changes.
    pub fn truncate(&mut self, count: usize)
        ensures { self.new ≡ record self.old { entries = take count self.old.entries } }
    {
        self.entries.truncate(count);
    }
}

/// Takes over the entries of another part of the same side, in order. A new position goes last; one
/// that is there keeps its entry.
///
/// After want of memory the part is as it was.
pub fn merge_holds(_alloc: Global, into: &mut HoldPart, from: &HoldPart) -> Result<(), AllocError>
    requires { into.old.side ≡ from.now.side }
    ensures ok { OnOk result (into.new
        ≡ record into.old { entries = merged_holds into.old.entries from.now.entries }) }
    ensures err { OnErr result (into.new ≡ into.old) }
{
    into.entries.reserve(from.entries.len())?;
    add_all_new(&mut into.entries, &from.entries);
    Ok(())
}
