//! The rows.
ghost use Rattle.std.specs.Prelude.{◌≡◌, ◌∷◌, [], ◌++◌, ◌<◌, ◌≤◌, ◌+◌, ◌==◌, IsOk, IfOk, OnOk, OnErr, Some, length, not, position, set, slice_get, take, if◌then◌else◌};
ghost use Rattle.std.specs.List.{list_any, position_or_len};
ghost use Rattle.std.specs.Map.{lookup};
ghost use Rattle.draughts_board.specs.Board.{Board, same_board};
ghost use Rattle.position_rows.specs.Rows.{AreApart, positions_of};

use crate::index::{Look, look_up};
use crate::tables::Index;
use draughts_board::Position;
use std::alloc::{AllocError, Global};
use std::marker::Model;

/// Rows, each a position and what stands beside it, in the order in which they came.
///
/// A contract sees the list of them, and for how many more there is room. No position stands
/// twice. A row is looked up, not searched for, and nobody who chooses the positions can make that
/// slow: a look-up reads at most 8 slots of a table and 130 nodes of a tree. Rows that were taken
/// back still count in that, until the table is made anew for more rows.
#[derive(Drop)]
pub struct PositionRows<E> {
    alloc: Global,
    rows: Vec<(Position, E)>,
    index: Index,
}

impl<E> Model for PositionRows<E> {
    ghost use Rattle.std.specs.Prelude.{◌-◌, length, min, vec_capacity};
    ghost use Rattle.position_rows.specs.Rows.{AreApart, RowList};
    ghost use Rattle.position_rows.specs.Tables.{IsIndexOf, spare_of};

    ghost Value = { RowList E };

    ghost view = { λ r. record {
      entries = r.rows.items;
      spare = min (vec_capacity r.rows - length r.rows.items) (spare_of r.index);
    } };

    ghost invariant = { λ r. AreApart r.rows.items × IsIndexOf r.rows.items r.index };
}

impl<E: Copy> PositionRows<E> {
    /// No rows.
    pub fn new(alloc: Global) -> PositionRows<E>
        ensures { result.entries ≡ [] }
    {
        PositionRows {
            alloc,
            rows: Vec::new(alloc),
            index: Index::new(alloc),
        }
    }

    /// No rows, and room for `count`. Fails where memory runs out, or for 2^32 - 1 rows or more.
    pub fn with_capacity(alloc: Global, count: usize) -> Result<PositionRows<E>, AllocError>
        ensures empty { IfOk result (λ made. made.entries ≡ []) }
        ensures room { IfOk result (λ made. count ≤ made.spare) }
    {
        let mut made = PositionRows::new(alloc);
        made.reserve(count)?;
        Ok(made)
    }

    /// How many rows there are.
    pub fn len(&self) -> usize
        ensures value { result ≡ length self.now.entries }
        ensures apart { AreApart self.now.entries }
    {
        self.rows.len()
    }

    /// There is no row.
    pub fn is_empty(&self) -> bool
        ensures { result ≡ (length self.now.entries == 0) }
    {
        self.rows.is_empty()
    }

    /// The rows, in their order.
    pub fn as_slice(&self) -> &[(Position, E)]
        ensures value { result.now ≡ self.now.entries }
        ensures apart { AreApart self.now.entries }
    {
        &self.rows
    }

    /// The place of this position's row, counted from 0; none exactly where it has none.
    pub fn place(&self, p: &Position) -> Option<usize>
        ensures { result ≡ position (same_board p.now) (positions_of self.now.entries) }
    {
        self.index.place(&self.rows, p)
    }

    /// What stands beside this position; none exactly where it has no row.
    pub fn get(&self, p: &Position) -> Option<E>
        ensures { result ≡ lookup (same_board p.now) self.now.entries }
    {
        let i = self.index.place(&self.rows, p)?;
        Some(self.rows[i].1)
    }

    /// Makes room for `count` more rows. Fails where memory runs out, or for 2^32 - 1 rows or more
    /// in all; the room that was there stays.
    pub fn reserve(&mut self, count: usize) -> Result<(), AllocError>
        ensures entries { self.new.entries ≡ self.old.entries }
        ensures apart { AreApart self.new.entries }
        ensures room { OnOk result (count ≤ self.new.spare) }
        ensures kept { self.old.spare ≤ self.new.spare }
        ensures succeeds { count ≤ self.old.spare → IsOk result }
    {
        self.rows.reserve(count)?;
        self.index.reserve(self.alloc, &self.rows, count)
    }

    /// Adds a row behind the others, unless its position has one; tells the place of the position's
    /// row, counted from 0, and whether it is new. The position is looked up once.
    ///
    /// Fails where memory runs out, or at row 2^32 - 1; the rows are then as they were.
    pub fn note(&mut self, p: Position, e: E) -> Result<(usize, bool), AllocError>
        ensures place { IfOk result (λ noted. noted.0
            ≡ position_or_len (same_board p) (positions_of self.old.entries)) }
        ensures new { IfOk result (λ noted. noted.1
            ≡ not (list_any (same_board p) (positions_of self.old.entries))) }
        ensures rows { IfOk result (λ noted. self.new.entries
            ≡ (if noted.1 then self.old.entries ++ (p, e) ∷ [] else self.old.entries)) }
        ensures apart { AreApart self.new.entries }
        ensures err { OnErr result (self.new.entries ≡ self.old.entries) }
        ensures succeeds { 0 < self.old.spare → IsOk result }
        ensures room { self.old.spare ≤ self.new.spare + 1 }
    {
        self.reserve(1)?;
        let look = look_up(&self.rows, &self.index.slots, &self.index.nodes, &p);
        if let Look::At(i) = look {
            return Ok((i, false));
        }
        let i = self.rows.len();
        self.index.enter(&self.rows, look, &p);
        self.rows.push_reserved((p, e));
        Ok((i, true))
    }

    /// Puts this beside the position of row `i`, counted from 0.
    pub fn replace(&mut self, i: usize, e: E)
        requires { i < length self.old.entries }
        ensures entries { (p : Board) (old : E) → slice_get self.old.entries i ≡ Some (p, old)
            → self.new.entries ≡ set self.old.entries i (p, e) }
        ensures apart { AreApart self.new.entries }
        ensures room { self.new.spare ≡ self.old.spare }
    {
        self.rows[i].1 = e;
    }

    /// Keeps the first `count` rows and takes back those behind them. Where there are no more,
    /// nothing changes.
    pub fn truncate(&mut self, count: usize)
        ensures entries { self.new.entries ≡ take count self.old.entries }
        ensures apart { AreApart self.new.entries }
    {
        self.rows.truncate(count);
    }
}
