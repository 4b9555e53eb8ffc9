//! Positions by their numbers.
ghost use Rattle.std.specs.Prelude.{◌≡◌, ◌<◌, length, slice_get, Some};
ghost use Rattle.draughts_board.specs.Board.{IsLawful};
ghost use Rattle.position_rows.specs.Rows.{positions_of};

use draughts_board::Position;
use position_rows::PositionRows;
use std::alloc::{AllocError, Global};
use std::marker::Model;

/// Positions that stand once, each with its number, from 0 on: fewer than 2^32.
///
/// A contract sees the list of them. A position is looked up, not searched for, and nobody who
/// chooses the positions can make that slow.
#[derive(Drop)]
pub struct Named {
    positions: PositionRows<()>,
    /// The number noted last: a record often names a position twice running.
    last: u32,
}

impl Model for Named {
    ghost use Rattle.std.specs.Prelude.{List};
    ghost use Rattle.draughts_board.specs.Board.{Board};
    ghost use Rattle.position_rows.specs.Rows.{positions_of};
    ghost use Rattle.bench_records.specs.Names.{IsNamed};

    ghost Value = { List Board };

    ghost view = { λ n. positions_of n.positions.entries };

    ghost invariant = { λ n. IsNamed (positions_of n.positions.entries) };
}

/// Does nothing: each position keeps the rule on pieces.
pub(crate) fn note_rule(p: &Position)
    ensures { IsLawful p.now }
{
    let _mover = p.to_move();
}

/// The row at this place, counted from 0.
fn row_at(rows: &PositionRows<()>, i: usize) -> (Position, ())
    requires { i < length rows.now.entries }
    ensures { slice_get rows.now.entries i ≡ Some result }
{
    rows.as_slice()[i]
}

/// The position of the row at this place, counted from 0.
pub(crate) fn position_in(rows: &PositionRows<()>, i: usize) -> Position
    requires { i < length (positions_of rows.now.entries) }
    ensures { slice_get (positions_of rows.now.entries) i ≡ Some result }
{
    row_at(rows, i).0
}

impl Named {
    ghost use Rattle.std.specs.Prelude.{◌≡◌, ◌≢◌, ◌++◌, ◌∷◌, [], ◌<◌, ◌≤◌, ◌+◌, ◌^◌, true, false, length, take, slice_get, Some, not, IfOk, IfSome, IfNone, OnOk, OnErr};
    ghost use Rattle.std.specs.List.{list_any, position_or_len};
    ghost use Rattle.draughts_board.specs.Board.{same_board};
    ghost use Rattle.bench_records.specs.Names.{IsNamed, with_name};

    /// No positions.
    pub fn new(alloc: Global) -> Named
        ensures { result ≡ [] }
    {
        Named {
            positions: PositionRows::new(alloc),
            last: 0,
        }
    }

    /// How many there are.
    pub fn len(&self) -> u32
        ensures value { result ≡ length self.now }
        ensures named { IsNamed self.now }
    {
        self.positions.len() as u32
    }

    /// The position with this number.
    pub fn position(&self, k: u32) -> Position
        requires { k < length self.now }
        ensures { slice_get self.now k ≡ Some result }
    {
        position_in(&self.positions, k as usize)
    }

    /// The number of a position; none exactly where it is not there.
    pub fn find(&self, p: &Position) -> Option<u32>
        ensures some { IfSome result (λ n. (list_any (same_board p.now) self.now ≡ true)
            × (n ≡ position_or_len (same_board p.now) self.now)) }
        ensures none { IfNone result (list_any (same_board p.now) self.now ≡ false) }
    {
        let n = self.positions.place(p)?;
        Some(n as u32)
    }

    /// The number noted last, if it is this position's.
    fn noted_last(&self, p: &Position) -> Option<u32>
        ensures { IfSome result (λ n. slice_get self.now n ≡ Some p.now) }
    {
        let last = self.last;
        if last >= self.len() || self.position(last) != *p {
            return None;
        }
        Some(last)
    }

    /// The number of a position, and whether it is new; a new one goes last. It is hashed once, and not at all if it was
    /// noted last.
    pub fn note(&mut self, p: Position) -> Result<(u32, bool), AllocError>
        ensures number { IfOk result (λ r. r.0 ≡ position_or_len (same_board p) self.old) }
        ensures new { IfOk result (λ r. r.1 ≡ not (list_any (same_board p) self.old)) }
        ensures names { OnOk result (self.new ≡ with_name self.old p) }
        ensures named { IsNamed self.new }
        ensures err { OnErr result (self.new ≡ self.old) }
    {
        note_rule(&p);
        if let Some(n) = self.noted_last(&p) {
            return Ok((n, false));
        }
        if self.positions.len() >= u32::MAX as usize {
            return Err(AllocError);
        }
        let noted = self.positions.note(p, ())?;
        let number = noted.0 as u32;
        self.last = number;
        Ok((number, noted.1))
    }

    /// Keeps the first ones, as many as this number.
    pub fn cut(&mut self, len: u32)
        ensures { self.new ≡ take len self.old }
    {
        self.positions.truncate(len as usize);
    }
}
