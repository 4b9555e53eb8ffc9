//! Positions by their numbers while one record is read or written: those named before it, and those
//! that it has named itself.
use crate::named::{Named, note_rule, position_in};
use draughts_board::Position;
use position_rows::PositionRows;
use std::alloc::{AllocError, Global};
use std::marker::Model;

/// A list of positions that is lent, and those that came behind it.
///
/// A contract sees the one list of both.
#[derive(Drop)]
pub(crate) struct Names<'a> {
    before: &'a Named,
    /// How many are lent.
    lent: u32,
    own: PositionRows<()>,
}

impl<'a> Model for Names<'a> {
    ghost use Rattle.std.specs.Prelude.{◌≡◌, List, ◌++◌, length};
    ghost use Rattle.draughts_board.specs.Board.{Board};
    ghost use Rattle.position_rows.specs.Rows.{positions_of};
    ghost use Rattle.bench_records.specs.Names.{IsNamed};

    ghost Value = { List Board };

    ghost view = { λ n. n.before.now ++ positions_of n.own.entries };

    ghost invariant = { λ n. IsNamed (n.before.now ++ positions_of n.own.entries)
        × (n.lent ≡ length n.before.now) };
}

impl<'a> Names<'a> {
    ghost use Rattle.std.specs.Prelude.{◌≡◌, ◌++◌, ◌∷◌, [], ◌<◌, ◌+◌, ◌^◌, true, false, length, slice_get, Some, IfSome, IfNone, OnOk};
    ghost use Rattle.std.specs.List.{list_any, position_or_len};
    ghost use Rattle.draughts_board.specs.Board.{same_board};
    ghost use Rattle.bench_records.specs.Names.{IsNamed};

    /// The list, with none behind it.
    pub(crate) fn behind(alloc: Global, before: &'a Named) -> Names<'a>
        ensures value { result ≡ before.now }
        ensures named { IsNamed before.now }
    {
        Names {
            before,
            lent: before.len(),
            own: PositionRows::new(alloc),
        }
    }

    /// How many positions there are.
    pub(crate) fn len(&self) -> u32
        ensures value { result ≡ length self.now }
        ensures named { IsNamed self.now }
    {
        let own = self.own.len() as u32;
        self.lent + own
    }

    /// The position with this number.
    pub(crate) fn position(&self, k: u32) -> Position
        requires { k < length self.now }
        ensures { slice_get self.now k ≡ Some result }
    {
        if k < self.lent {
            return self.before.position(k);
        }
        position_in(&self.own, (k - self.lent) as usize)
    }

    /// The number of a position; none exactly where it is not there.
    pub(crate) fn find(&self, p: &Position) -> Option<u32>
        ensures some { IfSome result (λ n. (list_any (same_board p.now) self.now ≡ true)
            × (n ≡ position_or_len (same_board p.now) self.now)) }
        ensures none { IfNone result (list_any (same_board p.now) self.now ≡ false) }
        ensures named { IsNamed self.now }
    {
        if let Some(n) = self.before.find(p) {
            return Some(n);
        }
        let n = self.own.place(p)?;
        Some(self.lent + n as u32)
    }

    /// A position goes last.
    pub(crate) fn add(&mut self, p: Position) -> Result<(), AllocError>
        requires absent { list_any (same_board p) self.old ≡ false }
        requires few { length self.old + 1 < 2 ^ 32 }
        ensures names { OnOk result (self.new ≡ self.old ++ p ∷ []) }
        ensures named { IsNamed self.new }
    {
        note_rule(&p);
        self.own.note(p, ())?;
        Ok(())
    }
}
