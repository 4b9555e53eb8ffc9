//! The index of rows with what it needs to grow.
ghost use Rattle.std.specs.Prelude.{◌≡◌, ◌≤◌, ◌<◌, ◌+◌, ◌-◌, ◌^◌, ◌∷◌, [], ◌++◌, IfOk, IsOk, OnOk, length, position, vec_len};
ghost use Rattle.draughts_board.specs.Board.{same_board};
ghost use Rattle.position_rows.specs.Rows.{AreApart, positions_of};
ghost use Rattle.position_rows.specs.Looks.{AreIndexed, IsPlaceFor};
ghost use Rattle.position_rows.specs.Tables.{IsIndexOf, spare_of};

use crate::index::{Look, enter, look_up};
use crate::tree::Node;
use crate::windows::{Slot, WINDOW};
use draughts_board::Position;
use std::alloc::{AllocError, Global};

/// The most rows: the numbers of rows and of nodes have 4 bytes.
const MOST_ROWS: usize = 4_294_967_294;

/// The fewest windows of a table.
const LEAST_WINDOWS: usize = 16;

/// The index of rows, and how many more may be entered before it is made anew.
#[derive(Drop)]
pub(crate) struct Index {
    pub(crate) slots: Vec<Slot>,
    pub(crate) nodes: Vec<Node>,
    pub(crate) room: usize,
}

/// The table, of so many slots, and the tree of these rows.
fn indexed<E: Copy>(
    alloc: Global,
    rows: &[(Position, E)],
    count: usize,
) -> Result<(Vec<Slot>, Vec<Node>), AllocError>
    requires apart { AreApart rows.now }
    requires long { 8 ≤ count }
    requires few { length rows.now < 2 ^ 32 - 1 }
    ensures indexed { IfOk result (λ made. AreIndexed rows.now made.0.items made.1.items) }
    ensures slots { IfOk result (λ made. vec_len made.0 ≡ count) }
    ensures nodes { IfOk result (λ made. vec_len made.1 ≤ length rows.now) }
{
    let mut slots = Vec::new(alloc);
    slots.resize(count, Slot { tag: 0, number: 0 })?;
    let mut nodes = Vec::new(alloc);
    for i in 0..rows.len() {
        nodes.reserve(1)?;
        let p = rows[i].0;
        let look = look_up(&rows[..i], &slots, &nodes, &p);
        enter(&mut slots, &mut nodes, look, &p, i as u32 + 1);
    }
    Ok((slots, nodes))
}

impl Index {
    /// The index of no rows.
    pub(crate) fn new(alloc: Global) -> Index
        ensures slots { result.slots.items ≡ [] }
        ensures nodes { result.nodes.items ≡ [] }
        ensures room { result.room ≡ 0 }
    {
        Index {
            slots: Vec::new(alloc),
            nodes: Vec::new(alloc),
            room: 0,
        }
    }

    /// The index of these rows, with room for `count` more and for a quarter of all these, so that
    /// the work of making it is spread over that many.
    fn with_room<E: Copy>(
        alloc: Global,
        rows: &[(Position, E)],
        count: usize,
    ) -> Result<Index, AllocError>
        requires { AreApart rows.now }
        ensures index { IfOk result (λ index. IsIndexOf rows.now index) }
        ensures room { IfOk result (λ index. count ≤ index.room) }
    {
        let wanted = rows.len().checked_add(count).ok_or(AllocError)?;
        if wanted > MOST_ROWS {
            return Err(AllocError);
        }
        let windows = (wanted * 5 / 2).max(LEAST_WINDOWS).next_power_of_two();
        let (slots, nodes) = indexed(alloc, rows, windows + (WINDOW - 1))?;
        let room = (windows / 2).min(MOST_ROWS) - rows.len();
        Ok(Index { slots, nodes, room })
    }

    /// Makes room for `count` more rows; the room that was there stays, also after want of memory.
    pub(crate) fn reserve<E: Copy>(
        &mut self,
        alloc: Global,
        rows: &[(Position, E)],
        count: usize,
    ) -> Result<(), AllocError>
        requires apart { AreApart rows.now }
        requires index { IsIndexOf rows.now self.old }
        ensures index { IsIndexOf rows.now self.new }
        ensures room { OnOk result (count ≤ spare_of self.new) }
        ensures kept { spare_of self.old ≤ spare_of self.new }
        ensures succeeds { count ≤ spare_of self.old → IsOk result }
    {
        if count <= self.room {
            return self.nodes.reserve(count);
        }
        let mut made = Index::with_room(alloc, rows, count)?;
        made.nodes.reserve(count)?;
        *self = made;
        Ok(())
    }

    /// The place of this position's row, counted from 0; none exactly where it has none.
    pub(crate) fn place<E: Copy>(&self, rows: &[(Position, E)], p: &Position) -> Option<usize>
        requires apart { AreApart rows.now }
        requires index { IsIndexOf rows.now self.now }
        ensures { result ≡ position (same_board p.now) (positions_of rows.now) }
    {
        if self.slots.len() < WINDOW {
            return None;
        }
        match look_up(rows, &self.slots, &self.nodes, p) {
            Look::At(i) => Some(i),
            _ => None,
        }
    }

    /// Enters a row behind these, where a look-up of its position ended. There is room for it.
    pub(crate) fn enter<E: Copy>(&mut self, rows: &[(Position, E)], look: Look, p: &Position)
        requires index { IsIndexOf rows.now self.old }
        requires room { 0 < spare_of self.old }
        requires place { IsPlaceFor self.old.slots.items self.old.nodes.items p.now look }
        ensures index { (e : E) → IsIndexOf (rows.now ++ (p.now, e) ∷ []) self.new }
        ensures room { spare_of self.old ≤ spare_of self.new + 1 }
    {
        let number = rows.len() as u32 + 1;
        enter(&mut self.slots, &mut self.nodes, look, p, number);
        self.room -= 1;
    }
}
