//! The index of rows: a table of windows, and a tree behind those without a free slot.
ghost use Rattle.std.specs.Prelude.{◌≡◌, ◌≤◌, ◌<◌, ◌+◌, ◌^◌, ℕ, length, vec_len, vec_capacity};
ghost use Rattle.position_rows.specs.Looks.{AreIndexed, IsEntered, IsPlaceFor, TellsAll};

use crate::tree::{End, Node, hang, plant, seek_behind};
use crate::windows::{Found, Slot, put, seek};
use draughts_board::Position;

/// How a look-up ends: at the place of the position's row, or where a row of it would go: at a free
/// slot of its window, as the first node of the tree, or behind a node at a digit.
#[derive(Clone, Copy)]
pub(crate) enum Look {
    At(usize),
    Free(usize),
    First,
    Behind(usize, bool),
}

/// Looks a position up.
pub(crate) fn look_up<E: Copy>(
    rows: &[(Position, E)],
    slots: &[Slot],
    nodes: &[Node],
    p: &Position,
) -> Look
    requires long { 8 ≤ length slots.now }
    requires indexed { AreIndexed rows.now slots.now nodes.now }
    ensures { TellsAll rows.now slots.now nodes.now p.now result }
{
    match seek(rows, slots, p) {
        Found::At(i) => Look::At(i),
        Found::Free(k) => Look::Free(k),
        Found::Full => {
            if nodes.is_empty() {
                return Look::First;
            }
            match seek_behind(rows, nodes, p) {
                End::At(i) => Look::At(i),
                End::Behind(i, digit) => Look::Behind(i, digit),
            }
        }
    }
}

/// Enters the row with this number where a look-up of its position ended.
pub(crate) fn enter(
    slots: &mut Vec<Slot>,
    nodes: &mut Vec<Node>,
    look: Look,
    p: &Position,
    number: u32,
)
    requires place { IsPlaceFor slots.old.items nodes.old.items p.now look }
    requires room { vec_len nodes.old < vec_capacity nodes.old }
    requires few { vec_len nodes.old < 2 ^ 32 }
    requires number { 0 < number }
    ensures entered { (r : ℕ) → number ≡ r + 1
        → IsEntered slots.old.items slots.new.items nodes.old.items nodes.new.items p.now r }
    ensures slots { vec_len slots.new ≡ vec_len slots.old }
    ensures nodes { vec_len nodes.new ≤ vec_len nodes.old + 1 }
    ensures capacity { vec_capacity nodes.new ≡ vec_capacity nodes.old }
{
    match look {
        Look::At(_) => unreachable!(),
        Look::Free(k) => put(slots, k, p, number),
        Look::First => plant(nodes, number),
        Look::Behind(i, digit) => hang(nodes, i, digit, number),
    }
}
