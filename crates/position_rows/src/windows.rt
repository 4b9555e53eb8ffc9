//! Windows of a table: eight slots from one that a position's hash names.
ghost use Rattle.std.specs.Prelude.{◌≡◌, ◌≤◌, ◌<◌, ◌+◌, length, vec_len};
ghost use Rattle.position_rows.specs.Windows.{IsPut, Tells, first_slot, slot_at, tag_of};
ghost use Rattle.position_rows.specs.Words.{hash_of};

use crate::tree::is_number_of;
use crate::words::hash_of;
use draughts_board::Position;

/// How many slots a window has.
pub(crate) const WINDOW: usize = 8;

/// A row's number, one more than its place, and the tag of its position's hash. A free slot has the
/// number 0.
#[derive(Clone, Copy)]
pub(crate) struct Slot {
    pub(crate) tag: u32,
    pub(crate) number: u32,
}

/// How a look-up ends: at the place of the position's row, at the first free slot of a window
/// without it, or behind such a window that has none.
#[derive(Clone, Copy)]
pub(crate) enum Found {
    At(usize),
    Free(usize),
    Full,
}

/// Where the window of a hash begins in so many slots.
#[inline]
fn first_slot(hash: u64, count: usize) -> usize
    requires { 8 ≤ count }
    ensures value { result ≡ first_slot hash count }
    ensures inside { result + 8 ≤ count }
{
    hash as usize & (count - WINDOW)
}

/// The tag of a hash: its highest 32 bits.
#[inline]
fn tag_of(hash: u64) -> u32
    ensures { result ≡ tag_of hash }
{
    (hash >> 32) as u32
}

/// Looks a position up in its window.
pub(crate) fn seek<E: Copy>(rows: &[(Position, E)], slots: &[Slot], p: &Position) -> Found
    requires { 8 ≤ length slots.now }
    ensures { Tells rows.now slots.now p.now result }
{
    let hash = hash_of(p);
    let tag = tag_of(hash);
    let first = first_slot(hash, slots.len());
    for j in 0..WINDOW {
        let slot = slots[first + j];
        if slot.number == 0 {
            return Found::Free(first + j);
        }
        if slot.tag == tag && is_number_of(rows, slot.number, p) {
            return Found::At(slot.number as usize - 1);
        }
    }
    Found::Full
}

/// Puts a row's number into a free slot, with the tag of its position.
pub(crate) fn put(slots: &mut Vec<Slot>, k: usize, p: &Position, number: u32)
    requires inside { k < vec_len slots.old }
    requires free { (slot_at slots.old.items k).number ≡ 0 }
    requires number { 0 < number }
    ensures put { IsPut slots.old.items slots.new.items k (tag_of (hash_of p.now)) number }
    ensures len { vec_len slots.new ≡ vec_len slots.old }
{
    slots[k] = Slot {
        tag: tag_of(hash_of(p)),
        number,
    };
}
