//! Stretches of settled roots, which a pick passes in one step.
//!
//! Where the root that is first unsettled takes long, those behind it may have been settled long ago. A stretch is noted at
//! both its ends, so a root that comes to be settled joins the stretches on its sides in one step.
ghost use Rattle.std.specs.Prelude.{◌≡◌, ◌<◌, ◌≤◌, ◌+◌, ◌⊎◌, [], ℕ, suc, List, length, slice_get, Some, OnOk, vec_len, vec_capacity};
ghost use Rattle.proof_tree.specs.Forest.{Node};
ghost use Rattle.proof_tree.specs.Rows.{AreNoted, AreSettled, IsSettledAt, note_room};
ghost use Rattle.proof_tree.specs.declared.tree.TheConstants.{MOST_ROOTS};

use std::alloc::{AllocError, Global};

/// What is noted of the roots, by their places from 0: at the first root of a stretch the place behind it, at its last the
/// place of its first, and at each a place further on.
#[derive(Drop)]
pub(crate) struct Stretches {
    ends: Vec<usize>,
    starts: Vec<usize>,
}

/// Adds a number behind the others, for which there is room.
fn add(list: &mut Vec<usize>, number: usize)
    requires room { vec_len list.old < vec_capacity list.old }
    ensures numbers { (k n : ℕ) → slice_get list.new.items k ≡ Some n
        → (slice_get list.old.items k ≡ Some n) ⊎ ((k ≡ length list.old.items) × (n ≡ number)) }
    ensures len { vec_len list.new ≡ vec_len list.old + 1 }
    ensures room { vec_capacity list.old ≤ vec_capacity list.new }
{
    match list.push(number) {
        Ok(()) => {}
        Err(_) => unreachable!(),
    }
}

/// Puts a number at a place, where the list reaches so far.
fn put(list: &mut Vec<usize>, place: usize, number: usize)
    ensures numbers { (k n : ℕ) → slice_get list.new.items k ≡ Some n
        → (slice_get list.old.items k ≡ Some n) ⊎ ((k ≡ place) × (n ≡ number)) }
    ensures len { vec_len list.new ≡ vec_len list.old }
    ensures room { vec_capacity list.new ≡ vec_capacity list.old }
{
    if place < list.len() {
        list[place] = number;
    }
}

impl Stretches {
    /// Nothing is noted, of no roots.
    pub(crate) fn new(alloc: Global) -> Stretches
        ensures ends { result.ends.items ≡ [] }
        ensures starts { result.starts.items ≡ [] }
    {
        Stretches {
            ends: Vec::new(alloc),
            starts: Vec::new(alloc),
        }
    }

    /// Makes room for what is noted of `roots` more roots.
    pub(crate) fn reserve(&mut self, roots: usize) -> Result<(), AllocError>
        ensures ends { self.new.ends.items ≡ self.old.ends.items }
        ensures starts { self.new.starts.items ≡ self.old.starts.items }
        ensures ok { OnOk result (roots ≤ note_room self.new) }
        ensures kept { note_room self.old ≤ note_room self.new }
    {
        self.ends.reserve(roots)?;
        self.starts.reserve(roots)
    }

    /// There is one root more, of which nothing is noted yet. There is room for it, so this takes no memory.
    pub(crate) fn add_root(&mut self)
        requires room { 0 < note_room self.old }
        ensures room { note_room self.old ≤ note_room self.new + 1 }
        ensures noted { (roots : List Node) → AreNoted roots self.old.ends.items self.old.starts.items
            → AreNoted roots self.new.ends.items self.new.starts.items }
    {
        let place = self.ends.len();
        add(&mut self.ends, place);
        let place = self.starts.len();
        add(&mut self.starts, place + 1);
    }

    /// A place up to which all roots from this one on are settled. It may be this one's, and lower.
    pub(crate) fn end_of(&self, place: usize) -> usize
        ensures { (roots : List Node) → AreNoted roots self.now.ends.items self.now.starts.items
            → AreSettled roots place result }
    {
        match self.ends.get(place) {
            Some(end) => *end,
            None => place,
        }
    }

    /// A place from which on all roots before this one are settled. It may be this one's.
    fn start_before(&self, place: usize) -> usize
        ensures within { result ≤ place }
        ensures settled { (roots : List Node)
            → AreNoted roots self.now.ends.items self.now.starts.items
            → AreSettled roots result place }
    {
        let Some(before) = place.checked_sub(1) else {
            return place;
        };
        match self.starts.get(before) {
            Some(start) => place.min(*start),
            None => place,
        }
    }

    /// Notes that the root at a place is settled, where that is not noted yet.
    pub(crate) fn note(&mut self, place: usize)
        requires few { place < MOST_ROOTS }
        ensures room { note_room self.new ≡ note_room self.old }
        ensures noted { (roots : List Node) → IsSettledAt roots place
            → AreNoted roots self.old.ends.items self.old.starts.items
            → AreNoted roots self.new.ends.items self.new.starts.items }
    {
        if place < self.end_of(place) {
            return;
        }
        let start = self.start_before(place);
        let next = place + 1;
        let end = self.end_of(next).max(next);
        put(&mut self.ends, place, end);
        put(&mut self.ends, start, end);
        put(&mut self.starts, end - 1, start);
    }
}
