//! The steps of the lock, each on a seat at its table.
ghost use Rattle.std.specs.Prelude.{◌≡◌, ◌⊎◌, ◌+◌, ◌^◌, ◌<◌, [], ◌∷◌, length, None};
ghost use Rattle.turn_lock.specs.Growth.{GrowsTo};
ghost use Rattle.turn_lock.specs.Views.{outside, entering, holding};

use crate::kept::Kept;
use crate::lock::TurnLock;
use crate::plays::{
    BothFronts, GiveTurn, KeepLonger, NoteEntries, Noted, SameFront, TakeTurn, TakeValue,
};
use crate::view::{COUNT, FREE, LockSeat, TAKEN, TURN, VALUE};
use std::sync::Wait;
use std::sync::atomic::Ordering;
use std::thread;

/// How often a pass that finds the turn taken only gives up the processor, before it sleeps.
const YIELDS: u64 = 32;

impl<V: Kept> TurnLock<V> {
    /// Tries until the seat has the turn. The answer is whether it first found it taken.
    pub(crate) fn take_turn<R: Wait>(&self, rt: &R, seat: &mut LockSeat<V>) -> bool
        requires lock { seat.old.table_id ≡ self.now }
        requires outside { seat.old.me ≡ (outside seat.old.me.0.front, []) }
        ensures lock { seat.new.table_id ≡ self.now }
        ensures turn { seat.new.me ≡ (entering seat.old.me.0.front, []) }
    {
        let mut tries: u64 = 0;
        for _ in rt.forever() {
            let found = self
                .table
                .shared
                .compare_exchange::<TakeTurn>(seat, TURN, FREE, TAKEN);
            if found == FREE {
                return tries > 0;
            }
            self.step_aside(rt, tries);
            tries = tries.saturating_add(1);
        }
        unreachable!()
    }

    /// Lets others run, and after some tries sleeps until a turn is given up. It may also return
    /// for no reason.
    fn step_aside<R: Wait>(&self, rt: &R, tries: u64) {
        if tries < YIELDS {
            thread::yield_now();
            return;
        }
        self.sleepers.fetch_add(1, Ordering::SeqCst);
        self.table.shared.park(rt, TURN, TAKEN as u32);
        self.sleepers.fetch_sub(1, Ordering::SeqCst);
    }

    /// Takes the value out of the lock.
    pub(crate) fn take_value(&self, seat: &mut LockSeat<V>) -> V
        requires lock { seat.old.table_id ≡ self.now }
        requires turn { seat.old.me ≡ (entering seat.old.me.0.front, []) }
        ensures lock { seat.new.table_id ≡ self.now }
        ensures turn { seat.new.me ≡ (holding (V.entries result), (0, None) ∷ []) }
        ensures grows { GrowsTo V.may_add seat.old.me.0.front (V.entries result) }
    {
        self.table.shared.fetch_add::<TakeValue>(seat, COUNT, 0);
        match self.table.shared.exchange(seat, VALUE, None) {
            Some(value) => value,
            None => unreachable!(),
        }
    }

    /// Counts `added` more entries.
    pub(crate) fn note_entries<N: Noted<V::Entry>>(
        &self,
        seat: &mut LockSeat<V>,
        _value: &V,
        added: u64,
    )
        requires noted { N.entries ≡ V.entries _value.now }
        requires lock { seat.old.table_id ≡ self.now }
        requires turn { seat.old.me ≡ (holding seat.old.me.0.front, (0, None) ∷ []) }
        requires grows { GrowsTo V.may_add seat.old.me.0.front N.entries }
        requires added { length seat.old.me.0.front + added ≡ length N.entries }
        requires fits { length N.entries < 2 ^ 64 }
        ensures lock { seat.new.table_id ≡ self.now }
        ensures turn { seat.new.me ≡ (holding N.entries, (0, None) ∷ []) }
    {
        self.table
            .shared
            .fetch_add::<NoteEntries<N>>(seat, COUNT, added);
    }

    /// Puts the value back, and gives the turn up.
    pub(crate) fn give_turn(&self, seat: &mut LockSeat<V>, value: V)
        requires lock { seat.old.table_id ≡ self.now }
        requires turn { seat.old.me ≡ (holding seat.old.me.0.front, (0, None) ∷ []) }
        requires whole { V.entries value ≡ seat.old.me.0.front }
        ensures lock { seat.new.table_id ≡ self.now }
        ensures outside { seat.new.me ≡ (outside seat.old.me.0.front, []) }
    {
        match self.table.shared.exchange(seat, VALUE, Some(value)) {
            None => {}
            Some(_) => unreachable!(),
        }
        self.table.shared.store::<GiveTurn>(seat, TURN, FREE);
        if self.has_sleepers() {
            self.table.shared.wake_one(TURN);
        }
    }

    /// A second seat with the same front.
    pub(crate) fn split_seat(&self, seat: &mut LockSeat<V>) -> LockSeat<V>
        requires lock { seat.old.table_id ≡ self.now }
        requires outside { seat.old.me ≡ (outside seat.old.me.0.front, []) }
        ensures lock { (seat.new.table_id ≡ self.now) × (result.table_id ≡ self.now) }
        ensures same { (seat.new.me ≡ seat.old.me) × (result.me ≡ seat.old.me) }
    {
        self.table.shared.split_seat::<SameFront>(seat)
    }

    /// Ends the other seat, and keeps the longer front.
    pub(crate) fn join_seats(&self, seat: &mut LockSeat<V>, other: LockSeat<V>)
        requires lock { (seat.old.table_id ≡ self.now) × (other.table_id ≡ self.now) }
        requires outside { (seat.old.me ≡ (outside seat.old.me.0.front, []))
            × (other.me ≡ (outside other.me.0.front, [])) }
        ensures lock { seat.new.table_id ≡ self.now }
        ensures outside { seat.new.me ≡ (outside seat.new.me.0.front, []) }
        ensures longer { (seat.new.me.0.front ≡ seat.old.me.0.front)
            ⊎ (seat.new.me.0.front ≡ other.me.0.front) }
        ensures this { GrowsTo V.may_add seat.old.me.0.front seat.new.me.0.front }
        ensures that { GrowsTo V.may_add other.me.0.front seat.new.me.0.front }
    {
        self.table.shared.join_seat::<BothFronts>(seat, other);
        self.table.shared.load::<KeepLonger<V>>(seat, TURN);
    }
}
