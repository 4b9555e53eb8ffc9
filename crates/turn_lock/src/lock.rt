//! The lock, its passes, and their calls.
ghost use Rattle.std.specs.Prelude.{◌≡◌, ◌⊎◌, ◌+◌, ◌^◌, ◌<◌, true, false, [], ◌∷◌, length, Some, IfOk, IfErr};
ghost use Rattle.turn_lock.specs.Growth.{GrowsTo};
ghost use Rattle.turn_lock.specs.Seen.{seen, IsBetweenCalls};

use crate::kept::Kept;
use crate::view::{COUNT, FREE, LockSeat, LockTable, VALUE};
use atomic_table::{Refused, Table};
use std::alloc::{AllocError, AllocFailed, Global};
use std::marker::{Brand, Model};
use std::snapshot::Snapshot;
use std::sync::Wait;
use std::sync::atomic::{AtomicU64, Ordering};

/// A lock over one value. Contracts see which lock it is.
///
/// It is `Drop` where the value is; any other value is taken out by `close`.
#[derive(Drop)]
pub struct TurnLock<V: Kept> {
    pub(crate) table: LockTable<V>,
    // How many passes sleep, or are about to. While there are none, `leave` makes no system call. A
    // pass counts itself before the kernel looks at the turn word for it, and `leave` frees that
    // word before it reads this count, so no wake is lost. That is not proved: contracts do not
    // speak of waiting.
    pub(crate) sleepers: AtomicU64,
}

impl<V: Kept> Model for TurnLock<V> {
    ghost use Rattle.std.specs.Prelude.{◌≡◌};
    ghost use Rattle.turn_lock.specs.Seen.{LockId};

    ghost Value = { LockId };

    ghost view = { λ l. l.table.shared.table_id };

    ghost invariant = { λ l. (l.table.shared.table_id.words ≡ 2)
        × (l.table.shared.table_id.slots ≡ 1) };
}

/// What a thread enters a lock with. Contracts see which lock it is of, its front (the entries that
/// it has seen), and whether it has the turn.
///
/// A pass that is dropped while it has the turn locks the value away for good.
pub struct Pass<V: Kept> {
    seat: LockSeat<V>,
    // It found the turn taken when it last entered.
    has_waited: bool,
}

impl<V: Kept> Model for Pass<V> {
    ghost use Rattle.turn_lock.specs.Seen.{SeenPass};

    ghost Value = { SeenPass V.Entry };

    ghost use Rattle.turn_lock.specs.Seen.{seen, IsBetweenCalls};

    ghost view = { λ p. seen p.seat.table_id p.seat.me };

    ghost invariant = { λ p. IsBetweenCalls p.seat.me };
}

impl<V: Kept> Drop for Pass<V> {
    fn drop(self) {
        let Self {
            seat: _,
            has_waited: _,
        } = self;
    }
}

impl<V: Kept> TurnLock<V> {
    /// A lock over the value, and its first pass. Want of memory hands the value back.
    pub fn new(alloc: Global, value: V) -> Result<(TurnLock<V>, Pass<V>), (V, AllocError)>
        ensures lock { IfOk result (λ made. made.1.lock ≡ made.0) }
        ensures outside { IfOk result (λ made. made.1.turn ≡ false) }
        ensures front { IfOk result (λ made. made.1.front ≡ V.entries value) }
        ensures handed_back { IfErr result (λ refused. refused.0 ≡ value) }
    {
        let about = Snapshot::of(&value);
        let count = value.count();
        let slots = filled_slot(alloc, value)?;
        match Table::new(alloc, &[FREE, count], slots, &about) {
            Ok((table, seat)) => {
                let sleepers = AtomicU64::new(0);
                let pass = Pass {
                    seat,
                    has_waited: false,
                };
                Ok((TurnLock { table, sleepers }, pass))
            }
            Err(Refused { slots }) => Err((value_of(slots), AllocError)),
        }
    }

    /// Waits until the pass has the turn, and hands it the value, for `leave` to take back.
    ///
    /// It sleeps while another pass has the turn, and never returns where that pass was dropped
    /// with it.
    pub fn enter<R: Wait>(&self, rt: &R, pass: &mut Pass<V>) -> V
        requires lock { pass.old.lock ≡ self.now }
        requires outside { pass.old.turn ≡ false }
        ensures lock { pass.new.lock ≡ self.now }
        ensures turn { pass.new.turn ≡ true }
        ensures whole { pass.new.front ≡ V.entries result }
        ensures grows { GrowsTo V.may_add pass.old.front pass.new.front }
    {
        pass.has_waited = self.take_turn(rt, &mut pass.seat);
        self.take_value(&mut pass.seat)
    }

    /// Tells the lock that the value has `added` more entries, which may be none.
    ///
    /// A list in memory has fewer than 2^64 entries, so `fits` holds of each value that keeps its
    /// own.
    pub fn note(&self, pass: &mut Pass<V>, value: &V, added: u64)
        requires lock { pass.old.lock ≡ self.now }
        requires turn { pass.old.turn ≡ true }
        requires grows { GrowsTo V.may_add pass.old.front (V.entries value.now) }
        requires added { length pass.old.front + added ≡ length (V.entries value.now) }
        requires fits { length (V.entries value.now) < 2 ^ 64 }
        ensures lock { pass.new.lock ≡ self.now }
        ensures turn { pass.new.turn ≡ true }
        ensures whole { pass.new.front ≡ V.entries value.now }
    {
        self.note_entries::<Brand>(&mut pass.seat, value, added);
    }

    /// Puts the value back, and gives the turn up. Every entry of the value was noted.
    pub fn leave(&self, pass: &mut Pass<V>, value: V)
        requires lock { pass.old.lock ≡ self.now }
        requires turn { pass.old.turn ≡ true }
        requires whole { V.entries value ≡ pass.old.front }
        ensures lock { pass.new.lock ≡ self.now }
        ensures outside { pass.new.turn ≡ false }
        ensures front { pass.new.front ≡ pass.old.front }
    {
        self.give_turn(&mut pass.seat, value);
    }

    /// Whether a pass sleeps until the turn is given up, or is about to. It may have changed when the
    /// answer comes, so nothing but patience should rest on it.
    pub fn has_sleepers(&self) -> bool {
        self.sleepers.load(Ordering::SeqCst) != 0
    }

    /// A second pass, which has seen what the first has.
    pub fn split(&self, pass: &mut Pass<V>) -> Pass<V>
        requires lock { pass.old.lock ≡ self.now }
        requires outside { pass.old.turn ≡ false }
        ensures same { pass.new ≡ pass.old }
        ensures copy { result ≡ pass.old }
    {
        Pass {
            seat: self.split_seat(&mut pass.seat),
            has_waited: false,
        }
    }

    /// Ends the other pass, and takes the longer of the two fronts, of which the other is a
    /// beginning.
    pub fn join_pass(&self, pass: &mut Pass<V>, other: Pass<V>)
        requires lock { (pass.old.lock ≡ self.now) × (other.lock ≡ self.now) }
        requires outside { (pass.old.turn ≡ false) × (other.turn ≡ false) }
        ensures lock { pass.new.lock ≡ self.now }
        ensures outside { pass.new.turn ≡ false }
        ensures longer { (pass.new.front ≡ pass.old.front) ⊎ (pass.new.front ≡ other.front) }
        ensures this { GrowsTo V.may_add pass.old.front pass.new.front }
        ensures that { GrowsTo V.may_add other.front pass.new.front }
    {
        self.join_seats(&mut pass.seat, other.into_seat());
    }

    /// Waits as `enter` does, and hands the value out for good, with the count word: the value has that
    /// many entries.
    pub fn close<R: Wait>(self, rt: &R, pass: Pass<V>) -> (V, u64)
        requires lock { pass.lock ≡ self }
        requires outside { pass.turn ≡ false }
        ensures grows { GrowsTo V.may_add pass.front (V.entries result.0) }
        ensures count { length (V.entries result.0) ≡ result.1 }
    {
        let mut seat = pass.into_seat();
        self.take_turn(rt, &mut seat);
        let TurnLock { table, sleepers: _ } = self;
        let mut closed = table.close_with(seat);
        let count = closed.word(COUNT);
        let home = closed.take(VALUE);
        closed.free();
        match home {
            Some(value) => (value, count),
            None => unreachable!(),
        }
    }
}

impl<V: Kept> Pass<V> {
    /// Whether another pass had the turn when this one last asked for it. Nothing but patience should rest on it.
    pub fn has_waited(&self) -> bool {
        self.has_waited
    }

    /// Its seat at the table.
    fn into_seat(self) -> LockSeat<V>
        ensures view { seen result.table_id result.me ≡ self }
        ensures between { IsBetweenCalls result.me }
    {
        let Self {
            seat,
            has_waited: _,
        } = self;
        seat
    }
}

/// The one slot of a table, with the value.
fn filled_slot<V>(alloc: Global, value: V) -> Result<Vec<Option<V>>, (V, AllocError)>
    ensures ok { IfOk result (λ slots. slots.items ≡ Some value ∷ []) }
    ensures err { IfErr result (λ refused. refused.0 ≡ value) }
{
    let mut slots = Vec::new(alloc);
    match slots.push(Some(value)) {
        Ok(()) => Ok(slots),
        Err(AllocFailed { value }) => {
            slots.destroy_empty();
            match value {
                Some(value) => Err((value, AllocError)),
                None => unreachable!(),
            }
        }
    }
}

/// The value of the one slot.
fn value_of<V>(mut slots: Vec<Option<V>>) -> V
    requires { (value : V) × (slots.items ≡ Some value ∷ []) }
    ensures { slots.items ≡ Some result ∷ [] }
{
    let last = slots.pop();
    slots.destroy_empty();
    match last {
        Some(Some(value)) => value,
        _ => unreachable!(),
    }
}
