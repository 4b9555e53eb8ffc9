//! What a seat at the lock's table knows, and the rule of that table. No value of these types is
//! made.
ghost use Rattle.std.specs.Prelude.{ℕ, List};

use crate::kept::Kept;
use atomic_table::{Seat, Table, TableRule};
use std::alloc::Global;
use std::collections::LinkedList;
use std::marker::PhantomData;
use std::snapshot::Snapshot;

/// How far a seat is.
pub enum Stage {
    /// It does not have the turn.
    Outside,
    /// It has the turn, and the value is still in the lock.
    Entering,
    /// It has the turn and the value.
    Holding,
    /// It has two fronts, of which it keeps the longer.
    Joining,
    /// It was joined to another seat.
    Gone,
}

pub struct SeatView<E> {
    pub front: LinkedList<E>,
    pub joined: LinkedList<E>,
    pub stage: Stage,
}

pub struct TurnRule<V> {
    value: PhantomData<V>,
}

impl<V: Kept> TableRule<Option<V>, SeatView<V::Entry>, Snapshot<V>> for TurnRule<V> {
    ghost use Rattle.turn_lock.specs.Turns.{Turns};
    ghost use Rattle.turn_lock.specs.Views.{outside};

    ghost holds = { λ _. Turns V.entries V.may_add };

    ghost first = { λ value. outside (V.entries value.value) };
}

pub(crate) type LockTable<V> = Table<
    Option<V>,
    SeatView<<V as Kept>::Entry>,
    Snapshot<V>,
    TurnRule<V>,
    Global,
>;

pub(crate) type LockSeat<V> = Seat<Option<V>, SeatView<<V as Kept>::Entry>>;

/// The word that is `FREE` while nobody has the turn, and `TAKEN` while a pass has it.
pub(crate) const TURN: usize = 0;

pub(crate) const FREE: u64 = 0;

pub(crate) const TAKEN: u64 = 1;

/// The word that counts the value's entries.
pub(crate) const COUNT: usize = 1;

/// The slot of the value.
pub(crate) const VALUE: usize = 0;
