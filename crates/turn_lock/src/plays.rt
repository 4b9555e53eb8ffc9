//! What each step on the lock's table tells the seat that makes it. No value of these types is made.
ghost use Rattle.std.specs.Prelude.{List, []};
ghost use Rattle.turn_lock.specs.Told.{TakesTurn, TakesValue, NotesEntries, GivesTurn, KeepsLonger};
ghost use Rattle.turn_lock.specs.Views.{joining, gone};

use crate::kept::Kept;
use crate::view::SeatView;
use atomic_table::{Join, Play, Split};
use std::marker::{Brand, PhantomData};

/// The turn is taken, or found taken.
pub(crate) struct TakeTurn;

impl<V, E> Play<Option<V>, SeatView<E>> for TakeTurn {
    ghost then = { TakesTurn };
}

/// The value goes out with the seat.
pub(crate) struct TakeValue;

impl<V: Kept> Play<Option<V>, SeatView<V::Entry>> for TakeValue {
    ghost then = { TakesValue V.entries V.may_add };
}

/// The entries that a call of `note` tells. A step does not see the value in its caller's hand, so
/// the call picks them.
pub(crate) trait Noted<E> {
    ghost entries: { List E };
}

impl<E> Noted<E> for Brand {
    ghost entries = { [] };
}

/// The value has more entries.
pub(crate) struct NoteEntries<N> {
    noted: PhantomData<N>,
}

impl<V, E, N: Noted<E>> Play<Option<V>, SeatView<E>> for NoteEntries<N> {
    ghost then = { NotesEntries N.entries };
}

/// The value is back, and the turn is free.
pub(crate) struct GiveTurn;

impl<V, E> Play<Option<V>, SeatView<E>> for GiveTurn {
    ghost then = { GivesTurn };
}

/// Of two fronts the longer is kept.
pub(crate) struct KeepLonger<V> {
    value: PhantomData<V>,
}

impl<V: Kept> Play<Option<V>, SeatView<V::Entry>> for KeepLonger<V> {
    ghost then = { KeepsLonger V.may_add };
}

/// A second seat knows what the first knows.
pub(crate) struct SameFront;

impl<E> Split<SeatView<E>> for SameFront {
    ghost left = { λ view. view };

    ghost right = { λ view. view };
}

/// One seat has both fronts, and the other is gone.
pub(crate) struct BothFronts;

impl<E> Join<SeatView<E>> for BothFronts {
    ghost both = { joining };

    ghost spent = { gone };
}
