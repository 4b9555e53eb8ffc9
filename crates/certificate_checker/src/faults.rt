//! What can be wrong with a part.
use draughts_board::Position;

/// What is wrong with an entry, in the order in which it is looked for.
#[derive(Clone, Copy, PartialEq, Eq, Debug)]
pub(crate) enum EntryFault {
    /// The holder moves and has no legal move.
    StuckHolder,
    /// The move that is due is not chosen, or one is chosen where none is due.
    BadMove,
    /// This due position has no entry, and the table does not show it; it is the first such.
    Missing(Position),
    /// The rank of some due position is not below that of the entry.
    BadRank,
}

/// What is wrong with a part.
#[derive(Clone, Copy, PartialEq, Eq, Debug)]
pub(crate) enum PartFault {
    /// The entry of this number, counted from 1, is the first with a fault.
    Entry(usize, EntryFault),
    /// The entries are good, and the position has no entry, nor does the table show it.
    NoRoot,
}
