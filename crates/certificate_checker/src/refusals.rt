//! Why a certificate is refused.
ghost use Rattle.std.specs.Prelude.{◌≡◌};
ghost use Rattle.certificate_checker.specs.Refusals.{part_refusal_at};

use crate::faults::{EntryFault, PartFault};
use draughts_board::Position;
use std::alloc::AllocError;

/// Why a certificate is refused. Parts and entries are counted from 1.
///
/// The claim is looked at first, and then the parts in order: of each its entries in order, and
/// then its root. Of an entry a stuck holder is looked for first, then a bad move, then what is
/// missing, and then its rank.
#[derive(Clone, Copy, PartialEq, Eq, Debug, thiserror::Error)]
pub enum CheckRefusal {
    /// Some due successor of a win part's entry has no smaller rank, neither by an entry of the
    /// part nor by the table.
    #[error("part {part}, entry {entry}: the rank of a successor is not below its own")]
    BadRank {
        part: usize,
        entry: usize,
    },
    /// The part's side moves, and the chosen move is absent or illegal; or the other side moves,
    /// and a move is chosen.
    #[error("part {part}, entry {entry}: not the move that is due")]
    BadMove {
        part: usize,
        entry: usize,
    },
    /// This due successor, the first such, is neither an entry of the part nor shown by the table.
    #[error("part {part}, entry {entry}: a successor is missing")]
    Missing {
        part: usize,
        entry: usize,
        successor: Position,
    },
    /// In a hold part its side moves and has no legal move: it has lost.
    #[error("part {part}, entry {entry}: the holder has no move")]
    StuckHolder {
        part: usize,
        entry: usize,
    },
    /// The entries of this part are good, and the certificate's position is neither one of them nor
    /// shown by the table.
    #[error("part {0}: the position is missing")]
    NoRoot(usize),
    /// The parts are not those that the claim needs.
    #[error("the parts do not meet the claim")]
    ClaimNotMet,
    /// There was no memory for the check.
    #[error("out of memory")]
    Memory(AllocError),
}

/// The refusal for a fault of the part of this number.
pub(crate) fn refusal_at(part: usize, fault: PartFault) -> CheckRefusal
    ensures { result ≡ part_refusal_at part fault }
{
    let PartFault::Entry(entry, fault) = fault else {
        return CheckRefusal::NoRoot(part);
    };
    match fault {
        EntryFault::StuckHolder => CheckRefusal::StuckHolder { part, entry },
        EntryFault::BadMove => CheckRefusal::BadMove { part, entry },
        EntryFault::Missing(successor) => CheckRefusal::Missing {
            part,
            entry,
            successor,
        },
        EntryFault::BadRank => CheckRefusal::BadRank { part, entry },
    }
}
