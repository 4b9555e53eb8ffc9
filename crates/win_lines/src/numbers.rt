//! Proof and disproof numbers as a search reckons with them.

/// The number of what cannot be shown.
pub(crate) const INFINITE: u32 = 1 << 30;

/// How far a position is from what is wanted there, for the side to move: it is either the side whose win is sought, or
/// wants to keep that side from it.
///
/// The one number is the proof number, the other the disproof number: the former is the mover's own where it seeks the win.
#[derive(Clone, Copy, PartialEq, Eq)]
pub(crate) struct MoverNumbers {
    /// How many positions have to be settled at least until the side to move has what it wants.
    pub(crate) own: u32,
    /// The same for the other side.
    pub(crate) other: u32,
}

impl MoverNumbers {
    /// The side to move has what it wants.
    pub(crate) const REACHED: MoverNumbers = MoverNumbers {
        own: 0,
        other: INFINITE,
    };

    /// The other side has what it wants.
    pub(crate) const MISSED: MoverNumbers = MoverNumbers {
        own: INFINITE,
        other: 0,
    };

    /// Those of a position that was not looked at, with this many replies: the mover needs one of them, the other side all.
    pub(crate) fn unseen(replies: usize) -> MoverNumbers {
        MoverNumbers {
            own: 1,
            other: u32::try_from(replies).unwrap_or(INFINITE).min(INFINITE),
        }
    }

    /// Those of a position where the side whose win is sought is known to win, or known not to.
    pub(crate) fn decided(is_won: bool, is_seeker_to_move: bool) -> MoverNumbers {
        if is_won == is_seeker_to_move {
            MoverNumbers::REACHED
        } else {
            MoverNumbers::MISSED
        }
    }

    /// It is known whether the side to move has what it wants.
    pub(crate) fn is_settled(&self) -> bool {
        self.own == 0 || self.other == 0
    }

    /// One of the numbers has reached its limit.
    pub(crate) fn exceeds(&self, limits: &MoverNumbers) -> bool {
        self.own >= limits.own || self.other >= limits.other
    }
}
