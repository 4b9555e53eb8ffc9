//! What the replies of a position tell of it.
use crate::numbers::{INFINITE, MoverNumbers};

/// The best reply is left once it is worse than the second best by this part of that one, and one more.
const LEEWAY: u32 = 4;

/// What the replies of a position tell of it, for the side to move.
#[derive(Clone, Copy)]
pub(crate) struct Outlook {
    /// The place of the reply after which what the mover wants is nearest; of such, that after which what the other side
    /// wants is nearest too.
    pub(crate) best: usize,
    /// The numbers of that reply.
    best_numbers: MoverNumbers,
    /// How far what the mover wants is after the second best reply.
    second: u32,
    /// How far what the other side wants is after the reply where that is farthest.
    greatest: u32,
    /// After how many replies the other side does not have yet what it wants.
    open: u32,
}

impl Outlook {
    /// Without a reply.
    pub(crate) const NONE: Outlook = Outlook {
        best: 0,
        best_numbers: MoverNumbers {
            own: INFINITE,
            other: INFINITE,
        },
        second: INFINITE,
        greatest: 0,
        open: 0,
    };

    /// The reply at this place leads to a position with these numbers.
    #[inline]
    pub(crate) fn add(&mut self, place: usize, reply: MoverNumbers) {
        self.greatest = self.greatest.max(reply.own);
        if reply.own > 0 {
            self.open = self.open.saturating_add(1);
        }
        let best = self.best_numbers;
        if reply.other < best.other || (reply.other == best.other && reply.own < best.own) {
            self.second = best.other;
            self.best = place;
            self.best_numbers = reply;
        } else {
            self.second = self.second.min(reply.other);
        }
    }

    /// How far the other side is from an answer to every reply. Replies often need the same answers, so the greatest of
    /// their numbers counts, and each other open reply as one.
    fn answered(&self) -> u32 {
        if self.greatest == 0 || self.greatest >= INFINITE {
            return self.greatest;
        }
        let others = self.open.saturating_sub(1);
        self.greatest.saturating_add(others).min(INFINITE)
    }

    /// The numbers of the position.
    pub(crate) fn numbers(&self) -> MoverNumbers {
        if self.best_numbers.other == 0 {
            return MoverNumbers::REACHED;
        }
        MoverNumbers {
            own: self.best_numbers.other,
            other: self.answered(),
        }
    }

    /// The limits up to which the best reply is followed, where the position has these.
    pub(crate) fn limits_below(&self, limits: &MoverNumbers) -> MoverNumbers {
        let beyond = self
            .second
            .saturating_add(1)
            .saturating_add(self.second / LEEWAY);
        let left = limits.other.saturating_sub(self.answered());
        MoverNumbers {
            own: left.saturating_add(self.best_numbers.own).min(INFINITE),
            other: limits.own.min(beyond).min(INFINITE),
        }
    }
}
