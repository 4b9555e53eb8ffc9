//! What the moves of a position of a slice lead to.
use crate::bits::Bits;
use crate::keys::{SliceKey, is_crowned_on};
use crate::movers::{count_king_steps, has_jump, man_steps};
use crate::slices::{Kings, Slices};
use crate::values::{LOST_AT_ONCE, OPEN, is_won, one_more};
use draughts_board::{Position, Side};
use std::alloc::{AllocError, Global};
use strategy_certificate::Oracle;
use swift_moves::successors_into;

/// A step of a man, which leads to another slice.
#[derive(Clone, Copy)]
pub(crate) struct ManStep {
    to: u32,
    is_crowned: bool,
    /// The number of the slice that it leads to.
    slice: usize,
}

/// What the moves of a position lead to.
#[derive(Clone, Copy)]
pub(crate) struct Outlook {
    /// How many of them stay in the slice.
    inside: u32,
    /// The least value of a lost position that some other move leads to; open where there is none.
    quickest: u8,
    /// The greatest value of a won position that some other move leads to; open where there is none.
    pub(crate) slowest: u8,
    /// Some other move leads to a position that neither side is known to win.
    is_open: bool,
}

impl Outlook {
    /// Of no move.
    const NONE: Outlook = Outlook {
        inside: 0,
        quickest: OPEN,
        slowest: OPEN,
        is_open: false,
    };

    /// A move leads out of the slice to a position of this value.
    #[inline]
    fn add(&mut self, value: u8) {
        if value == OPEN {
            self.is_open = true;
        } else if is_won(value) {
            self.slowest = self.slowest.max(value);
        } else if self.quickest == OPEN || value < self.quickest {
            self.quickest = value;
        }
    }

    /// The value that the moves out of the slice give.
    pub(crate) fn value(&self) -> u8 {
        if self.quickest != OPEN {
            return one_more(self.quickest);
        }
        if self.is_open || self.inside > 0 {
            return OPEN;
        }
        if self.slowest == OPEN {
            return LOST_AT_ONCE;
        }
        one_more(self.slowest)
    }

    /// For how many moves inside the slice the position waits until it is lost; 0 where it does not wait.
    pub(crate) fn waits(&self) -> u8 {
        if self.quickest != OPEN || self.is_open {
            return 0;
        }
        u8::try_from(self.inside).unwrap_or(0)
    }
}

/// The steps of the side's men out of the slice.
fn steps_of(
    alloc: Global,
    below: &Slices,
    key: &SliceKey,
    side: Side,
) -> Result<Vec<ManStep>, AllocError> {
    let mut steps = Vec::new(alloc);
    for man in Bits(key.men(side)) {
        for to in Bits(man_steps(side, man) & key.free()) {
            if let Some(slice) = below.number_of(&key.after_step(side, man, to)) {
                steps.push(ManStep {
                    to,
                    is_crowned: is_crowned_on(side, to),
                    slice,
                })?;
            }
        }
    }
    Ok(steps)
}

/// The surroundings of a slice: the slices that its moves lead to, and the table.
#[derive(Drop)]
pub(crate) struct Surroundings<'s, 'o, O> {
    oracle: &'o O,
    below: &'s Slices,
    key: SliceKey,
    black_steps: Vec<ManStep>,
    white_steps: Vec<ManStep>,
}

impl<'s, 'o, O: Oracle> Surroundings<'s, 'o, O> {
    /// The surroundings of the slice with this key.
    pub(crate) fn of(
        alloc: Global,
        below: &'s Slices,
        key: &SliceKey,
        oracle: &'o O,
    ) -> Result<Surroundings<'s, 'o, O>, AllocError> {
        Ok(Surroundings {
            oracle,
            below,
            key: *key,
            black_steps: steps_of(alloc, below, key, Side::Black)?,
            white_steps: steps_of(alloc, below, key, Side::White)?,
        })
    }

    /// The squares without a piece where the kings stand so.
    #[inline]
    pub(crate) fn empty(&self, kings: &Kings) -> u32 {
        self.key.free() & !(kings.black | kings.white)
    }

    /// The side to move has a jump.
    #[inline]
    pub(crate) fn has_jump(&self, kings: &Kings) -> bool {
        let mover = kings.to_move;
        let other = mover.other();
        let enemies = self.key.men(other) | kings.of(other);
        has_jump(
            mover,
            self.key.men(mover),
            kings.of(mover),
            enemies,
            self.empty(kings),
        )
    }

    /// What the moves lead to where the kings stand so. The positions after captures are put in place of what `next` held.
    pub(crate) fn look(
        &self,
        alloc: Global,
        kings: &Kings,
        next: &mut Vec<Position>,
    ) -> Result<Outlook, AllocError> {
        if self.has_jump(kings) {
            self.look_at_captures(alloc, kings, next)
        } else {
            Ok(self.look_at_steps(kings))
        }
    }

    /// What the steps lead to.
    #[inline]
    fn look_at_steps(&self, kings: &Kings) -> Outlook {
        let empty = self.empty(kings);
        let own = kings.of(kings.to_move);
        let mut outlook = Outlook {
            inside: count_king_steps(own, empty),
            ..Outlook::NONE
        };
        let steps = match kings.to_move {
            Side::Black => &self.black_steps,
            Side::White => &self.white_steps,
        };
        for step in steps {
            if step.to & empty != 0 {
                let crowned = if step.is_crowned { step.to } else { 0 };
                let after = kings.moved(kings.to_move, own | crowned);
                outlook.add(self.below.value_in(step.slice, &after));
            }
        }
        outlook
    }

    /// What the captures lead to.
    fn look_at_captures(
        &self,
        alloc: Global,
        kings: &Kings,
        next: &mut Vec<Position>,
    ) -> Result<Outlook, AllocError> {
        let mut outlook = Outlook::NONE;
        let masks = [
            self.key.black_men,
            kings.black,
            self.key.white_men,
            kings.white,
        ];
        let Some(p) = Position::of_masks(masks, kings.to_move) else {
            return Ok(outlook);
        };
        successors_into(alloc, &p, next)?;
        for q in next.iter() {
            outlook.add(self.below.value(q, self.oracle));
        }
        Ok(outlook)
    }
}
