//! Slices that were worked out, and what they say of a position.
use crate::choices::Choices;
use crate::keys::SliceKey;
use crate::values::{LOST_AT_ONCE, OPEN, answer_of, is_won, value_answered};
use draughts_board::{Position, Side};
use indexmap::IndexMap;
use std::alloc::{AllocError, Global};
use strategy_certificate::{Answer, Oracle};
use win_lines::KnownWins;

/// Where the kings of a position of a slice stand, and whose turn it is.
#[derive(Clone, Copy)]
pub(crate) struct Kings {
    pub(crate) black: u32,
    pub(crate) white: u32,
    pub(crate) to_move: Side,
}

impl Kings {
    /// The side's kings.
    #[inline]
    pub(crate) fn of(&self, side: Side) -> u32 {
        match side {
            Side::Black => self.black,
            Side::White => self.white,
        }
    }

    /// The same, where the side's kings stand on these squares and the other side is to move.
    #[inline]
    pub(crate) fn moved(&self, side: Side, kings: u32) -> Kings {
        match side {
            Side::Black => Kings {
                black: kings,
                white: self.white,
                to_move: Side::White,
            },
            Side::White => Kings {
                black: self.black,
                white: kings,
                to_move: Side::Black,
            },
        }
    }
}

/// The order of the positions of a slice: by Black's kings, then by White's among what is left, then by the side to move.
#[derive(Clone, Copy)]
pub(crate) struct Layout {
    /// The squares without a man.
    pub(crate) free: u32,
    /// How many kings Black has.
    pub(crate) black_kings: u32,
    /// How many kings White has.
    pub(crate) white_kings: u32,
    /// In how many ways White's kings can stand beside Black's.
    pub(crate) white_ways: u32,
}

impl Layout {
    /// The order of the positions of this slice.
    pub(crate) fn of(key: &SliceKey, choices: &Choices) -> Layout {
        let (_, white_ways) = key.ways(choices);
        Layout {
            free: key.free(),
            black_kings: key.black_kings,
            white_kings: key.white_kings,
            white_ways,
        }
    }

    /// The place of a position.
    #[inline]
    pub(crate) fn place(&self, kings: &Kings, choices: &Choices) -> usize {
        let black = choices.rank(kings.black, self.free);
        let white = choices.rank(kings.white, self.free & !kings.black);
        let pair = black.wrapping_mul(self.white_ways).wrapping_add(white);
        let side = match kings.to_move {
            Side::Black => 0,
            Side::White => 1,
        };
        pair as usize * 2 + side
    }

    /// The position at a place.
    pub(crate) fn kings_at(&self, place: usize, choices: &Choices) -> Kings {
        let pair = (place / 2) as u64;
        let ways = u64::from(self.white_ways).max(1);
        let before = u32::try_from(pair / ways).unwrap_or(u32::MAX);
        let behind = u32::try_from(pair % ways).unwrap_or(u32::MAX);
        let black = choices.squares_at(before, self.black_kings, self.free);
        let others = self.free & !black;
        Kings {
            black,
            white: choices.squares_at(behind, self.white_kings, others),
            to_move: if place % 2 == 0 {
                Side::Black
            } else {
                Side::White
            },
        }
    }
}

/// A slice that was worked out.
#[derive(Drop)]
pub(crate) struct Slice {
    pub(crate) layout: Layout,
    /// The value of each position, at its place.
    pub(crate) values: Vec<u8>,
}

/// Positions with more pieces than the table, worked out slice by slice. With a slice there are those that its moves lead to.
#[derive(Drop)]
pub struct Slices {
    choices: Choices,
    slices: IndexMap<SliceKey, Slice>,
}

impl Slices {
    /// No slices yet. No memory is taken.
    pub fn new(alloc: Global) -> Slices {
        Slices {
            choices: Choices::new(),
            slices: IndexMap::new(alloc),
        }
    }

    /// Forgets all slices.
    pub(crate) fn clear(&mut self) {
        self.slices.clear();
    }

    /// How many choices there are of some squares among others.
    #[inline]
    pub(crate) fn choices(&self) -> &Choices {
        &self.choices
    }

    /// The number of the slice with this key.
    pub(crate) fn number_of(&self, key: &SliceKey) -> Option<usize> {
        self.slices.get_index_of(key)
    }

    /// Adds a slice that was worked out.
    pub(crate) fn add(&mut self, key: SliceKey, slice: Slice) -> Result<(), AllocError> {
        self.slices.insert(key, slice)?;
        Ok(())
    }

    /// How many positions there are.
    pub fn position_count(&self) -> u64 {
        let mut positions = 0_u64;
        for slice in self.slices.values() {
            positions = positions.saturating_add(slice.values.len() as u64);
        }
        positions
    }

    /// How many positions there are with those of the slices with these keys.
    pub(crate) fn position_count_with(&self, keys: &[SliceKey]) -> u64 {
        let mut positions = self.position_count();
        for key in keys {
            if self.number_of(key).is_none() {
                positions = positions.saturating_add(key.size(&self.choices));
            }
        }
        positions
    }

    /// The value of the position of the slice with this number where the kings stand so.
    #[inline]
    pub(crate) fn value_in(&self, number: usize, kings: &Kings) -> u8 {
        let Some((_, slice)) = self.slices.get_index(number) else {
            return OPEN;
        };
        let place = slice.layout.place(kings, &self.choices);
        slice.values.get(place).copied().unwrap_or(OPEN)
    }

    /// The value of a position, by the table or by its slice; open where there is none.
    pub(crate) fn value<O: Oracle>(&self, p: &Position, oracle: &O) -> u8 {
        if let Some(answer) = oracle.answer(p) {
            return value_answered(answer);
        }
        if p.count(p.to_move()) == 0 {
            return LOST_AT_ONCE;
        }
        let Some(number) = self.number_of(&SliceKey::of(p)) else {
            return OPEN;
        };
        let [_, black, _, white] = p.masks();
        let kings = Kings {
            black,
            white,
            to_move: p.to_move(),
        };
        self.value_in(number, &kings)
    }

    /// What was found of a position, for the side to move; a draw too where nothing was found.
    pub fn answer<O: Oracle>(&self, p: &Position, oracle: &O) -> Answer {
        answer_of(self.value(p, oracle))
    }

    /// The side was found to win the position.
    pub fn is_win<O: Oracle>(&self, side: Side, p: &Position, oracle: &O) -> bool {
        let value = self.value(p, oracle);
        value != OPEN && is_won(value) == (p.to_move() == side)
    }
}

impl KnownWins for Slices {
    fn plies<O: Oracle>(&self, side: Side, p: &Position, oracle: &O) -> Option<u32> {
        let mine = p.to_move() == side;
        match self.answer(p, oracle) {
            Answer::Win(plies) if mine => Some(plies),
            Answer::Loss(plies) if !mine => Some(plies),
            _ => None,
        }
    }
}
