//! Which slices there are below a position.
use crate::bits::Bits;
use crate::choices::Choices;
use crate::movers::man_steps;
use draughts_board::{Position, Side};
use indexmap::IndexSet;
use std::alloc::{AllocError, Global};

/// The squares 29 to 32, where Black's men are crowned.
const LAST_ROW: u32 = 0xF000_0000;

/// The squares 1 to 4, where White's men are crowned.
const FIRST_ROW: u32 = 0x0000_000F;

/// More slices are never listed.
const MOST_SLICES: usize = 1 << 20;

/// What the positions of a slice have in common: where the men stand, and how many kings each side has.
///
/// In the order of keys, each slice comes behind those that its moves lead to: they have fewer pieces, or men nearer to
/// their last rows. The other fields make the order whole.
#[derive(Clone, Copy, PartialEq, Eq, PartialOrd, Ord, Hash)]
pub(crate) struct SliceKey {
    pub(crate) pieces: u32,
    /// How many rows the men have still to go, together.
    rows_to_go: u32,
    pub(crate) black_men: u32,
    pub(crate) white_men: u32,
    /// How many kings Black has.
    pub(crate) black_kings: u32,
    /// How many kings White has.
    pub(crate) white_kings: u32,
}

/// How many rows a man of the side on this square has still to go.
fn rows_to_go(side: Side, square: u32) -> u32 {
    let row = square.trailing_zeros() / 4;
    match side {
        Side::Black => 7_u32.saturating_sub(row),
        Side::White => row,
    }
}

/// How many rows the men of the side have still to go, together.
fn all_rows_to_go(side: Side, men: u32) -> u32 {
    let mut rows = 0_u32;
    for man in Bits(men) {
        rows = rows.saturating_add(rows_to_go(side, man));
    }
    rows
}

/// A man of the side crowns on these squares.
pub(crate) fn is_crowned_on(side: Side, square: u32) -> bool {
    match side {
        Side::Black => square & LAST_ROW != 0,
        Side::White => square & FIRST_ROW != 0,
    }
}

impl SliceKey {
    /// The key of the slice with these men and these numbers of kings.
    pub(crate) fn new(
        black_men: u32,
        white_men: u32,
        black_kings: u32,
        white_kings: u32,
    ) -> SliceKey {
        let kings = black_kings.saturating_add(white_kings);
        let black_rows = all_rows_to_go(Side::Black, black_men);
        let white_rows = all_rows_to_go(Side::White, white_men);
        SliceKey {
            pieces: (black_men | white_men).count_ones().saturating_add(kings),
            rows_to_go: black_rows.saturating_add(white_rows),
            black_men,
            white_men,
            black_kings,
            white_kings,
        }
    }

    /// The key of the position's slice.
    pub(crate) fn of(p: &Position) -> SliceKey {
        let [black_men, black_kings, white_men, white_kings] = p.masks();
        SliceKey::new(
            black_men,
            white_men,
            black_kings.count_ones(),
            white_kings.count_ones(),
        )
    }

    /// The squares without a man.
    #[inline]
    pub(crate) fn free(&self) -> u32 {
        !(self.black_men | self.white_men)
    }

    /// The men of the side.
    #[inline]
    pub(crate) fn men(&self, side: Side) -> u32 {
        match side {
            Side::Black => self.black_men,
            Side::White => self.white_men,
        }
    }

    /// How many kings the side has.
    fn kings(&self, side: Side) -> u32 {
        match side {
            Side::Black => self.black_kings,
            Side::White => self.white_kings,
        }
    }

    /// In how many ways Black's kings can stand, and then White's.
    pub(crate) fn ways(&self, choices: &Choices) -> (u32, u32) {
        let free = self.free().count_ones();
        let black = choices.count(free, self.black_kings);
        let white = choices.count(free.saturating_sub(self.black_kings), self.white_kings);
        (black, white)
    }

    /// How many positions the slice has.
    pub(crate) fn size(&self, choices: &Choices) -> u64 {
        let (black, white) = self.ways(choices);
        u64::from(black)
            .saturating_mul(u64::from(white))
            .saturating_mul(2)
    }

    /// The key with these in place of the side's men, and `kings` kings of it.
    fn with(&self, side: Side, men: u32, kings: u32) -> SliceKey {
        match side {
            Side::Black => SliceKey::new(men, self.white_men, kings, self.white_kings),
            Side::White => SliceKey::new(self.black_men, men, self.black_kings, kings),
        }
    }

    /// The key after a man of the side has stepped from one square to the other.
    pub(crate) fn after_step(&self, side: Side, from: u32, to: u32) -> SliceKey {
        let others = self.men(side) & !from;
        if is_crowned_on(side, to) {
            self.with(side, others, self.kings(side).saturating_add(1))
        } else {
            self.with(side, others | to, self.kings(side))
        }
    }

    /// The key without a king of the side; none where it has none, or no other piece.
    fn without_king(&self, side: Side) -> Option<SliceKey> {
        let kings = self.kings(side);
        if kings == 0 || (kings == 1 && self.men(side) == 0) {
            return None;
        }
        Some(self.with(side, self.men(side), kings - 1))
    }

    /// The key without this man of the side; none where it has no other piece.
    fn without_man(&self, side: Side, man: u32) -> Option<SliceKey> {
        let others = self.men(side) & !man;
        if others == 0 && self.kings(side) == 0 {
            return None;
        }
        Some(self.with(side, others, self.kings(side)))
    }
}

/// Lists the keys after a step of this man.
fn add_steps(
    key: &SliceKey,
    side: Side,
    man: u32,
    keys: &mut IndexSet<SliceKey>,
) -> Result<(), AllocError> {
    for to in Bits(man_steps(side, man) & key.free()) {
        keys.insert(key.after_step(side, man, to))?;
    }
    Ok(())
}

/// Lists the keys that the side's men step to, and where `is_taken` those without a piece of the side.
fn add_below(
    key: &SliceKey,
    side: Side,
    is_taken: bool,
    keys: &mut IndexSet<SliceKey>,
) -> Result<(), AllocError> {
    for man in Bits(key.men(side)) {
        add_steps(key, side, man, keys)?;
        if is_taken {
            if let Some(fewer) = key.without_man(side, man) {
                keys.insert(fewer)?;
            }
        }
    }
    if is_taken {
        if let Some(fewer) = key.without_king(side) {
            keys.insert(fewer)?;
        }
    }
    Ok(())
}

/// The keys of all slices below the position with more pieces than the table, each behind those that it leads to. None as
/// soon as they have more than `most` positions together.
pub(crate) fn keys_below(
    alloc: Global,
    p: &Position,
    table_pieces: u32,
    most: u64,
    choices: &Choices,
) -> Result<Option<Vec<SliceKey>>, AllocError> {
    let mut keys = IndexSet::new(alloc);
    keys.insert(SliceKey::of(p))?;
    let mut positions = 0_u64;
    for place in 0..MOST_SLICES {
        let Some(key) = keys.get_index(place).copied() else {
            return Ok(Some(in_order(alloc, &keys)?));
        };
        positions = positions.saturating_add(key.size(choices));
        if positions > most {
            return Ok(None);
        }
        let is_taken = key.pieces > table_pieces.saturating_add(1);
        add_below(&key, Side::Black, is_taken, &mut keys)?;
        add_below(&key, Side::White, is_taken, &mut keys)?;
    }
    Ok(None)
}

/// The keys in their order.
fn in_order(alloc: Global, keys: &IndexSet<SliceKey>) -> Result<Vec<SliceKey>, AllocError> {
    let mut sorted = Vec::with_capacity(alloc, keys.len())?;
    for key in keys.iter() {
        sorted.push(*key)?;
    }
    sorted.sort()?;
    Ok(sorted)
}
