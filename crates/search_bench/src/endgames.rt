//! Random endgames, drawn from a seed.
use anyhow::Result;
use draughts_board::{Position, Side};
use rand_core::utils::NextWord;
use rand_pcg::Pcg32;
use std::alloc::Global;
use swift_moves::{has_move, successors};

/// How many endgames a set has.
pub(crate) const SET_SIZE: usize = 75;

/// No more positions are drawn for a set: some one in five is taken.
const MOST_DRAWN: usize = 100_000;

/// The stream of numbers that the sets are drawn from.
const STREAM: u64 = 1;

/// How many pieces each side of a set's endgames has, and the seed of the set.
#[derive(Clone, Copy)]
pub(crate) struct Endgames {
    pub(crate) black: u32,
    pub(crate) white: u32,
    pub(crate) seed: u64,
}

/// The sets that searches are timed with.
pub(crate) const SETS: [Endgames; 4] = [
    Endgames {
        black: 2,
        white: 2,
        seed: 22,
    },
    Endgames {
        black: 3,
        white: 2,
        seed: 32,
    },
    Endgames {
        black: 3,
        white: 3,
        seed: 33,
    },
    Endgames {
        black: 4,
        white: 3,
        seed: 43,
    },
];

/// A mask of one square that is drawn.
fn square(dice: &mut Pcg32) -> u32 {
    1_u32 << (dice.next_word() % 32)
}

/// The masks of `pieces` pieces on squares that are drawn, men and kings: each second piece is a king. Where a square is
/// drawn twice, there are fewer.
fn side_drawn(dice: &mut Pcg32, pieces: u32) -> (u32, u32) {
    let mut men = 0;
    let mut kings = 0;
    for number in 0..pieces {
        if number % 2 == 0 {
            men |= square(dice);
        } else {
            kings |= square(dice);
        }
    }
    (men, kings)
}

/// Some move of the side takes a piece.
fn has_capture(alloc: Global, p: &Position, side: Side) -> Result<bool> {
    let Some(turned) = Position::of_masks(p.masks(), side) else {
        return Ok(true);
    };
    let other = side.other();
    for next in &successors(alloc, &turned)? {
        if next.count(other) < p.count(other) {
            return Ok(true);
        }
    }
    Ok(false)
}

impl Endgames {
    /// A position that is drawn; none where it breaks the rule on pieces, or has too few.
    fn drawn(&self, dice: &mut Pcg32) -> Option<Position> {
        let (black_men, black_kings) = side_drawn(dice, self.black);
        let (white_men, white_kings) = side_drawn(dice, self.white);
        let to_move = if dice.next_word() % 2 == 0 {
            Side::Black
        } else {
            Side::White
        };
        let p = Position::of_masks([black_men, black_kings, white_men, white_kings], to_move)?;
        let pieces = u32::from(p.count(Side::Black)) + u32::from(p.count(Side::White));
        (pieces == self.black.saturating_add(self.white)).then_some(p)
    }

    /// The first endgames that are drawn and quiet: the side to move has a move, and neither side can take a piece.
    pub(crate) fn draw(&self, alloc: Global) -> Result<Vec<Position>> {
        let mut dice = Pcg32::new(self.seed, STREAM);
        let mut set = Vec::new(alloc);
        for _ in 0..MOST_DRAWN {
            if set.len() >= SET_SIZE {
                break;
            }
            let Some(p) = self.drawn(&mut dice) else {
                continue;
            };
            let is_loud = has_capture(alloc, &p, Side::Black)?
                || has_capture(alloc, &p, Side::White)?;
            if !is_loud && has_move(&p) {
                set.push(p)?;
            }
        }
        Ok(set)
    }
}
