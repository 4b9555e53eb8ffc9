//! Positions that are chosen so that a table of rows finds them slowly, by whoever knows all of its
//! hash; and a certificate with an entry for each.
ghost use Rattle.std.specs.Prelude.{◌≡◌, IfOk};
ghost use Rattle.bench_records.specs.Texts.{IsShown};
ghost use Rattle.strategy_certificate.specs.Claims.{HasShortRanks};
ghost use Rattle.strategy_certificate.specs.declared.certificates.Part.TheVariants as parts;

use crate::making::win_entry;
use anyhow::{Context, Result};
use draughts_board::{Position, Side};
use std::alloc::{AllocError, Global};
use std::hash::{BuildHasher, BuildHasherDefault, FoldHasher};
use strategy_certificate::{Certificate, Claim, Part, PartList, WinPart};

/// How many contents a row of four squares has, of one piece or none.
const ROW_CONTENTS: u64 = 17;

/// One position in so many is chosen.
const SHARE: u32 = 16;

/// How positions are chosen.
#[derive(Clone, Copy)]
pub enum Choice {
    /// Whatever they hash to.
    Ordinary,
    /// Those that begin in one stretch of an `IndexMap` of the kit.
    AgainstMap,
    /// Those whose windows stand in one stretch of the table of `position_rows`.
    AgainstWindows,
}

/// The position of this number, with Black to move: a digit in base 17 for each row says which piece
/// stands where on it. None where a digit puts a man on its farthest row, where a side has no piece,
/// and where digits are left.
fn numbered(number: u64) -> Option<Position> {
    let mut masks = [0_u32; 4];
    let mut rest = number;
    for row in 0..8_u32 {
        let content = (rest % ROW_CONTENTS) as u32;
        rest /= ROW_CONTENTS;
        if content > 0 {
            let piece = content - 1;
            masks[(piece / 4) as usize] |= 1 << (4 * ((row + 2) % 8) + piece % 4);
        }
    }
    let p = Position::of_masks(masks, Side::Black)?;
    if rest > 0 || p.count(Side::Black) == 0 || p.count(Side::White) == 0 {
        return None;
    }
    Some(p)
}

/// A number whose lowest bits say in which group of an `IndexMap` the position begins.
fn map_hash(p: &Position) -> u32 {
    let hash = BuildHasherDefault::<FoldHasher>::new().hash_one(*p);
    ((hash ^ (hash >> 32)) % 0x1_0000_0000) as u32
}

/// A number whose lowest bits say where the window of the position stands.
fn window_hash(p: &Position) -> u32 {
    let [black_men, black_kings, white_men, white_kings] = p.masks();
    let black = (u64::from(black_kings) << 32 | u64::from(black_men)) ^ 0x243f_6a88_85a3_08d3;
    let white = (u64::from(white_kings) << 32 | u64::from(white_men)) ^ 0x9e37_79b9_7f4a_7c15;
    let product = (black as u128).wrapping_mul(white as u128);
    ((product ^ (product >> 64)) % 0x1_0000_0000) as u32
}

impl Choice {
    /// How many places the table of `count` rows has.
    fn places(self, count: u32) -> u32 {
        let least = match self {
            Choice::Ordinary => SHARE,
            Choice::AgainstMap => count / 9,
            Choice::AgainstWindows => count.saturating_mul(2),
        };
        least.checked_next_power_of_two().unwrap_or(u32::MAX)
    }

    /// The position begins in the first places of these.
    fn takes(self, number: u64, p: &Position, places: u32) -> bool {
        let hash = match self {
            Choice::Ordinary => (number % u64::from(SHARE)) as u32,
            Choice::AgainstMap => map_hash(p),
            Choice::AgainstWindows => window_hash(p),
        };
        hash % places.max(1) < places / SHARE
    }
}

/// The first `count` positions that are chosen so, each once.
fn chosen_positions(
    alloc: Global,
    choice: Choice,
    count: u32,
) -> Result<Vec<Position>, AllocError> {
    let places = choice.places(count);
    let mut chosen = Vec::with_capacity(alloc, count as usize)?;
    for number in 0..u64::MAX {
        if chosen.len() >= count as usize {
            break;
        }
        if let Some(p) = numbered(number) {
            if choice.takes(number, &p, places) {
                chosen.push(p)?;
            }
        }
    }
    Ok(chosen)
}

/// The win part of White with an entry of rank 1 for each of these positions.
fn part_of(alloc: Global, positions: &[Position]) -> Result<WinPart, AllocError>
    ensures side { IfOk result (λ part. part.side ≡ Side.White) }
    ensures ranks { IfOk result (λ part. HasShortRanks (parts.Win part)) }
{
    let mut part = WinPart::new(alloc, Side::White)?;
    for p in positions {
        part.add_new(*p, win_entry(1, None))?;
    }
    Ok(part)
}

/// A certificate of `count` entries whose positions are chosen so. Nothing in it is checked.
pub fn chosen_certificate(alloc: Global, choice: Choice, count: u32) -> Result<Certificate>
    ensures pieces { IfOk result (λ c. c.pieces ≡ 2) }
    ensures shown { IfOk result (λ c. IsShown 2 c.position c) }
{
    let positions = chosen_positions(alloc, choice, count)?;
    let position = positions.first().context("no position")?;
    let part = part_of(alloc, &positions)?;
    Ok(Certificate {
        position: *position,
        claim: Claim::Win(Side::White),
        pieces: 2,
        parts: PartList::from_vec(vec![in alloc; Part::Win(part)]?),
    })
}
