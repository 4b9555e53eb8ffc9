//! The openings made from a seed.
ghost use Rattle.std.specs.Prelude.{◌≡◌, ◌<◌, ◌≤◌, IfOk, length};
ghost use Rattle.std.specs.List.{IsDistinct};
ghost use Rattle.draughts_board.specs.Board.{same_board};
ghost use Rattle.capture_positions.specs.Walk.{index_of_step, numbered_position, openings_from, three_kings};

use crate::jumps::{JUMP_COUNT, Jump, OTHER_COUNT, jump_numbered, square_beside};
use draughts_board::{Cell, Position, Side, Square};
use indexmap::IndexSet;
use std::alloc::{AllocError, Global};

/// How many indices there are: one for each jump, square beside it and colour of the king there.
pub const INDEX_COUNT: u32 = 4_176;

/// How far apart the walks of two seeds that follow one another begin.
pub const SEED_FACTOR: u64 = 7_919;

/// How far a walk goes in one step. It has no factor in common with the number of indices.
pub const STEP_FACTOR: u64 = 101;

/// The most openings that are made from a seed.
pub const MOST_OPENINGS: u32 = 2_000;

/// The index at which a walk from this seed is after `step` steps.
fn index_of_step(seed: u32, step: u32) -> u32
    ensures value { result ≡ index_of_step seed step }
    ensures within { result < INDEX_COUNT }
{
    let sum = u64::from(seed) * SEED_FACTOR + u64::from(step) * STEP_FACTOR;
    (sum % u64::from(INDEX_COUNT)) as u32
}

/// The position of three kings: Black's on the start of the jump, White's on the square that it
/// passes over, and one of this side on the square beside it. Black is to move.
fn three_kings(jump: &Jump, beside: Square, side: Side) -> Position
    ensures { result ≡ three_kings jump.now beside side }
{
    Position::bare(Side::Black)
        .with(jump.start, Cell::King(Side::Black), Side::Black)
        .with(jump.over, Cell::King(Side::White), Side::Black)
        .with(beside, Cell::King(side), Side::Black)
}

/// The position with this index.
fn numbered_position(index: u32) -> Position
    requires { index < INDEX_COUNT }
    ensures { result ≡ numbered_position index }
{
    let number = index % JUMP_COUNT;
    let place = index / JUMP_COUNT;
    let side = if place < OTHER_COUNT {
        Side::White
    } else {
        Side::Black
    };
    three_kings(
        &jump_numbered(number),
        square_beside(number, place % OTHER_COUNT),
        side,
    )
}

/// The first `count` different positions, at most 2,000, of the walk that begins from the seed, in
/// the order in which it meets them. Each has three kings, and in each Black is to move and must
/// capture. Fails only where memory runs out.
pub fn capture_positions(
    alloc: Global,
    seed: u32,
    count: u32,
) -> Result<IndexSet<Position>, AllocError>
    requires { count ≤ MOST_OPENINGS }
    ensures openings { IfOk result (λ positions. positions.keys ≡ openings_from seed count) }
    ensures count { IfOk result (λ positions. length positions.keys ≡ count) }
    ensures different { IfOk result (λ positions. IsDistinct same_board positions.keys) }
{
    let mut positions = IndexSet::new(alloc);
    let mut step = 0;
    while positions.len() < count as usize {
        positions.insert_full(numbered_position(index_of_step(seed, step)))?;
        step += 1;
    }
    Ok(positions)
}
