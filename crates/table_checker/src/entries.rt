//! The rule at each index.
ghost use Rattle.std.specs.Prelude.{◌≡◌, ◌↔◌, ◌<◌, ℕ, All, IfOk, IsTrue, MatchOption, length, map};
ghost use Rattle.draughts_board.specs.Play.{successors_of};
ghost use Rattle.table_index.specs.Order.{entry_count};
ghost use Rattle.endgame_table.specs.Entries.{FitsAt};
ghost use Rattle.strategy_certificate.specs.Tables.{IsTableSize};
ghost use Rattle.table_checker.specs.Faults.{FailsFirstAt};
ghost use Rattle.table_checker.specs.Fitting.{FitsNext};
ghost use Rattle.table_checker.specs.Kept.{IsKept, kept_answer};

use crate::fitting::fits_next;
use draughts_board::Position;
use draughts_rules::successors;
use endgame_table::{NO_POSITION, answer_of};
use std::alloc::{AllocError, Global};
use strategy_certificate::Answer;
use table_index::{PositionWalk, entry_count, index_of};

/// The answers that the numbers keep for these positions.
fn kept_answers(
    alloc: Global,
    numbers: &[u32],
    positions: &[Position],
) -> Result<Vec<Option<Answer>>, AllocError>
    requires { All (IsKept numbers.now) positions.now }
    ensures { IfOk result (λ answers. answers.items ≡ map (kept_answer numbers.now) positions.now) }
{
    let mut answers = Vec::with_capacity(alloc, positions.len())?;
    for p in positions {
        answers.push(answer_of(numbers[index_of(p) as usize]))?;
    }
    Ok(answers)
}

/// The answer at the position fits those that the numbers keep for the positions that the moves
/// lead to.
fn fits_position(
    alloc: Global,
    numbers: &[u32],
    p: &Position,
    answer: Answer,
) -> Result<bool, AllocError>
    requires { All (IsKept numbers.now) (successors_of p.now) }
    ensures { IfOk result (λ fits. IsTrue fits
        ↔ FitsNext (map (kept_answer numbers.now) (successors_of p.now)) answer) }
{
    let next = successors(alloc, p)?;
    let answers = kept_answers(alloc, numbers, &next)?;
    Ok(fits_next(answer, &answers))
}

/// The rule holds at this index of a table of `pieces` pieces.
fn fits_at(
    alloc: Global,
    pieces: u8,
    numbers: &[u32],
    walk: &mut PositionWalk,
    index: u32,
) -> Result<bool, AllocError>
    requires size { IsTableSize pieces }
    requires entries { length numbers.now ≡ entry_count pieces }
    requires index { index < entry_count pieces }
    ensures { IfOk result (λ fits. IsTrue fits ↔ FitsAt pieces numbers.now index) }
{
    let kept = numbers[index as usize];
    match walk.position_at(index) {
        None => Ok(kept == NO_POSITION),
        Some(p) => match answer_of(kept) {
            None => Ok(false),
            Some(answer) => fits_position(alloc, numbers, &p, answer),
        },
    }
}

/// The first index of a table of `pieces` pieces at which the rule fails.
pub(crate) fn first_bad_entry(
    alloc: Global,
    pieces: u8,
    numbers: &[u32],
) -> Result<Option<u32>, AllocError>
    requires size { IsTableSize pieces }
    requires entries { length numbers.now ≡ entry_count pieces }
    ensures { IfOk result (λ found. MatchOption found
        ((i : ℕ) → i < entry_count pieces → FitsAt pieces numbers.now i)
        (FailsFirstAt pieces numbers.now)) }
{
    let mut walk = PositionWalk::new();
    for index in 0..entry_count(pieces) {
        if !fits_at(alloc, pieces, numbers, &mut walk, index)? {
            return Ok(Some(index));
        }
    }
    Ok(None)
}
