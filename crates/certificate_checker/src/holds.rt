//! Hold parts, entry by entry.
ghost use Rattle.std.specs.Prelude.{◌≡◌, ℕ, List, Option, All, IfOk, MatchOption};
ghost use Rattle.draughts_board.specs.Board.{IsLawful};
ghost use Rattle.strategy_certificate.specs.Certificates.{IsHeld, IsGoodHoldEntry, IsGoodHoldPart};
ghost use Rattle.certificate_checker.specs.Faults.{FailsFirst, IsHoldFault, HasHoldFault};

use crate::due::{due_positions, has_due_move, is_stuck};
use crate::faults::EntryFault;
use draughts_board::{Move, Position};
use std::alloc::{AllocError, Global};
use strategy_certificate::{HoldPart, Oracle, is_held};

/// The first of the positions that is not held.
fn find_unheld<O: Oracle>(part: &HoldPart, oracle: &O, due: &[Position]) -> Option<Position>
    ensures { MatchOption result
        (All (IsHeld part.now (O.answer_at oracle.now)) due.now)
        (FailsFirst (IsHeld part.now (O.answer_at oracle.now)) due.now) }
{
    for q in due {
        if !is_held(part, oracle, q) {
            return Some(*q);
        }
    }
    None
}

/// What is wrong with an entry, if anything is.
///
/// A side that has its due move is not stuck, so only where it has not is it asked whether it could
/// move.
fn find_fault<O: Oracle>(
    alloc: Global,
    part: &HoldPart,
    oracle: &O,
    p: &Position,
    chosen: &Option<Move>,
) -> Result<Option<EntryFault>, AllocError>
    requires { IsLawful p.now }
    ensures { IfOk result (λ found. MatchOption found
        (IsGoodHoldEntry part.now (O.answer_at oracle.now) p.now chosen.now)
        (IsHoldFault part.now (O.answer_at oracle.now) p.now chosen.now)) }
{
    if !has_due_move(part.side(), p, chosen) {
        let stuck = is_stuck(alloc, part.side(), p)?;
        if stuck {
            return Ok(Some(EntryFault::StuckHolder));
        }
        return Ok(Some(EntryFault::BadMove));
    }
    let due = due_positions(alloc, p, chosen)?;
    match find_unheld(part, oracle, &due) {
        Some(q) => Ok(Some(EntryFault::Missing(q))),
        None => Ok(None),
    }
}

/// The number of the first entry with a fault, counted from 1, and its fault, if there is one.
pub(crate) fn find_hold_fault<O: Oracle>(
    alloc: Global,
    part: &HoldPart,
    oracle: &O,
) -> Result<Option<(usize, EntryFault)>, AllocError>
    ensures { IfOk result (λ found. MatchOption found
        (IsGoodHoldPart part.now (O.answer_at oracle.now))
        (λ first. HasHoldFault part.now (O.answer_at oracle.now) first.0 first.1)) }
{
    for i in 0..part.len() {
        let (p, chosen) = part.entry(i);
        let found = find_fault(alloc, part, oracle, &p, &chosen)?;
        if let Some(fault) = found {
            return Ok(Some((i + 1, fault)));
        }
    }
    Ok(None)
}
