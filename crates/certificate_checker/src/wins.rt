//! Win parts, entry by entry.
ghost use Rattle.std.specs.Prelude.{◌≡◌, ◌+◌, All, IfOk, MatchOption};
ghost use Rattle.draughts_board.specs.Board.{IsLawful};
ghost use Rattle.strategy_certificate.specs.Certificates.{IsReachedBelow, IsGoodWinEntry, IsGoodWinPart};
ghost use Rattle.certificate_checker.specs.Faults.{IsRankFault, IsWinFault, HasWinFault};

use crate::due::{due_positions, has_due_move};
use crate::faults::EntryFault;
use crate::shown::least_rank;
use draughts_board::Position;
use std::alloc::{AllocError, Global};
use strategy_certificate::{Oracle, WinEntry, WinPart};

/// What is wrong with the due positions of an entry of this rank, if anything is.
fn find_rank_fault<O: Oracle>(
    part: &WinPart,
    oracle: &O,
    rank: u64,
    due: &[Position],
) -> Option<EntryFault>
    ensures { MatchOption result
        (All (IsReachedBelow part.now (O.answer_at oracle.now) rank) due.now)
        (IsRankFault part.now (O.answer_at oracle.now) rank due.now) }
{
    let mut late = false;
    for q in due {
        match least_rank(part, oracle, q) {
            None => return Some(EntryFault::Missing(*q)),
            Some(least) => {
                if least >= rank {
                    late = true;
                }
            }
        }
    }
    if late {
        Some(EntryFault::BadRank)
    } else {
        None
    }
}

/// What is wrong with an entry, if anything is.
fn find_fault<O: Oracle>(
    alloc: Global,
    part: &WinPart,
    oracle: &O,
    p: &Position,
    entry: &WinEntry,
) -> Result<Option<EntryFault>, AllocError>
    requires { IsLawful p.now }
    ensures { IfOk result (λ found. MatchOption found
        (IsGoodWinEntry part.now (O.answer_at oracle.now) p.now entry.now)
        (IsWinFault part.now (O.answer_at oracle.now) p.now entry.now)) }
{
    if !has_due_move(part.side(), p, &entry.chosen) {
        return Ok(Some(EntryFault::BadMove));
    }
    let due = due_positions(alloc, p, &entry.chosen)?;
    Ok(find_rank_fault(part, oracle, entry.rank, &due))
}

/// The number of the first entry with a fault, counted from 1, and its fault, if there is one.
pub(crate) fn find_win_fault<O: Oracle>(
    alloc: Global,
    part: &WinPart,
    oracle: &O,
) -> Result<Option<(usize, EntryFault)>, AllocError>
    ensures { IfOk result (λ found. MatchOption found
        (IsGoodWinPart part.now (O.answer_at oracle.now))
        (λ first. HasWinFault part.now (O.answer_at oracle.now) first.0 first.1)) }
{
    for i in 0..part.len() {
        let (p, entry) = part.entry(i);
        let found = find_fault(alloc, part, oracle, &p, &entry)?;
        if let Some(fault) = found {
            return Ok(Some((i + 1, fault)));
        }
    }
    Ok(None)
}
