//! The parts of a certificate, in order.
ghost use Rattle.std.specs.Prelude.{◌≡◌, ◌↔◌, All, IfOk, MatchOption, IsTrue, map};
ghost use Rattle.strategy_certificate.specs.Certificates.{claim_of, due_claims, HasGoodEntries, HasRoot, IsGoodPart};
ghost use Rattle.certificate_checker.specs.Faults.{HasEntryFault, HasPartFault};
ghost use Rattle.certificate_checker.specs.Refusals.{HasFaultAt};

use crate::faults::{EntryFault, PartFault};
use crate::holds::find_hold_fault;
use crate::shown::least_rank;
use crate::wins::find_win_fault;
use draughts_board::{Position, Side};
use std::alloc::{AllocError, Global};
use strategy_certificate::{Claim, Oracle, Part, is_held};

/// The parts are those that the claim needs.
pub(crate) fn are_due(claim: Claim, parts: &[Part]) -> bool
    ensures { IsTrue result ↔ (map claim_of parts.now ≡ due_claims claim) }
{
    match parts {
        [only] => only.claim() == claim,
        [first, second] => {
            claim == Claim::Draw
                && first.claim() == Claim::Hold(Side::Black)
                && second.claim() == Claim::Hold(Side::White)
        }
        _ => false,
    }
}

/// The number of the first entry with a fault, counted from 1, and its fault, if there is one.
fn find_entry_fault<O: Oracle>(
    alloc: Global,
    part: &Part,
    oracle: &O,
) -> Result<Option<(usize, EntryFault)>, AllocError>
    ensures { IfOk result (λ found. MatchOption found
        (HasGoodEntries part.now (O.answer_at oracle.now))
        (λ first. HasEntryFault part.now (O.answer_at oracle.now) first.0 first.1)) }
{
    match part {
        Part::Win(part) => find_win_fault(alloc, part, oracle),
        Part::Hold(part) => find_hold_fault(alloc, part, oracle),
    }
}

/// The position has an entry in the part, or the table shows it.
fn has_root<O: Oracle>(part: &Part, oracle: &O, p: &Position) -> bool
    ensures { IsTrue result ↔ HasRoot part.now (O.answer_at oracle.now) p.now }
{
    match part {
        Part::Win(part) => least_rank(part, oracle, p).is_some(),
        Part::Hold(part) => is_held(part, oracle, p),
    }
}

/// What is wrong with a part for the position, if anything is.
fn find_part_fault<O: Oracle>(
    alloc: Global,
    part: &Part,
    oracle: &O,
    p: &Position,
) -> Result<Option<PartFault>, AllocError>
    ensures { IfOk result (λ found. MatchOption found
        (IsGoodPart (O.answer_at oracle.now) p.now part.now)
        (HasPartFault (O.answer_at oracle.now) p.now part.now)) }
{
    let found = find_entry_fault(alloc, part, oracle)?;
    if let Some((entry, fault)) = found {
        return Ok(Some(PartFault::Entry(entry, fault)));
    }
    if has_root(part, oracle, p) {
        Ok(None)
    } else {
        Ok(Some(PartFault::NoRoot))
    }
}

/// The number of the first part with a fault for the position, counted from 1, and its fault, if
/// there is one.
pub(crate) fn find_faulty_part<O: Oracle>(
    alloc: Global,
    parts: &[Part],
    oracle: &O,
    p: &Position,
) -> Result<Option<(usize, PartFault)>, AllocError>
    ensures { IfOk result (λ found. MatchOption found
        (All (IsGoodPart (O.answer_at oracle.now) p.now) parts.now)
        (λ first. HasFaultAt (O.answer_at oracle.now) p.now parts.now first.0 first.1)) }
{
    for i in 0..parts.len() {
        let found = find_part_fault(alloc, &parts[i], oracle, p)?;
        if let Some(fault) = found {
            return Ok(Some((i + 1, fault)));
        }
    }
    Ok(None)
}
