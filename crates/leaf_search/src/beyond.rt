//! What settles a position beyond the depth of a search: proof numbers, and all positions below it where they are few enough.
ghost use Rattle.std.specs.Prelude.{◌≡◌, IfOk, IfSome};
ghost use Rattle.certificate_checker.specs.Answers.{IsAnswer};
ghost use Rattle.strategy_certificate.specs.Claims.{HasShortRanks};
ghost use Rattle.strategy_certificate.specs.declared.certificates.Part.TheVariants as parts;

use crate::allowances::{Allowance, allowed_for};
use crate::checked::accept;
use crate::fortress::prove_knowing;
use crate::memo::Memo;
use certificate_checker::ProofList;
use draughts_board::{Position, Side};
use endgame_slices::{Slices, solve_below};
use std::alloc::{AllocError, Global};
use strategy_certificate::{Answer, Claim, Oracle, Part, WinPart};
use win_lines::{find_win_part, win_part};

/// The answer that the side wins by this strategy, where it has at most `most` entries.
fn prove_won<O: Oracle>(
    alloc: Global,
    p: &Position,
    goal: Side,
    depth: u8,
    part: WinPart,
    most: usize,
    oracle: &O,
) -> Result<Option<ProofList>, AllocError>
    requires { HasShortRanks (parts.Win part) }
    ensures { IfOk result (λ found. IfSome found
        (IsAnswer (O.piece_limit oracle.now) goal depth p.now)) }
{
    let winner = part.side();
    let claim = Claim::Win(winner);
    let Some(won) = accept(alloc, p, claim, Part::Win(part), most, oracle)? else {
        return Ok(None);
    };
    let mut proofs = Vec::new(alloc);
    proofs.push(won)?;
    Ok(Some(ProofList::from_vec(proofs)))
}

/// The answer that both sides hold, by closed sets of at most `most` positions each that the slices do not give away.
fn prove_drawn<O: Oracle>(
    alloc: Global,
    p: &Position,
    goal: Side,
    depth: u8,
    slices: &Slices,
    most: usize,
    oracle: &O,
) -> Result<Option<ProofList>, AllocError>
    ensures { IfOk result (λ found. IfSome found
        (IsAnswer (O.piece_limit oracle.now) goal depth p.now)) }
{
    let Some(held) = prove_knowing(alloc, p, goal.other(), slices, most, oracle)? else {
        return Ok(None);
    };
    let Some(also) = prove_knowing(alloc, p, goal, slices, most, oracle)? else {
        return Ok(None);
    };
    let mut proofs = Vec::new(alloc);
    proofs.push(held)?;
    proofs.push(also)?;
    Ok(Some(ProofList::from_vec(proofs)))
}

/// The answer that a side wins, the one to move or the other, where proof numbers find it.
fn settle_by_numbers<O: Oracle>(
    alloc: Global,
    p: &Position,
    goal: Side,
    depth: u8,
    allowed: &Allowance,
    oracle: &O,
) -> Result<Option<ProofList>, AllocError>
    ensures { IfOk result (λ found. IfSome found
        (IsAnswer (O.piece_limit oracle.now) goal depth p.now)) }
{
    let mover = p.to_move();
    let most = allowed.entries;
    for winner in [mover, mover.other()] {
        let found = find_win_part(alloc, p, winner, allowed.move_lists, most, oracle)?;
        if let Some(part) = found {
            return prove_won(alloc, p, goal, depth, part, most, oracle);
        }
    }
    Ok(None)
}

/// The answer that all positions below this one give, where the allowance is enough.
fn settle_by_slices<O: Oracle>(
    alloc: Global,
    p: &Position,
    goal: Side,
    depth: u8,
    allowed: &Allowance,
    slices: &mut Slices,
    oracle: &O,
) -> Result<Option<ProofList>, AllocError>
    ensures { IfOk result (λ found. IfSome found
        (IsAnswer (O.piece_limit oracle.now) goal depth p.now)) }
{
    let most = allowed.entries;
    if !solve_below(alloc, p, allowed.slice_positions, oracle, slices)? {
        return Ok(None);
    }
    let winner = match slices.answer(p, oracle) {
        Answer::Win(_) => p.to_move(),
        Answer::Loss(_) => p.to_move().other(),
        Answer::Draw => return prove_drawn(alloc, p, goal, depth, slices, most, oracle),
    };
    let Some(part) = win_part(alloc, slices, p, winner, most, oracle)? else {
        return Ok(None);
    };
    prove_won(alloc, p, goal, depth, part, most, oracle)
}

/// An answer within this allowance. Want of memory ends one way of finding it, and not the search.
///
/// The memory of searches gives its slices, and gets them back with those that were worked out.
fn settle_within<O: Oracle>(
    alloc: Global,
    p: &Position,
    goal: Side,
    depth: u8,
    allowed: &Allowance,
    oracle: &O,
    memo: &mut Memo,
) -> Option<ProofList>
    ensures tables { memo.new ≡ memo.old }
    ensures answer { IfSome result (IsAnswer (O.piece_limit oracle.now) goal depth p.now) }
{
    if let Ok(Some(found)) = settle_by_numbers(alloc, p, goal, depth, allowed, oracle) {
        return Some(found);
    }
    let mut slices = memo.take_slices(alloc);
    let found = settle_by_slices(alloc, p, goal, depth, allowed, &mut slices, oracle);
    memo.keep_slices(slices);
    match found {
        Ok(found) => found,
        Err(_) => None,
    }
}

/// An answer that was found beyond the depth, as far as its allowance reaches. None where none is found, or there is too
/// little memory for any way of finding one, which tells nothing of the position.
///
/// It has no large locals, which would cost small depths as much as their searches.
pub(crate) fn settle_beyond<O: Oracle>(
    alloc: Global,
    p: &Position,
    goal: Side,
    depth: u8,
    oracle: &O,
    memo: &mut Memo,
) -> Option<ProofList>
    ensures tables { memo.new ≡ memo.old }
    ensures answer { IfSome result (IsAnswer (O.piece_limit oracle.now) goal depth p.now) }
{
    let allowed = allowed_for(p, depth, oracle.pieces());
    if allowed.move_lists == 0 {
        return None;
    }
    settle_within(alloc, p, goal, depth, &allowed, oracle, memo)
}
