//! The search of a leaf.
ghost use Rattle.std.specs.Prelude.{◌≡◌, ◌≤◌, [], All, IfOk, MatchOption, true, false, ℕ};
ghost use Rattle.draughts_board.specs.Board.{Board, other};
ghost use Rattle.draughts_board.specs.Draughts.{draughts};
ghost use Rattle.draughts_board.specs.Game.{is_at_sight, ShowsWin, ShowsHold};
ghost use Rattle.strategy_certificate.specs.Certificates.{claim_of};
ghost use Rattle.strategy_certificate.specs.declared.claims.Claim.TheVariants as claim;
ghost use Rattle.leaf_search.specs.Search.{IsShownBy, Proves, IsOutcome};

use crate::allowances::allowed_for;
use crate::beyond::settle_beyond;
use crate::fortress::prove_fortress;
use crate::holds::find_hold;
use crate::memo::Memo;
use crate::wins::find_win;
use certificate_checker::{Exhausted, MOST_DEPTH, Outcome, ProofList, Proved, prove_part};
use draughts_board::{Position, Side};
use std::alloc::{AllocError, Global};
use strategy_certificate::{HoldPart, Oracle, Part, WinPart};
use swift_sight::children_at_sight;

/// The certificate with this one part, checked. It fails only for want of memory.
fn prove<O: Oracle>(
    alloc: Global,
    p: &Position,
    part: Part,
    oracle: &O,
) -> Result<Proved, AllocError>
    requires { IsShownBy (O.answer_at oracle.now) p.now part }
    ensures { IfOk result (Proves (O.piece_limit oracle.now) p.now (claim_of part)) }
{
    prove_part(alloc, p, part, oracle)
}

/// A certificate that the side wins, where looking `depth` plies ahead shows it.
fn prove_win<O: Oracle>(
    alloc: Global,
    p: &Position,
    side: Side,
    depth: u8,
    oracle: &O,
    memo: &mut Memo,
) -> Result<Option<Proved>, AllocError>
    requires tables { memo.old ≡ O.piece_limit oracle.now }
    ensures tables { memo.new ≡ memo.old }
    ensures found { IfOk result (λ found. MatchOption found
        (ShowsWin draughts (O.piece_limit oracle.now) side depth p.now → ⊥)
        (Proves (O.piece_limit oracle.now) p.now (claim.Win side))) }
{
    let mut part = WinPart::new(alloc, side)?;
    let found = find_win(alloc, p, depth, oracle, memo, &mut part)?;
    if found.is_none() {
        return Ok(None);
    }
    let proved = prove(alloc, p, Part::Win(part), oracle)?;
    Ok(Some(proved))
}

/// A certificate that the side holds, by a closed set or where looking `depth` plies ahead shows it.
fn prove_hold<O: Oracle>(
    alloc: Global,
    p: &Position,
    side: Side,
    depth: u8,
    oracle: &O,
) -> Result<Option<Proved>, AllocError>
    ensures { IfOk result (λ found. MatchOption found
        (ShowsHold draughts (O.piece_limit oracle.now) side depth [] p.now → ⊥)
        (Proves (O.piece_limit oracle.now) p.now (claim.Hold side))) }
{
    let most = allowed_for(p, depth, oracle.pieces()).set_positions;
    if most > 0 {
        let fortress = prove_fortress(alloc, p, side, most, oracle)?;
        if let Some(held) = fortress {
            return Ok(Some(held));
        }
    }
    let mut part = HoldPart::new(alloc, side)?;
    let found = find_hold(alloc, p, depth, oracle, &mut part)?;
    if !found {
        return Ok(None);
    }
    let proved = prove(alloc, p, Part::Hold(part), oracle)?;
    Ok(Some(proved))
}

/// Looks `depth` plies ahead from a position for what settles the goal: its win, or that the other side wins or holds.
///
/// What shows of the position comes with certificates, whose claims are true. Beyond what shows, a win or holds may come
/// that were found in all positions below this one, or a hold by a closed set. Where too little is found, the positions
/// after it come back. What the memory holds after want of memory is still exact.
pub fn search<O: Oracle>(
    alloc: Global,
    p: &Position,
    goal: Side,
    depth: u8,
    oracle: &O,
    memo: &mut Memo,
) -> Result<Outcome, AllocError>
    requires undecided { is_at_sight draughts (O.piece_limit oracle.now) p.now ≡ false }
    requires depth { depth ≤ MOST_DEPTH }
    requires tables { memo.old ≡ O.piece_limit oracle.now }
    ensures tables { memo.new ≡ memo.old }
    ensures outcome { IfOk result (IsOutcome (O.piece_limit oracle.now) goal depth p.now) }
{
    let mut proofs = Vec::new(alloc);
    if let Some(won) = prove_win(alloc, p, goal, depth, oracle, memo)? {
        proofs.push(won)?;
        return Ok(Outcome::Solved(ProofList::from_vec(proofs)));
    }
    if let Some(lost) = prove_win(alloc, p, goal.other(), depth, oracle, memo)? {
        proofs.push(lost)?;
        return Ok(Outcome::Solved(ProofList::from_vec(proofs)));
    }
    if let Some(found) = settle_beyond(alloc, p, goal, depth, oracle, memo) {
        return Ok(Outcome::Solved(found));
    }
    let Some(held) = prove_hold(alloc, p, goal.other(), depth, oracle)? else {
        return Ok(Outcome::Exhausted(Exhausted {
            position: *p,
            goal,
            depth,
            pieces: oracle.pieces(),
            children: children_at_sight(alloc, p, oracle)?,
        }));
    };
    proofs.push(held)?;
    let Some(also) = prove_hold(alloc, p, goal, depth, oracle)? else {
        return Ok(Outcome::Solved(ProofList::from_vec(proofs)));
    };
    proofs.push(also)?;
    Ok(Outcome::Solved(ProofList::from_vec(proofs)))
}
