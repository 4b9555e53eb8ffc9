//! Holds: a closed set is grown along a line, and cut back where the line fails.
ghost use Rattle.std.specs.Prelude.{◌≡◌, All, Any, IfOk, IsTrue, MatchBool};
ghost use Rattle.std.specs.Bool.{OnTrue, OnFalse};
ghost use Rattle.draughts_board.specs.Board.{IsLawful};
ghost use Rattle.draughts_board.specs.Rules.{IsLegal, after};
ghost use Rattle.strategy_certificate.specs.Parts.{HasEntry};
ghost use Rattle.strategy_certificate.specs.Certificates.{IsHeld};
ghost use Rattle.leaf_search.specs.Lines.{Continues, HoldFails, MoveFails, KeepsEntries};

use crate::sight::is_mover;
use draughts_board::{Move, Position};
use std::alloc::{AllocError, Global};
use strategy_certificate::{HoldPart, Oracle, is_held};
use swift_moves::{apply, has_move, legal_moves};

/// Looking no ply ahead shows no hold of the position: it has no entry, and at sight it is not held.
fn fails_at_once<O: Oracle>(p: &Position, oracle: &O, part: &HoldPart) -> bool
    ensures { OnTrue result (HoldFails (O.piece_limit oracle.now) 0 part.now p.now) }
{
    if is_held(part, oracle, p) {
        return false;
    }
    if oracle.answer(p).is_some() {
        return true;
    }
    if is_mover(p, part.side()) {
        return true;
    }
    has_move(p)
}

/// After one of these moves looking no ply ahead shows no hold.
fn some_fails<O: Oracle>(p: &Position, moves: &[Move], oracle: &O, part: &HoldPart) -> bool
    requires legal { All (IsLegal p.now) moves.now }
    ensures { OnTrue result (Any (λ m. HoldFails (O.piece_limit oracle.now) 0 part.now
        (after p.now m)) moves.now) }
{
    for m in moves {
        let next = apply(p, m);
        if fails_at_once(&next, oracle, part) {
            return true;
        }
    }
    false
}

/// Looks `depth` plies ahead for a strategy by which the part's side holds the position.
///
/// A position that has an entry counts as held. The part grows by a whole strategy, or it is as it was.
#[cycle(hold)]
pub(crate) fn find_hold<O: Oracle>(
    alloc: Global,
    p: &Position,
    depth: u8,
    oracle: &O,
    part: &mut HoldPart,
) -> Result<bool, AllocError>
    ensures found { IfOk result (λ found. MatchBool found
        (Continues (O.answer_at oracle.now) part.old part.new) (part.new ≡ part.old)) }
    ensures held { IfOk result (λ found. MatchBool found
        (IsHeld part.new (O.answer_at oracle.now) p.now)
        (HoldFails (O.piece_limit oracle.now) depth part.old p.now)) }
{
    if is_held(part, oracle, p) {
        return Ok(true);
    }
    if oracle.answer(p).is_some() {
        return Ok(false);
    }
    let mine = is_mover(p, part.side());
    if depth == 0 {
        if mine {
            return Ok(false);
        }
        if has_move(p) {
            return Ok(false);
        }
        part.add(*p, None)?;
        return Ok(true);
    }
    let moves = legal_moves(alloc, p)?;
    if mine {
        let held = try_moves(alloc, p, &moves, depth - 1, oracle, part)?;
        return Ok(held);
    }
    if depth == 1 {
        if some_fails(p, moves.as_slice(), oracle, part) {
            return Ok(false);
        }
    }
    let mark = part.len();
    part.add(*p, None)?;
    let held = hold_all(alloc, p, &moves, depth - 1, oracle, part)?;
    if held {
        return Ok(true);
    }
    part.truncate(mark);
    Ok(false)
}

/// Looks for a strategy that makes one of these moves.
#[cycle(hold)]
fn try_moves<O: Oracle>(
    alloc: Global,
    p: &Position,
    moves: &[Move],
    depth: u8,
    oracle: &O,
    part: &mut HoldPart,
) -> Result<bool, AllocError>
    requires lawful { IsLawful p.now }
    requires mine { p.now.to_move ≡ part.old.side }
    requires new { HasEntry part.old.entries p.now → ⊥ }
    requires legal { All (IsLegal p.now) moves.now }
    ensures found { IfOk result (λ found. MatchBool found
        (Continues (O.answer_at oracle.now) part.old part.new) (part.new ≡ part.old)) }
    ensures held { IfOk result (λ found. MatchBool found (HasEntry part.new.entries p.now)
        (All (MoveFails (O.piece_limit oracle.now) depth part.old p.now) moves.now)) }
{
    for m in moves {
        let held = try_move(alloc, p, m, depth, oracle, part)?;
        if held {
            return Ok(true);
        }
    }
    Ok(false)
}

/// Looks for a strategy that makes this move.
#[cycle(hold)]
fn try_move<O: Oracle>(
    alloc: Global,
    p: &Position,
    m: &Move,
    depth: u8,
    oracle: &O,
    part: &mut HoldPart,
) -> Result<bool, AllocError>
    requires lawful { IsLawful p.now }
    requires mine { p.now.to_move ≡ part.old.side }
    requires new { HasEntry part.old.entries p.now → ⊥ }
    requires legal { IsLegal p.now m.now }
    ensures found { IfOk result (λ found. MatchBool found
        (Continues (O.answer_at oracle.now) part.old part.new) (part.new ≡ part.old)) }
    ensures held { IfOk result (λ found. MatchBool found (HasEntry part.new.entries p.now)
        (MoveFails (O.piece_limit oracle.now) depth part.old p.now m.now)) }
{
    let next = apply(p, m);
    if depth == 0 {
        if fails_at_once(&next, oracle, part) {
            return Ok(false);
        }
    }
    let mark = part.len();
    part.add(*p, Some(*m))?;
    let held = find_hold(alloc, &next, depth, oracle, part)?;
    if held {
        return Ok(true);
    }
    part.truncate(mark);
    Ok(false)
}

/// Looks for a strategy that holds the position after each of these moves.
#[cycle(hold)]
fn hold_all<O: Oracle>(
    alloc: Global,
    p: &Position,
    moves: &[Move],
    depth: u8,
    oracle: &O,
    part: &mut HoldPart,
) -> Result<bool, AllocError>
    requires legal { All (IsLegal p.now) moves.now }
    ensures found { IfOk result (λ found. OnTrue found
        (Continues (O.answer_at oracle.now) part.old part.new)) }
    ensures held { IfOk result (λ found. MatchBool found
        (All (λ m. IsHeld part.new (O.answer_at oracle.now) (after p.now m)) moves.now)
        (Any (λ m. HoldFails (O.piece_limit oracle.now) depth part.old (after p.now m))
        moves.now)) }
    ensures kept { IfOk result (λ found. OnFalse found (KeepsEntries part.old part.new)) }
{
    for m in moves {
        let next = apply(p, m);
        let held = find_hold(alloc, &next, depth, oracle, part)?;
        if !held {
            return Ok(false);
        }
    }
    Ok(true)
}
