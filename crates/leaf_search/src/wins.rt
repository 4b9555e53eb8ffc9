//! Wins: a ranked strategy is grown from its end, and cut back where a line fails.
ghost use Rattle.std.specs.Prelude.{◌≡◌, ◌↔◌, ◌+◌, ◌^◌, ◌<◌, ◌∷◌, ◌⊎◌, ◌≤◌, ℕ, All, Any, IfOk, IsTrue, MatchBool, MatchOption, IfSome, None, length};
ghost use Rattle.std.specs.Bool.{OnTrue, OnFalse};
ghost use Rattle.draughts_board.specs.Board.{IsLawful, other};
ghost use Rattle.draughts_board.specs.Draughts.{draughts};
ghost use Rattle.draughts_board.specs.Rules.{IsLegal, after};
ghost use Rattle.strategy_certificate.specs.Parts.{HasEntry};
ghost use Rattle.strategy_certificate.specs.Tables.{IsSoundTable};
ghost use Rattle.strategy_certificate.specs.Certificates.{IsReached, IsReachedBelow, HasDueMove, due_positions};
ghost use Rattle.leaf_search.specs.Wins.{WinFails, IsLowFor, IsSteady, KeepsWins, Finds, FindsAll};

use crate::memo::Memo;
use crate::sight::is_mover;
use draughts_board::{Move, Position};
use std::alloc::{AllocError, Global};
use strategy_certificate::{Oracle, WinEntry, WinPart, table_rank};
use swift_moves::{apply, has_move, legal_moves};

/// A part with this number of entries grows no further, so that ranks stay small. None is ever that long.
const MOST_ENTRIES: usize = 1 << 32;

/// The rank of the position's entry; none exactly where it has none.
fn entered_rank<O: Oracle>(part: &WinPart, oracle: &O, p: &Position) -> Option<u64>
    requires { IsSteady (O.answer_at oracle.now) part.now }
    ensures { MatchOption result
        (HasEntry part.now.entries p.now → ⊥)
        (λ r. IsReached part.now (O.answer_at oracle.now) r p.now
        × IsLowFor (length part.now.entries) r) }
{
    if part.is_empty() {
        return None;
    }
    match part.find(p) {
        Some(entry) => Some(entry.rank),
        None => None,
    }
}

/// The rank at which the part or the table shows the win of a position.
fn shown_rank<O: Oracle>(part: &WinPart, oracle: &O, p: &Position) -> Option<u64>
    requires { IsSteady (O.answer_at oracle.now) part.now }
    ensures { MatchOption result
        ((r : ℕ) → IsReached part.now (O.answer_at oracle.now) r p.now → ⊥)
        (λ r. IsReached part.now (O.answer_at oracle.now) r p.now
        × IsLowFor (length part.now.entries) r) }
{
    match entered_rank(part, oracle, p) {
        Some(rank) => Some(rank),
        None => table_rank(oracle, part.side(), p),
    }
}

/// Gives the position its entry of this rank, unless it has got one on the way; gives the rank that it has.
fn enter<O: Oracle>(
    p: &Position,
    rank: u64,
    chosen: Option<Move>,
    oracle: &O,
    part: &mut WinPart,
) -> Result<u64, AllocError>
    requires steady { IsSteady (O.answer_at oracle.now) part.old }
    requires lawful { IsLawful p.now }
    requires due { HasDueMove part.old.side p.now chosen }
    requires below { All (IsReachedBelow part.old (O.answer_at oracle.now) rank)
        (due_positions p.now chosen) }
    requires low { rank ≤ 2 ^ 32 + length part.old.entries }
    ensures { IfOk result (λ rank. Finds (O.answer_at oracle.now) part.old part.new p.now rank) }
{
    if let Some(entry) = part.find(p) {
        return Ok(entry.rank);
    }
    if part.len() >= MOST_ENTRIES {
        return Err(AllocError);
    }
    part.add(*p, WinEntry { rank, chosen })?;
    Ok(rank)
}

/// Looks `depth` plies ahead for a strategy by which the part's side wins the position, and gives its rank.
///
/// The part grows by a whole strategy, or it is as it was.
#[cycle(win)]
pub(crate) fn find_win<O: Oracle>(
    alloc: Global,
    p: &Position,
    depth: u8,
    oracle: &O,
    memo: &mut Memo,
    part: &mut WinPart,
) -> Result<Option<u64>, AllocError>
    requires steady { IsSteady (O.answer_at oracle.now) part.old }
    requires tables { memo.old ≡ O.piece_limit oracle.now }
    ensures memo { memo.new ≡ memo.old }
    ensures found { IfOk result (λ found. MatchOption found
        ((part.new ≡ part.old) × WinFails (O.piece_limit oracle.now) part.old.side depth p.now)
        (λ rank. Finds (O.answer_at oracle.now) part.old part.new p.now rank)) }
{
    if oracle.answer(p).is_some() {
        return Ok(shown_rank(part, oracle, p));
    }
    if let Some(rank) = entered_rank(part, oracle, p) {
        return Ok(Some(rank));
    }
    if memo.knows_no_win(part.side(), p, depth) {
        return Ok(None);
    }
    let found = look_ahead(alloc, p, depth, oracle, memo, part)?;
    let Some(rank) = found else {
        memo.note_no_win(part.side(), p, depth);
        return Ok(None);
    };
    Ok(Some(rank))
}

/// The same of a position that neither the part nor the table shows.
#[cycle(win)]
fn look_ahead<O: Oracle>(
    alloc: Global,
    p: &Position,
    depth: u8,
    oracle: &O,
    memo: &mut Memo,
    part: &mut WinPart,
) -> Result<Option<u64>, AllocError>
    requires steady { IsSteady (O.answer_at oracle.now) part.old }
    requires tables { memo.old ≡ O.piece_limit oracle.now }
    requires sound { IsSoundTable draughts (O.piece_limit oracle.now) (O.answer_at oracle.now) }
    requires unanswered { O.answer_at oracle.now p.now ≡ None }
    ensures memo { memo.new ≡ memo.old }
    ensures found { IfOk result (λ found. MatchOption found
        ((part.new ≡ part.old) × WinFails (O.piece_limit oracle.now) part.old.side depth p.now)
        (λ rank. Finds (O.answer_at oracle.now) part.old part.new p.now rank)) }
{
    let mine = is_mover(p, part.side());
    if depth == 0 {
        if mine {
            return Ok(None);
        }
        if has_move(p) {
            return Ok(None);
        }
        let rank = enter(p, 0, None, oracle, part)?;
        return Ok(Some(rank));
    }
    let moves = legal_moves(alloc, p)?;
    if mine {
        let found = win_by_move(alloc, p, &moves, depth - 1, oracle, memo, part)?;
        return Ok(found);
    }
    let mark = part.len();
    let found = win_all(alloc, p, &moves, depth - 1, oracle, memo, part)?;
    let Some(above) = found else {
        part.truncate(mark);
        return Ok(None);
    };
    let rank = enter(p, above, None, oracle, part)?;
    Ok(Some(rank))
}

/// Looks for a winning strategy that begins with one of these moves, and gives its rank.
#[cycle(win)]
fn win_by_move<O: Oracle>(
    alloc: Global,
    p: &Position,
    moves: &[Move],
    depth: u8,
    oracle: &O,
    memo: &mut Memo,
    part: &mut WinPart,
) -> Result<Option<u64>, AllocError>
    requires steady { IsSteady (O.answer_at oracle.now) part.old }
    requires tables { memo.old ≡ O.piece_limit oracle.now }
    requires lawful { IsLawful p.now }
    requires mine { p.now.to_move ≡ part.old.side }
    requires legal { All (IsLegal p.now) moves.now }
    ensures memo { memo.new ≡ memo.old }
    ensures found { IfOk result (λ found. MatchOption found
        ((part.new ≡ part.old) × All (λ m. WinFails (O.piece_limit oracle.now) part.old.side depth
        (after p.now m)) moves.now)
        (λ rank. Finds (O.answer_at oracle.now) part.old part.new p.now rank)) }
{
    for m in moves {
        let next = apply(p, m);
        let found = find_win(alloc, &next, depth, oracle, memo, part)?;
        if let Some(rank) = found {
            let rank = enter(p, rank + 1, Some(*m), oracle, part)?;
            return Ok(Some(rank));
        }
    }
    Ok(None)
}

/// Looks for a strategy that wins the position after each of these moves, and gives the least rank above all theirs.
#[cycle(win)]
fn win_all<O: Oracle>(
    alloc: Global,
    p: &Position,
    moves: &[Move],
    depth: u8,
    oracle: &O,
    memo: &mut Memo,
    part: &mut WinPart,
) -> Result<Option<u64>, AllocError>
    requires steady { IsSteady (O.answer_at oracle.now) part.old }
    requires tables { memo.old ≡ O.piece_limit oracle.now }
    requires legal { All (IsLegal p.now) moves.now }
    ensures memo { memo.new ≡ memo.old }
    ensures found { IfOk result (λ found. MatchOption found
        (KeepsWins part.old part.new × Any (λ m. WinFails (O.piece_limit oracle.now)
        part.old.side depth (after p.now m)) moves.now)
        (λ above. FindsAll (O.answer_at oracle.now) part.old part.new p.now moves.now above)) }
{
    let mut above = 0;
    for m in moves {
        let next = apply(p, m);
        let found = find_win(alloc, &next, depth, oracle, memo, part)?;
        let Some(rank) = found else {
            return Ok(None);
        };
        above = (rank + 1).max(above);
    }
    Ok(Some(above))
}
