//! The move that a player makes.
ghost use Rattle.std.specs.Prelude.{◌≡◌, ◌↔◌, ℕ, List, All, Contains, IsTrue, IfNone, IfOk, IfSome};
ghost use Rattle.draughts_board.specs.Board.{IsLawful};
ghost use Rattle.draughts_board.specs.Draughts.{draughts};
ghost use Rattle.draughts_board.specs.Rules.{IsLegal, after};
ghost use Rattle.strategy_certificate.specs.Certificates.{HasGoodEntries};
ghost use Rattle.strategy_certificate.specs.Tables.{IsSoundTable};
ghost use Rattle.certificate_player.specs.Choices.{IsChosen, IsEntryMove, IsShown, IsTableMove};
ghost use Rattle.certificate_player.specs.Plays.{Follows};
ghost use Rattle.certificate_player.specs.Sides.{side_of};

use draughts_board::{Move, Position};
use std::alloc::{AllocError, Global};
use strategy_certificate::{Oracle, Part, WinPart, table_holds, table_rank};
use swift_moves::{apply, legal_moves};

/// The move of the position's entry in a win part, if its rank is not above the kept one.
fn win_move(part: &WinPart, p: &Position, rank: u64) -> Option<Move>
    ensures some { IfSome result (IsEntryMove p.now (Some rank) (Part.Win part.now)) }
    ensures none { IfNone result
        ((path : List ℕ) → ¬ IsEntryMove p.now (Some rank) (Part.Win part.now) path) }
{
    if let Some(entry) = part.find(p) {
        if entry.rank <= rank {
            return entry.chosen;
        }
    }
    None
}

/// The move of the position's entry, if the entry may be followed.
fn entry_move(part: &Part, p: &Position, rank: Option<u64>) -> Option<Move>
    ensures some { IfSome result (IsEntryMove p.now rank part.now) }
    ensures none { IfNone result ((path : List ℕ) → ¬ IsEntryMove p.now rank part.now path) }
{
    match (part, rank) {
        (Part::Win(part), Some(rank)) => win_move(part, p, rank),
        (Part::Hold(part), None) => part.find(p)?,
        _ => None,
    }
}

/// The table shows that the part's side wins here with a rank below the kept one, or that it holds
/// if no rank is kept.
fn is_shown<O: Oracle>(part: &Part, oracle: &O, q: &Position, rank: Option<u64>) -> bool
    ensures { IsTrue result ↔ IsShown (O.answer_at oracle.now) q.now rank part.now }
{
    match (part, rank) {
        (Part::Win(part), Some(rank)) => match table_rank(oracle, part.side(), q) {
            Some(shown) => shown < rank,
            None => false,
        },
        (Part::Hold(part), None) => table_holds(oracle, part.side(), q),
        _ => false,
    }
}

/// The first of the moves, which are legal, behind which the table shows what is due.
fn first_shown<O: Oracle>(
    part: &Part,
    oracle: &O,
    p: &Position,
    rank: Option<u64>,
    moves: &[Move],
) -> Option<Move>
    requires { (path : List ℕ) → Contains moves.now path → IsLegal p.now path }
    ensures some { IfSome result
        (IsTableMove (O.answer_at oracle.now) p.now rank part.now) }
    ensures none { IfNone result (All (λ path.
        ¬ IsShown (O.answer_at oracle.now) (after p.now path) rank part.now) moves.now) }
{
    for m in moves {
        if is_shown(part, oracle, &apply(p, m), rank) {
            return Some(*m);
        }
    }
    None
}

/// The first move, in rising order of paths, behind which the table shows what is due. There is one.
fn table_move<O: Oracle>(
    alloc: Global,
    part: &Part,
    oracle: &O,
    p: &Position,
    rank: Option<u64>,
) -> Result<Move, AllocError>
    requires { (path : List ℕ) × IsTableMove (O.answer_at oracle.now) p.now rank part.now path }
    ensures { IfOk result (IsTableMove (O.answer_at oracle.now) p.now rank part.now) }
{
    let moves = legal_moves(alloc, p)?;
    match first_shown(part, oracle, p, rank, &moves) {
        Some(path) => Ok(path),
        None => unreachable!(),
    }
}

/// The move of the part's side at a position from which the part goes on: the entry's, or else one
/// by the table.
pub fn chosen_move<O: Oracle>(
    alloc: Global,
    part: &Part,
    oracle: &O,
    p: &Position,
    rank: Option<u64>,
) -> Result<Move, AllocError>
    requires lawful { IsLawful p.now }
    requires sound { (pieces : ℕ) × IsSoundTable draughts pieces (O.answer_at oracle.now) }
    requires turn { p.now.to_move ≡ side_of part.now }
    requires good { HasGoodEntries part.now (O.answer_at oracle.now) }
    requires follows { Follows (O.answer_at oracle.now) p.now rank part.now }
    ensures chosen { IfOk result (IsChosen (O.answer_at oracle.now) p.now rank part.now) }
    ensures legal { IfOk result (IsLegal p.now) }
{
    match entry_move(part, p, rank) {
        Some(path) => Ok(path),
        None => table_move(alloc, part, oracle, p, rank),
    }
}
