//! The plies of a line by one part.
ghost use Rattle.std.specs.Prelude.{◌≡◌, ℕ, List, IfOk};
ghost use Rattle.draughts_board.specs.Board.{IsLawful, other};
ghost use Rattle.draughts_board.specs.Rules.{IsLegal};
ghost use Rattle.certificate_player.specs.Sides.{side_of};
ghost use Rattle.certificate_lines.specs.Lines.{IsPly};
ghost use Rattle.certificate_lines.specs.Steps.{Stands};

use crate::replies::{Ply, longest};
use certificate_player::{chosen_move, next_rank};
use draughts_board::{Position, Side};
use std::alloc::{AllocError, Global};
use strategy_certificate::{Oracle, Part};
use swift_moves::{apply, legal_moves};

/// The part's move where its side is to move, and the rank behind it.
fn own_ply<O: Oracle>(
    alloc: Global,
    part: &Part,
    oracle: &O,
    p: &Position,
    rank: Option<u64>,
) -> Result<Ply, AllocError>
    requires lawful { IsLawful p.now }
    requires turn { p.now.to_move ≡ side_of part.now }
    requires stands { Stands (O.answer_at oracle.now) part.now p.now rank }
    ensures { IfOk result (λ ply.
        IsPly (O.answer_at oracle.now) part.now p.now rank ply.path ply.rank) }
{
    let path = chosen_move(alloc, part, oracle, p, rank)?;
    let next = apply(p, &path);
    let rank = next_rank(part, oracle, &next, rank);
    Ok(Ply { path, rank })
}

/// The reply that holds out longest where the other side is to move, and the rank behind it.
fn reply<O: Oracle>(
    alloc: Global,
    part: &Part,
    oracle: &O,
    p: &Position,
    rank: Option<u64>,
) -> Result<Ply, AllocError>
    requires lawful { IsLawful p.now }
    requires turn { p.now.to_move ≡ other (side_of part.now) }
    requires stands { Stands (O.answer_at oracle.now) part.now p.now rank }
    requires there { (path : List ℕ) × IsLegal p.now path }
    ensures { IfOk result (λ ply.
        IsPly (O.answer_at oracle.now) part.now p.now rank ply.path ply.rank) }
{
    let moves = legal_moves(alloc, p)?;
    match longest(part, oracle, p, rank, &moves) {
        Some(ply) => Ok(ply),
        None => unreachable!(),
    }
}

/// The next ply of a line by the part of a side, at a position with a legal move.
#[tactic(auto, using(crate::proofs::LineLemmas::not_mine))]
pub(crate) fn next_ply<O: Oracle>(
    alloc: Global,
    part: &Part,
    side: Side,
    oracle: &O,
    p: &Position,
    rank: Option<u64>,
) -> Result<Ply, AllocError>
    requires side { side_of part.now ≡ side }
    requires stands { Stands (O.answer_at oracle.now) part.now p.now rank }
    requires there { (path : List ℕ) × IsLegal p.now path }
    ensures ply { IfOk result (λ ply.
        IsPly (O.answer_at oracle.now) part.now p.now rank ply.path ply.rank) }
    ensures valid { IsLawful p.now }
{
    if p.to_move() == side {
        own_ply(alloc, part, oracle, p, rank)
    } else {
        reply(alloc, part, oracle, p, rank)
    }
}
