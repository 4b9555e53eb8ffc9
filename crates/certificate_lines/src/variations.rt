//! Other moves than those of a line, and the play behind each.
ghost use Rattle.std.specs.Prelude.{◌≡◌, ◌&&◌, ◌<◌, ◌∷◌, [], ℕ, List, Contains, IfOk, OnOk, nat_lt};
ghost use Rattle.draughts_board.specs.Board.{IsLawful, other};
ghost use Rattle.draughts_board.specs.Rules.{IsLegal};
ghost use Rattle.certificate_player.specs.Sides.{side_of};
ghost use Rattle.certificate_lines.specs.Steps.{AddsVariations, Stands};
ghost use Rattle.certificate_lines.specs.Variations.{IsVariation, first_move, is_reply, moves_due, other_moves, others};

use crate::plies::next_ply;
use certificate_player::next_rank;
use draughts_board::{Move, Position, Side};
use std::alloc::{AllocError, Global};
use strategy_certificate::{Oracle, Part};
use swift_moves::{apply, has_move, legal_moves};

/// A move that stands for one of a line, and the play behind it.
#[derive(Drop)]
pub struct Variation {
    /// How many moves of the line stand before it.
    pub behind: usize,
    /// Its moves, in order.
    pub moves: Vec<Move>,
    /// The position that they lead to.
    pub end: Position,
    /// Within how many plies from there it is won; none of a line that nobody wins.
    pub rank: Option<u64>,
}

/// Where a line may go on by another move.
#[derive(Clone, Copy)]
pub(crate) struct Fork {
    pub position: Position,
    /// The rank that is kept there.
    pub rank: Option<u64>,
    /// How many moves of the line lead there.
    pub behind: usize,
}

/// The play by the part behind a move of the other side, up to this ply of the line.
fn play_on<O: Oracle>(
    alloc: Global,
    part: &Part,
    oracle: &O,
    fork: &Fork,
    path: &Move,
    varied: usize,
) -> Result<Variation, AllocError>
    requires lawful { IsLawful fork.now.position }
    requires turn { fork.now.position.to_move ≡ other (side_of part.now) }
    requires stands { Stands (O.answer_at oracle.now) part.now fork.now.position fork.now.rank }
    requires legal { IsLegal fork.now.position path.now }
    requires short { fork.now.behind < varied }
    ensures behind { IfOk result (λ v. v.behind ≡ fork.now.behind) }
    ensures first { IfOk result (λ v. first_move v ≡ path.now) }
    ensures varies { IfOk result (IsVariation (O.answer_at oracle.now) part.now
        fork.now.position fork.now.rank varied) }
{
    let side = fork.position.to_move().other();
    let mut moves = Vec::new(alloc);
    moves.push(*path)?;
    let mut end = apply(&fork.position, path);
    let mut rank = next_rank(part, oracle, &end, fork.rank);
    while moves.len() < varied - fork.behind && has_move(&end) {
        let ply = next_ply(alloc, part, side, oracle, &end, rank)?;
        moves.push(ply.path)?;
        end = apply(&end, &ply.path);
        rank = ply.rank;
    }
    Ok(Variation {
        behind: fork.behind,
        moves,
        end,
        rank,
    })
}

/// Appends a variation for this legal move of the other side, unless it is the line's.
fn push_other<O: Oracle>(
    variations: &mut Vec<Variation>,
    alloc: Global,
    part: &Part,
    oracle: &O,
    fork: &Fork,
    path: &Move,
    m: &Move,
    varied: usize,
) -> Result<(), AllocError>
    requires lawful { IsLawful fork.now.position }
    requires turn { fork.now.position.to_move ≡ other (side_of part.now) }
    requires stands { Stands (O.answer_at oracle.now) part.now fork.now.position fork.now.rank }
    requires legal { IsLegal fork.now.position m.now }
    requires short { fork.now.behind < varied }
    ensures { OnOk result (AddsVariations (O.answer_at oracle.now) part.now fork.now varied
        (others (m.now ∷ []) path.now) variations.old.items variations.new.items) }
{
    if m == path {
        return Ok(());
    }
    let variation = play_on(alloc, part, oracle, fork, m, varied)?;
    variations.push(variation)?;
    Ok(())
}

/// Appends a variation for each of these legal moves of the other side but the line's.
fn push_among<O: Oracle>(
    variations: &mut Vec<Variation>,
    alloc: Global,
    part: &Part,
    oracle: &O,
    fork: &Fork,
    path: &Move,
    moves: &[Move],
    varied: usize,
) -> Result<(), AllocError>
    requires lawful { IsLawful fork.now.position }
    requires turn { fork.now.position.to_move ≡ other (side_of part.now) }
    requires stands { Stands (O.answer_at oracle.now) part.now fork.now.position fork.now.rank }
    requires legal { (m : List ℕ) → Contains moves.now m → IsLegal fork.now.position m }
    requires short { fork.now.behind < varied }
    ensures { OnOk result (AddsVariations (O.answer_at oracle.now) part.now fork.now varied
        (others moves.now path.now) variations.old.items variations.new.items) }
{
    for m in moves {
        push_other(variations, alloc, part, oracle, fork, path, m, varied)?;
    }
    Ok(())
}

/// Appends a variation for each legal move of the other side but this one.
fn push_others<O: Oracle>(
    variations: &mut Vec<Variation>,
    alloc: Global,
    part: &Part,
    oracle: &O,
    fork: &Fork,
    path: &Move,
    varied: usize,
) -> Result<(), AllocError>
    requires lawful { IsLawful fork.now.position }
    requires turn { fork.now.position.to_move ≡ other (side_of part.now) }
    requires stands { Stands (O.answer_at oracle.now) part.now fork.now.position fork.now.rank }
    requires short { fork.now.behind < varied }
    ensures { OnOk result (AddsVariations (O.answer_at oracle.now) part.now fork.now varied
        (other_moves fork.now.position path.now) variations.old.items variations.new.items) }
{
    let moves = legal_moves(alloc, &fork.position)?;
    push_among(variations, alloc, part, oracle, fork, path, &moves, varied)
}

/// Appends the variations of a move of the other side, if it stands before the ply `varied`.
pub(crate) fn push_forks<O: Oracle>(
    variations: &mut Vec<Variation>,
    alloc: Global,
    part: &Part,
    oracle: &O,
    fork: &Fork,
    path: &Move,
    varied: usize,
) -> Result<(), AllocError>
    requires lawful { IsLawful fork.now.position }
    requires turn { fork.now.position.to_move ≡ other (side_of part.now) }
    requires stands { Stands (O.answer_at oracle.now) part.now fork.now.position fork.now.rank }
    ensures { OnOk result (AddsVariations (O.answer_at oracle.now) part.now fork.now varied
        (moves_due (nat_lt fork.now.behind varied) fork.now.position path.now)
        variations.old.items variations.new.items) }
{
    if fork.behind < varied {
        push_others(variations, alloc, part, oracle, fork, path, varied)
    } else {
        Ok(())
    }
}

/// Appends the variations of a ply of a line by the part of this side: none where the side is to move.
pub(crate) fn push_replies<O: Oracle>(
    variations: &mut Vec<Variation>,
    alloc: Global,
    part: &Part,
    side: Side,
    oracle: &O,
    fork: &Fork,
    path: &Move,
    varied: usize,
) -> Result<(), AllocError>
    requires side { side_of part.now ≡ side }
    requires stands { Stands (O.answer_at oracle.now) part.now fork.now.position fork.now.rank }
    ensures { OnOk result (AddsVariations (O.answer_at oracle.now) part.now fork.now varied
        (moves_due (is_reply side fork.now.position && nat_lt fork.now.behind varied)
        fork.now.position path.now) variations.old.items variations.new.items) }
{
    if fork.position.to_move() == side {
        Ok(())
    } else {
        push_forks(variations, alloc, part, oracle, fork, path, varied)
    }
}
