//! The step of a strategy at one node.
ghost use Rattle.std.specs.Prelude.{◌≡◌, ◌≤◌, ℕ, List, IfOk};
ghost use Rattle.draughts_board.specs.Board.{Board};
ghost use Rattle.proof_tree.specs.Sound.{IsSoundForest};
ghost use Rattle.certificate_joiner.specs.Shelf.{certificates_of};
ghost use Rattle.certificate_joiner.specs.Steps.{IsUsable};
ghost use Rattle.certificate_joiner.specs.Strategy.{ShowsBy, IsDueNode, IsKnown, due_nodes, named, IsNamed, StrategyGoesOn};

use crate::collecting::{due_child, is_known, is_mover, is_repeated};
use crate::shelf::PartShelf;
use crate::shown::find_part;
use crate::steps::{Quest, Reason, Step};
use draughts_board::{Position, Side};
use draughts_rules::move_to;
use proof_tree::{NodeId, Tree};
use std::alloc::{AllocError, Global};

/// How a known fact of a node is shown: by the table, by a part of a certificate that stands on the shelf for it, or
/// because there is no move.
fn known_reason<'a>(p: &Position, shelf: &'a PartShelf, n: NodeId, quest: Quest) -> Reason<'a>
    requires { quest.pieces ≤ 3 }
    ensures usable { IsUsable quest.side result }
    ensures shows { IsKnown quest.pieces quest.aim quest.side p.now
        (certificates_of n shelf.now.puts) → (before later : List Board)
        → ShowsBy quest.aim quest.pieces quest.side before later p.now result }
{
    if p.count(Side::Black) + p.count(Side::White) <= quest.pieces {
        return Reason::Table;
    }
    match find_part(shelf, n, quest) {
        Some(one) => Reason::Shown(one),
        None => Reason::Play(None),
    }
}

/// The step at a node of the strategy.
pub(crate) fn step_at<'a>(
    alloc: Global,
    tree: &Tree,
    shelf: &'a PartShelf,
    n: NodeId,
    quest: Quest,
) -> Result<Step<'a>, AllocError>
    requires few { quest.pieces ≤ 3 }
    requires there { IsNamed tree.now.forest n }
    requires sound { IsSoundForest tree.now.forest }
    requires due { (path : List Board)
        × IsDueNode quest.pieces shelf.now.puts quest.aim quest.side path
        (named tree.now.forest n) }
    ensures { IfOk result (λ step. StrategyGoesOn quest.pieces shelf.now.puts quest.aim quest.side
        (named tree.now.forest n) step (due_nodes quest.aim quest.side (named tree.now.forest n))) }
{
    let position = tree.position(n);
    if is_known(tree, n, quest) {
        let reason = known_reason(&position, shelf, n, quest);
        return Ok(Step { position, reason });
    }
    if is_repeated(tree, n) {
        return Ok(Step {
            position,
            reason: Reason::Repeats,
        });
    }
    if !is_mover(&position, quest.side) {
        return Ok(Step {
            position,
            reason: Reason::Play(None),
        });
    }
    let Some(c) = due_child(tree, n, quest) else {
        unreachable!()
    };
    let next = tree.position(c);
    let Some(m) = move_to(alloc, &position, &next)? else {
        unreachable!()
    };
    Ok(Step {
        position,
        reason: Reason::Play(Some(m)),
    })
}
