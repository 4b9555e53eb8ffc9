//! The nodes of a strategy, collected from a tree.
ghost use Rattle.std.specs.Prelude.{◌≡◌, ◌↔◌, IsTrue, ◌++◌, ℕ, List, Contains, All, IfOk, OnOk, MatchOption, length, [], ◌∷◌, true, false};
ghost use Rattle.proof_tree.specs.Forest.{nodes};
ghost use Rattle.proof_tree.specs.Sound.{IsSoundForest};
ghost use Rattle.certificate_joiner.specs.Strategy.{knows, is_repeating, is_due, first_due, due_nodes, named, IsNamed, Added, Collected};

use crate::steps::{Aim, Quest};
use draughts_board::{Position, Side};
use proof_tree::{Mark, NodeId, Tree};
use std::alloc::{AllocError, Global};

/// The side is to move.
pub(crate) fn is_mover(p: &Position, side: Side) -> bool
    ensures { IsTrue result ↔ (p.now.to_move ≡ side) }
{
    p.to_move() == side
}

/// The node's own facts show it.
pub(crate) fn is_known(tree: &Tree, n: NodeId, quest: Quest) -> bool
    requires { IsNamed tree.now.forest n }
    ensures { result ≡ knows quest.aim quest.side (named tree.now.forest n).own.facts }
{
    let facts = tree.facts(n);
    match quest.aim {
        Aim::Win => facts.knows_win(quest.side),
        Aim::Hold => facts.knows_hold(quest.side),
    }
}

/// The node repeats a position above it.
pub(crate) fn is_repeated(tree: &Tree, n: NodeId) -> bool
    requires { IsNamed tree.now.forest n }
    ensures { result ≡ is_repeating (named tree.now.forest n).own.mark }
{
    match tree.mark(n) {
        Mark::Repeats => true,
        Mark::Unexpanded => false,
        Mark::Expanded => false,
    }
}

/// The node's numbers show it.
fn is_due(tree: &Tree, n: NodeId, quest: Quest) -> bool
    requires { IsNamed tree.now.forest n }
    ensures { result ≡ is_due quest.aim quest.side (named tree.now.forest n) }
{
    match quest.aim {
        Aim::Win => tree.numbers(n, quest.side).proof.is_zero(),
        Aim::Hold => tree.numbers(n, quest.side.other()).disproof.is_zero(),
    }
}

/// The first child that is due.
pub(crate) fn due_child(tree: &Tree, n: NodeId, quest: Quest) -> Option<NodeId>
    requires there { IsNamed tree.now.forest n }
    requires sound { IsSoundForest tree.now.forest }
    ensures { MatchOption result
        (All (λ x. is_due quest.aim quest.side x ≡ false)
        (nodes (named tree.now.forest n).children))
        (λ c. IsNamed tree.now.forest c
        × (first_due quest.aim quest.side (nodes (named tree.now.forest n).children)
        ≡ named tree.now.forest c ∷ [])) }
{
    for i in 0..tree.children(n) {
        let c = tree.child(n, i);
        if is_due(tree, c, quest) {
            return Some(c);
        }
    }
    None
}

/// Adds the children behind the nodes.
fn add_children(tree: &Tree, n: NodeId, to: &mut Vec<NodeId>) -> Result<(), AllocError>
    requires there { IsNamed tree.now.forest n }
    requires sound { IsSoundForest tree.now.forest }
    ensures { OnOk result (Added (named tree.now.forest) (IsNamed tree.now.forest)
        to.old.items to.new.items (nodes (named tree.now.forest n).children)) }
{
    for i in 0..tree.children(n) {
        to.push(tree.child(n, i))?;
    }
    Ok(())
}

/// Adds the nodes at which the strategy goes on behind the others: none where the facts show it or the node repeats,
/// the first child that is due where the side moves, and else every child.
fn add_due(tree: &Tree, n: NodeId, quest: Quest, to: &mut Vec<NodeId>) -> Result<(), AllocError>
    requires there { IsNamed tree.now.forest n }
    requires sound { IsSoundForest tree.now.forest }
    ensures { OnOk result (Added (named tree.now.forest) (IsNamed tree.now.forest)
        to.old.items to.new.items (due_nodes quest.aim quest.side (named tree.now.forest n))) }
{
    if is_known(tree, n, quest) {
        return Ok(());
    }
    if is_repeated(tree, n) {
        return Ok(());
    }
    if !is_mover(&tree.position(n), quest.side) {
        return add_children(tree, n, to);
    }
    let Some(c) = due_child(tree, n, quest) else {
        return Ok(());
    };
    to.push(c)?;
    Ok(())
}

/// The nodes of the strategy below a root, each behind the one that leads to it.
pub(crate) fn collect(
    alloc: Global,
    tree: &Tree,
    root: NodeId,
    quest: Quest,
) -> Result<Vec<NodeId>, AllocError>
    requires there { IsNamed tree.now.forest root }
    requires sound { IsSoundForest tree.now.forest }
    ensures { IfOk result (λ ns. Collected quest.aim quest.side
        (named tree.now.forest) (IsNamed tree.now.forest) root ns.items (length ns.items)) }
{
    let mut strategy = Vec::new(alloc);
    strategy.push(root)?;
    let mut i = 0;
    while i < strategy.len() {
        let n = strategy[i];
        add_due(tree, n, quest, &mut strategy)?;
        i += 1;
    }
    Ok(strategy)
}
