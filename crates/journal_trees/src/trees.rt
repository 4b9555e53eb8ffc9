//! The nodes of a tree down to a ply.
ghost use Rattle.std.specs.Prelude.{◌≡◌, ◌≤◌, ◌<◌, ◌+◌, ◌++◌, ◌^◌, ◌-◌, None, Some, IfSome, IfNone, IfOk, OnOk, map, length, slice_get, ◌⊎◌, IsSomeAnd, ℕ, Option, All};
ghost use Rattle.certificate_joiner.specs.Strategy.{IsNamed, named};
ghost use Rattle.proof_tree.specs.Forest.{nodes, size};
ghost use Rattle.proof_tree.specs.Sound.{IsSoundForest};
ghost use Rattle.journal_trees.specs.Sights.{sight_of, spot_sight};
ghost use Rattle.journal_trees.specs.Trees.{IsDeepest, ShowsTree, next_of, node_count, node_sights};

use crate::nodes::{ShownNode, Spot, shown_nodes};
use draughts_board::Position;
use proof_tree::{Free, NodeId, Tree};
use std::alloc::{AllocError, Global};

/// How many nodes there are from a node down to this number of plies.
fn count_below(tree: &Tree, n: NodeId, plies: u32) -> u64
    requires there { IsNamed tree.now.forest n }
    requires sound { IsSoundForest tree.now.forest }
    requires few { size tree.now.forest < 2 ^ 60 }
    ensures { result ≡ node_count plies (named tree.now.forest n) }
{
    let mut count = 1;
    if plies == 0 {
        return count;
    }
    for place in 0..tree.children(n) {
        let child = tree.child(n, place);
        let below = count_below(tree, child, plies - 1);
        count += below;
    }
    count
}

/// The deepest ply to which no more nodes than `most` stand below a node; 0 where those of the next are more
/// already. It is at most `asked`.
fn deepest(tree: &Tree, n: NodeId, asked: u32, most: u64) -> u32
    requires there { IsNamed tree.now.forest n }
    requires sound { IsSoundForest tree.now.forest }
    requires few { size tree.now.forest < 2 ^ 60 }
    ensures { IsDeepest (named tree.now.forest n) asked most result }
{
    for plies in 0..asked {
        let count = count_below(tree, n, plies + 1);
        if count > most {
            return plies;
        }
    }
    asked
}

/// The spot of a child of the node on a spot, below this position.
fn child_spot(spot: &Spot, child: NodeId, above: Option<Position>) -> Spot
    requires { spot.now.depth + 1 < 2 ^ 32 }
    ensures { result ≡ record { node = child; depth = spot.now.depth + 1; above = above } }
{
    Spot {
        node: child,
        depth: spot.depth + 1,
        above,
    }
}

/// Adds a spot, and those of the nodes below its node down to this number of plies.
fn add_below(tree: &Tree, spot: &Spot, plies: u32, spots: &mut Vec<Spot>) -> Result<(), AllocError>
    requires there { IsNamed tree.now.forest spot.now.node }
    requires sound { IsSoundForest tree.now.forest }
    requires deep { spot.now.depth + plies < 2 ^ 32 }
    requires each { All (λ s. IsNamed tree.now.forest s.node) spots.old.items }
    ensures sights { OnOk result ((next : Option ℕ) →
        map (spot_sight next tree.now.forest) spots.new.items
        ≡ map (spot_sight next tree.now.forest) spots.old.items
        ++ node_sights next plies spot.now.depth spot.now.above
        (named tree.now.forest spot.now.node)) }
    ensures each { OnOk result (All (λ s. IsNamed tree.now.forest s.node) spots.new.items) }
{
    let here = *spot;
    spots.push(here)?;
    if plies == 0 {
        return Ok(());
    }
    let n = spot.node;
    let position = tree.position(n);
    for i in 0..tree.children(n) {
        let child = tree.child(n, i);
        let below = child_spot(spot, child, Some(position));
        add_below(tree, &below, plies - 1, spots)?;
    }
    Ok(())
}

/// Nodes of the tree of a root.
#[derive(Debug, Drop)]
pub struct ShownTree {
    /// Each behind the one above it, and before the others on its ply.
    pub nodes: Vec<ShownNode>,
    /// They are all down to this ply, the root's being 0.
    pub plies: u32,
}

/// The number of the leaf that one worker alone would search next; none where there is none.
fn next_leaf(tree: &Tree) -> Option<u64>
    ensures { result ≡ next_of tree.now.forest }
{
    match tree.pick(&Free) {
        Some((leaf, _goal)) => Some(leaf.number()),
        None => None,
    }
}

/// The nodes of the tree of a root, counted from 1, down to the deepest ply, at most `asked`, to which there are
/// no more than `most`; the root is shown in any case. None exactly where there is no such root.
///
/// It recurses `asked` calls deep at most, so `asked` is to be small.
pub fn shown_tree(
    alloc: Global,
    tree: &Tree,
    root: u32,
    asked: u32,
    most: u64,
) -> Result<Option<ShownTree>, AllocError>
    ensures some { IfOk result (λ found. IfSome found (λ shown.
        IsSomeAnd (slice_get (nodes tree.now.forest) (root - 1)) (λ x.
        ShowsTree tree.now.forest x asked most (map sight_of shown.nodes.items) shown.plies))) }
    ensures first { IfOk result (λ found. IfSome found (λ shown. 1 ≤ root)) }
    ensures none { IfOk result (λ found. IfNone found
        ((root ≡ 0) ⊎ (length (nodes tree.now.forest) < root))) }
{
    let roots = tree.roots();
    if root == 0 {
        return Ok(None);
    }
    if root > roots {
        return Ok(None);
    }
    let n = tree.root_node(root);
    let plies = deepest(tree, n, asked, most);
    let top = Spot {
        node: n,
        depth: 0,
        above: None,
    };
    let mut spots = Vec::new(alloc);
    add_below(tree, &top, plies, &mut spots)?;
    let nodes = shown_nodes(alloc, tree, &spots, next_leaf(tree))?;
    Ok(Some(ShownTree { nodes, plies }))
}
