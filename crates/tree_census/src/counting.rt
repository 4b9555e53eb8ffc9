//! A walk over the tree of a root.
ghost use Rattle.std.specs.Prelude.{◌≡◌, ◌++◌, ◌-◌, ◌≤◌, IfOk, IfSome, OnOk, if◌then◌else◌, length, slice_get};
ghost use Rattle.certificate_joiner.specs.Strategy.{IsNamed, named};
ghost use Rattle.proof_tree.specs.Forest.{goal_of, nodes};
ghost use Rattle.proof_tree.specs.Sound.{IsSoundForest};
ghost use Rattle.tree_census.specs.Censuses.{IsCensus, is_open_at, own_leaf, stops, tree_census};

use draughts_board::Side;
use proof_tree::{Mark, NodeId, Tree};
use std::alloc::{AllocError, Global};

/// What stands in the tree of a root.
#[derive(Clone, Copy, Debug, PartialEq, Eq)]
pub struct Census {
    /// Its nodes, the root among them.
    pub nodes: usize,
    /// The leaves that are open for the root's goal.
    pub open_leaves: usize,
}

/// A node that the walk has still to come to.
#[derive(Clone, Copy)]
struct Stop {
    node: NodeId,
    /// No node above it is resolved for the goal.
    is_open: bool,
}

/// Neither the node nor one above it is resolved for the goal.
fn is_open_at(tree: &Tree, goal: Side, stop: Stop) -> bool
    requires { IsNamed tree.now.forest stop.node }
    ensures { result ≡ is_open_at goal tree.now.forest stop }
{
    stop.is_open && !tree.numbers(stop.node, goal).is_resolved()
}

/// 1 for an unexpanded node, 0 for another.
fn own_leaf(mark: Mark) -> usize
    ensures { result ≡ own_leaf mark }
{
    match mark {
        Mark::Unexpanded => 1,
        Mark::Expanded => 0,
        Mark::Repeats => 0,
    }
}

/// 1 for an unexpanded node that is open, 0 for another.
fn open_leaf(tree: &Tree, node: NodeId, is_open: bool) -> usize
    requires { IsNamed tree.now.forest node }
    ensures { result ≡ (if is_open then own_leaf (named tree.now.forest node).own.mark else 0) }
{
    if is_open {
        own_leaf(tree.mark(node))
    } else {
        0
    }
}

/// Appends the children of a node.
fn push_children(
    waiting: &mut Vec<Stop>,
    tree: &Tree,
    node: NodeId,
    is_open: bool,
) -> Result<(), AllocError>
    requires there { IsNamed tree.now.forest node }
    requires sound { IsSoundForest tree.now.forest }
    ensures { OnOk result (waiting.new.items ≡ waiting.old.items
        ++ stops is_open (nodes (named tree.now.forest node).children)) }
{
    for place in 0..tree.children(node) {
        let child = tree.child(node, place);
        waiting.push(Stop {
            node: child,
            is_open,
        })?;
    }
    Ok(())
}

/// Counts the nodes of the tree below a node, itself among them, and those that are open leaves.
fn walk(alloc: Global, tree: &Tree, top: NodeId, goal: Side) -> Result<Census, AllocError>
    requires { IsNamed tree.now.forest top }
    ensures { IfOk result (λ census. census ≡ tree_census goal (named tree.now.forest top)) }
{
    // That tells that the forest is sound, and its nodes are few.
    let _most = tree.len();
    let mut count = 0;
    let mut open_leaves = 0;
    let mut waiting = Vec::new(alloc);
    waiting.push(Stop {
        node: top,
        is_open: true,
    })?;
    while let Some(stop) = waiting.pop() {
        let node = stop.node;
        let is_open = is_open_at(tree, goal, stop);
        count += 1;
        open_leaves += open_leaf(tree, node, is_open);
        push_children(&mut waiting, tree, node, is_open)?;
    }
    Ok(Census {
        nodes: count,
        open_leaves,
    })
}

/// The side whose win is sought at a root: Black while it is unresolved for Black.
fn goal_at(tree: &Tree, root: NodeId) -> Side
    requires { IsNamed tree.now.forest root }
    ensures { result ≡ goal_of (named tree.now.forest root) }
{
    if tree.numbers(root, Side::Black).is_resolved() {
        Side::White
    } else {
        Side::Black
    }
}

/// What stands in the tree of a root, counted from 1. A settled root has no open leaf.
///
/// It takes time in the number of the nodes of this tree.
pub fn census_of(alloc: Global, tree: &Tree, root: u32) -> Result<Census, AllocError>
    requires first { 1 ≤ root }
    requires there { root ≤ length (nodes tree.now.forest) }
    ensures { IfOk result (λ census.
        IfSome (slice_get (nodes tree.now.forest) (root - 1)) (IsCensus census)) }
{
    // That tells that the forest is sound.
    let _most = tree.len();
    let top = tree.root_node(root);
    let goal = goal_at(tree, top);
    walk(alloc, tree, top, goal)
}
