//! What a tree shows, node by node.
ghost use Rattle.std.specs.Prelude.{IsSome};
ghost use Rattle.proof_tree.specs.Forest.{node_at};

use anyhow::{Result, bail};
use draughts_board::{Position, Side, Value};
use proof_numbers::{Facts, Numbers};
use proof_tree::{Free, Mark, NodeId, Tree};
use std::alloc::{AllocError, Global};

/// What a tree shows of one of its nodes.
#[derive(Clone, Copy, PartialEq, Eq)]
struct SeenNode {
    position: Position,
    /// What is known of it by itself.
    facts: Facts,
    /// Whether it is expanded.
    mark: Mark,
    /// Its proof and its disproof number for the goal Black.
    black: Numbers,
    /// Those for the goal White.
    white: Numbers,
    /// How many children it has.
    children: usize,
}

/// What a tree shows of one of its roots.
#[derive(Clone, Copy, PartialEq, Eq)]
struct SeenRoot {
    /// The number of its node.
    node: NodeId,
    /// Its value, where it is settled.
    value: Option<Value>,
}

/// What a tree shows, in a copy that stays as it is where the tree grows.
#[derive(Drop)]
pub(crate) struct SeenTree {
    /// Its nodes, in the order of their numbers.
    nodes: Vec<SeenNode>,
    /// The numbers of the first node's children, then of the second one's, and so on.
    children: Vec<NodeId>,
    /// Its roots, in order.
    roots: Vec<SeenRoot>,
    /// The leaf to work on next, and the side whose win is sought there.
    next: Option<(NodeId, Side)>,
    /// Every root is settled.
    is_settled: bool,
}

/// What the tree shows of a node.
fn see_node(tree: &Tree, n: NodeId) -> SeenNode
    requires { IsSome (node_at n tree.now.forest) }
{
    SeenNode {
        position: tree.position(n),
        facts: tree.facts(n),
        mark: tree.mark(n),
        black: tree.numbers(n, Side::Black),
        white: tree.numbers(n, Side::White),
        children: tree.children(n),
    }
}

/// What the tree shows of its nodes.
fn see_nodes(alloc: Global, tree: &Tree) -> Result<Vec<SeenNode>, AllocError> {
    let mut nodes = Vec::new(alloc);
    for number in 0..tree.len() as u64 {
        if let Some(n) = tree.node(number) {
            nodes.push(see_node(tree, n))?;
        }
    }
    Ok(nodes)
}

/// Adds the numbers of a node's children.
fn push_children(tree: &Tree, n: NodeId, children: &mut Vec<NodeId>) -> Result<(), AllocError>
    requires { IsSome (node_at n tree.now.forest) }
{
    for place in 0..tree.children(n) {
        children.push(tree.child(n, place))?;
    }
    Ok(())
}

/// The numbers of the children of all nodes.
fn see_children(alloc: Global, tree: &Tree) -> Result<Vec<NodeId>, AllocError> {
    let mut children = Vec::new(alloc);
    for number in 0..tree.len() as u64 {
        if let Some(n) = tree.node(number) {
            push_children(tree, n, &mut children)?;
        }
    }
    Ok(children)
}

/// What the tree shows of its roots.
fn see_roots(alloc: Global, tree: &Tree) -> Result<Vec<SeenRoot>, AllocError> {
    let mut roots = Vec::new(alloc);
    for place in 0..tree.roots() {
        roots.push(SeenRoot {
            node: tree.root_node(place + 1),
            value: tree.settled(place + 1),
        })?;
    }
    Ok(roots)
}

impl SeenTree {
    /// What a tree without nodes shows.
    pub(crate) fn empty(alloc: Global) -> SeenTree {
        SeenTree {
            nodes: Vec::new(alloc),
            children: Vec::new(alloc),
            roots: Vec::new(alloc),
            next: None,
            is_settled: true,
        }
    }

    /// What the tree shows.
    pub(crate) fn of(alloc: Global, tree: &Tree) -> Result<SeenTree, AllocError> {
        Ok(SeenTree {
            nodes: see_nodes(alloc, tree)?,
            children: see_children(alloc, tree)?,
            roots: see_roots(alloc, tree)?,
            next: tree.pick(&Free),
            is_settled: tree.are_settled(),
        })
    }

    /// How many nodes it has.
    pub(crate) fn len(&self) -> usize {
        self.nodes.len()
    }

    /// Compares the nodes one by one: how many there are, where none differs.
    fn compare_nodes(&self, other: &SeenTree) -> Result<u64> {
        let mut compared: u64 = 0;
        for (one, another) in self.nodes.iter().zip(other.nodes.iter()) {
            if one != another {
                bail!("node {compared} of an image's tree differs");
            }
            compared = compared.saturating_add(1);
        }
        Ok(compared)
    }

    /// Compares all that both trees show: how many nodes were compared, where nothing differs.
    pub(crate) fn compare(&self, other: &SeenTree) -> Result<u64> {
        if self.nodes.len() != other.nodes.len() {
            bail!("an image's tree has another number of nodes");
        }
        if self.children.as_slice() != other.children.as_slice() {
            bail!("an image's tree has other children");
        }
        if self.roots.as_slice() != other.roots.as_slice() {
            bail!("an image's tree has other roots or values");
        }
        if self.next != other.next || self.is_settled != other.is_settled {
            bail!("an image's tree gives another leaf");
        }
        self.compare_nodes(other)
    }
}
