//! How the searches of a run fell to the roots of its journal.
ghost use Rattle.std.specs.Prelude.{IsSome};
ghost use Rattle.proof_tree.specs.Forest.{node_at};

use bench_core::Bench;
use proof_tree::{NodeId, Tree};
use std::alloc::{AllocError, Global};
use std::sync::atomic::{AtomicU64, Ordering};

/// What a root of a journal has.
#[derive(Clone, Copy, Debug, PartialEq, Eq)]
pub(crate) struct Share {
    /// How many searches of the run fell to it.
    pub(crate) searches: u64,
    /// This run or one before has searched it.
    pub(crate) was_searched: bool,
    pub(crate) is_settled: bool,
    /// How many pieces stand in its position.
    pub(crate) pieces: u32,
}

/// The roots of a journal behind a run.
#[derive(Debug, Drop)]
pub(crate) struct Shares {
    /// Of how many pieces the journal's table is.
    pub(crate) table: u8,
    /// How many records of work the run added.
    pub(crate) records: u64,
    /// The share of each root, in order.
    pub(crate) roots: Vec<Share>,
}

/// No root for each of `count` nodes.
fn no_roots(alloc: Global, count: usize) -> Result<Vec<u32>, AllocError> {
    let mut roots = Vec::new(alloc);
    for _ in 0..count {
        roots.push(0)?;
    }
    Ok(roots)
}

/// Puts a root at a node, where there is that node.
fn put_root(roots: &mut [u32], node: u64, root: u32) {
    let place = node as usize;
    if place < roots.len() {
        roots[place] = root;
    }
}

/// The root at a node; 0 where there is none.
fn root_at(roots: &[u32], node: u64) -> u32 {
    let place = node as usize;
    if place < roots.len() { roots[place] } else { 0 }
}

/// Puts each root at its own node.
fn put_own(roots: &mut [u32], tree: &Tree) {
    for place in 0..tree.roots() {
        let node = tree.root_node(place + 1).number();
        put_root(roots, node, place + 1);
    }
}

/// Puts the root of a node at its children.
fn put_at_children(roots: &mut [u32], tree: &Tree, n: NodeId)
    requires { IsSome (node_at n tree.now.forest) }
{
    let root = root_at(roots, n.number());
    for place in 0..tree.children(n) {
        let child = tree.child(n, place).number();
        put_root(roots, child, root);
    }
}

/// The root, counted from 1, above each node. A node is made before its children.
fn roots_of_nodes(alloc: Global, tree: &Tree) -> Result<Vec<u32>, AllocError> {
    let mut roots = no_roots(alloc, tree.len())?;
    put_own(&mut roots, tree);
    for number in 0..tree.len() {
        if let Some(n) = tree.node(number as u64) {
            put_at_children(&mut roots, tree, n);
        }
    }
    Ok(roots)
}

/// The share of a root at this node, before a search is counted. What was searched has children, or something is known of it.
fn share_at(tree: &Tree, n: NodeId, is_settled: bool) -> Share
    requires { IsSome (node_at n tree.now.forest) }
{
    let facts = tree.facts(n);
    Share {
        searches: 0,
        was_searched: tree.children(n) > 0 || facts.black_holds || facts.white_holds,
        is_settled,
        pieces: tree.position(n).occupied().count_ones(),
    }
}

/// The share of each root, before a search is counted.
fn empty_shares(alloc: Global, tree: &Tree) -> Result<Vec<Share>, AllocError> {
    let mut shares = Vec::new(alloc);
    for place in 0..tree.roots() {
        let is_settled = tree.settled(place + 1).is_some();
        if let Some(n) = tree.node(tree.root_node(place + 1).number()) {
            shares.push(share_at(tree, n, is_settled))?;
        }
    }
    Ok(shares)
}

/// Counts a search of a root, counted from 1.
fn count_search(shares: &mut [Share], root: u32) {
    let place = (root as usize).saturating_sub(1);
    if root > 0 && place < shares.len() {
        let share = shares[place];
        shares[place] = Share {
            searches: share.searches.saturating_add(1),
            was_searched: true,
            is_settled: share.is_settled,
            pieces: share.pieces,
        };
    }
}

/// How the searches of a run fell to the roots of its bench: `begun` of them, each of the node that was noted.
pub(crate) fn shares_of(
    alloc: Global,
    bench: &Bench,
    table: u8,
    nodes: &[AtomicU64],
    begun: u64,
) -> Result<Shares, AllocError> {
    let tree = bench.tree();
    let roots = roots_of_nodes(alloc, tree)?;
    let mut shares = empty_shares(alloc, tree)?;
    let count = nodes.len().min(begun as usize);
    for node in &nodes[..count] {
        let root = root_at(&roots, node.load(Ordering::SeqCst));
        count_search(&mut shares, root);
    }
    Ok(Shares {
        table,
        records: bench.work(),
        roots: shares,
    })
}
