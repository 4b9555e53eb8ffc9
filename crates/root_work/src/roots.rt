//! How much work was spent in the tree of each root.
ghost use Rattle.std.specs.Prelude.{◌≡◌, ◌<◌, ◌≤◌, ◌-◌, ◌++◌, ◌^◌, [], ℕ, IfOk, IfSome, OnOk, get_or, length, map, slice_get};
ghost use Rattle.certificate_joiner.specs.Strategy.{IsNamed, named};
ghost use Rattle.proof_tree.specs.Forest.{nodes, size};
ghost use Rattle.proof_tree.specs.Sound.{IsSoundForest};
ghost use Rattle.tree_census.specs.Censuses.{tree_of};
ghost use Rattle.tree_manager.specs.Receipts.{SpellsRecords};
ghost use Rattle.tree_manager.specs.Replaying.{payload_texts};
ghost use Rattle.root_work.specs.Work.{weight_of, work_in, work_on};

use crate::nodes::work_of_nodes;
use bench_core::Bench;
use disk_journal::Payload;
use proof_tree::{NodeId, Tree};
use std::alloc::{AllocError, Global};

/// Appends the children of a node.
fn push_children(waiting: &mut Vec<NodeId>, tree: &Tree, node: NodeId) -> Result<(), AllocError>
    requires there { IsNamed tree.now.forest node }
    requires sound { IsSoundForest tree.now.forest }
    ensures { OnOk result (waiting.new.items ≡ waiting.old.items
        ++ map (λ x. x.own.number) (nodes (named tree.now.forest node).children)) }
{
    for place in 0..tree.children(node) {
        let child = tree.child(node, place);
        waiting.push(child)?;
    }
    Ok(())
}

/// What the nodes of the tree below a node weigh together, itself among them, where each weighs what stands at
/// its number.
fn walk(alloc: Global, tree: &Tree, top: NodeId, weights: &[u64]) -> Result<u64, AllocError>
    requires there { IsNamed tree.now.forest top }
    requires long { length weights.now ≡ size tree.now.forest }
    requires few { weight_of (λ n. get_or weights.now n 0) tree.now.forest < 2 ^ 64 }
    ensures { IfOk result (λ weight.
        weight ≡ weight_of (λ n. get_or weights.now n 0) (tree_of (named tree.now.forest top))) }
{
    // That tells that the forest is sound.
    let _most = tree.len();
    let mut weight = 0u64;
    let mut waiting = Vec::new(alloc);
    waiting.push(top)?;
    while let Some(node) = waiting.pop() {
        weight += weights[node.number() as usize];
        push_children(&mut waiting, tree, node)?;
    }
    Ok(weight)
}

/// How much work was spent in the tree of a root of a bench, counted from 1, by the work on each node.
fn work_of_root(alloc: Global, bench: &Bench, root: u32, counts: &[u64]) -> Result<u64, AllocError>
    requires first { 1 ≤ root }
    requires there { root ≤ length (nodes bench.now.state.forest) }
    requires few { length bench.now.records < 2 ^ 64 }
    requires long { length counts.now ≡ size bench.now.state.forest }
    requires counted { (n : ℕ) → n < length counts.now →
        get_or counts.now n 0 ≡ work_on bench.now.records n }
    ensures { IfOk result (λ work. IfSome (slice_get (nodes bench.now.state.forest) (root - 1)) (λ x.
        work ≡ work_in bench.now.records x)) }
{
    let tree = bench.tree();
    let top = tree.root_node(root);
    walk(alloc, tree, top, counts)
}

/// How many records of work were spent in the tree of each root of a bench, in order, where these are the payloads
/// that it replayed, for tables of `pieces` pieces.
///
/// It takes time in the bytes of the payloads, and in the number of nodes.
pub fn work_of_roots(
    alloc: Global,
    bench: &Bench,
    pieces: u8,
    payloads: &[Payload],
) -> Result<Vec<u64>, AllocError>
    requires { SpellsRecords pieces [] bench.now.records (payload_texts payloads.now) }
    ensures { IfOk result (λ work.
        work.items ≡ map (work_in bench.now.records) (nodes bench.now.state.forest)) }
{
    let counts = work_of_nodes(alloc, bench, pieces, payloads)?;
    let mut work = Vec::new(alloc);
    for place in 0..bench.tree().roots() {
        let spent = work_of_root(alloc, bench, place + 1, &counts)?;
        work.push(spent)?;
    }
    Ok(work)
}
