//! What a journal shows of its roots and of the nodes below them, compared with what another shows.
ghost use Rattle.std.specs.Prelude.{◌≤◌, length, IsSome};
ghost use Rattle.proof_tree.specs.Forest.{node_at, nodes};

use crate::tally::Tally;
use anyhow::{Result, bail, ensure};
use bench_disk::MemoryDisk;
use draughts_board::Side;
use journal_looks::{JournalRecords, read_records};
use proof_tree::{Mark, NodeId, Tree};
use std::alloc::{AllocError, Global};

/// A journal's records, read.
pub(crate) fn read(alloc: Global, journal: &[u8]) -> Result<JournalRecords> {
    let mut disk = MemoryDisk::of(alloc, journal.to_vec(alloc)?)?;
    Ok(read_records(alloc, &mut disk)?)
}

/// Both nodes have one position, and the same numbers for both goals.
fn have_same_numbers(old: &Tree, one: NodeId, new: &Tree, other: NodeId) -> bool
    requires one { IsSome (node_at one old.now.forest) }
    requires other { IsSome (node_at other new.now.forest) }
{
    let is_position = old.position(one) == new.position(other);
    let is_black = old.numbers(one, Side::Black) == new.numbers(other, Side::Black);
    let is_white = old.numbers(one, Side::White) == new.numbers(other, Side::White);
    is_position && is_black && is_white
}

/// Both nodes are alike in all but their numbers.
fn are_alike(old: &Tree, one: NodeId, new: &Tree, other: NodeId) -> bool
    requires one { IsSome (node_at one old.now.forest) }
    requires other { IsSome (node_at other new.now.forest) }
{
    let are_facts = old.facts(one) == new.facts(other);
    let is_mark = old.mark(one) == new.mark(other);
    let are_children = old.children(one) == new.children(other);
    have_same_numbers(old, one, new, other) && are_facts && is_mark && are_children
}

/// Appends the numbers of a node's children.
fn push_children(tree: &Tree, n: NodeId, numbers: &mut Vec<u64>) -> Result<(), AllocError>
    requires { IsSome (node_at n tree.now.forest) }
{
    for place in 0..tree.children(n) {
        numbers.push(tree.child(n, place).number())?;
    }
    Ok(())
}

/// The numbers of a node, of its children, of theirs, and so on.
fn numbers_below(alloc: Global, tree: &Tree, top: u64) -> Result<Vec<u64>, AllocError> {
    let mut numbers = Vec::new(alloc);
    numbers.push(top)?;
    for place in 0..tree.len() {
        let number = numbers.get(place).copied();
        if let Some(number) = number
            && let Some(n) = tree.node(number)
        {
            push_children(tree, n, &mut numbers)?;
        }
    }
    Ok(numbers)
}

/// Compares two nodes.
fn compare_nodes(old: &Tree, one: u64, new: &Tree, other: u64, tally: &mut Tally) -> Result<()> {
    let (Some(one), Some(other)) = (old.node(one), new.node(other)) else {
        bail!("a node is not there");
    };
    ensure!(are_alike(old, one, new, other), "a node differs");
    tally.nodes = tally.nodes.saturating_add(1);
    if old.mark(one) == Mark::Repeats {
        tally.repeats = tally.repeats.saturating_add(1);
    }
    Ok(())
}

/// Compares two nodes, and all below them.
fn compare_below(
    alloc: Global,
    old: &Tree,
    one: u64,
    new: &Tree,
    other: u64,
    tally: &mut Tally,
) -> Result<()> {
    let old_numbers = numbers_below(alloc, old, one)?;
    let new_numbers = numbers_below(alloc, new, other)?;
    ensure!(
        old_numbers.len() == new_numbers.len(),
        "another number of nodes"
    );
    for (one, other) in old_numbers.iter().zip(new_numbers.iter()) {
        compare_nodes(old, *one, new, *other, tally)?;
    }
    Ok(())
}

/// Compares a root, and all below it where it has no value.
fn compare_roots(alloc: Global, old: &Tree, new: &Tree, root: u32, tally: &mut Tally) -> Result<()>
    requires first { 1 ≤ root }
    requires old { root ≤ length (nodes old.now.forest) }
    requires new { root ≤ length (nodes new.now.forest) }
{
    let value = old.settled(root);
    ensure!(new.settled(root) == value, "root {root} has another value");
    let (one, other) = (old.root_node(root).number(), new.root_node(root).number());
    if value.is_none() {
        return compare_below(alloc, old, one, new, other, tally);
    }
    let (Some(one), Some(other)) = (old.node(one), new.node(other)) else {
        bail!("a root is not there");
    };
    ensure!(
        have_same_numbers(old, one, new, other),
        "root {root} has another position or other numbers"
    );
    Ok(())
}

/// Compares two trees.
fn compare_trees(alloc: Global, old: &Tree, new: &Tree, tally: &mut Tally) -> Result<()> {
    let count = old.roots();
    ensure!(new.roots() == count, "another number of roots");
    for place in 0..count {
        compare_roots(alloc, old, new, place + 1, tally)?;
    }
    Ok(())
}

/// Compares the tree of a journal with another one.
fn compare_tree(alloc: Global, old: &Tree, new: &[u8], tally: &mut Tally) -> Result<()> {
    let read = read(alloc, new)?;
    compare_trees(alloc, old, read.bench.tree(), tally)
}

/// Compares what two journals show of their roots, and of all nodes below those without a value.
pub(crate) fn compare(alloc: Global, old: &[u8], new: &[u8], tally: &mut Tally) -> Result<()> {
    let read = read(alloc, old)?;
    compare_tree(alloc, read.bench.tree(), new, tally)
}
