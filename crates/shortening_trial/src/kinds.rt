//! How the roots of a journal came to their values, or how far those without one are.
ghost use Rattle.std.specs.Prelude.{◌≤◌, length};
ghost use Rattle.proof_tree.specs.Forest.{nodes};

use crate::tally::Tally;
use crate::trees::read;
use anyhow::Result;
use endgame_table::Table;
use leaf_search::is_undecided;
use proof_tree::{Mark, Tree};
use std::alloc::Global;

/// How many of the first `count` roots have a value.
fn settled_among(tree: &Tree, count: u32) -> u64 {
    let mut settled: u64 = 0;
    for place in 0..tree.roots() {
        let value = tree.settled(place + 1);
        if place < count && value.is_some() {
            settled = settled.saturating_add(1);
        }
    }
    settled
}

/// Counts a root.
fn count_root(tree: &Tree, root: u32, table: &Table, tally: &mut Tally)
    requires first { 1 ≤ root }
    requires there { root ≤ length (nodes tree.now.forest) }
{
    let is_settled = tree.settled(root).is_some();
    let number = tree.root_node(root).number();
    let Some(n) = tree.node(number) else {
        return;
    };
    let is_expanded = tree.mark(n) == Mark::Expanded;
    let is_at_sight = !is_undecided(&tree.position(n), table);
    match (is_settled, is_expanded, is_at_sight) {
        (true, true, _) => tally.expanded = tally.expanded.saturating_add(1),
        (true, false, true) => tally.at_sight = tally.at_sight.saturating_add(1),
        (true, false, false) => tally.searched = tally.searched.saturating_add(1),
        (false, true, _) => tally.open = tally.open.saturating_add(1),
        (false, false, _) => tally.waiting = tally.waiting.saturating_add(1),
    }
}

/// Counts the roots.
fn count_roots(tree: &Tree, table: &Table, tally: &mut Tally) {
    for place in 0..tree.roots() {
        count_root(tree, place + 1, table, tally);
    }
}

/// How many roots of a journal there are, and how many of them have a value.
fn settled_in(alloc: Global, journal: &[u8]) -> Result<(u32, u64)> {
    let read = read(alloc, journal)?;
    let tree = read.bench.tree();
    let count = tree.roots();
    Ok((count, settled_among(tree, count)))
}

/// Counts the roots of a journal, which had the bytes `half` behind its first run.
pub(crate) fn count_kinds(
    alloc: Global,
    half: &[u8],
    whole: &[u8],
    tally: &mut Tally,
) -> Result<()> {
    let (count, early) = settled_in(alloc, half)?;
    let read = read(alloc, whole)?;
    let tree = read.bench.tree();
    count_roots(tree, &read.table, tally);
    let late = settled_among(tree, count).saturating_sub(early);
    tally.late = tally.late.saturating_add(late);
    Ok(())
}
