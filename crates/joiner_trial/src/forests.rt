//! Forests that are grown from positions that look random, and what comes of their roots.
use crate::certified::CertifiedTree;
use crate::dice::Dice;
use crate::tally::Tally;
use anyhow::Result;
use endgame_table::Table;
use leaf_search::is_undecided;
use proof_tree::{NodeId, Taken};
use std::alloc::{AllocError, Global};

/// A leaf is searched fewer plies ahead than this.
const DEPTHS: u64 = 5;

/// How many forests, and of what.
#[derive(Clone, Copy)]
pub(crate) struct Forests {
    /// By this the positions are rolled, and how far ahead a leaf is searched.
    pub(crate) seed: u64,
    pub(crate) count: u32,
    /// How many positions are rolled for the roots of a forest.
    pub(crate) rolls: u32,
    /// How many pieces a root has at most.
    pub(crate) pieces: u8,
    /// How many leaves are worked on in a forest, or fewer where each root is settled before.
    pub(crate) turns: u32,
}

/// Nothing is taken.
struct Free;

impl Taken for Free {
    ghost use Rattle.std.specs.Prelude.{false};

    ghost taken = { λ s n. false };

    fn is_taken(&self, _n: NodeId) -> bool {
        false
    }
}

/// Adds the positions that are rolled as roots, where nothing is known of them at sight.
fn plant(
    alloc: Global,
    forests: &Forests,
    table: &Table,
    dice: &mut Dice,
    tree: &mut CertifiedTree<'_>,
) -> Result<(), AllocError> {
    for _ in 0..forests.rolls {
        if let Some(p) = dice.position(forests.pieces) {
            if is_undecided(&p, table) {
                tree.add_root(alloc, &p)?;
            }
        }
    }
    Ok(())
}

/// Works on `turns` leaves, each the one that is picked next, or fewer where none is left or the tree is full.
fn grow(
    alloc: Global,
    turns: u32,
    dice: &mut Dice,
    tree: &mut CertifiedTree<'_>,
) -> Result<(), AllocError> {
    for _ in 0..turns {
        let Some((n, goal)) = tree.tree().pick(&Free) else {
            return Ok(());
        };
        let depth = dice.roll(DEPTHS) as u8;
        if !tree.work(alloc, n, goal, depth)? {
            return Ok(());
        }
    }
    Ok(())
}

/// Adds what came of each root of a forest.
fn count(alloc: Global, tree: &CertifiedTree<'_>, three: &Table, tally: &mut Tally) -> Result<()> {
    for place in 0..tree.tree().roots() {
        tally.roots = tally.roots.saturating_add(1);
        if let Some(proved) = tree.prove(alloc, place + 1)? {
            tally.add(proved.certificate(), three);
        }
    }
    Ok(())
}

/// Grows forests by a table, and counts what comes of their roots. Values are compared with those of the table of three.
pub(crate) fn settle(
    alloc: Global,
    forests: &Forests,
    table: &Table,
    three: &Table,
) -> Result<Tally> {
    let mut dice = Dice::new(forests.seed);
    let mut tally = Tally::default();
    for _ in 0..forests.count {
        let mut tree = CertifiedTree::new(alloc, table)?;
        plant(alloc, forests, table, &mut dice, &mut tree)?;
        grow(alloc, forests.turns, &mut dice, &mut tree)?;
        count(alloc, &tree, three, &mut tally)?;
        tally.nodes = tally.nodes.saturating_add(tree.tree().len());
    }
    Ok(tally)
}
