//! Crowds of roots, most of which are settled.
ghost use Rattle.std.specs.Prelude.{◌==◌};

use anyhow::{Result, bail};
use draughts_board::{Position, Side, Value};
use proof_numbers::Facts;
use proof_tree::{MOST_ROOTS, NodeId, Taken, Tree, unknown_child};
use std::alloc::{AllocError, Global};
use std::rt::Clock;
use std::time::Instant;

/// How many roots a crowd has.
pub(crate) const CROWDS: [u32; 3] = [256, 4_096, 65_536];

/// Of how many indices, some more than there are roots in the largest crowd, each gives a position or none.
const INDICES: u32 = 1 << 20;

/// How many picks are timed in each crowd.
const PICKS: u32 = 10_000;

/// The first node is taken, and so is another, which is no leaf of the crowd.
#[derive(Clone, Copy)]
struct FirstAnd {
    other: u64,
}

impl Taken for FirstAnd {
    ghost use Rattle.std.specs.Prelude.{◌||◌};

    ghost taken = { λ s n. (n == 0) || (n == s.other) };

    fn is_taken(&self, n: NodeId) -> bool {
        n.number() == 0 || n.number() == self.other
    }
}

/// The position of an index, of two kings and two men; none where it has two pieces on one square, or a man on its last row.
fn position_at(index: u32) -> Option<Position> {
    let bit = |place: u32| -> u32 { 1 << (index >> (5 * place) & 31) };
    Position::of_masks([bit(3), bit(1), bit(2), bit(0)], Side::White)
}

/// Adds a root with these facts, where its position is no root yet.
fn add(alloc: Global, tree: &mut Tree, p: Position, facts: Facts) -> Result<(), AllocError> {
    if tree.find_root(&p).is_some() || tree.roots() as usize >= MOST_ROOTS {
        return Ok(());
    }
    tree.reserve(1)?;
    let mut root = unknown_child(alloc, p)?;
    root.facts = facts;
    let _place = tree.add_root(root);
    Ok(())
}

/// A tree of `roots` roots, of which only the first and the last are unsettled.
fn crowd(alloc: Global, roots: u32) -> Result<Tree, AllocError> {
    let mut tree = Tree::new(alloc);
    for index in 0..INDICES {
        let there = tree.roots();
        if there >= roots {
            break;
        }
        let facts = if there == 0 || there + 1 == roots {
            Facts::none()
        } else {
            Facts::of_value(Value::BlackWins)
        };
        if let Some(p) = position_at(index) {
            add(alloc, &mut tree, p, facts)?;
        }
    }
    Ok(tree)
}

/// The number of the node that is picked; none where none is.
fn picked(tree: &Tree, other: u64) -> Option<u64> {
    match tree.pick(&FirstAnd { other }) {
        Some((n, _)) => Some(n.number()),
        None => None,
    }
}

/// Prints which node is picked in each crowd, where its first root is taken.
pub(crate) fn tell(rt: &(impl Print + Alloc<A = Global>)) -> Result<()> {
    for roots in CROWDS {
        let tree = crowd(rt.alloc(), roots)?;
        let Some(n) = picked(&tree, u64::MAX) else {
            bail!("no node is picked");
        };
        println!(rt; "{roots} roots, all but the first and the last settled: node {n} is picked")?;
    }
    Ok(())
}

/// Prints how long a pick takes in each crowd, where its first root is taken.
pub(crate) fn time(rt: &(impl Print + Clock + Alloc<A = Global>)) -> Result<()> {
    for roots in CROWDS {
        let tree = crowd(rt.alloc(), roots)?;
        let last = u64::from(roots) - 1;
        let start = Instant::now(rt)?;
        for k in 1..=PICKS {
            if picked(&tree, last + u64::from(k)) != Some(last) {
                bail!("another node is picked");
            }
        }
        let nanos = start.elapsed(rt)?.as_nanos() / u128::from(PICKS);
        println!(rt;
            "{roots} roots, all but the first and the last settled, and the first taken: \
        a pick in {nanos} ns"
        )?;
    }
    Ok(())
}
