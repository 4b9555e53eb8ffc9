//! The leases that are alive, seen from outside a bench, for picks among the same leaves.
ghost use Rattle.std.specs.Prelude.{◌<◌};

use anyhow::{Result, bail};
use bench_core::LeasedNodes;
use lease_table::{Lease, Leases};
use proof_tree::{NodeId, Taken};
use std::alloc::{AllocError, Global};

/// How many leases are alive at a time at most, that which is given last among them.
pub(crate) const MOST_ALIVE: u32 = 64;

/// Marked nodes. Whether a node is marked takes one step.
#[derive(Drop)]
pub(crate) struct MarkedNodes {
    /// One for each node, in the order of their numbers.
    marks: Vec<bool>,
}

impl Taken for MarkedNodes {
    ghost use Rattle.std.specs.Prelude.{false};
    ghost use Rattle.std.specs.List.{slice_get};
    ghost use Rattle.std.specs.Option.{unwrap_or};

    ghost taken = { λ s n. unwrap_or (slice_get s.marks.items n) false };

    fn is_taken(&self, n: NodeId) -> bool {
        self.marks
            .get(n.number() as usize)
            .copied()
            .unwrap_or(false)
    }
}

impl MarkedNodes {
    /// Marks a node, or takes the mark away.
    fn set(&mut self, node: u64, mark: bool) {
        if let Some(place) = self.marks.get_mut(node as usize) {
            *place = mark;
        }
    }
}

/// The leases that a bench gave last. A constant number of them is alive when the next is given.
#[derive(Drop)]
pub(crate) struct Followed {
    /// How many are alive once a lease is given, that one among them.
    alive: u32,
    /// The table by which a bench would know them.
    leases: Leases,
    /// The same by marks.
    marks: MarkedNodes,
    /// The node of each of the last leases, at the place of its number modulo their count.
    recent: [u64; MOST_ALIVE as usize],
    /// The number of the last lease.
    last: u128,
}

/// The place of a lease of this number.
fn place_of(number: u128) -> usize
    ensures { result < 64 }
{
    (number % u128::from(MOST_ALIVE)) as usize
}

/// Gives a lease that a bench gave, under the same number.
fn give_again(leases: &mut Leases, lease: &Lease) -> Result<()> {
    let now = lease.id.number();
    if leases.row(lease.id).is_some() || leases.leased(lease.node, now) {
        bail!("a lease is given that is alive");
    }
    leases.give(*lease, now)?;
    Ok(())
}

impl Followed {
    /// No lease was given, in a tree of `nodes` nodes. Of those that will be, `alive` are alive once one is given.
    pub(crate) fn new(alloc: Global, alive: u32, nodes: usize) -> Result<Followed, AllocError> {
        Ok(Followed {
            alive,
            leases: Leases::new(alloc, alive),
            marks: MarkedNodes {
                marks: vec![in alloc; false; nodes]?,
            },
            recent: [u64::MAX; MOST_ALIVE as usize],
            last: 0,
        })
    }

    /// The nodes that are leased where the next lease is given, as a bench sees them.
    pub(crate) fn leased(&self) -> LeasedNodes<'_> {
        LeasedNodes {
            leases: &self.leases,
            now: self.last.saturating_add(1),
        }
    }

    /// The same nodes, marked.
    pub(crate) fn marked(&self) -> &MarkedNodes {
        &self.marks
    }

    /// The bench gave a lease. The first of those alive is so no longer.
    pub(crate) fn give(&mut self, lease: &Lease) -> Result<()> {
        give_again(&mut self.leases, lease)?;
        self.mark(lease.id.number(), lease.node);
        Ok(())
    }

    /// Marks the node of a lease of this number, and takes the mark of the first of those alive away.
    fn mark(&mut self, number: u128, node: u64) {
        self.last = number;
        self.recent[place_of(number)] = node;
        self.marks.set(node, true);
        let followed = u128::from(self.alive.saturating_sub(1));
        let first = self.recent[place_of(number.saturating_sub(followed))];
        self.marks.set(first, false);
    }
}
