//! Leased nodes, as a pick sees them.
ghost use Rattle.std.specs.Prelude.{◌≡◌, IsSome};
ghost use Rattle.proof_tree.specs.Forest.{node_at};
ghost use Rattle.bench_core.specs.States.{node_position};

use crate::settings::Settings;
use draughts_board::Side;
use lease_table::{Lease, LeaseId, Leases};
use proof_tree::{NodeId, Taken, Tree};

/// The nodes that are leased at a number. Whether one is takes two look-ups by hash.
#[derive(Clone, Copy)]
pub struct LeasedNodes<'a> {
    pub leases: &'a Leases,
    pub now: u128,
}

impl<'a> Taken for LeasedNodes<'a> {
    ghost use Rattle.lease_table.specs.Rows.{is_leased};

    ghost taken = { λ s n. is_leased s.leases.now n s.now };

    fn is_taken(&self, n: NodeId) -> bool {
        self.leases.leased(n.number(), self.now)
    }
}

/// A lease of the leaf, under this number, for whoever's win is sought there.
pub(crate) fn lease_at(
    tree: &Tree,
    leaf: (NodeId, Side),
    number: u128,
    settings: &Settings,
    worker: u32,
) -> Lease
    requires { IsSome (node_at leaf.0 tree.now.forest) }
    ensures { result ≡ record {
      id = number;
      node = leaf.0;
      position = node_position tree.now.forest leaf.0;
      goal = leaf.1;
      depth = settings.now.depth;
      pieces = settings.now.pieces;
      worker = worker;
    } }
{
    let (node, goal) = leaf;
    Lease {
        id: LeaseId::new(number),
        node: node.number(),
        position: tree.position(node),
        goal,
        depth: settings.depth,
        pieces: settings.pieces,
        worker,
    }
}
