//! What a bench stores of its records: those applied, and those staged.
ghost use Rattle.std.specs.Prelude.{◌≡◌};
ghost use Rattle.bench_core.specs.Benches.{lease_kept, nodes_made, work_made};

use bench_records::CertificateList;
use certificate_checker::ChildList;
use draughts_board::Position;
use lease_table::LeaseId;
use proof_numbers::{Child, Facts};
use proof_tree::NodeId;

/// A record that is applied. What it showed stands on the shelf.
#[derive(Clone, Copy)]
pub(crate) enum Applied {
    /// A root at this position.
    Begin(Position),
    /// A node of this position, whose certificates are the next batch on the shelf.
    Solve(Position),
    /// This node.
    Expand(NodeId),
}

/// A record that is staged, with all that applying it needs.
#[derive(Drop)]
pub(crate) enum Staged {
    /// A root, with its facts at sight.
    Begin(Child),
    /// A node's certificates, with what they tell, under this lease.
    Solve {
        lease: LeaseId,
        node: NodeId,
        position: Position,
        facts: Facts,
        shown: CertificateList,
    },
    /// A node's children, under this lease.
    Expand {
        lease: LeaseId,
        node: NodeId,
        children: ChildList,
    },
}

impl Staged {
    /// How many work records it is: one or none.
    pub(crate) fn work(&self) -> u64
        ensures { result ≡ work_made self.now }
    {
        match self {
            Staged::Begin(_) => 0,
            Staged::Solve { .. } => 1,
            Staged::Expand { .. } => 1,
        }
    }

    /// The lease that is kept for it.
    pub(crate) fn lease(&self) -> Option<LeaseId>
        ensures { result ≡ lease_kept self.now }
    {
        match self {
            Staged::Begin(_) => None,
            Staged::Solve { lease, .. } => Some(*lease),
            Staged::Expand { lease, .. } => Some(*lease),
        }
    }

    /// How many nodes it will make.
    pub(crate) fn nodes(&self) -> usize
        ensures { result ≡ nodes_made self.now }
    {
        match self {
            Staged::Begin(_) => 1,
            Staged::Solve { .. } => 0,
            Staged::Expand { children, .. } => children.as_slice().len(),
        }
    }
}
