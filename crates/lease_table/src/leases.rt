//! Leases, and the rows that stand for them.
use draughts_board::{Position, Side};
use std::marker::Model;

/// The number of a lease: the count of leases given, itself among them. A contract sees the number.
#[derive(Clone, Copy, PartialEq, Eq, PartialOrd, Ord, Hash, Debug)]
pub struct LeaseId {
    number: u128,
}

impl Model for LeaseId {
    ghost use Rattle.std.specs.Prelude.{ℕ};

    ghost Value = { ℕ };

    ghost view = { λ id. id.number };

    ghost inverse = { λ n. record { number = n } };
}

impl LeaseId {
    ghost use Rattle.std.specs.Prelude.{◌≡◌};

    /// The lease of this number.
    pub fn new(number: u128) -> LeaseId
        ensures { result ≡ number }
    {
        LeaseId { number }
    }

    /// Its number.
    pub fn number(self) -> u128
        ensures { result ≡ self }
    {
        self.number
    }
}

/// Leave for one worker to search one leaf.
#[derive(Clone, Copy, PartialEq, Eq, Debug)]
pub struct Lease {
    pub id: LeaseId,
    /// The leaf's number in the tree.
    pub node: u64,
    pub position: Position,
    /// Whose win the search is to show.
    pub goal: Side,
    /// How deep the search goes, in plies, at most 12.
    pub depth: u8,
    /// For how many pieces the endgame tables are, 2 or 3.
    pub pieces: u8,
    pub worker: u32,
}

/// A lease that was given and has not ended.
#[derive(Clone, Copy, PartialEq, Eq, Debug)]
pub struct Row {
    pub lease: Lease,
    /// It lives until it ends, since its result is staged.
    pub kept: bool,
}

/// The lease does not live.
#[derive(Clone, Copy, PartialEq, Eq, Debug, thiserror::Error)]
#[error("the lease does not live")]
pub struct Stale(pub LeaseId);
