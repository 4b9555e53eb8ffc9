//! What a bench is to answer, worked out from a plain list of the leases that it gave.
use anyhow::{Result, bail};
use bench_core::LeaseRefusal;
use lease_table::{Lease, LeaseId};
use proof_tree::{NodeId, Taken, Tree};
use std::alloc::{AllocError, Global};

/// A lease that was given.
#[derive(Clone, Copy)]
struct Given {
    lease: Lease,
    kept: bool,
    ended: bool,
}

/// A record that is staged, and the lease that is kept for it.
#[derive(Drop)]
struct Due {
    text: Vec<u8>,
    lease: Option<LeaseId>,
}

/// The leases that were given, what is staged, and what is applied.
#[derive(Drop)]
pub(crate) struct Plain {
    /// For how many leases given a lease lasts.
    pub(crate) lease: u32,
    pub(crate) depth: u8,
    pub(crate) pieces: u8,
    pub(crate) budget: u32,
    given: Vec<Given>,
    due: Vec<Due>,
    /// The texts of the records that are applied, in order.
    applied: Vec<Vec<u8>>,
    work: u64,
}

/// Nodes that are leased.
#[derive(Clone, Copy)]
struct LeasedNodes<'a> {
    nodes: &'a [u64],
}

impl<'a> Taken for LeasedNodes<'a> {
    ghost use Rattle.std.specs.Prelude.{◌==◌};
    ghost use Rattle.std.specs.List.{list_any};

    ghost taken = { λ s n. list_any (λ x. x == n) s.nodes.now };

    fn is_taken(&self, n: NodeId) -> bool {
        let number = n.number();
        self.nodes.iter().any(|node| *node == number)
    }
}

/// Whether each root is settled.
fn are_settled(tree: &Tree) -> bool {
    for place in 0..tree.roots() {
        if tree.settled(place + 1).is_none() {
            return false;
        }
    }
    true
}

impl Plain {
    /// Nothing was leased, staged or applied.
    pub(crate) fn new(alloc: Global, lease: u32, depth: u8, pieces: u8, budget: u32) -> Plain {
        Plain {
            lease,
            depth,
            pieces,
            budget,
            given: Vec::new(alloc),
            due: Vec::new(alloc),
            applied: Vec::new(alloc),
            work: 0,
        }
    }

    /// How many leases were given.
    pub(crate) fn given(&self) -> usize {
        self.given.len()
    }

    /// How many work records are applied.
    pub(crate) fn work(&self) -> u64 {
        self.work
    }

    /// The texts of the records that are applied.
    pub(crate) fn applied(&self) -> &[Vec<u8>] {
        self.applied.as_slice()
    }

    /// The lease that was given at this place, from 0.
    pub(crate) fn lease_at(&self, place: usize) -> Option<Lease> {
        self.given.get(place).map(|given| given.lease)
    }

    /// Whether the lease lives at a number.
    fn lives(&self, given: &Given, now: u128) -> bool {
        let last = given
            .lease
            .id
            .number()
            .saturating_add(u128::from(self.lease));
        !given.ended && (given.kept || now < last)
    }

    /// Whether the lease lives now, and is not kept.
    pub(crate) fn is_open(&self, id: LeaseId) -> bool {
        self.given.iter().any(|given| {
            given.lease.id == id && !given.kept && self.lives(given, self.given() as u128)
        })
    }

    /// The nodes that are leased at a number.
    fn leased(&self, alloc: Global, now: u128) -> Result<Vec<u64>, AllocError> {
        let mut nodes = Vec::new(alloc);
        for given in &self.given {
            if self.lives(given, now) {
                nodes.push(given.lease.node)?;
            }
        }
        Ok(nodes)
    }

    /// What a worker who asks for a lease is to get.
    pub(crate) fn answer(
        &self,
        alloc: Global,
        tree: &Tree,
        worker: u32,
    ) -> Result<Result<Lease, LeaseRefusal>> {
        if are_settled(tree) {
            return Ok(Err(LeaseRefusal::Done));
        }
        if self.work >= u64::from(self.budget) {
            return Ok(Err(LeaseRefusal::Spent {
                records: self.work,
                budget: self.budget,
            }));
        }
        let now = (self.given() as u128).saturating_add(1);
        let leased = self.leased(alloc, now)?;
        let nodes = LeasedNodes {
            nodes: leased.as_slice(),
        };
        let Some((picked, goal)) = tree.pick(&nodes) else {
            return Ok(Err(LeaseRefusal::NoLeaf { live: leased.len() }));
        };
        let Some(leaf) = tree.leaf(picked.number()) else {
            bail!("no leaf was picked");
        };
        Ok(Ok(Lease {
            id: LeaseId::new(now),
            node: leaf.number(),
            position: tree.position(leaf),
            goal,
            depth: self.depth,
            pieces: self.pieces,
            worker,
        }))
    }

    /// A lease is given.
    pub(crate) fn give(&mut self, lease: Lease) -> Result<(), AllocError> {
        self.given.push(Given {
            lease,
            kept: false,
            ended: false,
        })?;
        Ok(())
    }

    /// A lease ends.
    pub(crate) fn end(&mut self, id: LeaseId) {
        for given in &mut self.given {
            if given.lease.id == id {
                given.ended = true;
            }
        }
    }

    /// A record is staged, and the lease that it comes under is kept.
    pub(crate) fn stage(
        &mut self,
        text: Vec<u8>,
        lease: Option<LeaseId>,
    ) -> Result<(), AllocError> {
        for given in &mut self.given {
            if Some(given.lease.id) == lease {
                given.kept = true;
            }
        }
        self.due.push(Due { text, lease })?;
        Ok(())
    }

    /// What is staged is applied.
    pub(crate) fn apply(&mut self, alloc: Global) -> Result<(), AllocError> {
        let due = std::mem::replace(&mut self.due, Vec::new(alloc));
        for Due { text, lease } in due {
            if let Some(id) = lease {
                self.work = self.work.saturating_add(1);
                self.end(id);
            }
            self.applied.push(text)?;
        }
        Ok(())
    }
}
