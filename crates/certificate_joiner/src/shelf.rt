//! Certificates that show what is known of nodes.
use indexmap::IndexMap;
use proof_tree::NodeId;
use shared_words::ItemList;
use std::alloc::{AllocError, Global};
use std::marker::Model;
use strategy_certificate::Certificate;

/// Batches and spare together are at most this: more than a machine can address.
const MOST_BATCHES: usize = 1 << 57;

/// Certificates by node. Those that come together are a batch; a batch is added behind those that its node has, and
/// none is dropped or changed.
///
/// A contract sees what was put there, in order, and for how many more batches there is room. Batches are looked up, not
/// searched for.
#[derive(Drop)]
pub struct PartShelf {
    /// By a node's number and the batch's place among those of the node, counted from 0.
    batches: IndexMap<(u64, usize), ItemList<Certificate>>,
    /// How many batches a node has, by its number.
    counts: IndexMap<u64, usize>,
    /// How many more batches room was made for.
    spare: usize,
}

impl Model for PartShelf {
    ghost use Rattle.indexmap.specs.IndexMap.{spare as map_spare};
    ghost use Rattle.certificate_joiner.specs.Shelf.{ShelfState};
    ghost use Rattle.certificate_joiner.specs.ShelfRows.{puts_of, IsShelf};

    ghost Value = { ShelfState };

    ghost view = { λ s. record { puts = puts_of s.batches.entries; spare = s.spare } };

    ghost invariant = { λ s.
        IsShelf s.batches.entries s.counts.entries (map_spare s.batches) (map_spare s.counts) s.spare };
}

impl PartShelf {
    ghost use Rattle.std.specs.Prelude.{◌≡◌, ◌∷◌, [], ◌++◌, ◌-◌, ◌<◌, ◌≤◌, length, slice_get, Some, OnOk, OnErr};
    ghost use Rattle.certificate_joiner.specs.Shelf.{batches_of};

    /// A shelf on which nothing stands, which has room for nothing.
    pub fn new(alloc: Global) -> PartShelf
        ensures { result ≡ record { puts = []; spare = 0 } }
    {
        PartShelf {
            batches: IndexMap::new(alloc),
            counts: IndexMap::new(alloc),
            spare: 0,
        }
    }

    /// Makes room for `n` more batches. After want of memory, which a shelf of 2^57 batches meets too, it is as it
    /// was.
    pub fn reserve(&mut self, n: usize) -> Result<(), AllocError>
        ensures puts { self.new.puts ≡ self.old.puts }
        ensures room { OnOk result (n ≤ self.new.spare) }
        ensures kept { self.old.spare ≤ self.new.spare }
        ensures err { OnErr result (self.new ≡ self.old) }
    {
        if n <= self.spare {
            return Ok(());
        }
        if n > MOST_BATCHES - self.batches.len() {
            return Err(AllocError);
        }
        self.batches.reserve(n)?;
        self.counts.reserve(n)?;
        self.spare = n;
        Ok(())
    }

    /// Adds a batch behind those that the node has.
    pub fn put(&mut self, n: NodeId, certificates: Vec<Certificate>)
        requires { 1 ≤ self.old.spare }
        ensures { self.new ≡ record {
          puts = self.old.puts ++ (n, certificates.items) ∷ [];
          spare = self.old.spare - 1;
        } }
    {
        let place = self.batches(n);
        let batch = ItemList::from_vec(certificates);
        let Ok(_) = self.batches.insert((n.number(), place), batch) else {
            unreachable!()
        };
        let Ok(_) = self.counts.insert(n.number(), place + 1) else {
            unreachable!()
        };
        self.spare -= 1;
    }

    /// How many batches a node has.
    pub fn batches(&self, n: NodeId) -> usize
        ensures { result ≡ length (batches_of n self.now.puts) }
    {
        match self.counts.get(&n.number()) {
            Some(count) => *count,
            None => 0,
        }
    }

    /// The certificates of one batch of a node, counted from 0.
    pub fn of(&self, n: NodeId, batch: usize) -> &[Certificate]
        requires { batch < length (batches_of n self.now.puts) }
        ensures { slice_get (batches_of n self.now.puts) batch ≡ Some result.now }
    {
        match self.batches.get(&(n.number(), batch)) {
            Some(certificates) => certificates.as_slice(),
            None => unreachable!(),
        }
    }

    /// For how many more batches there is room.
    pub fn spare(&self) -> usize
        ensures { result ≡ self.now.spare }
    {
        self.spare
    }
}
