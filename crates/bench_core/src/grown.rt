//! A tree with the records by which it grew.
use crate::staged::Applied;
use bench_records::CertificateList;
use certificate_joiner::{PartShelf, join};
use draughts_board::Position;
use ghost_list::CountedTrace;
use proof_numbers::{Child, Facts};
use proof_tree::{NodeId, Tree};
use std::alloc::{AllocError, Global};
use std::marker::Model;
use strategy_certificate::Certificate;

/// A tree, the certificates of its nodes, and the records by which it grew. It changes by records alone.
///
/// A contract sees the forest, the records in order, and for how many more nodes and records there is room.
#[derive(Drop)]
pub(crate) struct GrownTree {
    tree: Tree,
    shelf: PartShelf,
    /// What the shelf lacks of the records: they are counted, and no byte of them is kept.
    log: CountedTrace<Applied>,
    /// How many of the records are of a search.
    work: usize,
}

impl Model for GrownTree {
    ghost use Rattle.std.specs.Coded.{codes};
    ghost use Rattle.proof_tree.specs.Code.{forest_code};
    ghost use Rattle.bench_core.specs.Grown.{GrownState, IsGrown, grown_state};

    ghost Value = { GrownState };

    ghost coded = { Prim.hlevel (codes, forest_code) };

    ghost view = { λ g. grown_state g.tree g.shelf g.log };

    ghost invariant = { λ g. IsGrown g.shelf g.log g.work };
}

impl GrownTree {
    ghost use Rattle.proof_tree.specs.declared.tree.TheConstants.{MOST_ROOTS};
    ghost use Rattle.std.specs.Prelude.{◌≡◌, ◌≤◌, ◌<◌, ◌-◌, ◌+◌, ◌++◌, ◌∷◌, [], Contains, length, map, count_by, slice_get, IfOk, IfSome, IsSome, IsSomeAnd, OnOk};
    ghost use Rattle.draughts_board.specs.Play.{successors_of};
    ghost use Rattle.proof_numbers.specs.Facts.{known};
    ghost use Rattle.proof_numbers.specs.Known.{joined, IsConsistent};
    ghost use Rattle.proof_tree.specs.declared.rows.Mark.TheVariants.{Unexpanded};
    ghost use Rattle.proof_tree.specs.Changes.{with_facts, with_children, with_root};
    ghost use Rattle.proof_tree.specs.Forest.{no_node, node_at, nodes, value_of};
    ghost use Rattle.proof_tree.specs.Sound.{root_positions, IsTreeState};
    ghost use Rattle.certificate_joiner.specs.Certified.{IsJoined, claim_for};
    ghost use Rattle.certificate_joiner.specs.Laws.{AreCertified};
    ghost use Rattle.bench_records.specs.declared.records.BenchRecord.TheVariants as records;
    ghost use Rattle.bench_core.specs.Records.{is_work, batches_shown};

    /// A tree without nodes, with room for none.
    pub(crate) fn new(alloc: Global) -> GrownTree
        ensures { result ≡ record { forest = no_node; records = []; nodes = 0; room = 0 } }
    {
        GrownTree {
            tree: Tree::new(alloc),
            shelf: PartShelf::new(alloc),
            log: CountedTrace::new(),
            work: 0,
        }
    }

    /// The tree.
    pub(crate) fn tree(&self) -> &Tree
        ensures forest { result.now.forest ≡ self.now.forest }
    {
        &self.tree
    }

    /// How many of the records are of a search.
    pub(crate) fn work_records(&self) -> usize
        ensures { result ≡ count_by is_work self.now.records }
    {
        self.work
    }

    /// Makes room for `nodes` more nodes and `records` more records.
    pub(crate) fn reserve(&mut self, nodes: usize, records: usize) -> Result<(), AllocError>
        ensures forest { self.new.forest ≡ self.old.forest }
        ensures records { self.new.records ≡ self.old.records }
        ensures nodes { self.old.nodes ≤ self.new.nodes }
        ensures room { self.old.room ≤ self.new.room }
        ensures enough { OnOk result ((nodes ≤ self.new.nodes) × (records ≤ self.new.room)) }
    {
        self.tree.reserve(nodes)?;
        self.shelf.reserve(records)?;
        self.log.reserve(records)
    }

    /// Adds a root.
    pub(crate) fn begin(&mut self, root: Child)
        requires absent { ¬ Contains (root_positions self.old.forest) root.position }
        requires few { length (nodes self.old.forest) < MOST_ROOTS }
        requires nodes { 1 ≤ self.old.nodes }
        requires room { 1 ≤ self.old.room }
        ensures forest { self.new.forest
            ≡ with_root root.position (known root.facts) self.old.forest }
        ensures records { self.new.records
            ≡ self.old.records ++ records.Begin root.position ∷ [] }
        ensures nodes { self.old.nodes ≤ self.new.nodes + 1 }
        ensures room { self.old.room ≤ self.new.room + 1 }
    {
        self.log.push(&Applied::Begin(root.position));
        let _place = self.tree.add_root(root);
    }

    /// Adds what these certificates tell of a node.
    pub(crate) fn solve(
        &mut self,
        n: NodeId,
        position: Position,
        facts: &Facts,
        shown: CertificateList,
    )
        requires there { IsSomeAnd (node_at n self.old.forest) (λ x. x.own.mark ≡ Unexpanded) }
        requires agree { IfSome (node_at n self.old.forest) (λ x.
            IsConsistent (joined x.own.facts (known facts.now))) }
        requires room { 1 ≤ self.old.room }
        ensures forest { self.new.forest ≡ with_facts n (known facts.now) self.old.forest }
        ensures records { self.new.records
            ≡ self.old.records ++ records.Solve n position shown ∷ [] }
        ensures nodes { self.old.nodes ≤ self.new.nodes }
        ensures room { self.old.room ≤ self.new.room + 1 }
    {
        self.log.push(&Applied::Solve(position));
        self.work += 1;
        self.tree.bound(n, facts);
        self.shelf.put(n, shown.into_vec());
    }

    /// Gives a node its children.
    pub(crate) fn expand(&mut self, n: NodeId, children: &[Child])
        requires there { IsSomeAnd (node_at n self.old.forest) (λ x. x.own.mark ≡ Unexpanded) }
        requires successors { IfSome (node_at n self.old.forest) (λ x.
            map (λ child. child.position) children.now ≡ successors_of x.own.position) }
        requires nodes { length children.now ≤ self.old.nodes }
        requires room { 1 ≤ self.old.room }
        ensures forest { self.new.forest ≡ with_children n children.now self.old.forest }
        ensures records { self.new.records ≡ self.old.records ++ records.Expand n ∷ [] }
        ensures nodes { self.old.nodes ≤ self.new.nodes + length children.now }
        ensures room { self.old.room ≤ self.new.room + 1 }
    {
        self.log.push(&Applied::Expand(n));
        self.work += 1;
        self.tree.expand(n, children);
    }

    /// One certificate of a settled root, counted from 1, that claims its value.
    pub(crate) fn certificate(
        &self,
        alloc: Global,
        root: u32,
        pieces: u8,
    ) -> Result<Certificate, AllocError>
        requires pieces { pieces ≤ 3 }
        requires first { 1 ≤ root }
        requires there { root ≤ length (nodes self.now.forest) }
        requires settled { IfSome (slice_get (nodes self.now.forest) (root - 1)) (λ x.
            IsSome (value_of x)) }
        requires certified { AreCertified pieces (batches_shown self.now.records) self.now.forest }
        ensures { IfOk result (λ c. IfSome (slice_get (nodes self.now.forest) (root - 1)) (λ x.
            IfSome (value_of x) (λ v. IsJoined pieces x.own.position (claim_for v) c))) }
    {
        join(alloc, &self.tree, &self.shelf, root, pieces)
    }
}
