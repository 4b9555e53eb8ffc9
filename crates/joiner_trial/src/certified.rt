//! A tree whose every fact is certified.
use anyhow::Result;
use certificate_checker::{Outcome, Proved, check, told};
use certificate_joiner::{PartShelf, join};
use draughts_board::{Position, Side, Value};
use endgame_table::Table;
use leaf_search::{Memo, is_undecided, search};
use proof_tree::{MOST_ROOTS, NodeId, Tree};
use std::alloc::{AllocError, Global};
use std::marker::Model;
use swift_sight::{child_at_sight, children_at_sight};

/// How many positions a memory of searches keeps.
const REMEMBERED: usize = 1_024;

/// A tree of this number of nodes is full, and is worked on no more.
const MOST_NODES: usize = 100_000;

/// A proof tree, and a shelf with what shows the facts in it that are not seen at sight. Roots and children come with
/// their facts at sight, and a leaf learns what a search shows of it.
///
/// A contract sees the number of pieces of the endgame table, and the tree.
#[derive(Drop)]
pub(crate) struct CertifiedTree<'a> {
    table: &'a Table,
    memo: Memo,
    tree: Tree,
    shelf: PartShelf,
}

impl<'a> Model for CertifiedTree<'a> {
    ghost use Rattle.joiner_trial.specs.Certified.{CertifiedState, certified_code, IsCertifiedTree};

    ghost Value = { CertifiedState };

    ghost coded = { certified_code };

    ghost view = { λ c. record { pieces = c.table.now.pieces; tree = c.tree } };

    ghost invariant = { λ c. IsCertifiedTree c.table.now.pieces c.memo c.tree.forest c.shelf.puts };
}

impl<'a> CertifiedTree<'a> {
    ghost use Rattle.std.specs.Prelude.{◌≡◌, ◌≤◌, All, IfSome, IsSomeAnd, OnOk};
    ghost use Rattle.certificate_checker.specs.declared.outcomes.TheConstants.{MOST_DEPTH};
    ghost use Rattle.certificate_checker.specs.Answers.{IsFinding};
    ghost use Rattle.proof_tree.specs.Forest.{node_at};
    ghost use Rattle.proof_tree.specs.Sound.{IsSoundForest};
    ghost use Rattle.proof_tree.specs.declared.rows.Mark.{Mark};
    ghost use Rattle.joiner_trial.specs.Certified.{HasLearnt};

    /// A tree without nodes.
    pub(crate) fn new(alloc: Global, table: &'a Table) -> Result<CertifiedTree<'a>, AllocError> {
        let memo = Memo::new(alloc, table.pieces(), REMEMBERED)?;
        Ok(CertifiedTree {
            table,
            memo,
            tree: Tree::new(alloc),
            shelf: PartShelf::new(alloc),
        })
    }

    /// The tree.
    pub(crate) fn tree(&self) -> &Tree
        ensures { result.now ≡ self.now.tree }
    {
        &self.tree
    }

    /// Adds a root, unless the position is one already or there are as many as may be.
    pub(crate) fn add_root(&mut self, alloc: Global, p: &Position) -> Result<(), AllocError> {
        if self.tree.find_root(p).is_some() || self.tree.roots() as usize >= MOST_ROOTS {
            return Ok(());
        }
        let root = child_at_sight(alloc, p, self.table)?;
        self.tree.reserve(1)?;
        self.tree.add_root(root);
        Ok(())
    }

    /// Gives a leaf its children, unless the tree is full. Whether it did.
    pub(crate) fn expand(&mut self, alloc: Global, n: NodeId) -> Result<bool, AllocError>
        requires { IsSomeAnd (node_at n self.old.tree.forest) (λ x. x.own.mark ≡ Mark.Unexpanded) }
    {
        if self.tree.len() >= MOST_NODES {
            return Ok(false);
        }
        let children = children_at_sight(alloc, &self.tree.position(n), self.table)?;
        self.tree.reserve(children.as_slice().len())?;
        self.tree.expand(n, children.as_slice());
        Ok(true)
    }

    /// Adds what a certificate tells of a leaf to its facts, and puts the certificate on the shelf for it.
    fn learn(&mut self, alloc: Global, n: NodeId, proved: Proved) -> Result<(), AllocError>
        requires sound { IsSoundForest self.old.tree.forest }
        requires leaf { IsSomeAnd (node_at n self.old.tree.forest)
            (λ x. x.own.mark ≡ Mark.Unexpanded) }
        requires finding { IfSome (node_at n self.old.tree.forest) (λ x.
            IsFinding self.old.pieces x.own.position proved) }
        ensures pieces { self.new.pieces ≡ self.old.pieces }
        ensures learnt { OnOk result (HasLearnt n self.old.tree.forest self.new.tree.forest) }
    {
        self.shelf.reserve(1)?;
        let certificate = proved.into_certificate();
        let facts = told(certificate.claim);
        let batch = vec![in alloc; certificate]?;
        self.tree.bound(n, &facts);
        self.shelf.put(n, batch);
        Ok(())
    }

    /// Adds what each of these certificates tells of a leaf.
    fn learn_all(&mut self, alloc: Global, n: NodeId, found: Vec<Proved>) -> Result<(), AllocError>
        requires sound { IsSoundForest self.old.tree.forest }
        requires leaf { IsSomeAnd (node_at n self.old.tree.forest)
            (λ x. x.own.mark ≡ Mark.Unexpanded) }
        requires finding { IfSome (node_at n self.old.tree.forest) (λ x.
            All (IsFinding self.old.pieces x.own.position) found.items) }
    {
        let mut found = found;
        while let Some(proved) = found.pop() {
            self.learn(alloc, n, proved)?;
        }
        Ok(())
    }

    /// Searches a leaf `depth` plies ahead for what settles the goal, and expands it where too little is found, unless the
    /// tree is full. Whether it did.
    pub(crate) fn work(
        &mut self,
        alloc: Global,
        n: NodeId,
        goal: Side,
        depth: u8,
    ) -> Result<bool, AllocError>
        requires leaf { IsSomeAnd (node_at n self.old.tree.forest)
            (λ x. x.own.mark ≡ Mark.Unexpanded) }
        requires depth { depth ≤ MOST_DEPTH }
    {
        let p = self.tree.position(n);
        if self.tree.len() >= MOST_NODES || !is_undecided(&p, self.table) {
            return self.expand(alloc, n);
        }
        match search(alloc, &p, goal, depth, self.table, &mut self.memo)? {
            Outcome::Solved(found) => {
                self.learn_all(alloc, n, found.into_vec())?;
                Ok(true)
            }
            Outcome::Exhausted(_) => self.expand(alloc, n),
        }
    }

    /// The joined certificate of a root, counted from 1, as the checker accepts it; none where there is no such root or it
    /// is not settled.
    pub(crate) fn prove(&self, alloc: Global, root: u32) -> Result<Option<Proved>> {
        if root == 0 || root > self.tree.roots() || self.tree.settled(root).is_none() {
            return Ok(None);
        }
        let joined = join(alloc, &self.tree, &self.shelf, root, self.table.pieces())?;
        let proved = check(alloc, joined, self.table).map_err(|refused| refused.1)?;
        Ok(Some(proved))
    }
}
