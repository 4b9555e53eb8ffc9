//! A bench with the endgame table by which its leaves are searched.
use crate::searching::outcome_of;
use anyhow::Result;
use bench_core::{Bench, LeaseRefusal, ReadyRefusal, Settings};
use certificate_checker::{Proved, check};
use draughts_board::Position;
use endgame_table::Table;
use lease_table::{Lease, LeaseId, Stale};
use proof_tree::MOST_ROOTS;
use std::alloc::{AllocError, Global};
use std::marker::Model;

/// How many leases are asked for at most.
const MOST_ASKED: u128 = 2_000_000;

/// A bench, and the table that it is for. A contract sees the bench.
#[derive(Drop)]
pub(crate) struct TabledBench<'a> {
    table: &'a Table,
    bench: Bench,
}

impl<'a> Model for TabledBench<'a> {
    ghost use Rattle.std.specs.Prelude.{◌≡◌};
    ghost use Rattle.std.specs.Coded.{codes};
    ghost use Rattle.proof_tree.specs.Code.{forest_code};
    ghost use Rattle.bench_core.specs.Cores.{Core};

    ghost Value = { Core };

    ghost coded = { Prim.hlevel (codes, forest_code) };

    ghost view = { λ t. t.bench };

    ghost invariant = { λ t. t.bench.state.settings.pieces ≡ t.table.now.pieces };
}

impl<'a> TabledBench<'a> {
    ghost use Rattle.std.specs.Prelude.{◌≡◌, ◌≤◌, [], IfOk, OnOk};
    ghost use Rattle.core_trial.specs.Fresh.{IsFresh};
    ghost use Rattle.bench_core.specs.declared.settings.TheConstants.{MOST_WORK, MOST_LEASE};
    ghost use Rattle.certificate_checker.specs.declared.outcomes.TheConstants.{MOST_DEPTH};

    /// A bench without roots. A lease lasts for `lease` leases given.
    pub(crate) fn new(
        alloc: Global,
        table: &'a Table,
        depth: u8,
        budget: u32,
        lease: u32,
    ) -> Result<TabledBench<'a>, AllocError>
        requires depth { depth ≤ MOST_DEPTH }
        requires budget { budget ≤ MOST_WORK }
        requires first { 1 ≤ lease }
        requires last { lease ≤ MOST_LEASE }
        ensures { IfOk result IsFresh }
    {
        let settings = Settings {
            pieces: table.pieces(),
            depth,
            budget,
            lease,
        };
        let bench = Bench::new(alloc, settings)?;
        Ok(TabledBench { table, bench })
    }

    /// The bench.
    pub(crate) fn bench(&self) -> &Bench
        ensures { result.now ≡ self.now }
    {
        &self.bench
    }

    /// Applies what is staged.
    pub(crate) fn apply(&mut self)
        ensures { self.new.staged ≡ [] }
    {
        self.bench.apply_staged();
    }

    /// Applies what is staged, and stages a root: the text of its record, or none where the position is a root already or
    /// there are as many as may be.
    pub(crate) fn begin(&mut self, p: Position) -> Result<Option<Vec<u8>>, AllocError> {
        self.apply();
        let tree = self.bench.tree();
        if tree.find_root(&p).is_some() || tree.roots() as usize >= MOST_ROOTS {
            return Ok(None);
        }
        Ok(Some(self.bench.begin(p, self.table)?))
    }

    /// Applies what is staged, stages a root and takes it back: whether it might begin.
    pub(crate) fn begin_and_forget(&mut self, p: Position) -> Result<bool, AllocError> {
        self.apply();
        let tree = self.bench.tree();
        if tree.find_root(&p).is_some() || tree.roots() as usize >= MOST_ROOTS {
            return Ok(false);
        }
        let _text = self.bench.begin(p, self.table)?;
        self.bench.forget_ready();
        Ok(true)
    }

    /// Asks for a lease.
    pub(crate) fn ask(&mut self, worker: u32) -> Result<Lease, LeaseRefusal> {
        if self.bench.given() >= MOST_ASKED {
            return Err(LeaseRefusal::Failed);
        }
        self.bench.lease(worker)
    }

    /// Stages what the lease's search comes to: the text of its record, or why it is refused.
    pub(crate) fn hand_in(
        &mut self,
        alloc: Global,
        lease: &Lease,
    ) -> Result<Result<Vec<u8>, ReadyRefusal>> {
        let outcome = outcome_of(alloc, lease, self.table)?;
        Ok(self.bench.ready(lease, outcome))
    }

    /// Stages what the lease's search comes to, and takes it back: why it is refused, if so.
    pub(crate) fn hand_in_and_forget(
        &mut self,
        alloc: Global,
        lease: &Lease,
    ) -> Result<Option<ReadyRefusal>> {
        let outcome = outcome_of(alloc, lease, self.table)?;
        match self.bench.ready(lease, outcome) {
            Ok(_text) => {
                self.bench.forget_ready();
                Ok(None)
            }
            Err(refusal) => Ok(Some(refusal)),
        }
    }

    /// Ends a lease without a result.
    pub(crate) fn release(&mut self, id: LeaseId) -> Result<(), Stale> {
        self.bench.release(id)
    }

    /// The certificate of a root, counted from 1, as the checker accepts it; none where there is no such root or it is not
    /// settled.
    pub(crate) fn prove(&self, alloc: Global, root: u32) -> Result<Option<Proved>> {
        let tree = self.bench.tree();
        if root == 0 || root > tree.roots() || tree.settled(root).is_none() {
            return Ok(None);
        }
        let joined = self.bench.certificate(root)?;
        let proved = check(alloc, joined, self.table).map_err(|refused| refused.1)?;
        Ok(Some(proved))
    }

    /// Applies the record of which this is the text, where nothing is leased or staged.
    fn replay(&mut self, text: &[u8]) -> Result<()>
        requires { IsFresh self.old }
        ensures { OnOk result (IsFresh self.new) }
    {
        Ok(self.bench.replay(text, self.table)?)
    }

    /// Applies the records of which these are the texts, in order, and begins a session.
    pub(crate) fn replay_all(&mut self, texts: &[Vec<u8>]) -> Result<()>
        requires { IsFresh self.old }
    {
        for text in texts {
            self.replay(text)?;
        }
        self.bench.start_session();
        Ok(())
    }
}
