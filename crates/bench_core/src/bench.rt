//! A bench.
use crate::applying::{apply, end, keep};
use crate::grown::GrownTree;
use crate::naming::Naming;
use crate::refusals::{LeaseRefusal, ReadyRefusal, ReplayRefusal};
use crate::replaying::replay_record;
use crate::results::{Found, LeaseResult};
use crate::settings::{MOST_WORK, Settings};
use crate::shown::is_same_lease;
use crate::staged::Staged;
use crate::taken::{LeasedNodes, lease_at};
use bench_records::{BenchRecord, Named, Sheet, decode, kind_of, sheet_of};
use certificate_checker::Outcome;
use draughts_board::Position;
use lease_table::{Lease, LeaseId, Leases, Stale};
use proof_numbers::Child;
use proof_tree::Tree;
use std::alloc::{AllocError, Global};
use std::marker::Model;
use strategy_certificate::{Certificate, Oracle};
use swift_sight::child_at_sight;

/// A proof tree with its certificates, the leases of its leaves, what is staged, and the positions that its records name.
///
/// A contract sees the state of the core, the records by which its forest came about, and those that are staged. Rows
/// of leases that ran out are hidden.
#[derive(Drop)]
pub struct Bench {
    grown: GrownTree,
    leases: Leases,
    staged: Vec<Staged>,
    names: Naming,
    /// How many nodes the staged records will make.
    nodes_due: usize,
    /// How many leases were given.
    given: u128,
    /// How many work records the session applied.
    work: u64,
    settings: Settings,
    alloc: Global,
}

impl Model for Bench {
    ghost use Rattle.std.specs.Coded.{codes};
    ghost use Rattle.proof_tree.specs.Code.{forest_code};
    ghost use Rattle.bench_core.specs.Cores.{Core};
    ghost use Rattle.bench_core.specs.Benches.{seen, IsNamingBench};

    ghost Value = { Core };

    ghost coded = { Prim.hlevel (codes, forest_code) };

    ghost view = { λ b. seen b.grown b.leases b.staged.items b.given b.work b.settings };

    ghost invariant = { λ b.
        IsNamingBench (seen b.grown b.leases b.staged.items b.given b.work b.settings)
        b.grown b.leases b.staged.items b.nodes_due b.names };
}

impl Bench {
    ghost use Rattle.proof_tree.specs.declared.tree.TheConstants.{MOST_ROOTS};
    ghost use Rattle.bench_core.specs.declared.settings.TheConstants.{MOST_WORK};
    ghost use Rattle.std.specs.Prelude.{◌≡◌, ◌≢◌, ◌≤◌, ◌<◌, ◌+◌, ◌-◌, ◌^◌, ◌++◌, ◌∷◌, [], ℕ, List, Contains, length, min, count_by, slice_get, Option, Ok, IfOk, IfErr, IfSome, IsSome, OnOk, OnErr, IsTrue, ◌↔◌, Some, false};
    ghost use Rattle.draughts_board.specs.Board.{Board};
    ghost use Rattle.draughts_board.specs.Draughts.{draughts};
    ghost use Rattle.draughts_board.specs.Game.{is_at_sight};
    ghost use Rattle.strategy_certificate.specs.declared.oracle.Answer.{Answer};
    ghost use Rattle.strategy_certificate.specs.Tables.{IsSoundTable, IsTableSize};
    ghost use Rattle.proof_tree.specs.Forest.{nodes, value_of};
    ghost use Rattle.proof_tree.specs.Sound.{root_positions};
    ghost use Rattle.certificate_joiner.specs.Certified.{IsJoined, claim_for};
    ghost use Rattle.std.specs.Option.{option_map};
    ghost use Rattle.lease_table.specs.Rows.{first_unkept, without};
    ghost use Rattle.bench_records.specs.declared.records.BenchRecord.TheVariants as records;
    ghost use Rattle.bench_records.specs.Texts.{IsText, IsShortText, short_kind, record_sheet, named_in};
    ghost use Rattle.bench_core.specs.Records.{is_work, begun};
    ghost use Rattle.bench_core.specs.States.{HasRow, IsFoundUnder, lease_answer, with_lease, with_lease_rows};
    ghost use Rattle.bench_core.specs.Cores.{Core, IsSoundCore, new_core, with_budget, with_staged, MayStage, IsOutcomeOf, record_of, IsForgotten, IsCommitted, CanApplyAll};
    ghost use Rattle.certificate_checker.specs.Sight.{IsAtSight};
    ghost use Rattle.bench_core.specs.Benches.{record_staged, lease_kept, IsPrepared};
    ghost use Rattle.bench_core.specs.Results.{outcome_of, IsTold};
    ghost use Rattle.bench_core.specs.Answers.{RefusesLease, RefusesReady, HasReplayed, RefusesReplay, unkept};

    /// A bench without roots. The caller knows that there is a sound table of its pieces, as each oracle tells.
    pub fn new(alloc: Global, s: Settings) -> Result<Bench, AllocError>
        requires pieces { IsTableSize s.pieces }
        requires table { (answer : Board → Option Answer) × IsSoundTable draughts s.pieces answer }
        ensures { IfOk result (λ bench. bench ≡ new_core s) }
    {
        Ok(Bench {
            grown: GrownTree::new(alloc),
            leases: Leases::new(alloc, s.lease),
            staged: Vec::new(alloc),
            names: Naming::new(alloc),
            nodes_due: 0,
            given: 0,
            work: 0,
            settings: s,
            alloc,
        })
    }

    /// The session begins: it has applied nothing, and its budget is what all sessions together leave it.
    ///
    /// That is the lesser of the setting and 1,000,000 less the work records that were replayed.
    pub fn start_session(&mut self)
        requires given { self.old.state.given ≡ 0 }
        requires staged { self.old.staged ≡ [] }
        ensures { self.new ≡ with_budget (min self.old.state.settings.budget
            (MOST_WORK - count_by is_work self.old.records)) self.old }
    {
        let replayed = self.grown.work_records();
        let left = (MOST_WORK as usize).saturating_sub(replayed);
        self.settings.budget = (self.settings.budget as usize).min(left) as u32;
        self.work = 0;
    }

    /// Reads a payload as the text of a record behind those of the bench, and applies the record, checking it by the tree
    /// and the table. It is not counted as the session's work.
    ///
    /// `Unread` comes exactly where the payload is the text of no record there, with what goes wrong first, and `Unlawful`
    /// exactly where its record is not lawful for the tree as it is. After a refusal the bench is as it was.
    pub fn replay<O: Oracle>(&mut self, payload: &[u8], oracle: &O) -> Result<(), ReplayRefusal>
        requires tables { O.piece_limit oracle.now ≡ self.old.state.settings.pieces }
        requires leased { self.old.state.leases.rows ≡ [] }
        requires staged { self.old.staged ≡ [] }
        ensures replayed { OnOk result (HasReplayed self.old payload.now self.new) }
        ensures refused { IfErr result (RefusesReplay self.old payload.now) }
        ensures unchanged { OnErr result (self.new ≡ self.old) }
    {
        let r = decode(
            self.alloc,
            payload,
            self.settings.pieces,
            self.names.named(),
        )?;
        self.names.add(&r)?;
        if let Err(refusal) = replay_record(self.alloc, &mut self.grown, r, oracle) {
            self.names.forget();
            return Err(refusal.into());
        }
        self.names.apply_all();
        Ok(())
    }

    /// The positions that the records name, those applied and those staged: each once, in the order of first naming.
    pub fn named(&self) -> &Named
        ensures { result.now ≡ named_in [] (self.now.records ++ self.now.staged) }
    {
        self.names.named()
    }

    /// The tree. Every bench is sound.
    pub fn tree(&self) -> &Tree
        ensures forest { result.now.forest ≡ self.now.state.forest }
        ensures sound { IsSoundCore self.now }
    {
        self.grown.tree()
    }

    /// How many work records of the session are applied.
    pub fn work(&self) -> u64
        ensures { result ≡ self.now.state.work }
    {
        self.work
    }

    /// How many work records the session may apply.
    pub fn budget(&self) -> u32
        ensures { result ≡ self.now.state.settings.budget }
    {
        self.settings.budget
    }

    /// How many leases were given.
    pub fn given(&self) -> u128
        ensures { result ≡ self.now.state.given }
    {
        self.given
    }

    /// The number of the first lease that lives and is not kept; none where there is no such lease. Goes over the rows
    /// that stand.
    pub fn first_waiting(&self) -> Option<LeaseId>
        ensures { result ≡ option_map (λ row. row.lease.id)
            (first_unkept self.now.state.leases.rows) }
    {
        self.leases.first_waiting(self.given)
    }

    /// Leases the next leaf to a worker, under the next number.
    ///
    /// The first refusal that fits is given: `Done` where every root is settled, `Spent` where the session's work records
    /// reach its budget, `NoLeaf` where no leaf is open that is not leased. The leaf given is not decided at sight. It takes
    /// the time of a pick and of a few look-ups by hash.
    pub fn lease(&mut self, worker: u32) -> Result<Lease, LeaseRefusal>
        requires { self.old.state.given < 2 ^ 120 }
        ensures answer { IfOk result (λ lease. lease_answer self.old.state worker ≡ Ok lease) }
        ensures sight { IfOk result (λ lease.
            is_at_sight draughts self.old.state.settings.pieces lease.position ≡ false) }
        ensures event { IfOk result (λ lease. self.new
            ≡ record self.old { state = with_lease self.old.state lease }) }
        ensures refused { IfErr result (RefusesLease (lease_answer self.old.state worker)) }
        ensures unchanged { OnErr result (self.new ≡ self.old) }
    {
        if self.grown.tree().are_settled() {
            return Err(LeaseRefusal::Done);
        }
        if u64::from(self.settings.budget) <= self.work {
            return Err(LeaseRefusal::Spent {
                records: self.work,
                budget: self.settings.budget,
            });
        }
        let now = self.given + 1;
        let taken = LeasedNodes {
            leases: &self.leases,
            now,
        };
        let Some(leaf) = self.grown.tree().pick(&taken) else {
            return Err(LeaseRefusal::NoLeaf {
                live: self.leases.live(now),
            });
        };
        let lease = lease_at(self.grown.tree(), leaf, now, &self.settings, worker);
        let leased = &lease;
        self.leases.give(*leased, now)?;
        self.given = now;
        Ok(lease)
    }

    /// Ends a lease without a result. `Stale` comes exactly where it does not live or is kept.
    pub fn release(&mut self, id: LeaseId) -> Result<(), Stale>
        ensures row { OnOk result (HasRow (λ row. row.kept ≡ false) self.old.state id) }
        ensures event { OnOk result (self.new ≡ record self.old {
          state = with_lease_rows self.old.state (without id self.old.state.leases.rows);
        }) }
        ensures stale { IfErr result (λ stale. (stale ≡ record { 0 = id })
            × ¬ HasRow (λ row. row.kept ≡ false) self.old.state id) }
        ensures unchanged { OnErr result (self.new ≡ self.old) }
    {
        if !self.leases.is_live(id, self.given) {
            return Err(Stale(id));
        }
        if self.leases.is_kept(id) {
            return Err(Stale(id));
        }
        end(&mut self.leases, self.given, id);
        Ok(())
    }

    /// Stages a root, and gives the text of its record, of version 2 behind those applied and staged. After want of memory
    /// the bench is as it was.
    pub fn begin<O: Oracle>(&mut self, p: Position, oracle: &O) -> Result<Vec<u8>, AllocError>
        requires tables { O.piece_limit oracle.now ≡ self.old.state.settings.pieces }
        requires absent { ¬ Contains (root_positions self.old.state.forest
            ++ begun self.old.staged) p }
        requires room { length (root_positions self.old.state.forest
            ++ begun self.old.staged) < MOST_ROOTS }
        ensures staged { OnOk result (self.new ≡ with_staged self.old (records.Begin p)) }
        ensures may { OnOk result (MayStage self.old (records.Begin p)) }
        ensures grows { OnOk result (CanApplyAll self.new) }
        ensures text { IfOk result (λ text. IsText self.old.state.settings.pieces
            (self.old.records ++ self.old.staged) (records.Begin p) text.items) }
        ensures short { IfOk result (λ text. IsShortText
            (named_in [] (self.old.records ++ self.old.staged)) (records.Begin p) text.items) }
        ensures unchanged { OnErr result (self.new ≡ self.old) }
    {
        let root = child_at_sight(self.alloc, &p, oracle)?;
        let record = BenchRecord::Begin(p);
        let sheet = sheet_of(self.alloc, &record)?;
        self.stage_root(root, kind_of(&record), &sheet)
    }

    /// Stages a root, whose record has this kind and this sheet.
    fn stage_root(&mut self, root: Child, kind: u8, sheet: &Sheet) -> Result<Vec<u8>, AllocError>
        requires sight { IsAtSight self.old.state.settings.pieces root }
        requires may { MayStage self.old (records.Begin root.position) }
        requires kind { kind ≡ short_kind (records.Begin root.position) }
        requires sheet { sheet.now ≡ record_sheet (records.Begin root.position) }
        ensures short { IfOk result (λ text. IsShortText
            (named_in [] (self.old.records ++ self.old.staged)) (records.Begin root.position)
            text.items) }
        ensures staged { OnOk result
            (self.new ≡ with_staged self.old (records.Begin root.position)) }
        ensures grows { OnOk result (CanApplyAll self.new) }
        ensures unchanged { OnErr result (self.new ≡ self.old) }
    {
        let Some(nodes) = self.nodes_due.checked_add(1) else {
            return Err(AllocError);
        };
        let Some(_) = self.work.checked_add(self.staged.len() as u64 + 1) else {
            return Err(AllocError);
        };
        self.grown.reserve(nodes, self.staged.len() + 1)?;
        self.staged.reserve(1)?;
        let text = self.names.stage(self.alloc, kind, sheet)?;
        self.staged.push_reserved(Staged::Begin(root));
        self.nodes_due = nodes;
        Ok(text)
    }

    /// Stages the result of a lease's search, keeps the lease for it, and gives the text of its record, of version 2 behind
    /// those applied and staged. After a refusal the bench is as it was, and the outcome is dropped.
    ///
    /// `Stale` comes exactly where no live row is this lease, or it is kept already.
    pub fn ready(&mut self, lease: &Lease, outcome: Outcome) -> Result<Vec<u8>, ReadyRefusal>
        requires { IsOutcomeOf lease.now outcome }
        ensures live { OnOk result (Contains self.old.state.leases.rows (unkept lease.now)) }
        ensures staged { OnOk result
            (self.new ≡ with_staged self.old (record_of lease.now outcome)) }
        ensures may { OnOk result (MayStage self.old (record_of lease.now outcome)) }
        ensures grows { OnOk result (CanApplyAll self.new) }
        ensures text { IfOk result (λ text. IsText self.old.state.settings.pieces
            (self.old.records ++ self.old.staged) (record_of lease.now outcome) text.items) }
        ensures short { IfOk result (λ text. IsShortText
            (named_in [] (self.old.records ++ self.old.staged)) (record_of lease.now outcome)
            text.items) }
        ensures refused { IfErr result (RefusesReady self.old.state lease.now) }
        ensures unchanged { OnErr result (self.new ≡ self.old) }
    {
        let found = LeaseResult::new(self.alloc, lease, outcome)?;
        self.ready_result(found)
    }

    /// Stages a result that is made already, as `ready` does. It copies no certificate, and of the text it makes the
    /// numbers of positions alone.
    pub fn ready_result(&mut self, found: LeaseResult) -> Result<Vec<u8>, ReadyRefusal>
        ensures live { OnOk result (Contains self.old.state.leases.rows (unkept found.lease)) }
        ensures staged { OnOk result
            (self.new ≡ with_staged self.old (record_of found.lease found.outcome)) }
        ensures may { OnOk result (MayStage self.old (record_of found.lease found.outcome)) }
        ensures grows { OnOk result (CanApplyAll self.new) }
        ensures text { IfOk result (λ text. IsText self.old.state.settings.pieces
            (self.old.records ++ self.old.staged) (record_of found.lease found.outcome)
            text.items) }
        ensures short { IfOk result (λ text. IsShortText
            (named_in [] (self.old.records ++ self.old.staged))
            (record_of found.lease found.outcome) text.items) }
        ensures refused { IfErr result (RefusesReady self.old.state found.lease) }
        ensures unchanged { OnErr result (self.new ≡ self.old) }
    {
        let LeaseResult {
            lease,
            found,
            kind,
            sheet,
        } = found;
        if !self.is_open(&lease) {
            return Err(ReadyRefusal::Stale(lease.id));
        }
        Ok(self.stage_found(&lease, found, kind, &sheet)?)
    }

    /// Whether a live row that is not kept is this lease.
    fn is_open(&self, lease: &Lease) -> bool
        ensures { IsTrue result ↔ Contains self.now.state.leases.rows (unkept lease.now) }
    {
        match self.leases.waiting(lease.id, self.given) {
            Some(waiting) => is_same_lease(&waiting, lease),
            None => false,
        }
    }

    /// Stages what the search under an open lease found, whose record has this kind and this sheet.
    fn stage_found(
        &mut self,
        lease: &Lease,
        found: Found,
        kind: u8,
        sheet: &Sheet,
    ) -> Result<Vec<u8>, AllocError>
        requires live { Contains self.old.state.leases.rows (unkept lease.now) }
        requires outcome { IsOutcomeOf lease.now (outcome_of found) }
        requires told { IsTold found }
        requires kind { kind ≡ short_kind (record_of lease.now (outcome_of found)) }
        requires sheet { sheet.now ≡ record_sheet (record_of lease.now (outcome_of found)) }
        ensures short { IfOk result (λ text. IsShortText
            (named_in [] (self.old.records ++ self.old.staged))
            (record_of lease.now (outcome_of found)) text.items) }
        ensures staged { OnOk result
            (self.new ≡ with_staged self.old (record_of lease.now (outcome_of found))) }
        ensures may { MayStage self.old (record_of lease.now (outcome_of found)) }
        ensures tables { lease.now.pieces ≡ self.old.state.settings.pieces }
        ensures grows { OnOk result (CanApplyAll self.new) }
        ensures unchanged { OnErr result (self.new ≡ self.old) }
    {
        let Some(node) = self.grown.tree().leaf(lease.node) else {
            unreachable!()
        };
        let item = found.into_staged(lease, node);
        self.stage_work(lease.id, item, kind, sheet)
    }

    /// Stages the record of an open lease's search, which has this kind and this sheet, and keeps the lease for it.
    fn stage_work(
        &mut self,
        id: LeaseId,
        item: Staged,
        kind: u8,
        sheet: &Sheet,
    ) -> Result<Vec<u8>, AllocError>
        requires found { HasRow (λ row. (row.kept ≡ false)
            × IsFoundUnder self.old.state row.lease (record_staged item)) self.old.state id }
        requires kept { lease_kept item ≡ Some id }
        requires prepared { IsPrepared self.old.state item }
        requires kind { kind ≡ short_kind (record_staged item) }
        requires sheet { sheet.now ≡ record_sheet (record_staged item) }
        ensures short { IfOk result (λ text. IsShortText
            (named_in [] (self.old.records ++ self.old.staged)) (record_staged item) text.items) }
        ensures staged { OnOk result (self.new ≡ with_staged self.old (record_staged item)) }
        ensures grows { OnOk result (CanApplyAll self.new) }
        ensures unchanged { OnErr result (self.new ≡ self.old) }
    {
        let Some(nodes) = self.nodes_due.checked_add(item.nodes()) else {
            return Err(AllocError);
        };
        let Some(_) = self.work.checked_add(self.staged.len() as u64 + 1) else {
            return Err(AllocError);
        };
        self.grown.reserve(nodes, self.staged.len() + 1)?;
        self.staged.reserve(1)?;
        let text = self.names.stage(self.alloc, kind, sheet)?;
        self.staged.push_reserved(item);
        keep(&mut self.leases, self.given, id);
        self.nodes_due = nodes;
        Ok(text)
    }

    /// Takes the last `begin` or `ready` back.
    pub fn forget_ready(&mut self)
        requires { self.old.staged ≢ [] }
        ensures { IsForgotten self.old self.new }
    {
        let Some(item) = self.staged.pop() else {
            unreachable!()
        };
        self.names.forget();
        self.nodes_due -= item.nodes();
        if let Some(id) = item.lease() {
            self.leases.unkeep(id);
        }
    }

    /// Applies all that is staged, in order, and ends the leases that were kept for it. It takes no memory.
    pub fn apply_staged(&mut self)
        ensures { IsCommitted self.old self.new }
    {
        self.names.apply_all();
        self.staged.reverse();
        while let Some(item) = self.staged.pop() {
            self.nodes_due -= item.nodes();
            self.work += item.work();
            apply(&mut self.grown, &mut self.leases, self.given, item);
        }
    }

    /// One certificate of a settled root, counted from 1, that claims its value.
    pub fn certificate(&self, root: u32) -> Result<Certificate, AllocError>
        requires first { 1 ≤ root }
        requires there { root ≤ length (nodes self.now.state.forest) }
        requires settled { IfSome (slice_get (nodes self.now.state.forest) (root - 1)) (λ x.
            IsSome (value_of x)) }
        ensures { IfOk result (λ c.
            IfSome (slice_get (nodes self.now.state.forest) (root - 1)) (λ x.
            IfSome (value_of x) (λ v.
            IsJoined self.now.state.settings.pieces x.own.position (claim_for v) c))) }
    {
        self.grown
            .certificate(self.alloc, root, self.settings.pieces)
    }
}
