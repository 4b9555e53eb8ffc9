//! A session.
ghost use Rattle.std.specs.Prelude.{◌≡◌, ◌≢◌, ◌⊎◌, ◌+◌, ◌≤◌, ◌<◌, ◌++◌, [], ℕ, Contains, length, true, false, Ok, IfOk, IfErr, OnOk, OnErr, IfSome, MatchResult};
ghost use Rattle.bench_disk.specs.Disk.{GoesOn, IsHonest};
ghost use Rattle.shared_words.specs.Counts.{Rose};

use crate::entries::Attachment;
use crate::marks::{Mark, push_puts};
use crate::parts::commit_parts;
use crate::refusals::{BeginRefusal, CommitRefusal, StageRefusal};
use crate::replaying::replay_all;
use crate::roots::{new_roots, stage_roots};
use bench_core::{Bench, LeaseRefusal, LeaseResult, Settings};
use bench_disk::Disk;
use certificate_checker::Outcome;
use disk_journal::{Journal, JournalRefusal, Receipt};
use draughts_board::Position;
use ghost_list::CountedTrace;
use lease_table::{Lease, LeaseId, Stale};
use proof_tree::MOST_ROOTS;
use std::alloc::Global;
use std::marker::Model;
use strategy_certificate::Oracle;

/// A bench, and a journal whose payloads are the bench's records.
///
/// A contract sees its line, which is its history, the core of its bench, and its disk. Roots are staged within one call
/// alone: unless it has failed, none is staged between calls.
#[derive(Drop)]
pub struct Session<D: Disk> {
    alloc: Global,
    bench: Bench,
    journal: Journal<D>,
    /// The entries of the line, but for records: they are counted, and no byte of them is kept.
    marks: CountedTrace<Mark>,
    /// For how many entries more there is room, beyond those of which one is taken at once: those that end leases and
    /// commits.
    due: usize,
}

impl<D: Disk> Model for Session<D> {
    ghost use Rattle.std.specs.Prelude.{◌++◌};
    ghost use Rattle.std.specs.Coded.{codes};
    ghost use Rattle.proof_tree.specs.Code.{forest_code};
    ghost use Rattle.tree_manager.specs.Sessions.{SessionState};
    ghost use Rattle.tree_manager.specs.Keeping.{HoldsBetweenCalls, parts_of};
    ghost use Rattle.tree_manager.specs.Weaving.{woven};

    ghost Value = { SessionState D };

    ghost coded = { Prim.hlevel (codes, forest_code) };

    ghost view = { λ s. record {
      line = woven s.marks (s.bench.records ++ s.bench.staged);
      core = s.bench;
      disk = s.journal.disk;
    } };

    ghost invariant = { λ s. HoldsBetweenCalls D.Disk (parts_of s.marks s.due s.bench s.journal) };
}

impl<D: Disk> Session<D> {
    ghost use Rattle.proof_tree.specs.declared.tree.TheConstants.{MOST_ROOTS};
    ghost use Rattle.std.specs.List.{AllByRecursion as Each};
    ghost use Rattle.bench_disk.specs.Disk.{NothingPending};
    ghost use Rattle.bench_disk.specs.Runs.{Leaves};
    ghost use Rattle.disk_journal.specs.Format.{IsFresh};
    ghost use Rattle.disk_journal.specs.Log.{StaysOrFresh};
    ghost use Rattle.disk_journal.specs.Refusals.{Explains, says_nothing_of_file};
    ghost use Rattle.std.specs.Bool.{OnFalse};
    ghost use Rattle.std.specs.Option.{option_map};
    ghost use Rattle.draughts_board.specs.Draughts.{draughts};
    ghost use Rattle.draughts_board.specs.Game.{is_at_sight};
    ghost use Rattle.proof_tree.specs.Sound.{root_positions};
    ghost use Rattle.lease_table.specs.Rows.{first_unkept};
    ghost use Rattle.bench_core.specs.States.{HasRow, lease_answer};
    ghost use Rattle.bench_core.specs.Cores.{IsOutcomeOf, record_of};
    ghost use Rattle.bench_core.specs.Answers.{unkept};
    ghost use Rattle.tree_manager.specs.declared.entries.Entry.TheVariants as entry;
    ghost use Rattle.tree_manager.specs.Lines.{recorded, applied_in, attachment_of, is_failed, EndsBroken};
    ghost use Rattle.tree_manager.specs.Histories.{IsHistory, IsCoreOf};
    ghost use Rattle.tree_manager.specs.Entries.{faults_told};
    ghost use Rattle.tree_manager.specs.Receipts.{KeepsReceipts, acknowledgements};
    ghost use Rattle.tree_manager.specs.Turns.{GrowsByTurns, Leases, Stages, StagesNumbered, Releases, Commits};
    ghost use Rattle.tree_manager.specs.Replaying.{ExplainsAttach, HasUnlawfulPayload};
    ghost use Rattle.tree_manager.specs.Sessions.{SessionState, Appends, with_roots, IsAttachedTo, EndsLeases, HasBegun, RefusesBegin, RefusesLeaseIn, RefusesStage, RefusesCommit};

    /// Attaches the journal on a disk, replays what it has, and begins a session.
    ///
    /// Beside the journal's own causes, `Damaged` comes exactly where a payload is the text of no record that is lawful
    /// behind those before it, with the place of that payload's length field. Every refusal hands the disk back.
    pub fn attach<O: Oracle>(
        alloc: Global,
        disk: D,
        s: Settings,
        oracle: &O,
    ) -> Result<Session<D>, (D, JournalRefusal)>
        requires tables { O.piece_limit oracle.now ≡ s.pieces }
        ensures pieces { IfOk result (λ session. session.core.state.settings.pieces ≡ s.pieces) }
        ensures attached { IfOk result
            (λ session. IsAttachedTo D.Disk s disk session) }

        // A crash since the call began leaves what it might have left before, or a fresh file of a
        // fresh one.
        ensures crash { IsHonest D.TELLS → MatchResult result
            (λ session. Leaves D.moment D.images_since disk session.disk
            (StaysOrFresh (D.images disk) (D.reads disk)))
            (λ e. Leaves D.moment D.images_since disk e.0
            (StaysOrFresh (D.images disk) (D.reads disk))) }

        // Each refusal comes for its cause, and writes nothing over a file that is not fresh.
        ensures refused { IsHonest D.TELLS →
            IfErr result (λ e. ExplainsAttach (D.reads disk) s.pieces e.1) }

        // Where the journal has a cause, that is the answer, unless the disk failed or memory ran
        // out.
        ensures first { IsHonest D.TELLS →
            (e : JournalRefusal) → Explains (D.reads disk) s.pieces e →
            MatchResult result (λ session. ⊥)
            (λ refused. OnFalse (says_nothing_of_file refused.1) (refused.1 ≡ e)) }

        // Where a payload is the first that is not lawful, its place is the answer, unless the disk
        // failed or memory ran out.
        ensures unlawful { IsHonest D.TELLS →
            (at : ℕ) → HasUnlawfulPayload s.pieces (D.reads disk) at →
            MatchResult result (λ session. ⊥) (λ refused.
            OnFalse (says_nothing_of_file refused.1) (refused.1 ≡ JournalRefusal.Damaged at)) }
        ensures cause { MatchResult result (λ session. D.faults disk ≤ D.faults session.disk)
            (λ e. (D.faults disk ≤ D.faults e.0) ×
            (e.1 ≡ JournalRefusal.DiskFault → Rose (D.faults disk) (D.faults e.0))) }
        ensures unwritten { IsHonest D.TELLS → 9 < length (D.reads disk) →
            IfErr result (λ e. D.reads e.0 ≡ D.reads disk) }
        ensures settled { IsHonest D.TELLS → NothingPending (D.reads disk) (D.images disk) →
            IfErr result (λ e. NothingPending (D.reads e.0) (D.images e.0) ⊎
            (IsFresh (D.reads disk) × Rose (D.faults disk) (D.faults e.0))) }
    {
        let pieces = oracle.pieces();
        let (journal, payloads) = match Journal::attach(alloc, disk, pieces) {
            Ok(attached) => attached,
            Err(refused) => return Err(refused),
        };
        let (mut bench, mut marks) = match replay_all(alloc, s, &payloads, oracle) {
            Ok(replayed) => replayed,
            Err(refusal) => return Err((journal.into_disk(), refusal)),
        };
        if let Err(error) = marks.reserve(1) {
            return Err((journal.into_disk(), JournalRefusal::Memory(error)));
        }
        bench.start_session();
        marks.push(&Mark::Attached(Attachment {
            opened: journal.opened(),
            faults: journal.disk().faults(),
            budget: bench.budget(),
            depth: s.depth,
            pieces,
            limit: s.lease,
        }));
        Ok(Session {
            alloc,
            bench,
            journal,
            marks,
            due: 0,
        })
    }

    /// The bench. Every session keeps these facts: its line leads to its bench's core, which is what the line stands for;
    /// where it has failed, its disk's faults rose since it began; and its disk keeps its receipts.
    pub fn bench(&self) -> &Bench
        ensures core { result.now ≡ self.now.core }
        ensures history { IsHistory self.now.line self.now.core }
        ensures stands { IsCoreOf self.now.line self.now.core }
        ensures told { Each (λ e. faults_told e ≤ D.faults self.now.disk) self.now.line }
        ensures broken { is_failed self.now.line ≡ true → IfSome (attachment_of self.now.line)
            (λ a. Rose a.faults (D.faults self.now.disk)) }
        ensures ended { is_failed self.now.line ≡ true → EndsBroken self.now.line }
        ensures receipts { IsHonest D.TELLS →
            KeepsReceipts self.now.core.state.settings.pieces D.Disk self.now.line self.now.disk }
    {
        &self.bench
    }

    /// How many entries its line has.
    pub fn len(&self) -> u64
        ensures { result ≡ length self.now.line }
    {
        self.marks.len() as u64
    }

    /// How many records its line has, those that are staged among them.
    pub fn recorded(&self) -> u64
        ensures { is_failed self.now.line ≡ false → result ≡ length (recorded self.now.line) }
    {
        let staged = self.journal.staged() as u64;
        self.journal.count().saturating_add(staged)
    }

    /// Whether `number` records of its line are applied, and so durable. Of a session that has failed it says no.
    pub fn has_applied(&self, number: u64) -> bool
        ensures yes { result ≡ true → number ≤ length (applied_in self.now.line) }
        ensures no { result ≡ false → is_failed self.now.line ≡ false
            → length (applied_in self.now.line) < number }
    {
        !self.journal.is_failed() && number <= self.journal.count()
    }

    /// The disk, with what was committed. It keeps the session's receipts; where the session has failed, its faults rose
    /// since the session began.
    pub fn into_disk(self) -> D
        ensures disk { result ≡ self.disk }
        ensures receipts { IsHonest D.TELLS → IfSome (attachment_of self.line)
            (λ a. KeepsReceipts a.pieces D.Disk self.line
            result) }
        ensures broken { is_failed self.line ≡ true → IfSome (attachment_of self.line)
            (λ a. Rose a.faults (D.faults result)) }
    {
        self.journal.into_disk()
    }

    /// Begins a root at each of these positions that has none yet, in order, and commits.
    ///
    /// `TooManyRoots` comes exactly where there would be more than 65,536. After want of memory the session is as it was,
    /// and after a fault of the disk it has failed, with its forest as it was.
    pub fn begin<O: Oracle>(
        &mut self,
        positions: &[Position],
        oracle: &O,
    ) -> Result<Receipt, BeginRefusal>
        requires { O.piece_limit oracle.now ≡ self.old.core.state.settings.pieces }
        ensures unfailed { OnOk result (is_failed self.old.line ≡ false) }
        ensures few { OnOk result (length (with_roots
            (root_positions self.old.core.state.forest) positions.now) ≤ MOST_ROOTS) }
        ensures begun { IfOk result
            (λ receipt. HasBegun self.old positions.now receipt.moment self.new) }
        ensures stands { OnOk result (IsCoreOf self.new.line self.new.core) }
        ensures number { IfOk result (λ receipt. receipt.number ≡ length (recorded self.new.line)) }
        ensures moment { IfOk result (λ receipt. receipt.moment ≡ D.moment self.new.disk) }
        ensures calls { D.moment self.new.disk ≤ D.moment self.old.disk + 4 }
        ensures since { IsHonest D.TELLS → GoesOn (D.moment self.old.disk)
            (D.images_since self.old.disk) (D.images_since self.new.disk) }
        ensures refused { IfErr result (RefusesBegin D.faults self.old positions.now self.new) }
    {
        if self.journal.is_failed() {
            return Err(BeginRefusal::Failed);
        }
        let added = new_roots(self.alloc, self.bench.tree(), positions)?;
        let count = added.len();
        if self.bench.tree().roots() as usize + count > MOST_ROOTS {
            return Err(BeginRefusal::TooManyRoots);
        }
        self.marks.reserve(self.due + count + count)?;
        stage_roots(&mut self.bench, &mut self.journal, added.as_slice(), oracle)?;
        push_puts(&mut self.marks, added.as_slice());
        self.due += count;
        match commit_parts(
            &mut self.bench,
            &mut self.journal,
            &mut self.marks,
            &mut self.due,
        ) {
            Ok(receipt) => Ok(receipt),
            Err(_) => Err(BeginRefusal::Disk),
        }
    }

    /// Leases the next leaf to a worker; it is not decided at sight. It makes the room for the entry that will end the
    /// lease, and for its commit's.
    pub fn lease(&mut self, worker: u32) -> Result<Lease, LeaseRefusal>
        ensures unfailed { OnOk result (is_failed self.old.line ≡ false) }
        ensures answer { IfOk result
            (λ lease. lease_answer self.old.core.state worker ≡ Ok lease) }
        ensures sight { IfOk result (λ lease.
            is_at_sight draughts self.old.core.state.settings.pieces lease.position ≡ false) }
        ensures appends { IfOk result (λ lease. Appends self.old (entry.Leased lease) self.new) }
        ensures disk { self.new.disk ≡ self.old.disk }
        ensures refused { IfErr result
            (RefusesLeaseIn self.old.line (lease_answer self.old.core.state worker)) }
        ensures unchanged { OnErr result (self.new ≡ self.old) }
        ensures grows { GrowsByTurns self.old.line self.new.line }
        ensures turn { Leases self.old.line self.new.line worker result }
    {
        if self.journal.is_failed() {
            return Err(LeaseRefusal::Failed);
        }
        self.marks.reserve(self.due + 3)?;
        let lease = self.bench.lease(worker)?;
        let given = &lease;
        self.marks.push(&Mark::Leased(*given));
        self.due += 2;
        Ok(lease)
    }

    /// Ends a lease without a result. `Stale` comes exactly where it does not live, is kept, or the session has failed. It
    /// takes no memory.
    pub fn release(&mut self, id: LeaseId) -> Result<(), Stale>
        ensures appends { OnOk result (Appends self.old (entry.Released id) self.new) }
        ensures unfailed { OnOk result (is_failed self.old.line ≡ false) }
        ensures disk { self.new.disk ≡ self.old.disk }
        ensures stale { IfErr result (λ stale. (stale ≡ record { 0 = id })
            × (is_failed self.old.line ≡ false
            → ¬ HasRow (λ row. row.kept ≡ false) self.old.core.state id)) }
        ensures unchanged { OnErr result (self.new ≡ self.old) }
        ensures grows { GrowsByTurns self.old.line self.new.line }
        ensures turn { Releases self.old.line self.new.line id result }
    {
        if self.journal.is_failed() {
            return Err(Stale(id));
        }
        self.bench.release(id)?;
        self.marks.push(&Mark::Released(id));
        self.due -= 2;
        Ok(())
    }

    /// Stages the result of a lease's search, and keeps the lease for it. After a refusal the session is as it was, and
    /// the outcome is dropped.
    pub fn stage(&mut self, lease: &Lease, outcome: Outcome) -> Result<(), StageRefusal>
        requires { IsOutcomeOf lease.now outcome }
        ensures appends { OnOk result
            (Appends self.old (entry.Put (record_of lease.now outcome)) self.new) }
        ensures unfailed { OnOk result (is_failed self.old.line ≡ false) }
        ensures live { OnOk result
            (Contains self.old.core.state.leases.rows (unkept lease.now)) }
        ensures disk { self.new.disk ≡ self.old.disk }
        ensures refused { IfErr result
            (RefusesStage self.old.line self.old.core.state lease.now) }
        ensures unchanged { OnErr result (self.new ≡ self.old) }
        ensures grows { GrowsByTurns self.old.line self.new.line }
        ensures turn { Stages self.old.line self.new.line lease.now outcome result }
    {
        if self.journal.is_failed() {
            return Err(StageRefusal::Failed);
        }
        let found = LeaseResult::new(self.alloc, lease, outcome)?;
        self.stage_result(found)
    }

    /// Stages a result that is made already, as `stage` does.
    pub(crate) fn stage_result(&mut self, found: LeaseResult) -> Result<(), StageRefusal>
        ensures appends { OnOk result
            (Appends self.old (entry.Put (record_of found.lease found.outcome)) self.new) }
        ensures unfailed { OnOk result (is_failed self.old.line ≡ false) }
        ensures live { OnOk result
            (Contains self.old.core.state.leases.rows (unkept found.lease)) }
        ensures disk { self.new.disk ≡ self.old.disk }
        ensures refused { IfErr result
            (RefusesStage self.old.line self.old.core.state found.lease) }
        ensures unchanged { OnErr result (self.new ≡ self.old) }
        ensures grows { GrowsByTurns self.old.line self.new.line }
        ensures turn { Stages self.old.line self.new.line found.lease found.outcome result }
    {
        if self.journal.is_failed() {
            return Err(StageRefusal::Failed);
        }
        let text = self.bench.ready_result(found)?;
        if let Err(error) = self.journal.stage(&text) {
            self.bench.forget_ready();
            return Err(StageRefusal::Memory(error));
        }
        self.marks.push(&Mark::Put);
        self.due -= 1;
        Ok(())
    }

    /// Stages a result that is made already, as `stage` does, and answers with the number of its record in the journal, from
    /// 1. It copies no certificate, and of the record's text it makes the numbers of positions alone.
    pub fn stage_numbered(&mut self, found: LeaseResult) -> Result<u64, StageRefusal>
        ensures appends { OnOk result
            (Appends self.old (entry.Put (record_of found.lease found.outcome)) self.new) }
        ensures unfailed { OnOk result (is_failed self.old.line ≡ false) }
        ensures live { OnOk result
            (Contains self.old.core.state.leases.rows (unkept found.lease)) }
        ensures disk { self.new.disk ≡ self.old.disk }
        ensures refused { IfErr result
            (RefusesStage self.old.line self.old.core.state found.lease) }
        ensures unchanged { OnErr result (self.new ≡ self.old) }
        ensures grows { GrowsByTurns self.old.line self.new.line }
        ensures turn { StagesNumbered self.old.line self.new.line
            found.lease found.outcome result }
    {
        self.stage_result(found)?;
        Ok(self.recorded())
    }

    /// Makes all that is staged durable, and applies it. It takes no memory.
    ///
    /// The receipt has the number of the line's records and the disk's moment, both at the exit of this call. After a
    /// fault of the disk the session has failed: its forest stays, and its line ends there.
    pub fn commit(&mut self) -> Result<Receipt, CommitRefusal>
        ensures unfailed { OnOk result (is_failed self.old.line ≡ false) }
        ensures idle { is_failed self.old.line ≡ false → self.old.core.staged ≡ []
            → OnOk result (self.new ≡ self.old) }
        ensures appends { self.old.core.staged ≢ [] → IfOk result
            (λ receipt. Appends self.old (entry.Acked receipt.moment) self.new) }
        ensures none_staged { OnOk result (self.new.core.staged ≡ []) }
        ensures stands { OnOk result (IsCoreOf self.new.line self.new.core) }
        ensures number { IfOk result (λ receipt. receipt.number ≡ length (recorded self.new.line)) }
        ensures moment { IfOk result (λ receipt. receipt.moment ≡ D.moment self.new.disk) }
        ensures later { D.faults self.old.disk ≤ D.faults self.new.disk }
        ensures onward { IsHonest D.TELLS → D.moment self.old.disk ≤ D.moment self.new.disk }
        ensures calls { D.moment self.new.disk ≤ D.moment self.old.disk + 4 }
        ensures since { IsHonest D.TELLS → GoesOn (D.moment self.old.disk)
            (D.images_since self.old.disk) (D.images_since self.new.disk) }
        ensures moments { IsHonest D.TELLS → IfOk result (λ receipt.
            Each (λ ack. ack.moment ≤ receipt.moment) (acknowledgements self.new.line)) }
        ensures refused { IfErr result (RefusesCommit D.faults self.old self.new) }
        ensures works { OnOk result (is_failed self.new.line ≡ false) }
        ensures grows { GrowsByTurns self.old.line self.new.line }
        ensures turn { Commits self.old.line self.new.line result }
    {
        if self.journal.is_failed() {
            return Err(CommitRefusal::Failed);
        }
        commit_parts(
            &mut self.bench,
            &mut self.journal,
            &mut self.marks,
            &mut self.due,
        )
    }

    /// The number of the first lease that lives and is not kept, which is the least; none where there is no such lease.
    fn first_waiting(&self) -> Option<LeaseId>
        ensures history { IsHistory self.now.line self.now.core }
        ensures first { result ≡ option_map (λ row. row.lease.id)
            (first_unkept self.now.core.state.leases.rows) }
        ensures least { IfSome result (λ id.
            Each (λ row. row.kept ≡ false → id ≤ row.lease.id) self.now.core.state.leases.rows) }
    {
        self.bench.first_waiting()
    }

    /// Ends every lease that lives and is not kept, in rising order of number. Where nothing is staged, none lives then. It
    /// takes no memory.
    ///
    /// For each of them it goes once over the rows of the leases that were given and have not ended.
    pub fn end_leases(&mut self)
        requires { is_failed self.old.line ≡ false }
        ensures ended { EndsLeases self.old self.new }
        ensures unleased { self.old.core.staged ≡ [] → self.new.core.state.leases.rows ≡ [] }
        ensures stands { IsCoreOf self.new.line self.new.core }
    {
        while let Some(id) = self.first_waiting() {
            let _ended = self.release(id);
        }
    }
}
