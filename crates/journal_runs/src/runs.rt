//! A run of `solve` on a journal.
ghost use Rattle.std.specs.Prelude.{◌≡◌, ◌≤◌, true, length, IfOk, IfErr, OnOk, Option};
ghost use Rattle.bench_disk.specs.Disk.{IsHonest};
ghost use Rattle.disk_journal.specs.declared.refusal.JournalRefusal.TheVariants as journal;
ghost use Rattle.shared_words.specs.Counts.{Rose};
ghost use Rattle.opening_report.specs.Lines.{IsLine};
ghost use Rattle.opening_report.specs.Report.{report_of, summary_line, forest_roots, AreTrueRoots};
ghost use Rattle.tree_manager.specs.Histories.{IsCoreOf, IsHistory};
ghost use Rattle.tree_manager.specs.Lines.{is_failed};
ghost use Rattle.worker_gate.specs.Work.{CanSearch};
ghost use Rattle.journal_runs.specs.Ends.{GoesOnFrom, HasRun, HasWorked, IsIdle, IsWorkRefusal, out_of_memory};
ghost use Rattle.draughts_board.specs.Board.{Board};
ghost use Rattle.draughts_board.specs.Draughts.{draughts};
ghost use Rattle.strategy_certificate.specs.Tables.{IsSoundTable, IsTableSize};
ghost use Rattle.strategy_certificate.specs.declared.oracle.Answer.{Answer};
ghost use Rattle.journal_runs.specs.Journals.{IsCaused, IsTrueAccount, LeavesJournal, Resumes, account_of};
ghost use Rattle.journal_runs.specs.declared.refusals.RunRefusal.TheVariants as refusal;
ghost use Rattle.proof_tree.specs.declared.tree.TheConstants.{MOST_ROOTS};

use crate::refusals::RunRefusal;
use crate::together::work_together;
use bench_core::Settings;
use bench_disk::Disk;
use certificate_checker::MOST_DEPTH;
use disk_journal::JournalRefusal;
use draughts_board::Position;
use endgame_table::fill;
use opening_report::{Written, report_text, summary_text};
use std::alloc::{AllocError, Global};
use std::sync::Wait;
use std::thread::Threads;
use strategy_certificate::Oracle;
use tree_manager::{BeginRefusal, Session};
use worker_gate::{Ended, Gate};

/// The disk refused a call.
const DISK_FAULT: RunRefusal = RunRefusal::Journal(JournalRefusal::DiskFault);

/// What a run is to write of its roots.
#[derive(Clone, Copy, PartialEq, Eq, Debug)]
pub enum Account {
    /// The report: a line for each root, and the line that counts them.
    Report,
    /// The line that counts the roots, alone.
    Summary,
}

/// What a run on a journal is to do.
#[derive(Clone, Copy, PartialEq, Eq, Debug)]
pub struct Plan {
    pub settings: Settings,
    /// How many workers search, each in a thread of its own.
    pub workers: u8,
    pub account: Account,
}

/// Goes on with the journal on a disk: begins a root at each of these positions that has none yet, lets the plan's workers
/// search until every root is settled or the budget is spent, and gives the account that is asked for.
///
/// A fresh disk is a journal without records. However the run ends, what the disk read as is recovered from it after a
/// crash at any moment. The disk comes back, with nothing pending unless its faults rose; want of memory for the endgame
/// table leaves it as it was. All of this holds for every number of workers, in whatever order they take their turns.
pub fn solve<R: Threads + Wait + Sync, D: Disk + Send, G: Gate + Sync>(
    rt: &R,
    alloc: Global,
    disk: D,
    plan: &Plan,
    positions: &[Position],
    gate: &G,
) -> (D, Result<Written, RunRefusal>)
    requires { IsTableSize plan.now.settings.pieces }
    ensures leaves { LeavesJournal D.Disk plan.now.settings.pieces disk result.0 }
    ensures does { IsHonest D.TELLS → IfOk result.1 (λ written.
        Resumes D.Disk
        (account_of plan.now.account) plan.now.settings.pieces plan.now.settings.depth
        plan.now.settings.budget plan.now.settings.lease positions.now disk result.0
        written.text.items written.is_settled) }
    ensures shows { IfOk result.1 (λ written.
        IsTrueAccount plan.now.account positions.now written.text.items written.is_settled) }
    ensures fault { IfErr result.1
        (λ r. r ≡ refusal.Journal journal.DiskFault → Rose (D.faults disk) (D.faults result.0)) }
    ensures refused { IsHonest D.TELLS →
        IfErr result.1 (IsCaused plan.now.settings.pieces positions.now (D.reads disk)) }
{
    let table = match fill(alloc, plan.settings.pieces) {
        Ok(table) => table,
        Err(error) => return (disk, Err(RunRefusal::from(error))),
    };
    match Session::attach(alloc, disk, plan.settings, &table) {
        Ok(session) => {
            let (session, answer) = run_session(rt, alloc, session, plan, positions, &table, gate);
            (session.into_disk(), answer)
        }
        Err((disk, fault)) => (disk, Err(RunRefusal::from(fault))),
    }
}

/// Begins the roots, works, and gives the account. The session comes back as it then is.
fn run_session<R: Threads + Wait + Sync, D: Disk + Send, O: Oracle + Sync, G: Gate + Sync>(
    rt: &R,
    alloc: Global,
    session: Session<D>,
    plan: &Plan,
    positions: &[Position],
    oracle: &O,
    gate: &G,
) -> (Session<D>, Result<Written, RunRefusal>)
    requires tables { O.piece_limit oracle.now ≡ session.core.state.settings.pieces }
    requires size { IsTableSize (O.piece_limit oracle.now) }
    requires sound { (answer : Board → Option Answer)
        × IsSoundTable draughts (O.piece_limit oracle.now) answer }
    requires depth { session.core.state.settings.depth ≤ MOST_DEPTH }
    requires idle { IsIdle session }
    requires stands { IsCoreOf session.line session.core }
    ensures goes_on { GoesOnFrom session.line result.0.line }
    ensures worked { IfOk result.1 (λ written. HasWorked
        (account_of plan.now.account) plan.now.settings.lease session positions.now result.0
        written.text.items written.is_settled) }
    ensures shows { IfOk result.1 (λ written.
        IsTrueAccount plan.now.account positions.now written.text.items written.is_settled) }
    ensures fault { IfErr result.1
        (λ r. r ≡ refusal.Journal journal.DiskFault → is_failed result.0.line ≡ true) }
    ensures refused { IfErr result.1 (IsWorkRefusal session positions.now) }
{
    let Plan {
        settings,
        workers,
        account,
    } = *plan;
    let (session, worked) = work_on(
        rt,
        alloc,
        session,
        workers,
        settings.lease,
        positions,
        oracle,
        gate,
    );
    match worked {
        Ok(is_settled) => {
            let answer = match account {
                Account::Report => report_on(alloc, &session, is_settled, oracle),
                Account::Summary => count_on(alloc, &session, is_settled),
            };
            (session, answer)
        }
        Err(refusal) => (session, Err(refusal)),
    }
}

/// The report on a session.
fn report_on<D: Disk, O: Oracle>(
    alloc: Global,
    session: &Session<D>,
    is_settled: bool,
    oracle: &O,
) -> Result<Written, RunRefusal>
    requires { CanSearch (O.piece_limit oracle.now) session.now.line }
    ensures history { IsHistory session.now.line session.now.core }
    ensures stands { IsCoreOf session.now.line session.now.core }
    ensures text { IfOk result (λ written.
        written.text.items ≡ report_of (forest_roots session.now.core.state.forest)) }
    ensures settled { IfOk result (λ written. written.is_settled ≡ is_settled) }
    ensures values { OnOk result (AreTrueRoots (forest_roots session.now.core.state.forest)) }
    ensures few { OnOk result (length (forest_roots session.now.core.state.forest) ≤ MOST_ROOTS) }
    ensures refused { IfErr result (λ r. r ≡ out_of_memory) }
{
    let text = report_text(alloc, session.bench(), oracle)?;
    Ok(Written { text, is_settled })
}

/// The line that counts the roots of a session.
fn count_on<D: Disk>(
    alloc: Global,
    session: &Session<D>,
    is_settled: bool,
) -> Result<Written, RunRefusal>
    ensures history { IsHistory session.now.line session.now.core }
    ensures stands { IsCoreOf session.now.line session.now.core }
    ensures text { IfOk result (λ written.
        written.text.items ≡ summary_line (forest_roots session.now.core.state.forest)) }
    ensures settled { IfOk result (λ written. written.is_settled ≡ is_settled) }
    ensures line { IsLine (summary_line (forest_roots session.now.core.state.forest)) }
    ensures refused { IfErr result (λ r. r ≡ out_of_memory) }
{
    let text = summary_text(session.bench()).as_bytes().to_vec(alloc)?;
    Ok(Written { text, is_settled })
}

/// Begins the roots, and works until nothing is left to do; then it answers whether each root is settled.
fn work_on<R: Threads + Wait + Sync, D: Disk + Send, O: Oracle + Sync, G: Gate + Sync>(
    rt: &R,
    alloc: Global,
    session: Session<D>,
    workers: u8,
    lease: u32,
    positions: &[Position],
    oracle: &O,
    gate: &G,
) -> (Session<D>, Result<bool, RunRefusal>)
    requires tables { O.piece_limit oracle.now ≡ session.core.state.settings.pieces }
    requires depth { session.core.state.settings.depth ≤ MOST_DEPTH }
    requires stands { IsCoreOf session.line session.core }
    ensures goes_on { GoesOnFrom session.line result.0.line }
    ensures worked { IfOk result.1 (HasRun lease session positions.now result.0) }
    ensures fault { IfErr result.1
        (λ r. r ≡ refusal.Journal journal.DiskFault → is_failed result.0.line ≡ true) }
    ensures refused { IfErr result.1 (IsWorkRefusal session positions.now) }
{
    let mut session = session;
    gate.begins(session.recorded());
    match session.begin(positions, oracle) {
        Ok(_) => {}
        Err(BeginRefusal::TooManyRoots) => return (session, Err(RunRefusal::TooManyRoots)),
        Err(BeginRefusal::Memory(error)) => return (session, Err(RunRefusal::from(error))),
        Err(BeginRefusal::Disk) => return (session, Err(DISK_FAULT)),
        Err(BeginRefusal::Failed) => return (session, Err(DISK_FAULT)),
    }
    gate.look(session.bench());
    let (session, ended) = work_together(rt, alloc, session, workers, lease, oracle, gate);
    gate.ends(session.bench());
    match ended {
        Ended::Done => (session, Ok(true)),
        Ended::Spent => (session, Ok(false)),
        Ended::Failed => (session, Err(DISK_FAULT)),
        Ended::Memory => (session, Err(RunRefusal::from(AllocError))),
    }
}
