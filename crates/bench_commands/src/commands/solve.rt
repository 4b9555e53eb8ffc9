//! `solve`: a run on the journal, with the openings of games.
ghost use Rattle.std.specs.Prelude.{◌≡◌, Some, IfOk, IfErr};
ghost use Rattle.bench_disk.specs.Disk.{IsHonest};
ghost use Rattle.bench_edges.specs.Words.{IsWithinLimits};
ghost use Rattle.bench_edges.specs.declared.words.Command.TheVariants as commands;
ghost use Rattle.journal_runs.specs.Journals.{IsTrueAccount, LeavesJournal, Resumes, account_of};
ghost use Rattle.strategy_certificate.specs.Tables.{IsTableSize};
ghost use Rattle.bench_commands.specs.Bench.{ComesBeforeDisk};
ghost use Rattle.bench_commands.specs.Disks.{IsRefusedRun, LeavesDisk};
ghost use Rattle.bench_commands.specs.Solving.{roots_of_openings};
ghost use Rattle.bench_commands.specs.Steps.{AcceptsBytes, AnswersBytes, AreRootsIn, IsAnswerFault, IsAnswerFaultOnly, RefusesBytes, SaysTrue};

use bench_core::Settings;
use bench_disk::Disk;
use bench_edges::Options;
use distinct_positions::DistinctPositions;
use draughts_board::Position;
use journal_runs::{Account, Plan};
use opening_report::{Refusal, Written};
use pdn_openings::Opening;
use program_edges::read_openings;
use std::alloc::{AllocError, Global};
use std::sync::Wait;
use std::thread::Threads;
use worker_gate::Gate;

/// The distinct positions of the openings, each at its first place.
fn distinct_positions(alloc: Global, openings: &[Opening]) -> Result<DistinctPositions, AllocError>
    ensures { IfOk result (λ positions. positions ≡ roots_of_openings openings.now) }
{
    let mut positions = DistinctPositions::new(alloc);
    for opening in openings {
        positions.add(opening.position)?;
    }
    Ok(positions)
}

/// The distinct positions of the openings of the games of a text, each at its first place.
fn roots_in(alloc: Global, options: &Options, text: &[u8]) -> Result<DistinctPositions, Refusal>
    ensures read { IfOk result (λ positions.
        AreRootsIn options.now.plies text.now positions) }
    ensures refused { IfErr result (IsAnswerFault (commands.Solve options.now) text.now) }
    ensures accepted { IfErr result (IsAnswerFaultOnly (commands.Solve options.now) text.now) }
{
    let found = read_openings(alloc, options.plies as u32, text)?;
    Ok(distinct_positions(alloc, &found.openings)?)
}

/// Runs on the journal of the disk by a plan, with these positions.
pub(crate) fn run_by<R: Threads + Wait + Sync, D: Disk + Send, G: Gate + Sync>(
    rt: &R,
    alloc: Global,
    plan: &Plan,
    positions: &[Position],
    disk: D,
    gate: &G,
) -> (D, Result<Written, Refusal>)
    requires { IsTableSize plan.now.settings.pieces }
    ensures leaves { LeavesJournal D.Disk plan.now.settings.pieces disk result.0 }
    ensures resumes { IsHonest D.TELLS → IfOk result.1 (λ output.
        Resumes D.Disk
        (account_of plan.now.account) plan.now.settings.pieces plan.now.settings.depth
        plan.now.settings.budget plan.now.settings.lease positions.now disk result.0
        output.text.items output.is_settled) }
    ensures shows { IfOk result.1 (λ output.
        IsTrueAccount plan.now.account positions.now output.text.items output.is_settled) }
    ensures refused { IfErr result.1
        (IsRefusedRun D.Disk plan.now.settings.pieces positions.now disk result.0) }
    ensures used { IfErr result.1 (λ r. ComesBeforeDisk r → ⊥) }
{
    let (disk, answer) = journal_runs::solve(rt, alloc, disk, plan, positions, gate);
    match answer {
        Ok(written) => (disk, Ok(written)),
        Err(refusal) => (disk, Err(Refusal::from(refusal))),
    }
}

/// What a run on the journal with the openings of these games has to write, and the disk.
pub(crate) fn solve<R: Threads + Wait + Sync, D: Disk + Send, G: Gate + Sync>(
    rt: &R,
    alloc: Global,
    options: &Options,
    text: &[u8],
    disk: D,
    gate: &G,
) -> (D, Result<Written, Refusal>)
    requires { IsWithinLimits (commands.Solve options.now) }
    ensures leaves { LeavesDisk D.Disk
        (commands.Solve options.now) (Some text.now) disk result.0 }
    ensures answers { IfOk result.1 (λ output.
        AnswersBytes D.Disk
        (commands.Solve options.now) text.now disk result.0
        output.text.items output.is_settled) }
    ensures says { IfOk result.1 (λ output. SaysTrue output.text.items) }
    ensures refused { IfErr result.1
        (RefusesBytes D.Disk
        (commands.Solve options.now) text.now disk result.0) }
    ensures accepted { IfErr result.1 (AcceptsBytes D.Disk
        (commands.Solve options.now) text.now disk) }
    ensures unused { IfErr result.1 (λ r. ComesBeforeDisk r → result.0 ≡ disk) }
{
    let plan = Plan {
        settings: Settings {
            pieces: options.pieces,
            depth: options.depth,
            budget: options.budget,
            lease: options.lease,
        },
        workers: options.workers,
        account: Account::Report,
    };
    match roots_in(alloc, options, text) {
        Ok(positions) => run_by(rt, alloc, &plan, positions.as_slice(), disk, gate),
        Err(refusal) => (disk, Err(refusal)),
    }
}
