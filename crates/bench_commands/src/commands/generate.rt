//! `generate`: a run on the journal, with openings that are made from a seed.
ghost use Rattle.std.specs.Prelude.{◌≡◌, [], Some, IfOk, IfErr};
ghost use Rattle.bench_edges.specs.Words.{IsWithinLimits};
ghost use Rattle.bench_edges.specs.declared.words.Command.TheVariants as commands;
ghost use Rattle.bench_commands.specs.Bench.{ComesBeforeDisk};
ghost use Rattle.bench_commands.specs.Disks.{LeavesDisk};
ghost use Rattle.bench_commands.specs.Steps.{AnswersBytes, RefusesBytes, SaysTrue};

use crate::commands::solve::run_by;
use bench_core::Settings;
use bench_disk::Disk;
use capture_positions::capture_positions;
use journal_runs::{Account, Plan};
use opening_report::{Refusal, Written};
use std::alloc::{AllocError, Global};
use std::sync::Wait;
use std::thread::Threads;
use worker_gate::Gate;

/// How many pieces the endgame table has that `generate` searches with.
pub const GENERATE_PIECES: u8 = 2;

/// How many plies `generate` looks ahead. It is enough for each of its openings.
pub const GENERATE_DEPTH: u8 = 1;

/// How many leases later a lease runs out.
pub const GENERATE_LEASE: u32 = 1_000_000;

/// How many workers search.
pub const GENERATE_WORKERS: u8 = 4;

/// What a run on the journal with `count` openings that are made from the seed has to write, and
/// the disk. It writes no line of a root.
pub(crate) fn generate<R: Threads + Wait + Sync, D: Disk + Send, G: Gate + Sync>(
    rt: &R,
    alloc: Global,
    seed: u32,
    count: u32,
    disk: D,
    gate: &G,
) -> (D, Result<Written, Refusal>)
    requires { IsWithinLimits (commands.Generate seed count) }
    ensures leaves { LeavesDisk D.Disk
        (commands.Generate seed count) (Some []) disk result.0 }
    ensures answers { IfOk result.1 (λ output.
        AnswersBytes D.Disk
        (commands.Generate seed count) [] disk result.0 output.text.items output.is_settled) }
    ensures says { IfOk result.1 (λ output. SaysTrue output.text.items) }
    ensures refused { IfErr result.1
        (RefusesBytes D.Disk
        (commands.Generate seed count) [] disk result.0) }
    ensures unused { IfErr result.1 (λ r. ComesBeforeDisk r → result.0 ≡ disk) }
{
    let plan = Plan {
        settings: Settings {
            pieces: GENERATE_PIECES,
            depth: GENERATE_DEPTH,
            budget: count,
            lease: GENERATE_LEASE,
        },
        workers: GENERATE_WORKERS,
        account: Account::Summary,
    };
    match capture_positions(alloc, seed, count) {
        Ok(positions) => run_by(rt, alloc, &plan, positions.as_slice(), disk, gate),
        Err(AllocError) => (disk, Err(Refusal::Memory)),
    }
}
