//! The commands that search: workers share the session on the journal.
ghost use Rattle.std.specs.Prelude.{◌≡◌, None};
ghost use Rattle.bench_edges.specs.Words.{IsWithinLimits};
ghost use Rattle.bench_commands.specs.Bench.{IsCommandRefusal};
ghost use Rattle.bench_commands.specs.Commands.{Searches, source_limit};
ghost use Rattle.bench_commands.specs.Runs.{HandsOut, RunsCommand};
ghost use Rattle.bench_commands.specs.Steps.{IsAnswer};

use crate::commands::generate::generate;
use crate::commands::solve::solve;
use crate::commands::source_limit;
use crate::ended::Ended;
use bench_disk::Disk;
use bench_edges::{Command, Sink, Source};
use opening_report::{Refusal, Written};
use program_edges::{hand_back, read_source, refuse, write_answer};
use std::alloc::Global;
use std::sync::Wait;
use std::thread::Threads;
use worker_gate::Gate;

/// What a command that searches has to write for these bytes of its source, and the disk.
fn search_bytes<R: Threads + Wait + Sync, D: Disk + Send, G: Gate + Sync>(
    rt: &R,
    alloc: Global,
    command: Command,
    bytes: &[u8],
    disk: D,
    gate: &G,
) -> (D, Result<Written, Refusal>)
    requires searches { Searches command }
    requires limits { IsWithinLimits command }
    ensures answers { IsAnswer D.Disk
        command bytes.now disk result.0 result.1 }
{
    match command {
        Command::Solve(options) => solve(rt, alloc, &options, bytes, disk, gate),
        Command::Generate { seed, count } => generate(rt, alloc, seed, count, disk, gate),
        _ => unreachable!(),
    }
}

/// Does a command that searches, and hands out how the run ended, and the disk.
pub(crate) fn run_search<
    R: Threads + Wait + Sync,
    S: Source,
    K: Sink,
    D: Disk + Send,
    G: Gate + Sync,
>(
    rt: &R,
    alloc: Global,
    command: Command,
    source: &mut S,
    sink: &mut K,
    disk: D,
    gate: &G,
) -> (Ended, D)
    requires searches { Searches command }
    requires limits { IsWithinLimits command }
    ensures runs { RunsCommand D.Disk
        command (S.left source.old) (S.left source.new)
        (S.faults source.old) (S.faults source.new)
        (K.taken sink.old) (K.taken sink.new) (K.faults sink.old) (K.faults sink.new)
        disk result.1 result.0.status }
    ensures ended { HandsOut (IsCommandRefusal D.Disk
        command (S.left source.old) (S.left source.new)
        (S.faults source.old) (S.faults source.new) disk result.1)
        disk result.1 (K.taken sink.old) (K.taken sink.new)
        (K.faults sink.old) (K.faults sink.new) result.0.status result.0.refusal }
    ensures unread { source_limit command ≡ None → source.new ≡ source.old }
{
    let limit = source_limit(command);
    match read_source(alloc, limit, source) {
        Ok(bytes) => {
            let (disk, answer) = search_bytes(rt, alloc, command, &bytes, disk, gate);
            hand_back(limit, bytes, source);
            let (status, refusal) = write_answer(answer, sink);
            let ended = Ended { status, refusal };
            (ended, disk)
        }
        Err(refusal) => {
            let ended = Ended {
                status: refuse(&refusal, sink),
                refusal: Some(refusal),
            };
            (ended, disk)
        }
    }
}
