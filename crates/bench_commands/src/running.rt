//! What a run does by its words, which were read before, and how it ended.
ghost use Rattle.std.specs.Prelude.{◌≡◌, ℕ, List, None, IfOk};
ghost use Rattle.bench_edges.specs.Words.{IsWithinLimits};
ghost use Rattle.bench_commands.specs.Bench.{IsCommandRefusal, IsRefusalByWords};
ghost use Rattle.bench_commands.specs.Commands.{source_limit};
ghost use Rattle.bench_commands.specs.Runs.{HandsOut, IsReadingOf, RunsCommand, RunsWords};

use crate::commands::searches;
use crate::ended::Ended;
use crate::quiet::run_quiet;
use crate::searching::run_search;
use bench_disk::Disk;
use bench_edges::{Command, Sink, Source, WordsRefusal};
use opening_report::Refusal;
use program_edges::refuse;
use std::alloc::Global;
use std::sync::Wait;
use std::thread::Threads;
use worker_gate::Gate;

/// Does a command, and hands out how the run ended, and the disk.
fn run_command<R: Threads + Wait + Sync, S: Source, K: Sink, D: Disk + Send, G: Gate + Sync>(
    rt: &R,
    alloc: Global,
    command: Command,
    source: &mut S,
    sink: &mut K,
    disk: D,
    gate: &G,
) -> (Ended, D)
    requires { IsWithinLimits command }
    ensures runs { RunsCommand D.Disk
        command (S.left source.old) (S.left source.new)
        (S.faults source.old) (S.faults source.new)
        (K.taken sink.old) (K.taken sink.new) (K.faults sink.old) (K.faults sink.new)
        disk result.1 result.0.status }
    ensures ended { HandsOut (IsCommandRefusal D.Disk
        command (S.left source.old) (S.left source.new)
        (S.faults source.old) (S.faults source.new) disk result.1)
        disk result.1 (K.taken sink.old) (K.taken sink.new)
        (K.faults sink.old) (K.faults sink.new) result.0.status result.0.refusal }
    ensures unread { source_limit command ≡ None → source.new ≡ source.old }
{
    if searches(command) {
        run_search(rt, alloc, command, source, sink, disk, gate)
    } else {
        run_quiet(alloc, command, source, sink, disk)
    }
}

/// Does what words say, by what [`read_words`] made of them, on the journal of the disk, and hands
/// out how the run ended, and the disk. It is [`bench`], but that it says of a refused run why it was
/// refused.
///
/// [`bench`]: crate::bench
pub fn run<R: Threads + Wait + Sync, S: Source, K: Sink, D: Disk + Send, G: Gate + Sync>(
    rt: &R,
    alloc: Global,
    said: Result<Command, WordsRefusal>,
    source: &mut S,
    sink: &mut K,
    disk: D,
    gate: &G,
) -> (Ended, D)
    requires { IfOk said IsWithinLimits }
    ensures runs { (words : List (List ℕ)) → IsReadingOf words said
        → RunsWords S.Source K.Sink D.Disk words
        source.old source.new sink.old sink.new disk result.1 result.0.status }
    ensures ended { (words : List (List ℕ)) → IsReadingOf words said
        → HandsOut (IsRefusalByWords D.Disk
        words (S.left source.old) (S.left source.new)
        (S.faults source.old) (S.faults source.new) disk result.1)
        disk result.1 (K.taken sink.old) (K.taken sink.new)
        (K.faults sink.old) (K.faults sink.new) result.0.status result.0.refusal }
{
    match said {
        Ok(command) => run_command(rt, alloc, command, source, sink, disk, gate),
        Err(refused) => {
            let refusal = Refusal::from(refused);
            let ended = Ended {
                status: refuse(&refusal, sink),
                refusal: Some(refusal),
            };
            (ended, disk)
        }
    }
}
