//! The commands that do not search: they take no threads, and every call returns.
ghost use Rattle.std.specs.Prelude.{◌≡◌, None};
ghost use Rattle.bench_edges.specs.Words.{IsWithinLimits};
ghost use Rattle.bench_commands.specs.Bench.{IsCommandRefusal};
ghost use Rattle.bench_commands.specs.Commands.{Searches, source_limit};
ghost use Rattle.bench_commands.specs.Runs.{HandsOut, RunsCommand};
ghost use Rattle.bench_commands.specs.Steps.{IsAnswer};

use crate::commands::certify::certify;
use crate::commands::learn::learn;
use crate::commands::report::report;
use crate::commands::source_limit;
use crate::commands::table::table;
use crate::commands::table_check::table_check;
use crate::commands::verify::verify;
use crate::ended::Ended;
use bench_disk::Disk;
use bench_edges::{Command, Sink, Source, Status};
use opening_report::{Refusal, Written};
use program_edges::{hand_back, read_source, refuse, write_answer};
use std::alloc::Global;

/// What a command that does not search has to write for these bytes of its source, and the disk.
fn quiet_bytes<D: Disk>(
    alloc: Global,
    command: Command,
    bytes: &[u8],
    disk: D,
) -> (D, Result<Written, Refusal>)
    requires quiet { Searches command → ⊥ }
    requires limits { IsWithinLimits command }
    ensures answers { IsAnswer D.Disk
        command bytes.now disk result.0 result.1 }
{
    match command {
        Command::Report => report(alloc, disk),
        Command::Certify(root) => certify(alloc, root, disk),
        Command::Verify => (disk, verify(alloc, bytes)),
        Command::Learn => learn(alloc, bytes, disk),
        Command::MakeTable(pieces) => (disk, table(alloc, pieces)),
        Command::TableCheck => (disk, table_check(alloc, bytes)),
        Command::Solve(_) | Command::Generate { .. } => unreachable!(),
    }
}

/// Does a command that does not search, and hands out how the run ended, and the disk.
pub(crate) fn run_quiet<S: Source, K: Sink, D: Disk>(
    alloc: Global,
    command: Command,
    source: &mut S,
    sink: &mut K,
    disk: D,
) -> (Ended, D)
    requires quiet { Searches command → ⊥ }
    requires limits { IsWithinLimits command }
    ensures runs { RunsCommand D.Disk
        command (S.left source.old) (S.left source.new)
        (S.faults source.old) (S.faults source.new)
        (K.taken sink.old) (K.taken sink.new) (K.faults sink.old) (K.faults sink.new)
        disk result.1 result.0.status }
    ensures ended { HandsOut (IsCommandRefusal D.Disk
        command (S.left source.old) (S.left source.new)
        (S.faults source.old) (S.faults source.new) disk result.1)
        disk result.1 (K.taken sink.old) (K.taken sink.new)
        (K.faults sink.old) (K.faults sink.new) result.0.status result.0.refusal }
    ensures unread { source_limit command ≡ None → source.new ≡ source.old }
{
    let limit = source_limit(command);
    match read_source(alloc, limit, source) {
        Ok(bytes) => {
            let (disk, answer) = quiet_bytes(alloc, command, &bytes, disk);
            hand_back(limit, bytes, source);
            let (status, refusal) = write_answer(answer, sink);
            let ended = Ended { status, refusal };
            (ended, disk)
        }
        Err(refusal) => {
            let ended = Ended {
                status: refuse(&refusal, sink),
                refusal: Some(refusal),
            };
            (ended, disk)
        }
    }
}

/// Does a command other than `solve` and `generate`, and hands the disk back. A refused run writes
/// one line that says why. Every call returns.
///
/// The clauses are those of [`bench`], by the command in place of the words.
pub fn bench_quiet<S: Source, K: Sink, D: Disk>(
    alloc: Global,
    command: Command,
    source: &mut S,
    sink: &mut K,
    disk: D,
) -> (Status, D)
    requires quiet { Searches command → ⊥ }
    requires limits { IsWithinLimits command }
    ensures runs { RunsCommand D.Disk
        command (S.left source.old) (S.left source.new)
        (S.faults source.old) (S.faults source.new)
        (K.taken sink.old) (K.taken sink.new) (K.faults sink.old) (K.faults sink.new)
        disk result.1 result.0 }
    ensures unread { source_limit command ≡ None → source.new ≡ source.old }
{
    let (ended, disk) = run_quiet(alloc, command, source, sink, disk);
    (ended.status, disk)
}
