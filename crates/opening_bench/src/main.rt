//! `opening_bench`: what openings of English draughts are worth, proved.
//!
//! The program reads games, works on their openings on a journal that keeps what is found, and
//! writes what the certificates found there show of their values. [`run`] does all of it, over any
//! source, any sink and any disk, and promises what it writes and what it leaves; `main` only gives
//! it what was read of the words, standard input, standard output and the journal's file, tells a
//! person of how the run ended, and answers `--help` and `--version` itself.
//!
//! Proved: the clauses of [`bench_commands::bench`], in `docs/PROVED.md`, which [`run`] promises as one
//! record.
#![tactic(auto)]

ghost use Rattle.std.specs.Prelude.{IfOk};
ghost use Rattle.bench_edges.specs.Words.{IsWithinLimits};

mod clearing_sink;
mod deeper;
mod journal_use;
mod odd_journals;
mod progress;
mod progress_lines;
mod shares;
mod telling;
mod unsolved;
mod usage;

use bench_commands::run;
use bench_disk::{Access, FileDisk};
use bench_edges::{Command, StdSink, StdSource, WordsRefusal, read_words};
use clearing_sink::ClearingSink;
use journal_use::{JournalUse, use_by};
use program_edges::{KeepingSource, PathDisk, Standards, args, print, told, words_of};
use progress::ProgressGate;
use std::io::{self, IsTerminal};
use std::process::ExitCode;
use std::sync::Wait;
use std::thread::Threads;
use telling::{Heard, tell_of, tell_of_disk, tell_of_other_run};
use usage::{USAGE, VERSION};

/// The word of a journal that is named by none.
const NO_PATH: &str = "-";

/// Runs by what was read of the words on the journal of a disk, from standard input to standard
/// output, tells of it on standard error, and gives the exit status.
fn run_on<R: Threads + Wait + Sync>(
    threads: &R,
    rt: &HostRuntime,
    words: &[&str],
    said: Result<Command, WordsRefusal>,
    disk: PathDisk<FileDisk<&HostRuntime>>,
) -> u8
    requires { IfOk said IsWithinLimits }
{
    let command = said.ok();
    let gate = ProgressGate::new(rt, path_of(words), command);
    let mut source = KeepingSource::new(StdSource::new(rt.reader()));
    let mut sink = ClearingSink::new(StdSink::new(io::writer(rt)), &gate);
    gate.reads(use_by(command), rt.stdin().is_terminal());
    let (ended, disk) = run(
        threads,
        rt.alloc(),
        said,
        &mut source,
        &mut sink,
        disk,
        &gate,
    );
    gate.clear();
    tell_of_disk(rt, path_of(words), &disk);
    let heard = Heard {
        command,
        cause: disk.cause(),
        source: source.kept(),
        unsolved: gate.unsolved(),
    };
    tell_of(rt, words, &ended, &heard);
    ended.status.number()
}

/// The journal's path, which the first word names. No word stands for a journal in memory, as `-`
/// does.
fn path_of<'a>(words: &[&'a str]) -> &'a str {
    words.first().copied().unwrap_or(NO_PATH)
}

/// Reads the words, runs as they say, and gives the exit status.
fn run_words<R: Threads + Wait + Sync>(
    threads: &R,
    rt: &HostRuntime,
    words: &[&str],
) -> Result<u8, u8> {
    let standards = Standards::take(rt);
    let path = path_of(words);
    let said = read_words(words);
    let journal = use_by(said.ok());
    if journal == JournalUse::Writes && standards.has_other_run(rt, path) {
        tell_of_other_run(rt, path);
    }
    let access = match journal {
        JournalUse::Looks => Access::Looks,
        JournalUse::Writes | JournalUse::Nothing => Access::Writes,
    };
    let disk = standards.disk_of(rt, path, access)?;
    Ok(run_on(threads, rt, words, said, disk))
}

/// Tells of the program, or runs as the words of the command line say, and gives the exit status.
fn run_args<R: Threads + Wait + Sync>(threads: &R, rt: &HostRuntime) -> Result<u8, u8> {
    let args = args(rt)?;
    let words = words_of(rt.alloc(), &args)?;
    match told(&words, USAGE, VERSION) {
        Some(text) => Ok(print(rt, text)),
        None => run_words(threads, rt, &words),
    }
}

fn main(rt: HostRuntime) -> ExitCode {
    match run_args(&rt, &rt) {
        Ok(status) => ExitCode::from(status),
        Err(status) => ExitCode::from(status),
    }
}
