//! `journal_view`: shows what a journal knows of its roots, the play behind a root's value, the tree of
//! a root, and the records.
//!
//! [`view`] does all of it, over any source, any sink and any disk, and promises what it writes and what
//! it leaves ([`run`] hands out why a run was refused, too); `main` only gives it the words, the standard
//! streams and the journal's file, tells a person of a refusal, and answers `--help` and `--version`
//! itself.
//!
//! Proved: the lines of roots are those of what the journal reads as, with numbers and values, and each
//! value is true (`specs/Shown.antt`). Behind the line of a root stand those of exactly the games of the
//! source whose openings are its position (`specs/Games.antt`). A line of play goes by a certificate of
//! the root's value that was checked: each of its moves is legal, from the root's position on, and where
//! a side wins it ends in its win, within its rank. The moves of its variations are legal too. A tree is
//! that of the root in the forest that the journal reads as, each node once (`specs/Trees.antt`), and the
//! records are those that it reads as. Each refusal comes for its cause, a journal that shows what is
//! asked is not refused, and the journal is left as it was (`specs/Runs.antt`).
#![tactic(auto)]

mod ended;
mod games;
mod lines;
mod pages;
mod records;
mod roots;
mod running;
mod shown;
mod telling;
mod trees;
mod usage;

use bench_disk::{Access, FileDisk};
use bench_edges::{MemorySource, Source, StdSink, StdSource};
pub use ended::Ended;
pub use lines::DRAWN_PLIES;
use program_edges::{KeepingSource, PathDisk, Standards, args, print, told, words_of};
pub use running::{run, view};
use std::io::{self, IsTerminal};
use std::process::ExitCode;
use telling::{tell_of, tell_of_disk};
use usage::{USAGE, VERSION};

/// The word of a journal that is named by none.
const NO_PATH: &str = "-";

/// The path of the journal. No word stands for a journal in memory, as `-` does.
fn path_of<'a>(words: &[&'a str]) -> &'a str {
    words.first().copied().unwrap_or(NO_PATH)
}

/// Runs on the journal of a disk, from a source to standard output, tells of it on standard error, and
/// gives the exit status.
fn run_on<S: Source + Drop>(
    rt: &HostRuntime,
    words: &[&str],
    source: S,
    disk: PathDisk<FileDisk<&HostRuntime>>,
) -> u8 {
    let mut source = KeepingSource::new(source);
    let mut sink = StdSink::new(io::writer(rt));
    let (ended, disk) = run(rt.alloc(), words, &mut source, &mut sink, disk);
    tell_of_disk(rt, path_of(words), &disk);
    tell_of(rt, words, &ended, source.kept());
    ended.status.number()
}

/// Runs on the journal that the first word names, from standard input, and gives the exit status. A
/// terminal is not waited for: it gives no games.
fn run_words(rt: &HostRuntime, words: &[&str]) -> Result<u8, u8> {
    let standards = Standards::take(rt);
    let disk = standards.disk_of(rt, path_of(words), Access::Looks)?;
    if rt.stdin().is_terminal() {
        let none = MemorySource::new(Vec::new(rt.alloc()), Vec::new(rt.alloc()));
        return Ok(run_on(rt, words, none, disk));
    }
    Ok(run_on(rt, words, StdSource::new(rt.reader()), disk))
}

/// Tells of the program, or runs as the words of the command line say, and gives the exit status.
fn run_args(rt: &HostRuntime) -> Result<u8, u8> {
    let args = args(rt)?;
    let words = words_of(rt.alloc(), &args)?;
    match told(&words, USAGE, VERSION) {
        Some(text) => Ok(print(rt, text)),
        None => run_words(rt, &words),
    }
}

fn main(rt: HostRuntime) -> ExitCode {
    match run_args(&rt) {
        Ok(status) => ExitCode::from(status),
        Err(status) => ExitCode::from(status),
    }
}
