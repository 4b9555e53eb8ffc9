//! `journal_shorten`: writes a second journal that stands for a first one. It has the same roots with
//! the same values, and one record for all the work on a root that has a value.
//!
//! [`shorten`] does all of it, over any two disks and any sink, and promises what it writes and what it
//! leaves ([`run`] hands out how the run ended, too); `main` only gives it the words, standard output
//! and the files of the two journals, tells a person of the run, and answers `--help` and `--version`
//! itself.
//!
//! Proved: the first journal is left as it was at every moment. Whenever `shorten` is stopped, the second
//! one reads as no record, or as one whole list that stands for the first; with status 0 it is that list,
//! with nothing pending, and the line written has its numbers. `which` writes `new` exactly where the
//! second journal has a payload, and leaves both as they were. Each refusal comes for its cause
//! (`specs/Runs.antt`).
#![tactic(auto)]

mod ended;
mod refusals;
mod running;
mod telling;
mod terminal_line;
mod texts;
mod usage;
mod words;

use bench_disk::{Access, FileDisk};
use bench_edges::StdSink;
pub use ended::{Answer, Ended};
use program_edges::{PathDisk, Standards, args, print, told, words_of};
pub use refusals::ShortenRefusal;
pub use running::{run, shorten};
use std::io;
use std::process::ExitCode;
use telling::{tell_of, tell_of_other_runs};
use terminal_line::ClearingSink;
use usage::{USAGE, VERSION};
pub use words::{Task, read_words};

/// The word of a journal that is named by none.
const NO_PATH: &str = "-";

/// The disk over the file of a journal.
type JournalDisk<'a> = PathDisk<FileDisk<&'a HostRuntime>>;

/// The path that stands at this place of the words. A word that is missing stands for a journal in
/// memory, as `-` does.
fn path_at<'a>(words: &[&'a str], place: usize) -> &'a str {
    words.get(place).copied().unwrap_or(NO_PATH)
}

/// The paths of the journal that is read and of the one that stands for it.
fn paths_of<'a>(words: &[&'a str]) -> [&'a str; 2] {
    let old = path_at(words, 1);
    let new = path_at(words, 2);
    [old, new]
}

/// How the second journal is opened: `shorten` writes to it, `which` only looks.
fn access_of(words: &[&str]) -> Access {
    match read_words(words) {
        Ok(Task::Shorten) => Access::Writes,
        _ => Access::Looks,
    }
}

/// Runs on the disks of two journals, to standard output, tells of it on standard error, and gives the
/// exit status.
fn run_on(rt: &HostRuntime, words: &[&str], from: JournalDisk<'_>, into: JournalDisk<'_>) -> u8 {
    let mut sink = ClearingSink::new(rt, StdSink::new(io::writer(rt)));
    if matches!(read_words(words), Ok(Task::Shorten)) {
        sink.show();
    }
    let (ended, mut from, mut into) = run(rt.alloc(), words, from, into, &mut sink);
    sink.clear();
    tell_of(rt, words, &ended, &mut from, &mut into);
    ended.status.number()
}

/// Runs on the journals that the second and the third word name, and gives the exit status.
fn run_words(rt: &HostRuntime, words: &[&str]) -> Result<u8, u8> {
    let standards = Standards::take(rt);
    let [old, new] = paths_of(words);
    tell_of_other_runs(rt, words, &standards);
    let from = standards.disk_of(rt, old, Access::Looks)?;
    let into = standards.disk_of(rt, new, access_of(words))?;
    Ok(run_on(rt, words, from, into))
}

/// Tells of the program, or runs as the words of the command line say, and gives the exit status.
fn run_args(rt: &HostRuntime) -> Result<u8, u8> {
    let args = args(rt)?;
    let words = words_of(rt.alloc(), &args)?;
    match told(&words, USAGE, VERSION) {
        Some(text) => Ok(print(rt, text)),
        None => run_words(rt, &words),
    }
}

fn main(rt: HostRuntime) -> ExitCode {
    match run_args(&rt) {
        Ok(status) => ExitCode::from(status),
        Err(status) => ExitCode::from(status),
    }
}
