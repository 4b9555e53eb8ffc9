//! `strategy_player`: plays one side of a root of a journal by the certificate of its value, against
//! the moves of standard input, and never loses what that side holds.
//!
//! [`play`] does all of it, over any source, any sink and any disk, and promises what it writes and
//! what it leaves ([`run`] hands out why a run was refused, too); `main` only gives it the words, the
//! standard streams and the journal's file, tells a person of a refusal, and answers `--help` and
//! `--version` itself. [`Player`] makes the moves.
//!
//! Proved: with status 0 the moves written and read, taken in turn, are a play from the root's
//! position, each line of the source was used, and `won` stands exactly where the other side has no
//! legal move. At each position of it the side holds, and where the root's value is its win, it wins
//! (`certificate_plays/specs/Plays.antt`, `specs/Texts.antt`). Each refusal comes for its cause, a root that the side holds and a source of
//! legal moves are not refused, and the journal is left as it was (`specs/Runs.antt`).
#![tactic(auto)]

mod ended;
mod refusals;
mod roots;
#[cfg(test)]
mod row_tests;
mod running;
mod telling;
mod texts;
mod usage;
mod words;

use bench_disk::{Access, FileDisk};
use bench_edges::{StdSink, StdSource};
pub use certificate_player::Player;
pub use ended::Ended;
use program_edges::{KeepingSource, PathDisk, Standards, args, print, told, words_of};
pub use refusals::PlayRefusal;
pub use running::{MOST_SOURCE_BYTES, play, run};
use std::io;
use std::process::ExitCode;
use telling::{tell_of, tell_of_disk};
use usage::{USAGE, VERSION};
pub use words::{Request, read_words};

/// The word of a journal that is named by none.
const NO_PATH: &str = "-";

/// The path of the journal. No word stands for a journal in memory, as `-` does.
fn path_of<'a>(words: &[&'a str]) -> &'a str {
    words.first().copied().unwrap_or(NO_PATH)
}

/// Runs on the journal of a disk, from standard input to standard output, tells of it on standard
/// error, and gives the exit status.
fn run_on(rt: &HostRuntime, words: &[&str], disk: PathDisk<FileDisk<&HostRuntime>>) -> u8 {
    let mut source = KeepingSource::new(StdSource::new(rt.reader()));
    let mut sink = StdSink::new(io::writer(rt));
    let (ended, disk) = run(rt.alloc(), words, &mut source, &mut sink, disk);
    tell_of_disk(rt, path_of(words), &disk);
    tell_of(rt, words, &ended, disk.cause(), source.kept());
    ended.status.number()
}

/// Runs on the journal that the first word names, and gives the exit status.
fn run_words(rt: &HostRuntime, words: &[&str]) -> Result<u8, u8> {
    let standards = Standards::take(rt);
    let disk = standards.disk_of(rt, path_of(words), Access::Looks)?;
    Ok(run_on(rt, words, disk))
}

/// Tells of the program, or runs as the words of the command line say, and gives the exit status.
fn run_args(rt: &HostRuntime) -> Result<u8, u8> {
    let args = args(rt)?;
    let words = words_of(rt.alloc(), &args)?;
    match told(&words, USAGE, VERSION) {
        Some(text) => Ok(print(rt, text)),
        None => run_words(rt, &words),
    }
}

fn main(rt: HostRuntime) -> ExitCode {
    match run_args(&rt) {
        Ok(status) => ExitCode::from(status),
        Err(status) => ExitCode::from(status),
    }
}
