//! `game_reader`: reads an archive of games of English draughts as it is, says what is wrong with it,
//! and writes the games that can be read in the strict profile.
//!
//! Standard input is read in pieces; one game is held at a time. [`check`], [`write`] and
//! [`openings`] do the work over any source and any sinks.
//!
//! Proved: what `write` and `openings` give their sink, if they come to their end, is texts of games
//! of English draughts one behind the other, each with legal moves from where it begins
//! (`specs/Writing.antt`). [`drafted`] begins a game where the archive says, and its draft stands where
//! the game's moves lead, as the archive has them (`specs/Drafting.antt`). What `check` writes, if it
//! comes to its end, is lines of notes, each at a byte of the source or at its end, and the line that
//! counts (`specs/Listing.antt`).
//!
//! Not proved, but tested on the files of `data/archives`: that each game which can be read is written,
//! which notes are told, and their words.
#![tactic(auto)]

mod archive;
mod drafting;
mod listing;
mod seen;
mod telling;
mod usage;
mod words;
mod writing;

pub use archive::{Archive, ArchiveRefusal};
use bench_edges::{Status, StdSink, StdSource};
pub use drafting::{DraftOutcome, drafted};
use program_edges::{args, print, told, words_of};
use std::io;
use std::process::ExitCode;
use usage::{USAGE, VERSION};
use words::{Asked, read_words};
pub use writing::{RunRefusal, check, openings, write};

/// The exit status of `check` where something is at fault or doubtful.
const FOUND: u8 = 1;

/// How a run ended that did not come to its end.
fn status_of(refusal: &RunRefusal) -> Status {
    match refusal {
        RunRefusal::Archive(ArchiveRefusal::TooLong) => Status::Input,
        RunRefusal::Archive(ArchiveRefusal::Memory(_)) => Status::Memory,
        RunRefusal::Archive(ArchiveRefusal::Read(_)) => Status::Read,
        RunRefusal::Write(_) => Status::Write,
    }
}

/// Runs what is asked from standard input to standard output, tells on standard error, and gives the
/// exit status.
fn run(rt: &HostRuntime, asked: Asked) -> Result<u8, RunRefusal> {
    let alloc = rt.alloc();
    let mut source = StdSource::new(rt.reader());
    let mut sink = StdSink::new(io::writer(rt));
    let mut told = StdSink::new(rt.stderr());
    match asked {
        Asked::Check => {
            let counts = check(alloc, &mut source, &mut sink)?;
            return Ok(if counts.is_clean() {
                Status::Done.number()
            } else {
                FOUND
            });
        }
        Asked::Write { part } => write(alloc, &mut source, &mut sink, &mut told, part)?,
        Asked::Openings { plies, part } => {
            openings(
                alloc,
                &mut source,
                &mut sink,
                &mut told,
                plies as usize,
                part,
            )?
        }
    };
    Ok(Status::Done.number())
}

/// Runs what is asked, and gives the exit status. Why a run did not come to its end is told on
/// standard error.
fn run_told(rt: &HostRuntime, asked: Asked) -> u8 {
    match run(rt, asked) {
        Ok(status) => status,
        Err(refusal) => {
            let _ = eprintln!(rt; "game_reader: {refusal}");
            status_of(&refusal).number()
        }
    }
}

/// Tells of the program, or runs as the words of the command line say, and gives the exit status.
fn run_args(rt: &HostRuntime) -> Result<u8, u8> {
    let args = args(rt)?;
    let words = words_of(rt.alloc(), &args)?;
    if let Some(text) = told(&words, USAGE, VERSION) {
        return Ok(print(rt, text));
    }
    match read_words(&words) {
        Ok(asked) => Ok(run_told(rt, asked)),
        Err(refusal) => {
            let _ = eprintln!(rt; "game_reader: {refusal}");
            Ok(Status::Words.number())
        }
    }
}

fn main(rt: HostRuntime) -> ExitCode {
    match run_args(&rt) {
        Ok(status) => ExitCode::from(status),
        Err(status) => ExitCode::from(status),
    }
}
