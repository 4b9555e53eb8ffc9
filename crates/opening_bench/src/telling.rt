//! What a person at a terminal is told on standard error, behind what the run itself wrote.
use crate::odd_journals::journal_text;
use crate::path_of;
use bench_commands::Ended;
use bench_disk::FileDisk;
use bench_edges::{Command, MOST_PLIES, Options, Status};
use opening_report::Refusal;
use program_edges::{PathDisk, tell};
use refusal_hints::{failed_text, hint, missing_text, other_run_text};
use source_warnings::warnings_text;
use std::alloc::{AllocError, Global};
use std::io::{ErrorKind, IsTerminal};

/// What a run leaves of which a person is told.
#[derive(Clone, Copy)]
pub(crate) struct Heard<'a> {
    /// The command that the words say; none where they say none.
    pub(crate) command: Option<Command>,
    /// What the system said of the journal's file when it last refused a call.
    pub(crate) cause: Option<ErrorKind>,
    /// What the run read; empty where that did not come to its end.
    pub(crate) source: &'a [u8],
    /// What there is to say of roots without a value.
    pub(crate) unsolved: &'a [u8],
}

/// How many plies of each game were asked, and 0 where all were, as if no number is given.
fn plies_asked(options: &Options) -> usize {
    if u32::from(options.plies) == MOST_PLIES {
        return 0;
    }
    usize::from(options.plies)
}

/// The warnings on the games of a source; none on an empty one, with which a run goes on with its
/// journal.
fn warned_text(alloc: Global, options: &Options, source: &[u8]) -> Result<Vec<u8>, AllocError> {
    if source.is_empty() {
        return Ok(Vec::new(alloc));
    }
    warnings_text(alloc, source, plies_asked(options))
}

/// How the bytes of a table that went to a terminal come into a file.
fn table_text(alloc: Global, pieces: u8) -> Result<Vec<u8>, AllocError> {
    let mut text = Vec::new(alloc);
    text.extend_from_slice(
        b"\nThe table's bytes went to the terminal. To keep them: opening_bench - table ",
    )?;
    text.extend_from_slice(if pieces == 2 { b"2" } else { b"3" })?;
    text.extend_from_slice(b" > FILE\n")?;
    Ok(text)
}

/// The source was not read to its end where a run was refused for this.
fn leaves_source(refusal: Refusal) -> bool {
    matches!(refusal, Refusal::TooLong | Refusal::Read | Refusal::Memory)
}

/// What can be done about a refusal: where the disk failed, that is told by what the system said.
fn advice_text(
    alloc: Global,
    words: &[&str],
    refusal: &Refusal,
    heard: &Heard<'_>,
) -> Result<Vec<u8>, AllocError> {
    if matches!(refusal, Refusal::Disk)
        && let Some(text) = failed_text(alloc, path_of(words), heard.cause)?
    {
        return Ok(text);
    }
    hint(alloc, words, refusal, heard.source)
}

/// The text for a person on a refusal: what can be done about it, and behind that the warnings on
/// the games that were read.
fn refusal_text(
    alloc: Global,
    words: &[&str],
    refusal: Refusal,
    heard: &Heard<'_>,
) -> Result<Vec<u8>, AllocError> {
    let mut text = advice_text(alloc, words, &refusal, heard)?;
    if let Some(Command::Solve(options)) = heard.command
        && !leaves_source(refusal)
    {
        let warnings = warned_text(alloc, &options, heard.source)?;
        text.extend_from_slice(&warnings)?;
    }
    Ok(text)
}

/// What is told of games that were read: warnings, and what there is to say of roots without a value.
fn solved_text(alloc: Global, options: &Options, heard: &Heard<'_>) -> Result<Vec<u8>, AllocError> {
    let mut text = warned_text(alloc, options, heard.source)?;
    text.extend_from_slice(heard.unsolved)?;
    Ok(text)
}

/// The text for a person on a run that ended so: what can be done about a refusal; where games were
/// read, warnings and what is told of roots without a value; how to keep a table that went to a
/// terminal.
fn text_for(
    alloc: Global,
    words: &[&str],
    ended: &Ended,
    heard: &Heard<'_>,
    is_terminal: bool,
) -> Result<Vec<u8>, AllocError> {
    if let Some(refusal) = ended.refusal {
        return refusal_text(alloc, words, refusal, heard);
    }
    match (ended.status, heard.command) {
        (Status::Done | Status::Unsolved, Some(Command::Solve(options))) => solved_text(
            alloc, &options, heard,
        ),
        (Status::Done, Some(Command::MakeTable(pieces))) if is_terminal => table_text(
            alloc, pieces,
        ),
        _ => Ok(Vec::new(alloc)),
    }
}

/// Tells it on standard error: nothing else, and nothing where memory is wanting or standard error
/// fails.
pub(crate) fn tell_of(rt: &HostRuntime, words: &[&str], ended: &Ended, heard: &Heard<'_>) {
    if let Ok(text) = journal_text(rt.alloc(), path_of(words), heard.command) {
        tell(rt, &text);
    }
    let is_terminal = rt.stdout().is_terminal();
    if let Ok(text) = text_for(rt.alloc(), words, ended, heard, is_terminal) {
        tell(rt, &text);
    }
}

/// Tells of a journal whose file was only looked at, and is not there.
pub(crate) fn tell_of_disk(rt: &HostRuntime, path: &str, disk: &PathDisk<FileDisk<&HostRuntime>>) {
    if disk.is_missing()
        && let Ok(text) = missing_text(rt.alloc(), path)
    {
        tell(rt, &text);
    }
}

/// Tells that another run has the journal open.
pub(crate) fn tell_of_other_run(rt: &HostRuntime, path: &str) {
    if let Ok(text) = other_run_text(rt.alloc(), path) {
        tell(rt, &text);
    }
}
