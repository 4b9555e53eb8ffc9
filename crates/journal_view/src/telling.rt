//! What a person at a terminal is told of a refusal on standard error.
use crate::ended::Ended;
use bench_disk::FileDisk;
use opening_report::Refusal;
use program_edges::{PathDisk, tell};
use refusal_hints::{hint, missing_text};
use std::alloc::{AllocError, Global};
use terminal_text::{say, say_number, shown};

/// Appends what can be done about a refusal; what is said of games is what `solve` says of them.
fn say_refusal(
    text: &mut Vec<u8>,
    alloc: Global,
    words: &[&str],
    refusal: &Refusal,
    source: &[u8],
) -> Result<(), AllocError> {
    match *refusal {
        Refusal::Words(_) => say(
            text,
            "The words are a journal's path, what is shown of it, and the options of that in their order. See \
                `journal_view --help`.\n",
        ),
        Refusal::NoRoot(root) => say_number(
            text,
            "The journal has no root ",
            u64::from(root),
            ". `roots` lists its roots with their numbers.\n",
        ),
        Refusal::UnsettledRoot(root) => say_number(
            text,
            "Root ",
            u64::from(root),
            " has no value yet. Go on with `opening_bench PATH solve`.\n",
        ),
        Refusal::Disk => say(
            text,
            "The file that the first word names could not be read. Is the path right, may you read it?\n",
        ),
        Refusal::Memory => say(text, "There is not enough memory.\n"),
        Refusal::NotAJournal | Refusal::OtherTable { .. } | Refusal::Damaged(_) => say(
            text,
            "The file that the first word names is no journal, or a damaged one.\n",
        ),
        _ => text.extend_from_slice(&hint(alloc, words, refusal, source)?),
    }
}

/// The text for a person on a run that ended so: what can be done about a refusal. It is printable ASCII
/// and line ends.
fn text_for(
    alloc: Global,
    words: &[&str],
    ended: &Ended,
    source: &[u8],
) -> Result<Vec<u8>, AllocError> {
    let mut text = Vec::new(alloc);
    if let Some(refusal) = &ended.refusal {
        say_refusal(&mut text, alloc, words, refusal, source)?;
    }
    shown(alloc, &text)
}

/// Tells it on standard error: nothing else, and nothing where memory is wanting or standard error fails.
pub(crate) fn tell_of(rt: &HostRuntime, words: &[&str], ended: &Ended, source: &[u8]) {
    if let Ok(text) = text_for(rt.alloc(), words, ended, source) {
        tell(rt, &text);
    }
}

/// Tells of a journal's file that is not there, once the run has ended.
pub(crate) fn tell_of_disk(rt: &HostRuntime, path: &str, disk: &PathDisk<FileDisk<&HostRuntime>>) {
    if disk.is_missing()
        && let Ok(text) = missing_text(rt.alloc(), path)
    {
        tell(rt, &text);
    }
}
