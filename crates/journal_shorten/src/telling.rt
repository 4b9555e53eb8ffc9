//! What a person at a terminal is told of a run on standard error.
use crate::ended::{Answer, Ended};
use crate::refusals::ShortenRefusal;
use crate::words::{Task, read_words};
use crate::{JournalDisk, paths_of};
use bench_disk::Disk;
use journal_shortening::{Chosen, CompactRefusal, Sizes};
use program_edges::{Standards, tell};
use refusal_hints::{failed_text, missing_text, other_run_text};
use std::alloc::{AllocError, Global};
use terminal_text::{quote, say, say_number, shown};

/// How many bytes of a path are told.
const MOST_TOLD: usize = 200;

/// Appends a path.
fn say_path(text: &mut Vec<u8>, path: &str) -> Result<(), AllocError> {
    let bytes = path.as_bytes();
    say(text, "`")?;
    quote(text, &bytes[..bytes.len().min(MOST_TOLD)])?;
    say(text, "`")
}

/// Appends that what is told goes from one number to another.
fn say_change(text: &mut Vec<u8>, what: &str, before: u64, after: u64) -> Result<(), AllocError> {
    say_number(text, what, before, " before, ")?;
    say_number(text, "", after, " after.\n")
}

/// Appends what may be done now that a new journal stands for the old one.
fn say_next(text: &mut Vec<u8>, words: &[&str]) -> Result<(), AllocError> {
    let [old, new] = paths_of(words);
    say(
        text,
        "The old journal is as it was. To put the new one in its place, move ",
    )?;
    say_path(text, new)?;
    say(text, " to ")?;
    say_path(text, old)?;
    say(text, ".\n")
}

/// Appends what was kept, how long both journals are, and what may be done now.
fn say_shorter(
    text: &mut Vec<u8>,
    words: &[&str],
    sizes: &Sizes,
    bytes: Option<(u64, u64)>,
) -> Result<(), AllocError> {
    if sizes.before == 0 {
        return say(
            text,
            "The old journal has no record, so the new one has none.\n",
        );
    }
    say_number(
        text,
        "Roots kept, each with its value: ",
        u64::from(sizes.roots),
        ".\n",
    )?;
    say_change(text, "Records: ", sizes.before, sizes.after)?;
    match bytes {
        Some((before, after)) => {
            say_change(text, "Bytes: ", before, after)?;
            if after > before {
                return say(
                    text,
                    "The new journal is the longer one: the certificate of a root can have more \
                        bytes than the records of its work. Keep the old one.\n",
                );
            }
            say_next(text, words)
        }
        None => say_next(text, words),
    }
}

/// Appends which journal counts, how long both are, and what may be done now.
fn say_chosen(
    text: &mut Vec<u8>,
    words: &[&str],
    chosen: Chosen,
    bytes: Option<(u64, u64)>,
) -> Result<(), AllocError> {
    if chosen == Chosen::Old {
        return say(
            text,
            "The new journal has no record, so the old one counts. Remove the new one, if there is \
                one, and shorten again.\n",
        );
    }
    say(text, "The new journal is whole, so it counts.\n")?;
    if let Some((before, after)) = bytes {
        say_change(text, "Bytes: ", before, after)?;
    }
    let [old, new] = paths_of(words);
    say(text, "To put it in the place of the old one, move ")?;
    say_path(text, new)?;
    say(text, " to ")?;
    say_path(text, old)?;
    say(text, ".\n")
}

/// The text for a person on what a run came to.
fn answer_text(
    alloc: Global,
    words: &[&str],
    answer: &Answer,
    bytes: Option<(u64, u64)>,
) -> Result<Vec<u8>, AllocError> {
    let mut text = Vec::new(alloc);
    match answer {
        Answer::Shorter(sizes) => say_shorter(&mut text, words, sizes, bytes)?,
        Answer::Chosen(chosen) => say_chosen(&mut text, words, *chosen, bytes)?,
    }
    shown(alloc, &text)
}

/// The text on a disk that failed, by what the system said of it; none if nothing is known.
fn disk_text(
    alloc: Global,
    words: &[&str],
    refusal: &ShortenRefusal,
    from: &JournalDisk<'_>,
    into: &JournalDisk<'_>,
) -> Result<Option<Vec<u8>>, AllocError> {
    let [old, new] = paths_of(words);
    match refusal {
        ShortenRefusal::Journal(CompactRefusal::FromDisk) => failed_text(alloc, old, from.cause()),
        ShortenRefusal::Journal(CompactRefusal::IntoDisk) => failed_text(alloc, new, into.cause()),
        _ => Ok(None),
    }
}

/// The path of the journal that a refusal is about: `which` reads the new one alone.
fn refused_path<'a>(words: &[&'a str]) -> &'a str {
    let [old, new] = paths_of(words);
    match read_words(words) {
        Ok(Task::Which) => new,
        _ => old,
    }
}

/// Appends that a file is no journal.
fn say_foreign(text: &mut Vec<u8>, words: &[&str]) -> Result<(), AllocError> {
    say(text, "The file ")?;
    say_path(text, refused_path(words))?;
    say(
        text,
        " is no journal of `opening_bench`. Nothing was written.\n",
    )
}

/// Appends that a journal is damaged at this byte.
fn say_damaged(text: &mut Vec<u8>, words: &[&str], at: u64) -> Result<(), AllocError> {
    say(text, "The journal ")?;
    say_path(text, refused_path(words))?;
    say_number(
        text,
        " is damaged at byte ",
        at,
        " (from 0), or another run is writing to it just now: try again once that run has ended. \
            Nothing was written.\n",
    )
}

/// Appends that the file for the new journal has bytes.
fn say_not_fresh(text: &mut Vec<u8>, length: u64) -> Result<(), AllocError> {
    say_number(
        text,
        "The file for the new journal has ",
        length,
        " bytes already, and nothing was written to it. Name one that is not there. If an earlier \
            run made it, `journal_shorten which` tells whether it counts.\n",
    )
}

/// The text on a refusal, before it is made safe for a terminal.
fn refusal_text(
    alloc: Global,
    words: &[&str],
    refusal: &ShortenRefusal,
) -> Result<Vec<u8>, AllocError> {
    let mut text = Vec::new(alloc);
    match *refusal {
        ShortenRefusal::Words(_) => say(
            &mut text,
            "The words are `shorten` or `which`, the path of a journal, and the path of another \
                file, for the shorter one. See `journal_shorten --help`.\n",
        ),
        ShortenRefusal::Journal(CompactRefusal::NotFresh(length)) => say_not_fresh(
            &mut text, length,
        ),
        ShortenRefusal::Journal(CompactRefusal::NotAJournal) => say_foreign(&mut text, words),
        ShortenRefusal::Journal(CompactRefusal::Damaged(at)) => say_damaged(&mut text, words, at),
        ShortenRefusal::Journal(CompactRefusal::Memory(_)) => say(
            &mut text,
            "Memory ran out. The old journal is as it was.\n",
        ),
        ShortenRefusal::Journal(CompactRefusal::FromDisk) => say(
            &mut text,
            "The file of the old journal could not be read.\n",
        ),
        ShortenRefusal::Journal(CompactRefusal::IntoDisk) => say(
            &mut text,
            "The file of the new journal could not be read or written.\n",
        ),
    }?;
    Ok(text)
}

/// The text for a person on a run that ended so. It is printable ASCII and line ends.
fn text_for(
    alloc: Global,
    words: &[&str],
    ended: &Ended,
    from: &mut JournalDisk<'_>,
    into: &mut JournalDisk<'_>,
) -> Result<Vec<u8>, AllocError> {
    match &ended.answer {
        Ok(answer) => answer_text(alloc, words, answer, bytes_of(from, into)),
        Err(refusal) => match disk_text(alloc, words, refusal, from, into)? {
            Some(text) => Ok(text),
            None => shown(alloc, &refusal_text(alloc, words, refusal)?),
        },
    }
}

/// How many bytes the files of both journals have.
fn bytes_of(from: &mut JournalDisk<'_>, into: &mut JournalDisk<'_>) -> Option<(u64, u64)> {
    match (from.len(), into.len()) {
        (Ok(before), Ok(after)) => Some((before, after)),
        _ => None,
    }
}

/// Tells of a journal whose file is not there.
fn tell_of_missing(rt: &HostRuntime, path: &str, disk: &JournalDisk<'_>) {
    if disk.is_missing()
        && let Ok(text) = missing_text(rt.alloc(), path)
    {
        tell(rt, &text);
    }
}

/// Tells of a run on standard error: nothing else, and nothing where memory is wanting or standard
/// error fails.
pub(crate) fn tell_of(
    rt: &HostRuntime,
    words: &[&str],
    ended: &Ended,
    from: &mut JournalDisk<'_>,
    into: &mut JournalDisk<'_>,
) {
    let [old, new] = paths_of(words);
    tell_of_missing(rt, old, from);
    tell_of_missing(rt, new, into);
    if let Ok(text) = text_for(rt.alloc(), words, ended, from, into) {
        tell(rt, &text);
    }
}

/// The text on a run that writes to the journal that is read.
fn going_on_text(alloc: Global, old: &str) -> Result<Vec<u8>, AllocError> {
    let mut text = Vec::new(alloc);
    say(&mut text, "Another run has ")?;
    say_path(&mut text, old)?;
    say(
        &mut text,
        " open. What it adds from now on does not come into the new journal: shorten it again when \
            that run has ended.\n",
    )?;
    shown(alloc, &text)
}

/// Tells of runs that have the journals open to write to them, where a shorter one is asked for.
pub(crate) fn tell_of_other_runs(rt: &HostRuntime, words: &[&str], standards: &Standards) {
    if !matches!(read_words(words), Ok(Task::Shorten)) {
        return;
    }
    let [old, new] = paths_of(words);
    if standards.has_other_run(rt, old)
        && let Ok(text) = going_on_text(rt.alloc(), old)
    {
        tell(rt, &text);
    }
    if standards.has_other_run(rt, new)
        && let Ok(text) = other_run_text(rt.alloc(), new)
    {
        tell(rt, &text);
    }
}
