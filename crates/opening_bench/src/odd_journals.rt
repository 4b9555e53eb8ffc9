//! Journals whose name looks like an option.
use crate::journal_use::{JournalUse, use_by};
use bench_edges::Command;
use std::alloc::{AllocError, Global};
use terminal_text::{quote, say, shown};

/// How many bytes of a name are told.
const MOST_TOLD: usize = 60;

/// The text on a journal whose path is a word like an option; empty where it is not.
pub(crate) fn journal_text(
    alloc: Global,
    path: &str,
    command: Option<Command>,
) -> Result<Vec<u8>, AllocError> {
    let name = path.as_bytes();
    let mut text = Vec::new(alloc);
    if use_by(command) != JournalUse::Nothing && name.starts_with(b"-") && name.len() > 1 {
        say(&mut text, "The journal is the file `")?;
        quote(&mut text, &name[..name.len().min(MOST_TOLD)])?;
        say(&mut text, "`: the first word names it, whatever it is.\n")?;
    }
    shown(alloc, &text)
}
