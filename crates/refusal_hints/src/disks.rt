//! What a person is told of the journal's file: why the system refused a call, that there is no file,
//! or that another run has it open.
ghost use Rattle.std.specs.Prelude.{All, IfOk, IfSome};
ghost use Rattle.terminal_text.specs.Shown.{IsShown};

use std::alloc::{AllocError, Global};
use std::io::ErrorKind;
use terminal_text::{quote, say, shown};

/// How many bytes of a path are told.
const MOST_TOLD: usize = 200;

/// What is told of each cause.
const CAUSES: [(ErrorKind, &str); 8] = [
    (ErrorKind::IsADirectory, "it is a folder"),
    (
        ErrorKind::NotFound,
        "a folder on the way to it is not there",
    ),
    (
        ErrorKind::NotADirectory,
        "a file stands on the way to it where a folder should be",
    ),
    (ErrorKind::PermissionDenied, "you have no right to do so"),
    (ErrorKind::StorageFull, "there is no room on the disk"),
    (
        ErrorKind::QuotaExceeded,
        "your share of the disk is used up",
    ),
    (ErrorKind::FileTooLarge, "it may not become larger"),
    (ErrorKind::ReadOnlyFilesystem, "its disk is read-only"),
];

/// What is told of a cause; none where that is not known.
fn told_of(cause: ErrorKind) -> Option<&'static str> {
    for (kind, told) in &CAUSES {
        if *kind == cause {
            return Some(*told);
        }
    }
    None
}

/// Appends a path.
fn say_path(text: &mut Vec<u8>, path: &str) -> Result<(), AllocError> {
    let bytes = path.as_bytes();
    say(text, "`")?;
    quote(text, &bytes[..bytes.len().min(MOST_TOLD)])?;
    say(text, "`")
}

/// The text on a file that failed for this cause; none if nothing is known of it. It fails only for
/// want of memory.
pub fn failed_text(
    alloc: Global,
    path: &str,
    cause: Option<ErrorKind>,
) -> Result<Option<Vec<u8>>, AllocError>
    ensures safe { IfOk result (λ told. IfSome told (λ text. All IsShown text.items)) }
{
    let Some(told) = cause.and_then(told_of) else {
        return Ok(None);
    };
    let mut text = Vec::new(alloc);
    say(&mut text, "The file ")?;
    say_path(&mut text, path)?;
    say(&mut text, " could not be opened, read or written: ")?;
    say(&mut text, told)?;
    say(
        &mut text,
        ". What was written to the journal before is kept.\n",
    )?;
    Ok(Some(shown(alloc, &text)?))
}

/// The text on a file that is not there. It fails only for want of memory.
pub fn missing_text(alloc: Global, path: &str) -> Result<Vec<u8>, AllocError>
    ensures safe { IfOk result (λ text. All IsShown text.items) }
{
    let mut text = Vec::new(alloc);
    say(&mut text, "There is no file ")?;
    say_path(&mut text, path)?;
    say(&mut text, ": it is read as an empty journal.\n")?;
    shown(alloc, &text)
}

/// The text on a journal that another run has open. It fails only for want of memory.
pub fn other_run_text(alloc: Global, path: &str) -> Result<Vec<u8>, AllocError>
    ensures safe { IfOk result (λ text. All IsShown text.items) }
{
    let mut text = Vec::new(alloc);
    say(&mut text, "Another run has the journal ")?;
    say_path(&mut text, path)?;
    say(
        &mut text,
        " open, and two that write to it damage it: stop this one, and begin it again when the \
            other one has ended.\n",
    )?;
    shown(alloc, &text)
}
