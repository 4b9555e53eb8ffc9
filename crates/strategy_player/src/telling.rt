//! What a person at a terminal is told of a refusal on standard error.
use crate::ended::Ended;
use crate::refusals::PlayRefusal;
use bench_disk::FileDisk;
use certificate_plays::{LineFault, split_line};
use draughts_board::{Position, Side};
use opening_report::Refusal;
use program_edges::{PathDisk, tell};
use refusal_hints::{failed_text, hint, legal_moves_text, missing_text, say_position};
use std::alloc::{AllocError, Global};
use std::io::ErrorKind;
use terminal_text::{EXCERPT_WIDTH, quote, say, say_number, shown};

/// The line of a source with this number, counted from 1; empty where there is none.
fn line_numbered(source: &[u8], number: usize) -> &[u8] {
    let mut rest = source;
    for _ in 1..number {
        match split_line(rest) {
            Some((_, behind)) => rest = behind,
            None => return &[],
        }
    }
    match split_line(rest) {
        Some((line, _)) => line,
        None => &[],
    }
}

/// What is wrong with a line.
fn fault_text(fault: LineFault) -> &'static str {
    match fault {
        LineFault::BadLine =>
            "This is no move. A move is written as 22-18 or as 22x15x8, alone in its line.\n",
        LineFault::Illegal => "This is no legal move.\n",
        LineFault::Ambiguous => {
            "Captures that lead to different positions are written so: name the squares between.\n"
        }
        LineFault::AfterEnd => "The play is won before this line.\n",
    }
}

/// Appends what is wrong with a line of the source: the line, the position before it, and the moves
/// that may stand there.
fn say_line(
    text: &mut Vec<u8>,
    alloc: Global,
    number: usize,
    position: &Position,
    fault: LineFault,
    source: &[u8],
) -> Result<(), AllocError> {
    let line = line_numbered(source, number);
    say_number(text, "line ", number as u64, ": ")?;
    quote(text, &line[..line.len().min(EXCERPT_WIDTH)])?;
    say(text, "\n")?;
    say(text, fault_text(fault))?;
    say_position(text, position)?;
    if fault == LineFault::AfterEnd {
        return Ok(());
    }
    say(text, "Legal moves: ")?;
    text.extend_from_slice(&legal_moves_text(alloc, position)?)?;
    say(text, "\n")
}

/// Appends that the side does not hold the root.
fn say_not_held(text: &mut Vec<u8>, side: Side) -> Result<(), AllocError> {
    say(
        text,
        match side.other() {
            Side::Black => "Black wins this root. Ask for `black`.\n",
            Side::White => "White wins this root. Ask for `white`.\n",
        },
    )
}

/// The text on a refusal, before it is made safe for a terminal.
fn refusal_text(
    alloc: Global,
    words: &[&str],
    refusal: &PlayRefusal,
    source: &[u8],
) -> Result<Vec<u8>, AllocError> {
    let mut text = Vec::new(alloc);
    match *refusal {
        PlayRefusal::Run(Refusal::Words(_)) => say(
            &mut text,
            "The words are a journal's path, the number of a root, 1 to 65536, and `black` or \
                `white`. See `strategy_player --help`.\n",
        ),
        PlayRefusal::Run(Refusal::TooLong) => say(
            &mut text,
            "Standard input may have at most 1048576 bytes.\n",
        ),
        PlayRefusal::Run(cause) => return hint(alloc, words, &cause, source),
        PlayRefusal::NotHeld(side) => say_not_held(&mut text, side),
        PlayRefusal::Line {
            number,
            position,
            fault,
        } => say_line(&mut text, alloc, number, &position, fault, source),
    }?;
    Ok(text)
}

/// The text for a person on a run that ended so: what can be done about a refusal. `cause` is what the
/// system said of the journal's file when it last refused a call, and `source` what the run read,
/// empty if that did not come to its end. It is printable ASCII and line ends.
fn text_for(
    alloc: Global,
    words: &[&str],
    ended: &Ended,
    cause: Option<ErrorKind>,
    source: &[u8],
) -> Result<Vec<u8>, AllocError> {
    let Some(refusal) = &ended.refusal else {
        return Ok(Vec::new(alloc));
    };
    if matches!(refusal, PlayRefusal::Run(Refusal::Disk))
        && let Some(path) = words.first()
        && let Some(text) = failed_text(alloc, path, cause)?
    {
        return Ok(text);
    }
    shown(alloc, &refusal_text(alloc, words, refusal, source)?)
}

/// Tells it on standard error: nothing else, and nothing where memory is wanting or standard error
/// fails.
pub(crate) fn tell_of(
    rt: &HostRuntime,
    words: &[&str],
    ended: &Ended,
    cause: Option<ErrorKind>,
    source: &[u8],
) {
    if let Ok(text) = text_for(rt.alloc(), words, ended, cause, source) {
        tell(rt, &text);
    }
}

/// Tells of a journal whose file is not there.
pub(crate) fn tell_of_disk(rt: &HostRuntime, path: &str, disk: &PathDisk<FileDisk<&HostRuntime>>) {
    if disk.is_missing()
        && let Ok(text) = missing_text(rt.alloc(), path)
    {
        tell(rt, &text);
    }
}
