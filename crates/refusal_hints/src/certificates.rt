//! Certificates: the line of an entry, and what is wrong with a text.
ghost use Rattle.std.specs.Prelude.{◌≤◌, IfSome, length};

use opening_report::Refusal;
use std::alloc::AllocError;
use terminal_text::{say, say_excerpt, say_number};

/// The next number, up to the last.
fn one_more(n: usize) -> usize {
    n.saturating_add(1)
}

/// The place of the first byte of a line, counted from 1, where every line ends with LF; none where
/// there is no such line.
fn start_of_line(source: &[u8], line: usize) -> Option<usize>
    ensures { IfSome result (λ at. at ≤ length source.now) }
{
    if line == 1 {
        return Some(0);
    }
    let mut lines = 1;
    for place in 0..source.len() {
        if source[place] == b'\n' {
            lines = one_more(lines);
            if lines == line {
                return Some(place + 1);
            }
        }
    }
    None
}

/// A line that begins so begins a part.
fn begins_part(rest: &[u8]) -> bool {
    rest.starts_with(b"win ") || rest.starts_with(b"hold ")
}

/// The line of the first line of a part, both counted from 1.
fn line_of_part(source: &[u8], part: usize) -> Option<usize> {
    let mut lines = 1;
    let mut parts = 0;
    for place in 0..source.len() {
        if source[place] == b'\n' {
            lines = one_more(lines);
            if begins_part(&source[place + 1..]) {
                parts = one_more(parts);
                if parts == part {
                    return Some(lines);
                }
            }
        }
    }
    None
}

/// Appends a line by its number, and its text as it stands.
fn say_line(text: &mut Vec<u8>, source: &[u8], line: usize) -> Result<(), AllocError> {
    say_number(text, "line ", line as u64, ":\n")?;
    match start_of_line(source, line) {
        Some(at) => say_excerpt(text, source, at),
        None => Ok(()),
    }
}

/// Appends the line of an entry of a part; of the part's first line, where the entry is 0.
fn say_entry(
    text: &mut Vec<u8>,
    source: &[u8],
    part: usize,
    entry: usize,
) -> Result<(), AllocError> {
    match line_of_part(source, part) {
        Some(line) => say_line(text, source, line.saturating_add(entry)),
        None => Ok(()),
    }
}

/// Appends why the text is no certificate's.
pub(crate) fn say_text_fault(
    text: &mut Vec<u8>,
    refusal: &Refusal,
    source: &[u8],
) -> Result<(), AllocError> {
    match refusal {
        Refusal::TextBadLine(line) => {
            say_line(text, source, *line)?;
            say(
                text,
                "This line may not stand there. The text is `certificate 1`, `table K`, `position \
                    FEN`, `claim CLAIM`, then each part with as many entries as its first line \
                    says, and `end`; each line ends with LF alone.\n",
            )
        }
        Refusal::TextBadFen(line) => {
            say_line(text, source, *line)?;
            say(
                text,
                "The position of this line is no FEN as `report` prints it: White's squares \
                    first, in rising order, without blanks and ranges.\n",
            )
        }
        Refusal::TextDoubled(line) => {
            say_line(text, source, *line)?;
            say(
                text,
                "The position of this line stands in this part already.\n",
            )
        }
        Refusal::TextAfterEnd(line) => {
            say_line(text, source, *line)?;
            say(text, "Nothing may stand behind the line `end`.\n")
        }
        _ => say(
            text,
            "The text ends before its line `end`, or its last line has no line end: was the file \
                copied whole?\n",
        ),
    }
}

/// The part and the entry that a refusal names of a certificate, which was read; none where it names none.
fn entry_of(refusal: &Refusal) -> Option<(usize, usize)> {
    match refusal {
        Refusal::BadRank { part, entry } => Some((*part, *entry)),
        Refusal::BadMove { part, entry } => Some((*part, *entry)),
        Refusal::Missing { part, entry } => Some((*part, *entry)),
        Refusal::StuckHolder { part, entry } => Some((*part, *entry)),
        Refusal::CheckNoRoot(part) => Some((*part, 0)),
        _ => None,
    }
}

/// Why a certificate, which was read, is not good.
fn why_not_good(refusal: &Refusal) -> &'static str {
    match refusal {
        Refusal::BadRank { .. } =>
            "A position behind this entry has a rank that is not below its own.\n",
        Refusal::BadMove { .. } =>
            "This entry does not choose a legal move where one is due, or chooses one where none is.\n",
        Refusal::Missing { .. } =>
            "A position that a move of this entry leads to has no entry in this part, and the table does not settle it.\n",
        Refusal::StuckHolder { .. } =>
            "The side that is to hold has no move here, and so has lost.\n",
        Refusal::CheckNoRoot(_) => "This part has no entry of the certificate's own position.\n",
        _ =>
            "A claim that a side wins or holds needs one part, of that side; a draw needs a hold part of black and one of white.\n",
    }
}

/// Appends why a certificate, which was read, is not good.
pub(crate) fn say_check_fault(
    text: &mut Vec<u8>,
    refusal: &Refusal,
    source: &[u8],
) -> Result<(), AllocError> {
    if let Some((part, entry)) = entry_of(refusal) {
        say_entry(text, source, part, entry)?;
    }
    say(text, why_not_good(refusal))
}
