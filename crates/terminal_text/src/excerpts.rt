//! The text as it stands at a place, with a mark under it.
ghost use Rattle.std.specs.Prelude.{◌≡◌, ◌≤◌, ◌+◌, ◌++◌, ℕ, List, length, OnOk};
ghost use Rattle.std.specs.List.{flat_map};
ghost use Rattle.terminal_text.specs.Excerpts.{IsExcerpt, IsExcerptText, blanks_for, excerpt_text};

use crate::places::place_of;
use crate::texts::{is_printable, quote, say};
use std::alloc::AllocError;

/// How many bytes of a source an excerpt has at most.
pub const EXCERPT_WIDTH: usize = 64;

/// How many bytes of them stand before the place at most.
const WIDTH_BEFORE: usize = 40;

/// A piece of a source: from the one place to before the other, each a byte from 0.
#[derive(Clone, Copy, PartialEq, Eq, Debug)]
pub struct Excerpt {
    pub first: usize,
    pub behind: usize,
}

/// The place of the first line end from `at` on, but at most `most`.
fn line_end(source: &[u8], at: usize, most: usize) -> usize
    requires { (at ≤ most) × (most ≤ length source.now) }
    ensures { (at ≤ result) × (result ≤ most) }
{
    for place in at..most {
        if source[place] == b'\n' || source[place] == b'\r' {
            return place;
        }
    }
    most
}

/// The line round a byte of the source, or round its end, without its line end, cut to the width.
pub fn excerpt_of(source: &[u8], at: usize) -> Excerpt
    requires { at ≤ length source.now }
    ensures { IsExcerpt source.now at result.first result.behind }
{
    let before = (place_of(source, at).column - 1).min(WIDTH_BEFORE);
    let first = at - before;
    let most = source.len().min(first + EXCERPT_WIDTH);
    Excerpt {
        first,
        behind: line_end(source, at, most),
    }
}

/// Appends as many blanks as a byte of a source takes where it is quoted.
fn push_blanks_for(text: &mut Vec<u8>, b: u8) -> Result<(), AllocError>
    ensures { OnOk result (text.new.items ≡ text.old.items ++ blanks_for b) }
{
    if is_printable(b) {
        say(text, " ")
    } else {
        say(text, "    ")
    }
}

/// Appends as many blanks as these bytes of a source take where they are quoted.
fn push_blanks(text: &mut Vec<u8>, bytes: &[u8]) -> Result<(), AllocError>
    ensures { OnOk result (text.new.items
        ≡ text.old.items ++ flat_map blanks_for bytes.now) }
{
    for b in bytes {
        push_blanks_for(text, *b)?;
    }
    Ok(())
}

/// Appends the piece of a source, and under it a mark below the byte.
fn push_excerpt(
    text: &mut Vec<u8>,
    source: &[u8],
    at: usize,
    excerpt: Excerpt,
) -> Result<(), AllocError>
    requires { IsExcerpt source.now at excerpt.first excerpt.behind }
    ensures { OnOk result (text.new.items ≡ text.old.items
        ++ excerpt_text source.now at excerpt.first excerpt.behind) }
{
    say(text, "  ")?;
    quote(text, &source[excerpt.first..excerpt.behind])?;
    say(text, "\n  ")?;
    push_blanks(text, &source[excerpt.first..at])?;
    say(text, "^\n")
}

/// Appends the line round a byte of the source, or round its end, cut to the width, and under it a
/// mark below the byte.
pub fn say_excerpt(text: &mut Vec<u8>, source: &[u8], at: usize) -> Result<(), AllocError>
    requires { at ≤ length source.now }
    ensures { OnOk result ((shown_text : List ℕ) × (IsExcerptText source.now at shown_text
        × (text.new.items ≡ text.old.items ++ shown_text))) }
{
    let excerpt = excerpt_of(source, at);
    push_excerpt(text, source, at, excerpt)
}
