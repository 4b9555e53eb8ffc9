//! Texts that are no PDN.
ghost use Rattle.std.specs.Prelude.{◌≤◌, length};

use crate::fen_lines::say_fen_line;
use crate::signs::{byte_advice, follows_doubled_brace};
use crate::tag_faults::say_tag_fault;
use opening_report::Refusal;
use std::alloc::AllocError;
use terminal_text::{quote, say, say_excerpt};

/// How many bytes of a word or a tag are quoted at most.
pub(crate) const QUOTE_WIDTH: usize = 40;

/// The word at a place: digits, `-`, `x` and `/`, cut to the width.
pub(crate) fn word_from(source: &[u8], at: usize) -> &[u8]
    requires { at ≤ length source.now }
{
    let most = source.len().min(at.saturating_add(QUOTE_WIDTH));
    for place in at..most {
        let b = source[place];
        if !(b.is_ascii_digit() || b == b'-' || b == b'x' || b == b'/') {
            return &source[at..place];
        }
    }
    &source[at..most]
}

/// What is wrong with a word that is no move, number or result.
fn word_advice(word: &[u8]) -> &'static str {
    if word.contains(&b'/') {
        "A draw is written 1/2-1/2 (or 1-1).\n"
    } else if word.contains(&b'x') && word.contains(&b'-') {
        "A capture has `x` between all its squares, a step has `-` between two.\n"
    } else if word.ends_with(b"-") || word.ends_with(b"x") {
        "The move goes on with a square, without a blank.\n"
    } else {
        "A move is two squares from 1 to 32 with `-`, or two to thirteen with `x` between each \
            two: `11-15`, `15x22`, `1x10x17`. Results are 1-0, 0-1, 1/2-1/2, 2-0, 0-2, 1-1, 0-0 \
            and `*`.\n"
    }
}

/// Appends what is wrong with the word at a place.
fn say_word(text: &mut Vec<u8>, source: &[u8], at: usize) -> Result<(), AllocError>
    requires { at ≤ length source.now }
{
    let word = word_from(source, at);
    say(text, "`")?;
    quote(text, word)?;
    say(text, "` is no move, move number or result. ")?;
    say(text, word_advice(word))
}

/// Appends what is wrong with the byte at a place, which begins nothing.
fn say_bad_byte(text: &mut Vec<u8>, source: &[u8], at: usize) -> Result<(), AllocError>
    requires { at ≤ length source.now }
{
    if say_fen_line(text, source, at)? {
        return Ok(());
    }
    say(text, byte_advice(source, at))?;
    if follows_doubled_brace(source, at) {
        say(
            text,
            "The comment before it has a second `{`, which opens nothing: the first `}` has closed it.\n",
        )?;
    }
    Ok(())
}

/// Appends why the text is no PDN, with the text as it stands at the byte that the refusal names, or
/// where its tag is wrong.
pub(crate) fn say_pdn(
    text: &mut Vec<u8>,
    refusal: &Refusal,
    source: &[u8],
    at: usize,
) -> Result<(), AllocError>
    requires { at ≤ length source.now }
{
    if let Refusal::PdnOpenTag(_) = refusal {
        return say_tag_fault(text, source, at);
    }
    say_excerpt(text, source, at)?;
    match refusal {
        Refusal::PdnBadByte(_) => say_bad_byte(text, source, at),
        Refusal::PdnOpenComment(_) => say(text, "This comment has no `}`.\n"),
        Refusal::PdnOpenVariation(_) => say(text, "This variation has no `)` of its own.\n"),
        _ => say_word(text, source, at),
    }
}
