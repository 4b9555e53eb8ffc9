//! What is wrong with a tag, and where.
ghost use Rattle.std.specs.Prelude.{◌≤◌, ◌<◌, length};

use std::alloc::AllocError;
use terminal_text::{say, say_excerpt};

/// What is wrong with a tag at a place.
#[derive(Clone, Copy, PartialEq, Eq, Debug)]
enum TagFault {
    /// No letter begins a name.
    Nameless,
    /// The byte may not stand in a name.
    NameByte,
    /// No blank stands between the name and the value.
    Unspaced,
    /// No quotation mark opens the value.
    Unquoted,
    /// A quotation mark of another kind stands there.
    OtherQuote,
    /// The line ends within the value.
    LineEnd,
    /// The text ends within the tag.
    TextEnd,
    /// Another byte than `]` stands behind the value.
    Unclosed,
}

/// The byte is a blank of a tag: a space or a tab.
fn is_blank(byte: u8) -> bool {
    byte == b' ' || byte == b'\t'
}

/// The byte may stand in a name.
fn is_name_byte(byte: u8) -> bool {
    byte.is_ascii_alphanumeric() || byte == b'_'
}

/// The first place from `at` on that has no blank, or the end of the source.
fn behind_blanks(source: &[u8], at: usize) -> usize
    requires { at ≤ length source.now }
    ensures { (at ≤ result) × (result ≤ length source.now) }
{
    for place in at..source.len() {
        if !is_blank(source[place]) {
            return place;
        }
    }
    source.len()
}

/// The first place from `at` on whose byte may not stand in a name, or the end of the source.
fn behind_name(source: &[u8], at: usize) -> usize
    requires { at ≤ length source.now }
    ensures { (at ≤ result) × (result ≤ length source.now) }
{
    for place in at..source.len() {
        if !is_name_byte(source[place]) {
            return place;
        }
    }
    source.len()
}

/// The place of the byte that ends the value from `at` on: its quotation mark, or the end of its
/// line; or the end of the source.
fn end_of_value(source: &[u8], at: usize) -> usize
    requires { at ≤ length source.now }
    ensures { (at ≤ result) × (result ≤ length source.now) }
{
    let mut is_escaped = false;
    for place in at..source.len() {
        let byte = source[place];
        if byte == b'\n' || byte == b'\r' || (byte == b'"' && !is_escaped) {
            return place;
        }
        is_escaped = byte == b'\\' && !is_escaped;
    }
    source.len()
}

/// What is wrong where the name of a tag ends, if anything.
fn fault_of_name(source: &[u8], ends: usize) -> Option<TagFault> {
    match source.get(ends) {
        None => Some(TagFault::TextEnd),
        Some(b' ' | b'\t') => None,
        Some(b'"') => Some(TagFault::Unspaced),
        Some(b'\n' | b'\r' | b']') => Some(TagFault::Unquoted),
        Some(_) => Some(TagFault::NameByte),
    }
}

/// What is wrong where a quotation mark is due that opens a value, if anything.
fn fault_of_opening(source: &[u8], at: usize) -> Option<TagFault>
    requires { at ≤ length source.now }
{
    match &source[at..] {
        [] => Some(TagFault::TextEnd),
        [b'"', ..] => None,
        [b'\'' | b'`', ..] => Some(TagFault::OtherQuote),
        [0xE2, 0x80, ..] => Some(TagFault::OtherQuote),
        [0x91..=0x94, ..] => Some(TagFault::OtherQuote),
        _ => Some(TagFault::Unquoted),
    }
}

/// What is wrong with the value whose first byte stands at `at`, or behind it, and where.
fn fault_of_value(source: &[u8], at: usize) -> (usize, TagFault)
    requires { at ≤ length source.now }
    ensures { result.0 ≤ length source.now }
{
    let end = end_of_value(source, at);
    if end == source.len() {
        return (end, TagFault::TextEnd);
    }
    if source[end] != b'"' {
        return (end, TagFault::LineEnd);
    }
    let closing = behind_blanks(source, end + 1);
    if closing == source.len() {
        return (closing, TagFault::TextEnd);
    }
    (closing, TagFault::Unclosed)
}

/// What is wrong with the tag that begins at a place, and where.
fn fault_of_tag(source: &[u8], at: usize) -> (usize, TagFault)
    requires { at < length source.now }
    ensures { result.0 ≤ length source.now }
{
    let begins = behind_blanks(source, at + 1);
    if begins < source.len() && !source[begins].is_ascii_alphabetic() {
        return (begins, TagFault::Nameless);
    }
    let ends = behind_name(source, begins);
    if let Some(fault) = fault_of_name(source, ends) {
        return (ends, fault);
    }
    let opening = behind_blanks(source, ends);
    if let Some(fault) = fault_of_opening(source, opening) {
        return (opening, fault);
    }
    if opening == source.len() {
        return (opening, TagFault::TextEnd);
    }
    fault_of_value(source, opening + 1)
}

/// A fault in words.
fn advice(fault: TagFault) -> &'static str {
    match fault {
        TagFault::Nameless => "At the mark the tag's name is due, which begins with a letter.\n",
        TagFault::NameByte =>
            "At the mark stands what no name of a tag has: names are letters, digits and `_`.\n",
        TagFault::Unspaced => "At the mark a blank is due, between the tag's name and its value.\n",
        TagFault::Unquoted => "At the mark a quotation mark is due, which opens the tag's value.\n",
        TagFault::OtherQuote =>
            "At the mark stands a quotation mark of another kind. Values stand between two `\"`.\n",
        TagFault::LineEnd => "At the mark the line ends, and the tag's value is not closed.\n",
        TagFault::TextEnd => "At the mark the text ends, and the tag is not closed.\n",
        TagFault::Unclosed =>
            "At the mark `]` is due. A quotation mark within a value is written \\\".\n",
    }
}

/// Appends what is wrong with the tag that begins at a place, with a mark where it is wrong.
pub(crate) fn say_tag_fault(text: &mut Vec<u8>, source: &[u8], at: usize) -> Result<(), AllocError>
    requires { at ≤ length source.now }
{
    if at < source.len() {
        let (place, fault) = fault_of_tag(source, at);
        say_excerpt(text, source, place)?;
        say(text, advice(fault))?;
    }
    say(
        text,
        "A tag is a name, a blank and a value in quotation marks, all on one line: [Event \
            \"Club\"].\n",
    )
}
