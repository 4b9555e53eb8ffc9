//! The texts of tags.
ghost use Rattle.std.specs.Prelude.{◌≡◌, ◌≤◌, IfOk, MatchOption, None, Some, length, not, reverse};
ghost use Rattle.std.specs.Char.{is_ascii_alphanumeric, is_ascii_digit};
ghost use Rattle.std.specs.List.{list_all, position_or_len};
ghost use Rattle.archive_words.specs.Tags.{before_blanks, behind_blanks, behind_sign, first_word, game_kind, inked_len, is_continental, is_english, is_ink, is_name_byte, is_number, is_rarer, is_southern, is_strict_byte, is_strict_name, is_word, kind_named, name_len, tag_at, tag_name, tag_of, unescaped, unquoted, value_behind};

use std::alloc::{AllocError, Global};

/// What stands between `[` and `]`.
#[derive(Clone, Copy, Debug)]
pub struct TagText<'a> {
    pub name: &'a [u8],
    /// The value without quotation marks around it.
    pub value: &'a [u8],
    /// Quotation marks stand around the value.
    pub is_quoted: bool,
}

/// The tags that say something of a game beside who played it.
#[derive(Clone, Copy, PartialEq, Eq, Debug)]
pub enum TagName {
    Event,
    Fen,
    Position,
    SetUp,
    GameType,
    Variant,
    Result,
    Other,
}

/// The kind of a game, as a tag `GameType` or `Variant` names it.
#[derive(Clone, Copy, PartialEq, Eq, Debug)]
pub enum GameKind {
    English,
    /// Another kind of draughts.
    Other,
    /// The tag does not say.
    Unknown,
}

/// A byte of a name; the bytes of letters beside A to Z are from 128 on.
fn is_name_byte(byte: u8) -> bool
    ensures { result ≡ is_name_byte byte }
{
    byte.is_ascii_alphanumeric() || byte == b'_' || byte >= 128
}

/// The byte is no blank.
fn is_ink(byte: u8) -> bool
    ensures { result ≡ is_ink byte }
{
    byte > 32
}

/// How many blanks stand at the front.
fn blanks_before(text: &[u8]) -> usize
    ensures value { result ≡ position_or_len is_ink text.now }
    ensures inside { result ≤ length text.now }
{
    text.iter().position(|b| is_ink(*b)).unwrap_or(text.len())
}

/// How many blanks stand at the end.
fn blanks_at_end(text: &[u8]) -> usize
    ensures value { result ≡ position_or_len is_ink (reverse text.now) }
    ensures inside { result ≤ length text.now }
{
    text.iter()
        .rev()
        .position(|b| is_ink(*b))
        .unwrap_or(text.len())
}

/// Without blanks at its front.
fn behind_blanks(text: &[u8]) -> &[u8]
    ensures { result.now ≡ behind_blanks text.now }
{
    &text[blanks_before(text)..]
}

/// Without blanks at its end.
fn before_blanks(text: &[u8]) -> &[u8]
    ensures { result.now ≡ before_blanks text.now }
{
    &text[..text.len() - blanks_at_end(text)]
}

/// The value, and whether quotation marks stand around it. A mark may be missing at one side.
fn unquoted(text: &[u8]) -> (&[u8], bool)
    ensures { (result.0.now, result.1) ≡ unquoted text.now }
{
    match text {
        [b'"', value @ .., b'"'] => (value, true),
        [b'"', value @ ..] => (value, false),
        [value @ .., b'"'] => (value, false),
        [b'\'', value @ .., b'\''] => (value, false),
        value => (value, false),
    }
}

/// Without a colon or `=` at its front, and without the blanks behind that.
fn behind_sign(text: &[u8]) -> &[u8]
    ensures { result.now ≡ behind_sign text.now }
{
    match text {
        [b':', value @ ..] => behind_blanks(value),
        [b'=', value @ ..] => behind_blanks(value),
        value => value,
    }
}

/// The value that stands behind a name, and whether quotation marks stand around it.
fn value_behind(rest: &[u8]) -> (&[u8], bool)
    ensures { (result.0.now, result.1) ≡ value_behind rest.now }
{
    unquoted(before_blanks(behind_sign(behind_blanks(rest))))
}

/// How many bytes of a name stand at the front.
fn name_len(text: &[u8]) -> usize
    ensures value { result ≡ name_len text.now }
    ensures inside { result ≤ length text.now }
{
    text.iter()
        .position(|b| !is_name_byte(*b))
        .unwrap_or(text.len())
}

/// The tag of what begins with a name; none where no name stands at its front.
fn tag_at(text: &[u8]) -> Option<TagText<'_>>
    ensures { MatchOption result (tag_at text.now ≡ None)
        (λ tag. tag_at text.now ≡ Some (tag.name.now, (tag.value.now, tag.is_quoted))) }
{
    let len = name_len(text);
    if len == 0 || text[0].is_ascii_digit() {
        return None;
    }
    let (value, is_quoted) = value_behind(&text[len..]);
    Some(TagText {
        name: &text[..len],
        value,
        is_quoted,
    })
}

/// The tag of what stands between `[` and `]`; none where no name stands at its front.
pub fn tag_text(text: &[u8]) -> Option<TagText<'_>>
    ensures { MatchOption result (tag_of text.now ≡ None)
        (λ tag. tag_of text.now ≡ Some (tag.name.now, (tag.value.now, tag.is_quoted))) }
{
    tag_at(behind_blanks(text))
}

/// A byte of a name of the strict profile.
fn is_strict_byte(byte: u8) -> bool
    ensures { result ≡ is_strict_byte byte }
{
    byte.is_ascii_alphanumeric() || byte == b'_'
}

/// All bytes are those of such a name.
fn are_strict_bytes(bytes: &[u8]) -> bool
    ensures { result ≡ list_all is_strict_byte bytes.now }
{
    bytes.iter().all(|b| is_strict_byte(*b))
}

/// The name is one of the strict profile: a letter A to Z, and then letters, digits and `_`.
pub fn is_strict_name(name: &[u8]) -> bool
    ensures { result ≡ is_strict_name name.now }
{
    match name.first() {
        Some(first) => first.is_ascii_alphabetic() && are_strict_bytes(name),
        None => false,
    }
}

/// The text is this word. Capital and small letters are the same.
fn is_word(text: &[u8], word: &[u8]) -> bool
    ensures { result ≡ is_word text.now word.now }
{
    text.eq_ignore_ascii_case(word)
}

/// Which tag it is. Capital and small letters are the same.
pub fn tag_name(name: &[u8]) -> TagName
    ensures { result ≡ tag_name name.now }
{
    if is_word(name, b"Event") {
        TagName::Event
    } else if is_word(name, b"FEN") {
        TagName::Fen
    } else if is_word(name, b"Position") {
        TagName::Position
    } else if is_word(name, b"SetUp") {
        TagName::SetUp
    } else if is_word(name, b"GameType") {
        TagName::GameType
    } else if is_word(name, b"Variant") {
        TagName::Variant
    } else if is_word(name, b"Result") {
        TagName::Result
    } else {
        TagName::Other
    }
}

/// Appends a value without its escapes: `\"` as `"`, `\\` as `\`.
pub fn unescaped(alloc: Global, value: &[u8]) -> Result<Vec<u8>, AllocError>
    ensures { IfOk result (λ text. text.items ≡ unescaped value.now) }
{
    let mut text = Vec::new(alloc);
    let mut is_escaped = false;
    for b in value {
        let begins = *b == b'\\' && !is_escaped;
        if !begins {
            text.push(*b)?;
        }
        is_escaped = begins;
    }
    Ok(text)
}

/// How many letters and digits stand at the front.
fn word_len(value: &[u8]) -> usize
    ensures value { result ≡ position_or_len (λ b. not (is_ascii_alphanumeric b)) value.now }
    ensures inside { result ≤ length value.now }
{
    value
        .iter()
        .position(|b| !b.is_ascii_alphanumeric())
        .unwrap_or(value.len())
}

/// The letters and digits at the front.
fn first_word(value: &[u8]) -> &[u8]
    ensures { result.now ≡ first_word value.now }
{
    &value[..word_len(value)]
}

/// A word for English draughts, or its number.
fn is_english(word: &[u8]) -> bool
    ensures { result ≡ is_english word.now }
{
    is_word(word, b"21")
        || is_word(word, b"English")
        || is_word(word, b"American")
        || is_word(word, b"Anglo")
        || is_word(word, b"Checkers")
}

/// A name of another game.
fn is_continental(word: &[u8]) -> bool
    ensures { result ≡ is_continental word.now }
{
    is_word(word, b"Russian")
        || is_word(word, b"International")
        || is_word(word, b"Polish")
        || is_word(word, b"Italian")
}

/// A name of another game.
fn is_southern(word: &[u8]) -> bool
    ensures { result ≡ is_southern word.now }
{
    is_word(word, b"Brazilian")
        || is_word(word, b"Pool")
        || is_word(word, b"Spanish")
        || is_word(word, b"Turkish")
}

/// A name of another game.
fn is_rarer(word: &[u8]) -> bool
    ensures { result ≡ is_rarer word.now }
{
    is_word(word, b"Frisian")
        || is_word(word, b"Canadian")
        || is_word(word, b"Czech")
        || is_word(word, b"Suicide")
        || is_word(word, b"Losing")
}

/// All bytes are digits.
fn are_digits(word: &[u8]) -> bool
    ensures { result ≡ list_all is_ascii_digit word.now }
{
    word.iter().all(|b| b.is_ascii_digit())
}

/// A number.
fn is_number(word: &[u8]) -> bool
    ensures { result ≡ is_number word.now }
{
    !word.is_empty() && are_digits(word)
}

/// The kind that a word names.
fn kind_named(word: &[u8]) -> GameKind
    ensures { result ≡ kind_named word.now }
{
    if is_english(word) {
        GameKind::English
    } else if is_number(word) || is_continental(word) || is_southern(word) || is_rarer(word) {
        GameKind::Other
    } else {
        GameKind::Unknown
    }
}

/// The kind that a tag `GameType` or `Variant` names: 21 and words for it, another number and words
/// for other kinds.
pub fn game_kind(value: &[u8]) -> GameKind
    ensures { result ≡ game_kind value.now }
{
    kind_named(first_word(value))
}
