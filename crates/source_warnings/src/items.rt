//! The items of a source, and what they say.
ghost use Rattle.std.specs.Prelude.{◌≡◌, ◌<◌, ◌≤◌, false, drop, length, IfNone, IfOk, IfSome};
ghost use Rattle.pdn_text.specs.Grammar.{IsItemOfText, IsStop, form_at};
ghost use Rattle.source_warnings.specs.Items.{begins_with_digit, is_line_comment, number_of, runs_on, sign_kind, skipped_kind};

use crate::tags::{TagKind, tag_kind};
use pdn_text::{Item, PdnRefusal, Sign, item_at};
use std::alloc::{AllocError, Global};

/// The numbers of moves from here on are not told apart.
pub(crate) const MOST_NUMBER: usize = 1_000_000;

/// What an item says of a game, and whether it goes on too far.
#[derive(Clone, Copy)]
pub(crate) enum Kind {
    /// Nothing.
    Skipped,
    /// Nothing: it is a comment up to the end of the line that goes on behind a byte 13 alone.
    RunsOn,
    /// The number of a move.
    Number(usize),
    /// A tag.
    Tag(TagKind),
    /// A move.
    Move,
    /// A result.
    Result,
}

/// The item at a place of a source; none where the source ends, or no item stands there.
pub(crate) fn next_item(alloc: Global, source: &[u8], at: usize) -> Result<Option<Item>, AllocError>
    requires { at ≤ length source.now }
    ensures stands { IfOk result (λ found. IfSome found
        (IsItemOfText (form_at source.now at) at (drop at source.now))) }
    ensures onward { IfOk result (λ found. IfSome found (λ item. at < item.end)) }
    ensures inside { IfOk result (λ found. IfSome found (λ item. item.end ≤ length source.now)) }
    ensures stop { IfOk result (λ found. IfNone found (IsStop source.now at)) }
{
    if at == source.len() {
        return Ok(None);
    }
    match item_at(alloc, source, at) {
        Ok(item) => Ok(Some(item)),
        Err(PdnRefusal::Memory(error)) => Err(error),
        Err(_) => Ok(None),
    }
}

/// The bytes of an item are a comment up to the end of the line.
fn is_line_comment(bytes: &[u8]) -> bool
    ensures { result ≡ is_line_comment bytes.now }
{
    match bytes {
        [first, ..] => *first == b';' || *first == b'%',
        [] => false,
    }
}

/// The line, without its end, goes on behind a byte 13 alone.
fn runs_on(line: &[u8]) -> bool
    ensures { result ≡ runs_on false line.now }
{
    let mut is_behind_return = false;
    for byte in line {
        if is_behind_return && *byte != b'\r' {
            return true;
        }
        is_behind_return = *byte == b'\r';
    }
    false
}

/// The bytes begin with a digit.
fn begins_with_digit(bytes: &[u8]) -> bool
    ensures { result ≡ begins_with_digit bytes.now }
{
    match bytes {
        [first, ..] => b'0' <= *first && *first <= b'9',
        [] => false,
    }
}

/// The number of these digits, as far as numbers of moves are told apart.
fn number_of(digits: &[u8]) -> usize
    ensures { result ≡ number_of 0 digits.now }
{
    let mut number = 0;
    for digit in digits {
        number = 10 * number.min(MOST_NUMBER) + usize::from(digit.saturating_sub(b'0'));
    }
    number
}

/// What an item of these bytes is that begins or ends no game.
fn skipped_kind(bytes: &[u8]) -> Kind
    ensures { result ≡ skipped_kind bytes.now }
{
    if is_line_comment(bytes) && runs_on(bytes) {
        Kind::RunsOn
    } else if begins_with_digit(bytes) {
        Kind::Number(number_of(bytes))
    } else {
        Kind::Skipped
    }
}

/// What an item of these bytes is that says this of a game.
pub(crate) fn sign_kind(bytes: &[u8], sign: Option<Sign>) -> Kind
    ensures { result ≡ sign_kind bytes.now sign }
{
    match sign {
        None => skipped_kind(bytes),
        Some(Sign::Tagged(tag)) => Kind::Tag(tag_kind(tag.name.as_slice(), tag.value.as_slice())),
        Some(Sign::Moved(_)) => Kind::Move,
        Some(Sign::Ended) => Kind::Result,
    }
}
