//! Tags.
ghost use Rattle.std.specs.Prelude.{◌≡◌, ◌<◌, ◌≤◌, length, drop, false, slice_index, IfOk, IfSome, option_map};
ghost use Rattle.pdn_text.specs.Bytes.{is_blank, is_line_end};
ghost use Rattle.pdn_text.specs.Scans.{tag_at, name_at, value_at, behind_blanks};

use crate::game::Tag;
use crate::runs::{blanks_len, name_len};
use shared_words::ItemList;
use std::alloc::{AllocError, Global};

/// The tag that begins at the front of `rest`, with `[`, and what stands behind it; none where no
/// tag stands there.
#[tactic(auto, unfolding(crate::specs::Scans::tag_at))]
pub(crate) fn tag_at(alloc: Global, rest: &[u8]) -> Result<Option<(Tag, &[u8])>, AllocError>
    requires { 0 < length rest.now }
    ensures value { IfOk result (λ found. tag_at rest.now ≡ option_map
        (λ x. (x.0, x.1.now)) found) }
    ensures inside { IfOk result (λ found. IfSome found (λ x. length x.1.now < length rest.now)) }
{
    let Some((name, quoted)) = name_at(behind_front(rest)) else {
        return Ok(None);
    };
    let Some((value, after)) = value_at(alloc, quoted)? else {
        return Ok(None);
    };
    let closing = behind_blanks(after);
    if front_byte(closing) != b']' {
        return Ok(None);
    }
    let name = ItemList::from_vec(name.to_vec(alloc)?);
    Ok(Some((Tag { name, value }, behind_front(closing))))
}

/// The name of a tag, and what stands behind the quotation mark that opens its value.
#[tactic(auto, unfolding(crate::specs::Scans::name_at))]
fn name_at(rest: &[u8]) -> Option<(&[u8], &[u8])>
    ensures value { name_at rest.now ≡ option_map (λ x. (x.0.now, x.1.now)) result }
    ensures inside { IfSome result (λ x. length x.1.now ≤ length rest.now) }
{
    let front = behind_blanks(rest);
    let (name, after) = front.split_at(name_len(front));
    let quoted = behind_blanks(after);
    if front_byte(front).is_ascii_alphabetic()
        && is_blank(front_byte(after))
        && front_byte(quoted) == b'"'
    {
        Some((name, behind_front(quoted)))
    } else {
        None
    }
}

/// The byte at the front, or 0 where the text ends.
fn front_byte(text: &[u8]) -> u8
    ensures { result ≡ slice_index text.now 0 }
{
    match text {
        [byte, ..] => *byte,
        [] => 0,
    }
}

/// What stands behind the byte at the front.
fn behind_front(text: &[u8]) -> &[u8]
    ensures value { result.now ≡ drop 1 text.now }
    ensures inside { length result.now ≤ length text.now }
{
    match text {
        [_, behind @ ..] => behind,
        [] => text,
    }
}

/// The byte is a blank of a tag: a space or a tab.
fn is_blank(byte: u8) -> bool
    ensures { result ≡ is_blank byte }
{
    byte == b' ' || byte == b'\t'
}

/// What stands behind the blanks at the front.
fn behind_blanks(rest: &[u8]) -> &[u8]
    ensures value { result.now ≡ behind_blanks rest.now }
    ensures inside { length result.now ≤ length rest.now }
{
    rest.split_at(blanks_len(rest)).1
}

/// The value of a tag without its escapes, and what stands behind the quotation mark that closes
/// it.
fn value_at(alloc: Global, rest: &[u8]) -> Result<Option<(ItemList<u8>, &[u8])>, AllocError>
    ensures value { IfOk result (λ found. value_at false rest.now ≡ option_map
        (λ x. (x.0, x.1.now)) found) }
    ensures inside { IfOk result (λ found. IfSome found (λ x. length x.1.now ≤ length rest.now)) }
{
    let mut value = Vec::new(alloc);
    let mut escaped = false;
    for (i, byte) in rest.iter().enumerate() {
        if *byte == b'"' && !escaped {
            return Ok(Some((ItemList::from_vec(value), rest.split_at(i + 1).1)));
        }
        if ends_line(*byte) {
            return Ok(None);
        }
        if *byte == b'\\' && !escaped {
            escaped = true;
        } else {
            value.push(*byte)?;
            escaped = false;
        }
    }
    Ok(None)
}

/// The byte ends a line: 10 or 13.
fn ends_line(byte: u8) -> bool
    ensures { result ≡ is_line_end byte }
{
    byte == b'\n' || byte == b'\r'
}
