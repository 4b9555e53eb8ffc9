//! The tags that a draft takes.
ghost use Rattle.std.specs.Prelude.{◌≡◌, IfOk};
ghost use Rattle.std.specs.List.{list_all};
ghost use Rattle.pdn_openings.specs.Beginning.{is_english};
ghost use Rattle.pdn_text.specs.Bytes.{is_line_end, is_name_byte};
ghost use Rattle.strict_games.specs.Tags.{cleaned, is_name, tag_fault};

use std::alloc::{AllocError, Global};
use thiserror::Error;

/// Why a draft does not take a tag.
#[derive(Clone, Copy, PartialEq, Eq, Debug, Error)]
pub enum TagRefusal {
    /// The name is not a letter followed by letters, digits and `_`.
    #[error("the name of a tag is a letter followed by letters, digits and `_`")]
    Name,
    /// The name is `FEN`: where a game begins is said when it is begun.
    #[error("the position is given by another call")]
    SetUp,
    /// The name is `GameType`, and the value names another game than English draughts.
    #[error("the game is not one of English draughts")]
    OtherGame,
    /// Memory ran out.
    #[error("out of memory")]
    Memory(AllocError),
}

/// A byte of a tag's name: a letter, a digit or `_`.
fn is_name_byte(byte: u8) -> bool
    ensures { result ≡ is_name_byte byte }
{
    byte.is_ascii_alphabetic() || byte.is_ascii_digit() || byte == b'_'
}

/// All bytes are those of a name.
fn are_name_bytes(bytes: &[u8]) -> bool
    ensures { result ≡ list_all is_name_byte bytes.now }
{
    bytes.iter().all(|b| is_name_byte(*b))
}

/// The name is one of a tag.
fn is_name(name: &[u8]) -> bool
    ensures { result ≡ is_name name.now }
{
    match name.first() {
        Some(first) => first.is_ascii_alphabetic() && are_name_bytes(name),
        None => false,
    }
}

/// The value of a `GameType` tag stands for English draughts.
fn is_english(value: &[u8]) -> bool
    ensures { result ≡ is_english value.now }
{
    value == b"21".as_slice() || value.starts_with(b"21,")
}

/// Why a draft does not take this tag, if it does not.
pub(crate) fn tag_fault(name: &[u8], value: &[u8]) -> Option<TagRefusal>
    ensures { result ≡ tag_fault name.now value.now }
{
    if !is_name(name) {
        Some(TagRefusal::Name)
    } else if name == b"FEN".as_slice() {
        Some(TagRefusal::SetUp)
    } else if name == b"GameType".as_slice() && !is_english(value) {
        Some(TagRefusal::OtherGame)
    } else {
        None
    }
}

/// The byte 10 or 13.
fn is_line_end(byte: u8) -> bool
    ensures { result ≡ is_line_end byte }
{
    byte == b'\n' || byte == b'\r'
}

/// The value with a blank for each byte 10 and 13.
pub(crate) fn cleaned(alloc: Global, value: &[u8]) -> Result<Vec<u8>, AllocError>
    ensures { IfOk result (λ clean. clean.items ≡ cleaned value.now) }
{
    value
        .iter()
        .map(|b| if is_line_end(*b) { b' ' } else { *b })
        .collect(alloc)
}
