//! The character at the front of bytes.
ghost use Rattle.std.specs.Prelude.{◌≤◌, ◌<◌, length};

use crate::encoding::Encoding;
use crate::windows::windows_character;
use bstr::decode_utf8;

/// What stands for bytes that are no character.
const NO_CHARACTER: char = '\u{fffd}';

/// A character, and how many bytes it takes.
#[derive(Clone, Copy, PartialEq, Eq, Debug)]
pub(crate) struct Character {
    pub(crate) letter: char,
    pub(crate) width: usize,
}

/// The character of UTF-8 at the front, or that of Windows-1252.
fn byte_character(rest: &[u8]) -> Character
    requires { 0 < length rest.now }
    ensures some { 0 < result.width }
    ensures inside { result.width ≤ length rest.now }
{
    let first = rest[0];
    if first < 0x80 {
        return Character {
            letter: first as char,
            width: 1,
        };
    }
    match decode_utf8(rest) {
        (Some(letter), width) if 0 < width && width <= rest.len() => Character { letter, width },
        _ => Character {
            letter: windows_character(first),
            width: 1,
        },
    }
}

/// The 16 bits of two bytes.
fn unit_of(is_low_first: bool, first: u8, second: u8) -> u32
    ensures { result < 65536 }
{
    if is_low_first {
        second as u32 * 256 + first as u32
    } else {
        first as u32 * 256 + second as u32
    }
}

/// The character of a high unit of UTF-16 and of a low one behind it.
fn paired(high: u32, low: u32) -> Option<char>
    requires { (high < 65536) × (low < 65536) }
{
    if !(0xd800..=0xdbff).contains(&high) || !(0xdc00..=0xdfff).contains(&low) {
        return None;
    }
    char::from_u32(0x10000 + (high - 0xd800) * 1024 + (low - 0xdc00))
}

/// The character of UTF-16 at the front. Half a unit, and a unit that wants another, is none.
fn unit_character(is_low_first: bool, rest: &[u8]) -> Character
    requires { 0 < length rest.now }
    ensures some { 0 < result.width }
    ensures inside { result.width ≤ length rest.now }
{
    if rest.len() < 2 {
        return Character {
            letter: NO_CHARACTER,
            width: 1,
        };
    }
    let unit = unit_of(is_low_first, rest[0], rest[1]);
    if rest.len() > 3 {
        let next = unit_of(is_low_first, rest[2], rest[3]);
        if let Some(letter) = paired(unit, next) {
            return Character { letter, width: 4 };
        }
    }
    Character {
        letter: char::from_u32(unit).unwrap_or(NO_CHARACTER),
        width: 2,
    }
}

/// The character at the front.
pub(crate) fn character_at(encoding: Encoding, rest: &[u8]) -> Character
    requires { 0 < length rest.now }
    ensures some { 0 < result.width }
    ensures inside { result.width ≤ length rest.now }
{
    match encoding {
        Encoding::Bytes => byte_character(rest),
        Encoding::LowFirst => unit_character(true, rest),
        Encoding::HighFirst => unit_character(false, rest),
    }
}
