//! A character as an archive writes it: two line ends as one, a reference as what it means.
ghost use Rattle.std.specs.Prelude.{◌≤◌, ◌<◌, ◌+◌, length};

use crate::characters::{Character, character_at};
use crate::encoding::Encoding;
use crate::references::reference_at;

/// A character, and whether it stands there itself.
#[derive(Clone, Copy, PartialEq, Eq, Debug)]
pub(crate) struct Symbol {
    pub(crate) letter: char,
    pub(crate) width: usize,
    pub(crate) is_reference: bool,
}

/// The line end at the front, which begins with a CR of this many bytes.
fn return_at(encoding: Encoding, rest: &[u8], width: usize) -> Symbol
    requires { (0 < width) × (width ≤ length rest.now) }
    ensures some { 0 < result.width }
    ensures inside { result.width ≤ length rest.now }
{
    let mut all = width;
    if width < rest.len() {
        let next = character_at(encoding, &rest[width..]);
        if next.letter == '\n' {
            all = width + next.width;
        }
    }
    Symbol {
        letter: '\n',
        width: all,
        is_reference: false,
    }
}

/// What stands at the front.
pub(crate) fn symbol_at(encoding: Encoding, rest: &[u8]) -> Symbol
    requires { 0 < length rest.now }
    ensures some { 0 < result.width }
    ensures inside { result.width ≤ length rest.now }
{
    let Character { letter, width } = character_at(encoding, rest);
    if letter == '\r' {
        return return_at(encoding, rest, width);
    }
    if letter == '&' {
        if let Some(meant) = reference_at(encoding, rest) {
            return Symbol {
                letter: meant.letter,
                width: meant.width,
                is_reference: true,
            };
        }
    }
    Symbol {
        letter,
        width,
        is_reference: false,
    }
}
