//! Tags of HTML.
ghost use Rattle.std.specs.Prelude.{◌<◌, ◌≤◌, length};

use crate::characters::character_at;
use crate::encoding::Encoding;
use crate::normal::normal;
use crate::symbol::Symbol;

/// What a `<` begins.
#[derive(Clone, Copy, PartialEq, Eq, Debug)]
pub(crate) enum Markup {
    /// No tag.
    Nothing,
    /// A tag within a line, as `<b>`.
    Within,
    /// A tag that ends a line, as `<br>`.
    Line,
}

/// The first character and what stands behind it.
fn first_of(encoding: Encoding, rest: &[u8]) -> Option<(char, &[u8])> {
    if rest.is_empty() {
        return None;
    }
    let first = character_at(encoding, rest);
    Some((first.letter.to_ascii_lowercase(), &rest[first.width..]))
}

/// The tag of this name ends a line: a paragraph, a break, a heading, a list or a part of a table.
fn ends_line(first: char, second: char) -> bool {
    match first {
        'p' | 'd' | 't' | 'l' | 'h' => true,
        'b' => second == 'r' || second == 'o',
        _ => false,
    }
}

/// What begins with a `<` that stands straight before these bytes.
pub(crate) fn markup_at(encoding: Encoding, rest: &[u8]) -> Markup {
    let Some((mut first, mut behind)) = first_of(encoding, rest) else {
        return Markup::Nothing;
    };
    if first == '!' {
        return Markup::Within;
    }
    if first == '/' {
        let Some(named) = first_of(encoding, behind) else {
            return Markup::Nothing;
        };
        (first, behind) = named;
    }
    if !first.is_ascii_lowercase() {
        return Markup::Nothing;
    }
    let second = first_of(encoding, behind).map_or(' ', |next| next.0);
    if ends_line(first, second) {
        Markup::Line
    } else {
        Markup::Within
    }
}

/// What is told of a character: the sign, if it is one, and whether a tag is open behind it.
#[derive(Clone, Copy, PartialEq, Eq, Debug)]
pub(crate) struct Told {
    pub(crate) letter: Option<char>,
    pub(crate) is_in_tag: bool,
}

/// What is told of a character with these bytes behind it. A tag ends with `>` or with its line.
pub(crate) fn letter_told(
    encoding: Encoding,
    is_in_tag: bool,
    symbol: Symbol,
    behind: &[u8],
) -> Told {
    let letter = normal(symbol.letter);
    if is_in_tag && letter != '\n' {
        return Told {
            letter: None,
            is_in_tag: letter != '>',
        };
    }
    let markup = if letter == '<' && !symbol.is_reference {
        markup_at(encoding, behind)
    } else {
        Markup::Nothing
    };
    Told {
        letter: Some(match markup {
            Markup::Nothing => letter,
            Markup::Within => ' ',
            Markup::Line => '\n',
        }),
        is_in_tag: markup != Markup::Nothing,
    }
}
