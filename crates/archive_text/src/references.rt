//! References of HTML: `&nbsp;`, `&#189;`.
ghost use Rattle.std.specs.Prelude.{◌≤◌, ◌<◌, IfSome, length};

use crate::characters::{Character, character_at};
use crate::encoding::Encoding;
use arrayvec::ArrayVec;

/// How many letters a reference has between `&` and `;` at most.
pub(crate) const MOST_LETTERS: usize = 8;

/// The character of a name.
fn named(name: &[u8]) -> Option<char> {
    let letter = match name {
        b"amp" => '&',
        b"lt" => '<',
        b"gt" => '>',
        b"quot" | b"ldquo" | b"rdquo" => '"',
        b"apos" | b"lsquo" | b"rsquo" => '\'',
        b"nbsp" | b"ensp" | b"emsp" | b"thinsp" => ' ',
        b"ndash" | b"mdash" | b"minus" | b"shy" => '-',
        b"times" => '×',
        b"frac12" | b"half" => '½',
        b"hellip" => '…',
        b"auml" => 'ä',
        b"ouml" => 'ö',
        b"uuml" => 'ü',
        b"Auml" => 'Ä',
        b"Ouml" => 'Ö',
        b"Uuml" => 'Ü',
        b"szlig" => 'ß',
        b"eacute" => 'é',
        b"egrave" => 'è',
        b"agrave" => 'à',
        b"aring" => 'å',
        b"ccedil" => 'ç',
        _ => return None,
    };
    Some(letter)
}

/// The number that these digits are, to a base of 10 or 16.
fn number_of(digits: &[u8], base: u32) -> Option<u32>
    requires { (2 ≤ base) × (base ≤ 16) }
{
    let mut number: u32 = 0;
    for digit in digits {
        let value = (*digit as char).to_digit(base)?;
        if number > 0x11_0000 {
            return None;
        }
        number = number * base + value;
    }
    Some(number)
}

/// The character of what stands between `&` and `;`.
fn meant(name: &[u8]) -> Option<char> {
    match name {
        [b'#', b'x' | b'X', digits @ ..] if !digits.is_empty() => {
            char::from_u32(number_of(digits, 16)?)
        }
        [b'#', digits @ ..] if !digits.is_empty() => char::from_u32(number_of(digits, 10)?),
        _ => named(name),
    }
}

/// The reference at the front, whose first character is `&`; none where it is no reference.
pub(crate) fn reference_at(encoding: Encoding, rest: &[u8]) -> Option<Character>
    ensures { IfSome result (λ c. (0 < c.width) × (c.width ≤ length rest.now)) }
{
    let mut name: ArrayVec<u8, MOST_LETTERS> = ArrayVec::new();
    let mut at = 0;
    for place in 0..MOST_LETTERS + 2 {
        if at >= rest.len() {
            return None;
        }
        let next = character_at(encoding, &rest[at..]);
        at += next.width;
        if place == 0 {
            continue;
        }
        if next.letter == ';' {
            let letter = meant(&name)?;
            return Some(Character { letter, width: at });
        }
        if !next.letter.is_ascii() || name.is_full() {
            return None;
        }
        name.push(next.letter as u8);
    }
    None
}
