//! The texts of positions.
ghost use Rattle.std.specs.Prelude.{◌≡◌, ◌≤◌, ◌<◌, ◌&&◌, ◌++◌, ◌∷◌, [], true, IfOk, OnOk, count_by, if◌then◌else◌};
ghost use Rattle.std.specs.List.{list_all};
ghost use Rattle.archive_words.specs.Fens.{capital, cleaned, colons_with, ends_before, is_clean, is_colon, is_fen_byte, is_left_out, is_like_fen, wants_comma, with_comma};

use std::alloc::{AllocError, Global};

/// The letters of sides and kings as capital ones.
fn capital(byte: u8) -> u8
    ensures { result ≡ capital byte }
{
    match byte {
        b'b' => b'B',
        b'w' => b'W',
        b'k' => b'K',
        _ => byte,
    }
}

/// The byte may stand in a position, its counters or its full stop.
fn is_fen_byte(byte: u8) -> bool
    ensures { result ≡ is_fen_byte byte }
{
    matches!(
        byte,
        b'0'..=b'9'
            | b'W'
            | b'B'
            | b'K'
            | b'w'
            | b'b'
            | b'k'
            | b'H'
            | b'F'
            | b':'
            | b','
            | b'-'
            | b'.'
            | b' '
    )
}

/// How many colons a text has.
fn colons_of(text: &[u8]) -> usize
    ensures { result ≡ count_by is_colon text.now }
{
    text.iter().filter(|b| **b == b':').count()
}

/// All bytes may stand in a position.
fn are_fen_bytes(text: &[u8]) -> bool
    ensures { result ≡ list_all is_fen_byte text.now }
{
    text.iter().all(|b| is_fen_byte(*b))
}

/// The text has the bytes of a position alone, and a colon before each of two lists.
pub fn is_like_fen(text: &[u8]) -> bool
    ensures { result ≡ is_like_fen text.now }
{
    2 <= colons_of(text) && are_fen_bytes(text)
}

/// A blank, a full stop or a quotation mark.
fn is_left_out(byte: u8) -> bool
    ensures { result ≡ is_left_out byte }
{
    byte == b' ' || byte == b'.' || byte == b'"' || byte == b'\''
}

/// Behind a blank, a comma is wanted between the byte that stands last and this one.
fn wants_comma(last: u8, byte: u8) -> bool
    ensures { result ≡ wants_comma last byte }
{
    last.is_ascii_digit() && byte != b',' && byte != b':' && byte != b'-'
}

/// The position ends before this byte: a third colon, behind which counters stand.
fn ends_before(byte: u8, colons: u8) -> bool
    ensures { result ≡ ends_before byte colons }
{
    byte == b':' && colons == 2
}

/// How many colons there are with this byte.
fn colons_with(byte: u8, colons: u8) -> u8
    requires { colons < 3 }
    ensures { result ≡ colons_with byte colons }
{
    if byte == b':' { colons + 1 } else { colons }
}

/// A comma is wanted before this byte.
fn has_comma(is_behind_blank: bool, last: u8, byte: u8) -> bool
    ensures { result ≡ (is_behind_blank && wants_comma last byte) }
{
    is_behind_blank && wants_comma(last, byte)
}

/// Appends a byte, as a capital letter, behind a comma if one is wanted.
fn push_clean(fen: &mut Vec<u8>, has_comma: bool, byte: u8) -> Result<(), AllocError>
    ensures { OnOk result (fen.new.items
        ≡ fen.old.items ++ ((if has_comma then 44 ∷ [] else []) ++ capital byte ∷ [])) }
{
    if has_comma {
        fen.push(b',')?;
    }
    fen.push(capital(byte))?;
    Ok(())
}

/// The FEN without blanks, counters, full stops, quotation marks and small letters. Blanks alone
/// between two squares stand for a comma. What stands behind the third colon is left out: counters.
#[tactic(auto, using(crate::proofs::CleanFens::clean_more, crate::proofs::CleanFens::colons_more, crate::proofs::CleanFens::value_more))]
pub fn clean_fen(alloc: Global, text: &[u8]) -> Result<Vec<u8>, AllocError>
    ensures value { IfOk result (λ fen. fen.items ≡ cleaned text.now) }
    ensures clean { IfOk result (λ fen. list_all is_clean fen.items ≡ true) }
    ensures colons { IfOk result (λ fen. count_by is_colon fen.items ≤ 2) }
{
    let mut fen = Vec::new(alloc);
    let mut colons = 0u8;
    let mut last = b':';
    let mut is_behind_blank = false;
    for b in text {
        let byte = *b;
        if is_left_out(byte) {
            is_behind_blank = true;
            continue;
        }
        if ends_before(byte, colons) {
            break;
        }
        colons = colons_with(byte, colons);
        push_clean(&mut fen, has_comma(is_behind_blank, last, byte), byte)?;
        last = byte;
        is_behind_blank = false;
    }
    Ok(fen)
}
