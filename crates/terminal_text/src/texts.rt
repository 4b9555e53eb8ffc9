//! Appending to a text, and what a terminal is given of it.
ghost use Rattle.std.specs.Prelude.{◌≡◌, ◌≤◌, ◌<◌, ◌++◌, ◌∷◌, [], All, IfOk, OnOk, decimal};
ghost use Rattle.terminal_text.specs.Shown.{IsShown, escape, hex_digit, is_printable, quoted, quoted_byte, shown, shown_byte};

use shared_words::push_number;
use std::alloc::{AllocError, Global};

/// Appends words.
pub fn say(text: &mut Vec<u8>, words: &str) -> Result<(), AllocError>
    ensures { OnOk result (text.new.items ≡ text.old.items ++ words.now) }
{
    text.extend_from_slice(words.as_bytes())
}

/// Appends words, a number in decimal, and words.
pub fn say_number(text: &mut Vec<u8>, before: &str, n: u64, after: &str) -> Result<(), AllocError>
    ensures { OnOk result (text.new.items
        ≡ text.old.items ++ (before.now ++ (decimal n ++ after.now))) }
{
    text.extend_from_slice(before.as_bytes())?;
    push_number(text, n)?;
    text.extend_from_slice(after.as_bytes())
}

/// The byte is shown as it is.
pub fn is_printable(b: u8) -> bool
    ensures { result ≡ is_printable b }
{
    32 <= b && b <= 126
}

/// A digit to base 16.
fn hex_digit(n: u8) -> u8
    requires { n < 16 }
    ensures { result ≡ hex_digit n }
{
    if n <= 9 { b'0' + n } else { b'7' + n }
}

/// Appends a byte, escaped.
fn push_escape(text: &mut Vec<u8>, b: u8) -> Result<(), AllocError>
    ensures { OnOk result (text.new.items ≡ text.old.items ++ escape b) }
{
    text.extend_from_slice(&[b'\\', b'x', hex_digit(b / 16), hex_digit(b % 16)])
}

/// Appends a byte of a source: itself where it is printable, else escaped.
fn push_quoted(text: &mut Vec<u8>, b: u8) -> Result<(), AllocError>
    ensures { OnOk result (text.new.items ≡ text.old.items ++ quoted_byte b) }
{
    if is_printable(b) {
        text.push(b)?;
        Ok(())
    } else {
        push_escape(text, b)
    }
}

/// Appends bytes of a source, escaped where they are not printable.
pub fn quote(text: &mut Vec<u8>, bytes: &[u8]) -> Result<(), AllocError>
    ensures { OnOk result (text.new.items ≡ text.old.items ++ quoted bytes.now) }
{
    for b in bytes {
        push_quoted(text, *b)?;
    }
    Ok(())
}

/// Appends a byte of a text, a line end too.
fn push_shown(text: &mut Vec<u8>, b: u8) -> Result<(), AllocError>
    ensures { OnOk result (text.new.items ≡ text.old.items ++ shown_byte b) }
{
    if b == b'\n' {
        text.push(b)?;
        Ok(())
    } else {
        push_quoted(text, b)
    }
}

/// A text as a terminal is given it: printable ASCII and line ends alone.
pub fn shown(alloc: Global, text: &[u8]) -> Result<Vec<u8>, AllocError>
    ensures same { IfOk result (λ given. given.items ≡ shown text.now) }
    ensures safe { IfOk result (λ given. All IsShown given.items) }
{
    let mut given = Vec::new(alloc);
    for b in text {
        push_shown(&mut given, *b)?;
    }
    Ok(given)
}
