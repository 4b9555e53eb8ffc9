//! Positions that stand outside of a tag.
ghost use Rattle.std.specs.Prelude.{◌≤◌, length};

use fen_text::read_fen;
use std::alloc::AllocError;
use terminal_text::{quote, say};

/// What stands from a place on up to the end of its line, without blanks at its end.
fn rest_of_line(source: &[u8], at: usize) -> &[u8]
    requires { at ≤ length source.now }
{
    let rest = &source[at..];
    let len = rest
        .iter()
        .position(|b| *b == b'\n' || *b == b'\r')
        .unwrap_or(rest.len());
    match rest.split_at_checked(len) {
        Some((line, _)) => line.trim_ascii_end(),
        None => rest,
    }
}

/// Appends how a position from a place on is written as a tag, where one stands there, and says
/// whether one does.
pub(crate) fn say_fen_line(text: &mut Vec<u8>, source: &[u8], at: usize) -> Result<bool, AllocError>
    requires { at ≤ length source.now }
{
    let line = rest_of_line(source, at);
    if read_fen(line).is_err() {
        return Ok(false);
    }
    say(
        text,
        "This is a position. It is read as the value of a tag, with a result behind it: [FEN \"",
    )?;
    quote(text, line)?;
    say(text, "\"] *\n")?;
    Ok(true)
}
