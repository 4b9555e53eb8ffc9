//! Lines and columns.
ghost use Rattle.std.specs.Prelude.{◌≡◌, ◌≤◌, ◌<◌, ◌+◌, ◌++◌, length, OnOk};
ghost use Rattle.terminal_text.specs.Places.{column_at, ends_line, line_at, place_text};

use crate::texts::say_number;
use std::alloc::AllocError;

/// Where a byte stands, for a person.
#[derive(Clone, Copy, PartialEq, Eq, Debug)]
pub struct Place {
    /// Its line, from 1. A line ends with LF, with CR, or with CR and LF together.
    pub line: usize,
    /// Its column, from 1, in bytes.
    pub column: usize,
}

/// A line ends with the byte at this place.
fn ends_line(source: &[u8], at: usize) -> bool
    requires { at < length source.now }
    ensures { result ≡ ends_line source.now at }
{
    let is_before_feed = at + 1 < source.len() && source[at + 1] == b'\n';
    source[at] == b'\n' || (source[at] == b'\r' && !is_before_feed)
}

/// The line and the column of a byte, counted from 0, or of the end of the source.
pub fn place_of(source: &[u8], at: usize) -> Place
    requires { at ≤ length source.now }
    ensures line { result.line ≡ line_at source.now at }
    ensures column { result.column ≡ column_at source.now at }
    ensures near { result.column ≤ at + 1 }
{
    let mut line = 1;
    let mut column = 1;
    for i in 0..at {
        if ends_line(source, i) {
            line += 1;
            column = 1;
        } else {
            column += 1;
        }
    }
    Place { line, column }
}

/// Appends the line and the column of a byte of the source, or of its end, as `line 2, column 9:`
/// and a line end.
pub fn say_place(text: &mut Vec<u8>, source: &[u8], at: usize) -> Result<(), AllocError>
    requires { at ≤ length source.now }
    ensures { OnOk result (text.new.items ≡ text.old.items ++ place_text source.now at) }
{
    let place = place_of(source, at);
    say_number(text, "line ", place.line as u64, "")?;
    say_number(text, ", column ", place.column as u64, ":\n")
}
