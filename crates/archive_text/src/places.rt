//! Places of a source.
ghost use Rattle.std.specs.Prelude.{◌≡◌, ◌≤◌, ◌<◌, ◌+◌, ◌^◌, if◌then◌else◌};
ghost use Rattle.archive_text.specs.Lines.{is_line_end};

/// Where a sign stands, for a person.
#[derive(Clone, Copy, PartialEq, Eq, Debug)]
pub struct Place {
    /// Its line, from 1. A line ends with LF, with CR, or with CR and LF together.
    pub line: u64,
    /// Its column, from 1, in characters.
    pub column: u64,
    /// Its first byte, from 0.
    pub byte: u64,
    // Lines and columns count from 1, and each stands for at least one byte before the place.
    pub ghost from_one: { (1 ≤ line) × (1 ≤ column) },
    pub ghost within: { (line ≤ byte + 1) × (column ≤ byte + 1) },
}

/// The character ends a line.
pub(crate) fn is_line_end(letter: char) -> bool
    ensures { result ≡ is_line_end letter }
{
    letter == '\n' || letter == '\u{85}' || letter == '\u{2028}' || letter == '\u{2029}'
}

impl Place {
    ghost use Rattle.archive_text.specs.Ahead.{IsAlong};
    ghost use Rattle.archive_text.specs.Places.{line_behind, column_behind};

    /// The first place of a source.
    pub const FIRST: Place = Place {
        line: 1,
        column: 1,
        byte: 0,
    };

    /// The place behind a character that stands here and takes this many bytes.
    pub(crate) fn behind(self, letter: char, width: usize) -> Place
        requires few { self.byte + width ≤ 2 ^ 62 }
        requires some { 0 < width }
        ensures line { result.line ≡ line_behind self letter }
        ensures column { result.column ≡ column_behind self letter }
        ensures byte { result.byte ≡ self.byte + width }
    {
        let byte = self.byte + width as u64;
        if is_line_end(letter) {
            Place {
                line: self.line + 1,
                column: 1,
                byte,
            }
        } else {
            Place {
                line: self.line,
                column: self.column + 1,
                byte,
            }
        }
    }
    /// The place `count` characters of one byte further on the same line.
    pub fn along(self, count: usize) -> Place
        requires { self.byte + count ≤ 2 ^ 62 }
        ensures { IsAlong self count result }
    {
        Place {
            line: self.line,
            column: self.column + count as u64,
            byte: self.byte + count as u64,
        }
    }
}
