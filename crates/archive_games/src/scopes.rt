//! Signs in comments, variations, tags and positions.
ghost use Rattle.std.specs.Prelude.{◌≡◌, ◌≤◌};

use crate::reading::{Mode, Reading};
use archive_records::NoteKind;
use archive_text::{Place, Sign};
use std::alloc::AllocError;

/// How many bytes the text of a tag or of a position has at most.
pub(crate) const MOST_TEXT: usize = 65536;

/// Appends a letter in UTF-8.
fn push_letter(text: &mut Vec<u8>, letter: char) -> Result<(), AllocError> {
    if letter.is_ascii() {
        return text.push(letter as u8).map_err(|_| AllocError);
    }
    let mut bytes = [0u8; 4];
    text.extend_from_slice(letter.encode_utf8(&mut bytes).as_bytes())
}

impl Reading {
    /// A sign in a comment. Braces in it are counted.
    pub(crate) fn in_comment(&mut self, sign: Sign) -> Result<(), AllocError>
        requires { sign.place.byte ≤ self.old.kept.reached }
        ensures { self.new.kept.reached ≡ self.old.kept.reached }
    {
        if self.begins_tag(sign) {
            return self.cut(NoteKind::OpenComment, sign);
        }
        if sign.letter == '{' {
            self.braces = self.braces.saturating_add(1);
        }
        if sign.letter == '}' {
            self.braces = self.braces.saturating_sub(1);
        }
        if self.braces == 0 {
            self.mode = if self.parentheses > 0 {
                Mode::Variation
            } else {
                Mode::Moves
            };
        }
        Ok(())
    }

    /// A sign in a variation. Parentheses in it are counted, and comments stand whole in it.
    pub(crate) fn in_variation(&mut self, sign: Sign) -> Result<(), AllocError>
        requires { sign.place.byte ≤ self.old.kept.reached }
        ensures { self.new.kept.reached ≡ self.old.kept.reached }
    {
        if self.begins_tag(sign) {
            return self.cut(NoteKind::OpenVariation, sign);
        }
        match sign.letter {
            '(' => self.parentheses = self.parentheses.saturating_add(1),
            ')' => self.parentheses = self.parentheses.saturating_sub(1),
            '{' => {
                self.braces = 1;
                self.mode = Mode::Comment;
            }
            _ => {}
        }
        if self.parentheses == 0 {
            self.mode = Mode::Moves;
        }
        Ok(())
    }

    /// A sign in a comment up to the end of its line.
    pub(crate) fn in_line(&mut self, sign: Sign) -> Result<(), AllocError>
        requires { sign.place.byte ≤ self.old.kept.reached }
        ensures { self.new.kept.reached ≡ self.old.kept.reached }
    {
        if sign.letter != '\n' {
            return Ok(());
        }
        self.mode = Mode::Moves;
        self.end_line()
    }

    /// A `[` at the front of a line and a letter behind it begin a tag, whatever is open.
    fn begins_tag(&self, sign: Sign) -> bool {
        self.is_bracket_front && sign.letter.is_ascii_alphabetic()
    }

    /// What is open is cut off by a tag, whose first letter this is.
    fn cut(&mut self, kind: NoteKind, sign: Sign) -> Result<(), AllocError>
        requires { sign.place.byte ≤ self.old.kept.reached }
        ensures { self.new.kept.reached ≡ self.old.kept.reached }
    {
        self.fault(self.opened, kind)?;
        self.begin_text(Mode::Tag, self.before.place);
        self.add_letter(sign.letter)
    }

    /// The text of a tag or a position begins.
    pub(crate) fn begin_text(&mut self, mode: Mode, place: Place)
        requires { place.byte ≤ self.old.kept.reached }
        ensures { self.new.kept.reached ≡ self.old.kept.reached }
    {
        self.mode = mode;
        self.opened = place;
        self.parentheses = 0;
        self.text.clear();
        self.last_ink = ' ';
        self.is_quoted = false;
    }

    /// The text of a tag or a position goes on.
    fn add_letter(&mut self, letter: char) -> Result<(), AllocError>
        ensures { self.new.kept.reached ≡ self.old.kept.reached }
    {
        if letter == '"' && self.last_ink != '\\' {
            self.is_quoted = !self.is_quoted;
        }
        if letter != ' ' {
            self.last_ink = letter;
        }
        push_letter(&mut self.text, letter)
    }

    /// Plain text in a tag: no sign in it ends the tag, begins another or is a quotation mark.
    pub(crate) fn add_plain(&mut self, plain: &[u8]) -> Result<(), AllocError>
        ensures { self.new.kept.reached ≡ self.old.kept.reached }
    {
        if let Some(ink) = plain.iter().rfind(|b| **b != b' ') {
            self.last_ink = *ink as char;
        }
        self.text.extend_from_slice(plain)
    }

    /// A sign in a tag. It ends with a `]` outside quotation marks, behind one, or at the end of a line;
    /// and, as a tag that is not closed, with an empty line or a `[` at the front of a line.
    pub(crate) fn in_tag(&mut self, sign: Sign) -> Result<(), AllocError>
        requires { sign.place.byte ≤ self.old.kept.reached }
        ensures { self.new.kept.reached ≡ self.old.kept.reached }
    {
        let is_long = self.text.len() > MOST_TEXT;
        match sign.letter {
            ']' if !self.is_quoted || self.last_ink == '"' => self.end_tag(),
            '\n' if self.last_ink == ']' => self.end_tag(),
            '\n' if self.is_line_front => self.cut_tag(),
            _ if is_long => self.cut_tag(),
            '[' if self.is_line_front => {
                self.cut_tag()?;
                self.begin_text(Mode::Tag, sign.place);
                Ok(())
            }
            '\n' => self.add_letter(' '),
            letter => self.add_letter(letter),
        }
    }

    /// A tag that is not closed ends.
    pub(crate) fn cut_tag(&mut self) -> Result<(), AllocError>
        ensures { self.new.kept.reached ≡ self.old.kept.reached }
    {
        self.kept.note(self.opened, NoteKind::OpenTag)?;
        self.end_tag()
    }

    /// A position on a line of its own begins, behind the letter of a side.
    pub(crate) fn begin_fen(&mut self, sign: Sign) -> Result<(), AllocError>
        requires { sign.place.byte ≤ self.old.kept.reached }
        ensures { self.new.kept.reached ≡ self.old.kept.reached }
    {
        self.word.clear();
        self.begin_text(Mode::Fen, self.before.place);
        self.add_letter(self.before.letter)?;
        self.add_letter(sign.letter)
    }

    /// A sign in a position on a line of its own.
    pub(crate) fn in_fen(&mut self, sign: Sign) -> Result<(), AllocError>
        requires { sign.place.byte ≤ self.old.kept.reached }
        ensures { self.new.kept.reached ≡ self.old.kept.reached }
    {
        if sign.letter == '\n' {
            self.end_fen()
        } else if self.text.len() > MOST_TEXT {
            Ok(())
        } else {
            self.add_letter(sign.letter)
        }
    }
}
