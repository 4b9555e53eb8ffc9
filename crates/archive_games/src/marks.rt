//! Signs among moves.
ghost use Rattle.std.specs.Prelude.{◌≡◌, ◌≤◌, ◌<◌};

use crate::reading::{Mode, Reading};
use archive_records::NoteKind;
use archive_text::{Place, Sign};
use archive_words::{Join, is_cross, is_judgement, is_letter, is_silent};
use std::alloc::AllocError;

/// How great a number may be before another digit is taken; further ones are passed over.
const MOST_FIGURE: u32 = 100_000;

/// The number with one more digit.
fn longer(value: u32, digit: u32) -> u32
    requires { digit < 256 }
{
    if value < MOST_FIGURE {
        value * 10 + digit
    } else {
        value
    }
}

/// What a digit stands for.
fn digit_of(byte: u8) -> u32
    ensures { result < 256 }
{
    u32::from(byte.wrapping_sub(b'0'))
}

/// The number with these digits behind it.
fn with_digits(first: u32, digits: &[u8]) -> u32 {
    let mut value = first;
    for digit in digits {
        value = longer(value, digit_of(*digit));
    }
    value
}

impl Reading {
    /// A sign among moves. A blank, an end of a line, and what opens something end what is passed over.
    pub(crate) fn in_moves(&mut self, sign: Sign) -> Result<(), AllocError>
        requires { sign.place.byte ≤ self.old.kept.reached }
        ensures { self.new.kept.reached ≡ self.old.kept.reached }
    {
        if self.is_skipping && !matches!(sign.letter, ' ' | '\n' | '{' | '(' | '[' | ';') {
            return Ok(());
        }
        self.is_skipping = false;
        if let Some(digit) = sign.letter.to_digit(10) {
            return self.digit(digit, sign.place);
        }
        if is_letter(sign.letter) {
            return self.letter(sign);
        }
        if sign.letter == ':' && self.is_word_front && self.word.side().is_some() {
            return self.begin_fen(sign);
        }
        self.end_figure()?;
        self.end_word()?;
        self.end_star()?;
        self.mark(sign)
    }

    /// A digit. A `*` straight before it marks the move that it begins. A dash straight before it, apart
    /// from the move before, makes it an evaluation.
    fn digit(&mut self, digit: u32, place: Place) -> Result<(), AllocError>
        requires place { place.byte ≤ self.old.kept.reached }
        requires small { digit < 256 }
        ensures { self.new.kept.reached ≡ self.old.kept.reached }
    {
        self.is_star = false;
        self.end_word()?;
        if self.is_dash_apart && self.before.letter == '-' {
            self.run.close();
            self.is_skipping = true;
            return self.stray(place, NoteKind::Clock);
        }
        match self.figure {
            None => {
                self.token_place = place;
                self.figure = Some(digit);
            }
            Some(value) => self.figure = Some(longer(value, digit)),
        }
        Ok(())
    }

    /// Digits that stand together, the first of them at this place.
    pub(crate) fn digits(&mut self, digits: &[u8], place: Place) -> Result<(), AllocError>
        requires { place.byte ≤ self.old.kept.reached }
        ensures { self.new.kept.reached ≡ self.old.kept.reached }
    {
        let [first, more @ ..] = digits else {
            return Ok(());
        };
        if self.is_skipping {
            return Ok(());
        }
        self.digit(digit_of(*first), place)?;
        if let Some(value) = self.figure {
            self.figure = Some(with_digits(value, more));
        }
        Ok(())
    }

    /// A letter. One that looks like a cross, behind a number, is the sign of a capture.
    fn letter(&mut self, sign: Sign) -> Result<(), AllocError>
        requires { sign.place.byte ≤ self.old.kept.reached }
        ensures { self.new.kept.reached ≡ self.old.kept.reached }
    {
        self.end_figure()?;
        self.end_star()?;
        if self.word.is_empty() {
            if is_cross(sign.letter) && !self.run.is_empty() && !self.run.is_open() {
                self.run.join(Join::Cross);
                return Ok(());
            }
            self.end_run()?;
            self.token_place = sign.place;
            self.is_word_front = self.is_line_front;
        }
        self.word.push(sign.letter);
        Ok(())
    }

    /// A sign that is no digit and no letter.
    fn mark(&mut self, sign: Sign) -> Result<(), AllocError>
        requires { sign.place.byte ≤ self.old.kept.reached }
        ensures { self.new.kept.reached ≡ self.old.kept.reached }
    {
        match sign.letter {
            '\n' => self.end_line(),
            '-' => self.dash(),
            '×' => self.join(Join::Cross),
            ':' => self.join(Join::Colon),
            '/' => self.join(Join::Slash),
            '.' => self.dot(1),
            '…' => self.dot(3),
            '½' => self.half(sign),
            '*' => self.star(),
            ')' => self.parenthesis(sign),
            '{' => self.open(Mode::Comment, sign.place),
            '(' => self.open(Mode::Variation, sign.place),
            '[' => self.open(Mode::Tag, sign.place),
            ';' => self.open(Mode::Line, sign.place),
            '%' if sign.place.column == 1 => self.open(Mode::Line, sign.place),
            letter if is_silent(letter) => Ok(()),
            letter if is_judgement(letter) => self.judge(),
            _ => self.stray(sign.place, NoteKind::StraySign),
        }
    }

    /// A judgement is passed over, with what stands straight behind it.
    fn judge(&mut self) -> Result<(), AllocError>
        ensures { self.new.kept.reached ≡ self.old.kept.reached }
    {
        if self.run.is_open() && self.before.letter == '-' {
            self.run.close();
        }
        self.is_skipping = true;
        Ok(())
    }

    /// A dash joins numbers; behind no number it begins a judgement or an evaluation.
    fn dash(&mut self) -> Result<(), AllocError>
        ensures { self.new.kept.reached ≡ self.old.kept.reached }
    {
        if self.run.is_empty() {
            self.is_skipping = true;
        } else {
            let has_move = self.run.lone().is_none() && !self.run.is_open();
            self.is_dash_apart = has_move && self.before.letter == ' ';
            self.run.join(Join::Dash);
        }
        Ok(())
    }

    /// Another sign that joins numbers.
    fn join(&mut self, join: Join) -> Result<(), AllocError>
        ensures { self.new.kept.reached ≡ self.old.kept.reached }
    {
        if !self.run.is_empty() {
            self.run.join(join);
        }
        Ok(())
    }

    /// Half a point, as one over two.
    fn half(&mut self, sign: Sign) -> Result<(), AllocError>
        requires { sign.place.byte ≤ self.old.kept.reached }
        ensures { self.new.kept.reached ≡ self.old.kept.reached }
    {
        if !self.run.is_open() {
            self.end_run()?;
            self.run_place = sign.place;
        }
        self.run.push(1);
        self.run.join(Join::Slash);
        self.run.push(2);
        Ok(())
    }

    /// A `*` straight behind a move marks it. Else the sign behind it tells: straight before a number
    /// it marks the move, and else it is a result.
    fn star(&mut self) -> Result<(), AllocError>
        ensures { self.new.kept.reached ≡ self.old.kept.reached }
    {
        let letter = self.before.letter;
        self.is_star = !letter.is_ascii_digit() && letter != '!' && letter != '?';
        Ok(())
    }

    /// A comment, a variation or a tag begins.
    fn open(&mut self, mode: Mode, place: Place) -> Result<(), AllocError>
        requires { place.byte ≤ self.old.kept.reached }
        ensures { self.new.kept.reached ≡ self.old.kept.reached }
    {
        self.end_run()?;
        self.end_said()?;
        self.is_told = false;
        self.mode = mode;
        self.opened = place;
        self.braces = 1;
        self.parentheses = if matches!(mode, Mode::Variation) {
            1
        } else {
            0
        };
        self.text.clear();
        self.last_ink = ' ';
        self.is_quoted = false;
        Ok(())
    }
}
