//! Plain text, taken many signs at a time.
ghost use Rattle.std.specs.Prelude.{◌≡◌, ◌≤◌, ◌<◌, ◌+◌, ◌^◌, IfOk, OnOk, length};

use crate::reading::{Mode, Reading};
use crate::scopes::MOST_TEXT;
use archive_text::{Place, Sign};
use archive_words::{Join, Pair, number_at, pair_at};
use std::alloc::AllocError;

/// How many digits stand at the front, where one does.
fn digits_len(text: &[u8]) -> usize
    requires { 0 < length text.now }
    ensures some { 0 < result }
    ensures inside { result ≤ length text.now }
{
    let more = text[1..].iter().position(|b| !b.is_ascii_digit());
    match more {
        Some(more) => more + 1,
        None => text.len(),
    }
}

impl Reading {
    /// How many bytes of plain text may be taken at once: none where the next sign has to be taken
    /// alone.
    pub(crate) fn most_plain(&self) -> usize {
        match self.mode {
            Mode::Moves | Mode::Line => usize::MAX,
            Mode::Tag => (MOST_TEXT + 1).saturating_sub(self.text.len()),
            Mode::Fen => 0,
            // A letter behind a `[` at the front of a line may begin a tag.
            Mode::Comment | Mode::Variation if self.is_bracket_front => 0,
            Mode::Comment | Mode::Variation => usize::MAX,
        }
    }

    /// Takes plain text, whose first byte stands at this place.
    pub(crate) fn take_plain(&mut self, plain: &[u8], place: Place) -> Result<(), AllocError>
        requires some { 0 < length plain.now }
        requires few { place.byte + length plain.now ≤ 2 ^ 62 }
        requires behind { self.old.kept.reached ≤ place.byte }
        ensures { self.new.kept.reached ≤ place.byte + length plain.now }
    {
        match self.mode {
            Mode::Moves => return self.take_words(plain, place),
            Mode::Tag => self.add_plain(plain)?,
            _ => {}
        }
        self.pass(plain, place);
        Ok(())
    }

    /// The signs of plain text, of which there is one at least, are taken.
    fn pass(&mut self, plain: &[u8], place: Place)
        requires some { 0 < length plain.now }
        requires few { place.byte + length plain.now ≤ 2 ^ 62 }
        requires behind { self.old.kept.reached ≤ place.byte }
        ensures { self.new.kept.reached ≤ place.byte + length plain.now }
    {
        let last = place.along(plain.len() - 1);
        self.kept.reach(last);
        self.before = Sign {
            letter: plain[plain.len() - 1] as char,
            place: last,
        };
        self.is_bracket_front = false;
        self.is_line_front = self.is_line_front && plain.iter().all(|b| *b == b' ');
    }

    /// Takes plain text among moves.
    fn take_words(&mut self, plain: &[u8], place: Place) -> Result<(), AllocError>
        requires few { place.byte + length plain.now ≤ 2 ^ 62 }
        requires behind { self.old.kept.reached ≤ place.byte }
        ensures { self.new.kept.reached ≤ place.byte + length plain.now }
    {
        let mut at = 0;
        while at < plain.len() {
            at += self.take_word(&plain[at..], place.along(at))?;
        }
        Ok(())
    }

    /// Takes what stands first in the text: a move, digits, or a sign. Answers how many bytes it has.
    fn take_word(&mut self, text: &[u8], place: Place) -> Result<usize, AllocError>
        requires some { 0 < length text.now }
        requires few { place.byte + length text.now ≤ 2 ^ 62 }
        requires behind { self.old.kept.reached ≤ place.byte }
        ensures some { IfOk result (λ len. 0 < len) }
        ensures inside { IfOk result (λ len. len ≤ length text.now) }
        ensures reached { IfOk result (λ len. self.new.kept.reached ≤ place.byte + len) }
        ensures bound { self.new.kept.reached ≤ place.byte + length text.now }
    {
        if !self.is_in_moves() || !text[0].is_ascii_digit() {
            self.take(Sign {
                letter: text[0] as char,
                place,
            })?;
            return Ok(1);
        }
        if self.is_clear() {
            if let Some(pair) = pair_at(text) {
                self.take_pair(pair, place)?;
                self.pass(&text[..pair.len], place);
                return Ok(pair.len);
            }
            if let Some(found) = number_at(text) {
                self.take_number(found.number, place)?;
                self.pass(&text[..found.len], place);
                return Ok(found.len);
            }
        }
        self.take_digits(text, place)
    }

    /// Moves stand here, and no tag, comment or variation.
    fn is_in_moves(&self) -> bool {
        matches!(self.mode, Mode::Moves)
    }

    /// A number that begins here has nothing to do with what stands before it.
    fn is_clear(&self) -> bool {
        self.figure.is_none()
            && self.word.is_empty()
            && !self.run.is_open()
            && !self.is_skipping
            && self.before.letter != '-'
    }

    /// Takes two numbers with a sign between and a blank behind them.
    fn take_pair(&mut self, pair: Pair, place: Place) -> Result<(), AllocError>
        requires { self.old.kept.reached ≤ place.byte }
        ensures { self.new.kept.reached ≡ place.byte }
    {
        self.kept.reach(place);
        self.is_star = false;
        self.end_run()?;
        self.run_place = place;
        if pair.join == Join::Dash {
            self.is_dash_apart = false;
        }
        self.run.push(pair.first);
        self.run.join(pair.join);
        self.run.push(pair.second);
        Ok(())
    }

    /// Takes the number of a move, with a dot and a blank behind it.
    fn take_number(&mut self, number: u32, place: Place) -> Result<(), AllocError>
        requires { self.old.kept.reached ≤ place.byte }
        ensures { self.new.kept.reached ≡ place.byte }
    {
        self.kept.reach(place);
        self.is_star = false;
        self.end_run()?;
        self.run_place = place;
        self.dots = 1;
        self.number(number)
    }

    /// Takes the digits at the front, of which there is one at least. Answers how many there are.
    fn take_digits(&mut self, text: &[u8], place: Place) -> Result<usize, AllocError>
        requires some { 0 < length text.now }
        requires few { place.byte + length text.now ≤ 2 ^ 62 }
        requires behind { self.old.kept.reached ≤ place.byte }
        ensures some { IfOk result (λ len. 0 < len) }
        ensures inside { IfOk result (λ len. len ≤ length text.now) }
        ensures reached { IfOk result (λ len. self.new.kept.reached ≤ place.byte + len) }
        ensures bound { self.new.kept.reached ≤ place.byte + length text.now }
    {
        let len = digits_len(text);
        self.kept.reach(place);
        self.digits(&text[..len], place)?;
        self.pass(&text[..len], place);
        Ok(len)
    }
}
