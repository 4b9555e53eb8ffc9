//! Numbers, and the moves, results and numbers of moves that they make.
ghost use Rattle.std.specs.Prelude.{◌≡◌, ◌≤◌};

use crate::reading::Reading;
use archive_records::{ArchiveMove, NoteKind};
use archive_text::{Place, Sign};
use archive_words::Meaning;
use draughts_board::Move;
use std::alloc::AllocError;

impl Reading {
    /// The number ends. It belongs to the numbers before it where a sign joins them.
    pub(crate) fn end_figure(&mut self) -> Result<(), AllocError>
        ensures { self.new.kept.reached ≡ self.old.kept.reached }
    {
        let Some(value) = self.figure else {
            return Ok(());
        };
        self.figure = None;
        if !self.run.is_open() {
            self.end_run()?;
            self.run_place = self.token_place;
        }
        self.run.push(value);
        Ok(())
    }

    /// The numbers that belong together end.
    pub(crate) fn end_run(&mut self) -> Result<(), AllocError>
        ensures { self.new.kept.reached ≡ self.old.kept.reached }
    {
        if self.run.is_empty() {
            return Ok(());
        }
        let meaning = self.run.meaning();
        let place = self.run_place;
        self.run.clear();
        match meaning {
            Meaning::Nothing => Ok(()),
            Meaning::Number(number) => self.bare_number(number, place),
            Meaning::Move(squares) => self.play(squares, place),
            Meaning::Result(outcome) => self.end_game(outcome, place),
            Meaning::Clock => self.stray(place, NoteKind::Clock),
            Meaning::Half => self.fault(place, NoteKind::HalfMove),
            Meaning::Bad => self.fault(place, NoteKind::BadMove),
        }
    }

    /// Dots. Behind a number alone they make it the number of a move, but behind 0 a fraction.
    pub(crate) fn dot(&mut self, count: u32) -> Result<(), AllocError>
        ensures { self.new.kept.reached ≡ self.old.kept.reached }
    {
        match self.run.lone() {
            Some(0) => {
                self.run.clear();
                self.is_skipping = true;
                Ok(())
            }
            Some(number) => {
                self.run.clear();
                self.dots = count;
                self.number(number)
            }
            None => {
                self.dots = self.dots.saturating_add(count);
                Ok(())
            }
        }
    }

    /// A `)` that closes nothing. Behind a number alone it makes it the number of a move.
    pub(crate) fn parenthesis(&mut self, sign: Sign) -> Result<(), AllocError>
        requires { sign.place.byte ≤ self.old.kept.reached }
        ensures { self.new.kept.reached ≡ self.old.kept.reached }
    {
        match self.run.lone() {
            Some(number) => {
                self.run.clear();
                self.number(number)
            }
            None => self.stray(sign.place, NoteKind::StraySign),
        }
    }

    /// A number without a dot: the number of a move where that number is due.
    fn bare_number(&mut self, number: u32, place: Place) -> Result<(), AllocError>
        requires { place.byte ≤ self.old.kept.reached }
        ensures { self.new.kept.reached ≡ self.old.kept.reached }
    {
        if number == self.last_number.saturating_add(1) {
            self.number(number)
        } else {
            self.stray(place, NoteKind::StrayNumber)
        }
    }

    /// The number of a move.
    pub(crate) fn number(&mut self, number: u32) -> Result<(), AllocError>
        ensures { self.new.kept.reached ≡ self.old.kept.reached }
    {
        let place = self.run_place;
        let due = self.last_number.saturating_add(1);
        let is_same = number == self.last_number && self.plies_since == 1;
        if number == 1 && self.kept.has_moves() && !is_same {
            self.close(None)?;
            self.kept.note(place, NoteKind::NumberRestart)?;
        } else if self.last_number == 0 && number != 1 && self.kept.is_at_start() {
            self.stray(place, NoteKind::FirstNumber { found: number })?;
        } else if self.last_number != 0 && number != due && !is_same {
            let found = number;
            self.kept.note(place, NoteKind::NumberOrder { found, due })?;
        }
        self.last_number = number;
        self.plies_since = 0;
        Ok(())
    }

    /// A move.
    fn play(&mut self, squares: Move, place: Place) -> Result<(), AllocError>
        requires { place.byte ≤ self.old.kept.reached }
        ensures { self.new.kept.reached ≡ self.old.kept.reached }
    {
        self.unsay()?;
        self.kept.begin(place);
        if self.kept.is_at_start() {
            self.first_move(squares, place)?;
        }
        self.dots = 0;
        self.plies_since = self.plies_since.saturating_add(1);
        self.kept.add_move(ArchiveMove { place, squares })
    }

    /// The first move from the start.
    fn first_move(&mut self, squares: Move, place: Place) -> Result<(), AllocError>
        requires { place.byte ≤ self.old.kept.reached }
        ensures { self.new.kept.reached ≡ self.old.kept.reached }
    {
        let is_white = squares.path()[0].number() >= 21;
        if self.dots >= 2 {
            self.kept.note(place, NoteKind::DotsFirst)
        } else if is_white {
            self.kept.note(place, NoteKind::WhiteFirst)
        } else {
            Ok(())
        }
    }
}
