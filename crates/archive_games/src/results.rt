//! Words, results and ends of games.
ghost use Rattle.std.specs.Prelude.{◌≡◌, ◌≤◌, IfSome};

use crate::reading::Reading;
use archive_records::{FoundResult, NoteKind};
use archive_text::Place;
use archive_words::{Outcome, Said};
use draughts_board::Side;
use std::alloc::AllocError;

/// The outcome where this side won.
fn win_of(side: Side) -> Outcome {
    match side {
        Side::Black => Outcome::BlackWins,
        Side::White => Outcome::WhiteWins,
    }
}

impl Reading {
    /// Tells something stray, once a line.
    pub(crate) fn stray(&mut self, place: Place, kind: NoteKind) -> Result<(), AllocError>
        requires { place.byte ≤ self.old.kept.reached }
        ensures { self.new.kept.reached ≡ self.old.kept.reached }
    {
        if self.is_told {
            return Ok(());
        }
        self.is_told = true;
        self.kept.note(place, kind)
    }

    /// Tells a fault of the open game, or of one that begins here behind the number of a move; else the
    /// sign is stray.
    pub(crate) fn fault(&mut self, place: Place, kind: NoteKind) -> Result<(), AllocError>
        requires { place.byte ≤ self.old.kept.reached }
        ensures { self.new.kept.reached ≡ self.old.kept.reached }
    {
        if self.kept.is_open() || self.last_number != 0 {
            self.kept.begin(place);
            self.kept.note(place, kind)
        } else {
            self.stray(place, NoteKind::StraySign)
        }
    }

    /// Ends the open game.
    pub(crate) fn close(&mut self, score: Option<FoundResult>) -> Result<(), AllocError>
        requires { IfSome score (λ found. found.place.byte ≤ self.old.kept.reached) }
        ensures { self.new.kept.reached ≡ self.old.kept.reached }
    {
        self.last_number = 0;
        self.plies_since = 0;
        self.dots = 0;
        self.kept.close(score)
    }

    /// A result, which ends the open game.
    pub(crate) fn end_game(&mut self, outcome: Outcome, place: Place) -> Result<(), AllocError>
        requires { place.byte ≤ self.old.kept.reached }
        ensures { self.new.kept.reached ≡ self.old.kept.reached }
    {
        if self.kept.is_open() {
            self.close(Some(FoundResult { place, outcome }))
        } else {
            self.stray(place, NoteKind::StrayResult)
        }
    }

    /// The sign before, if it is a `*` alone, is a result.
    pub(crate) fn end_star(&mut self) -> Result<(), AllocError>
        ensures { self.new.kept.reached ≡ self.old.kept.reached }
    {
        if !self.is_star {
            return Ok(());
        }
        self.is_star = false;
        self.end_run()?;
        self.end_game(Outcome::Unfinished, self.before.place)
    }

    /// The word ends.
    pub(crate) fn end_word(&mut self) -> Result<(), AllocError>
        ensures { self.new.kept.reached ≡ self.old.kept.reached }
    {
        if self.word.is_empty() {
            return Ok(());
        }
        let said = self.word.said();
        self.word.clear();
        match said {
            Said::Nothing => Ok(()),
            Said::Drawn => self.say(Outcome::Draw),
            Said::Unfinished => self.say(Outcome::Unfinished),
            Said::Side(side) => {
                self.said_place = self.token_place;
                self.side = Some(side);
                Ok(())
            }
            Said::Wins => self.say_win(false),
            Said::Loses => self.say_win(true),
            Said::Other => self.other_word(),
        }
    }

    /// A word says an outcome.
    fn say(&mut self, outcome: Outcome) -> Result<(), AllocError>
        ensures { self.new.kept.reached ≡ self.old.kept.reached }
    {
        if self.side.is_none() {
            self.said_place = self.token_place;
        }
        self.said = Some(outcome);
        Ok(())
    }

    /// A word says that the side before it won, or lost.
    fn say_win(&mut self, is_loss: bool) -> Result<(), AllocError>
        ensures { self.new.kept.reached ≡ self.old.kept.reached }
    {
        match self.side {
            Some(side) => {
                let winner = if is_loss { side.other() } else { side };
                self.said = Some(win_of(winner));
                Ok(())
            }
            None => self.other_word(),
        }
    }

    /// A word says nothing that is understood; then those before it on the line say no result.
    fn other_word(&mut self) -> Result<(), AllocError>
        ensures { self.new.kept.reached ≡ self.old.kept.reached }
    {
        self.unsay()?;
        self.stray(self.token_place, NoteKind::StrayWord)
    }

    /// What words on this line have said is no result, since more stands behind them.
    pub(crate) fn unsay(&mut self) -> Result<(), AllocError>
        ensures { self.new.kept.reached ≡ self.old.kept.reached }
    {
        let is_said = self.side.is_some() || self.said.is_some();
        self.side = None;
        self.said = None;
        if is_said {
            self.stray(self.said_place, NoteKind::StrayWord)
        } else {
            Ok(())
        }
    }

    /// A line, or what stands before a comment or a tag, ends: words say a result here, unless something
    /// stray stands on the line too.
    pub(crate) fn end_said(&mut self) -> Result<(), AllocError>
        ensures { self.new.kept.reached ≡ self.old.kept.reached }
    {
        let Some(outcome) = self.said else {
            return self.unsay();
        };
        if self.is_told {
            return self.unsay();
        }
        self.side = None;
        self.said = None;
        if self.kept.is_open() {
            self.kept.note(self.said_place, NoteKind::WordResult)?;
        }
        self.end_game(outcome, self.said_place)
    }

    /// A line ends.
    pub(crate) fn end_line(&mut self) -> Result<(), AllocError>
        ensures { self.new.kept.reached ≡ self.old.kept.reached }
    {
        self.end_said()?;
        self.is_told = false;
        Ok(())
    }
}
