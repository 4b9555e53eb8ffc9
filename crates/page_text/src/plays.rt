//! A line of play.
ghost use Rattle.std.specs.Prelude.{◌≡◌, ◌++◌, OnOk, map};
ghost use Rattle.page_text.specs.Markup.{markup_text};
ghost use Rattle.page_text.specs.Plays.{figure, figures, play, step_words};

use crate::boards::push_board;
use crate::markup::push_text;
use draughts_board::Position;
use std::alloc::AllocError;
use terminal_text::say;

/// A position of a line of play, and the words below its board.
#[derive(Debug, Drop)]
pub struct PageStep {
    pub position: Position,
    pub words: Vec<u8>,
}

/// Appends a board with its words.
fn push_figure(text: &mut Vec<u8>, step: &PageStep) -> Result<(), AllocError>
    ensures { OnOk result (text.new.items
        ≡ text.old.items ++ markup_text (figure (step_words step.now))) }
{
    say(text, "<figure>")?;
    push_board(text, &step.position)?;
    say(text, "<figcaption>")?;
    push_text(text, &step.words)?;
    say(text, "</figcaption></figure>")
}

/// Appends boards with their words.
fn push_figures(text: &mut Vec<u8>, steps: &[PageStep]) -> Result<(), AllocError>
    ensures { OnOk result (text.new.items
        ≡ text.old.items ++ markup_text (figures (map step_words steps.now))) }
{
    for step in steps {
        push_figure(text, step)?;
    }
    Ok(())
}

/// Appends a line of play: its boards in a row, each with its words below.
#[tactic(auto, unfolding(crate::specs::Plays::play))]
pub fn push_play(text: &mut Vec<u8>, steps: &[PageStep]) -> Result<(), AllocError>
    ensures { OnOk result (text.new.items
        ≡ text.old.items ++ markup_text (play (map step_words steps.now))) }
{
    say(text, "<div class=\"play\">")?;
    push_figures(text, steps)?;
    say(text, "</div>")
}
