//! The steps of a line of play.
ghost use Rattle.std.specs.Prelude.{◌≡◌, ◌++◌, ℕ, IfOk, List, codes, map};
ghost use Rattle.certificate_lines.specs.Lines.{Leads};
ghost use Rattle.certificate_text.specs.Lines.{move_text};
ghost use Rattle.draughts_board.specs.Board.{Board};
ghost use Rattle.page_text.specs.Plays.{step_words};
ghost use Rattle.root_pages.specs.Steps.{line_steps};

use certificate_text::push_move;
use draughts_board::{Move, Position};
use page_text::PageStep;
use std::alloc::{AllocError, Global};
use swift_moves::apply;

/// The step to a position by a move.
fn step_by(alloc: Global, position: Position, path: &Move) -> Result<PageStep, AllocError>
    ensures { IfOk result (λ step.
        step_words step ≡ record { position = position; words = move_text path.now }) }
{
    let mut words = Vec::new(alloc);
    push_move(&mut words, path)?;
    Ok(PageStep { position, words })
}

/// The first step of a line.
fn first_step(alloc: Global, position: Position) -> Result<PageStep, AllocError>
    ensures { IfOk result (λ step.
        step_words step ≡ record { position = position; words = codes "start" }) }
{
    let mut words = Vec::new(alloc);
    words.extend_from_slice(b"start")?;
    Ok(PageStep { position, words })
}

/// The steps of a line of play, whose moves are legal: its first position, and each position behind a move, with
/// that move.
pub fn play_steps(
    alloc: Global,
    start: &Position,
    moves: &[Move],
) -> Result<Vec<PageStep>, AllocError>
    requires { (end : Board) × Leads start.now moves.now end }
    ensures { IfOk result (λ steps. map step_words steps.items ≡ line_steps start.now moves.now) }
{
    let mut steps = Vec::new(alloc);
    let mut position = *start;
    steps.push(first_step(alloc, position)?)?;
    for path in moves {
        position = apply(&position, path);
        steps.push(step_by(alloc, position, path)?)?;
    }
    Ok(steps)
}
