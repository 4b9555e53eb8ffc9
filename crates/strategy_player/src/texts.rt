//! What is written of a play.
ghost use Rattle.std.specs.Prelude.{◌≡◌, ◌++◌, IfOk, OnOk};
ghost use Rattle.strategy_player.specs.Texts.{end_line, game_text, move_line, move_lines, position_line};

use certificate_plays::FinishedPlay;
use certificate_text::push_move;
use draughts_board::{Move, Position};
use fen_text::print_fen;
use std::alloc::{AllocError, Global};
use swift_moves::has_move;

/// Appends a label, the FEN of a position, and the line end.
fn push_position(text: &mut Vec<u8>, label: &str, p: &Position) -> Result<(), AllocError>
    ensures { OnOk result (text.new.items ≡ text.old.items ++ position_line label.now p.now) }
{
    text.extend_from_slice(label.as_bytes())?;
    text.extend_from_slice(print_fen(p).as_bytes())?;
    text.push(b'\n')?;
    Ok(())
}

/// Appends the line of a move of the player.
fn push_move_line(text: &mut Vec<u8>, path: &Move) -> Result<(), AllocError>
    ensures { OnOk result (text.new.items ≡ text.old.items ++ move_line path.now) }
{
    text.extend_from_slice(b"move ")?;
    push_move(text, path)?;
    text.push(b'\n')?;
    Ok(())
}

/// Appends the lines of moves of the player.
fn push_move_lines(text: &mut Vec<u8>, moves: &[Move]) -> Result<(), AllocError>
    ensures { OnOk result (text.new.items ≡ text.old.items ++ move_lines moves.now) }
{
    for path in moves {
        push_move_line(text, path)?;
    }
    Ok(())
}

/// Appends the last line: whether the other side, which is to move, has lost.
fn push_end(text: &mut Vec<u8>, p: &Position) -> Result<(), AllocError>
    ensures { OnOk result (text.new.items ≡ text.old.items ++ end_line p.now) }
{
    if has_move(p) {
        push_position(text, "open ", p)
    } else {
        text.extend_from_slice(b"won\n")
    }
}

/// What is written of a play.
pub(crate) fn play_text(alloc: Global, play: &FinishedPlay) -> Result<Vec<u8>, AllocError>
    ensures { IfOk result (λ text. text.items
        ≡ game_text play.now.start play.now.moves.items play.now.end) }
{
    let mut text = Vec::new(alloc);
    push_position(&mut text, "position ", &play.start)?;
    push_move_lines(&mut text, &play.moves)?;
    push_end(&mut text, &play.end)?;
    Ok(text)
}
