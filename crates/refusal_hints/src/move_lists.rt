//! Moves, and the list of those that are legal.
ghost use Rattle.std.specs.Prelude.{◌≡◌, ◌≤◌, ◌++◌, length, IfOk, OnOk};
ghost use Rattle.draughts_board.specs.Play.{legal_paths};
ghost use Rattle.refusal_hints.specs.MoveLists.{further_moves, moves_text};

use certificate_text::push_move;
use draughts_board::{Move, Position, Square};
use draughts_rules::legal_moves;
use std::alloc::{AllocError, Global};

/// The path is that of a capture, or jumps at least.
pub(crate) fn is_capture(path: &[Square]) -> bool
    requires { 2 ≤ length path.now }
{
    path[0].row().abs_diff(path[1].row()) == 2
}

/// Appends moves, each behind a comma and a blank.
fn push_further_moves(text: &mut Vec<u8>, moves: &[Move]) -> Result<(), AllocError>
    ensures { OnOk result (text.new.items ≡ text.old.items ++ further_moves moves.now) }
{
    for m in moves {
        text.push(b',')?;
        text.push(b' ')?;
        push_move(text, m)?;
    }
    Ok(())
}

/// Appends moves, with a comma and a blank between each two.
pub(crate) fn push_moves(text: &mut Vec<u8>, moves: &[Move]) -> Result<(), AllocError>
    ensures { OnOk result (text.new.items ≡ text.old.items ++ moves_text moves.now) }
{
    let [first, further @ ..] = moves else {
        return Ok(());
    };
    push_move(text, first)?;
    push_further_moves(text, further)
}

/// The legal moves of a position, in rising order of their paths: each by its squares, with a comma
/// and a blank between each two.
pub fn legal_moves_text(alloc: Global, p: &Position) -> Result<Vec<u8>, AllocError>
    ensures { IfOk result (λ text. text.items ≡ moves_text (legal_paths p.now)) }
{
    let moves = legal_moves(alloc, p)?;
    let mut text = Vec::new(alloc);
    push_moves(&mut text, &moves)?;
    Ok(text)
}
