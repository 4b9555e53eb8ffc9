//! Positions as boards.
ghost use Rattle.std.specs.Prelude.{◌≡◌, ◌++◌, OnOk};
ghost use Rattle.page_text.specs.Markup.{markup_text};
ghost use Rattle.page_text.specs.Boards.{board, piece, shape};

use draughts_board::{Cell, Position, Side, Square};
use shared_words::push_number;
use std::alloc::AllocError;
use terminal_text::say;

/// Appends a shape of the page's head, in the column and the row of a square.
fn push_shape(text: &mut Vec<u8>, name: &str, square: Square) -> Result<(), AllocError>
    ensures { OnOk result (text.new.items
        ≡ text.old.items ++ markup_text (shape name.now square)) }
{
    say(text, "<use href=\"")?;
    say(text, name)?;
    say(text, "\" x=\"")?;
    push_number(text, u64::from(square.column()))?;
    say(text, "\" y=\"")?;
    push_number(text, u64::from(square.row()))?;
    say(text, "\"></use>")
}

/// Appends what stands on a square.
fn push_piece(text: &mut Vec<u8>, cell: Cell, square: Square) -> Result<(), AllocError>
    ensures { OnOk result (text.new.items
        ≡ text.old.items ++ markup_text (piece cell square)) }
{
    match cell {
        Cell::Empty => Ok(()),
        Cell::Man(Side::Black) => push_shape(text, "#black-man", square),
        Cell::Man(Side::White) => push_shape(text, "#white-man", square),
        Cell::King(Side::Black) => push_shape(text, "#black-king", square),
        Cell::King(Side::White) => push_shape(text, "#white-king", square),
    }
}

/// Appends a position as a board, an SVG image with White's side below. Its shapes are those at the head of a
/// page.
#[tactic(auto, unfolding(crate::specs::Boards::board))]
pub fn push_board(text: &mut Vec<u8>, p: &Position) -> Result<(), AllocError>
    ensures { OnOk result (text.new.items ≡ text.old.items ++ markup_text (board p.now)) }
{
    say(
        text,
        "<svg class=\"board\" viewBox=\"0 0 8 8\"><use href=\"#squares\"></use>",
    )?;
    for square in Square::all() {
        let cell = p.at(square);
        push_piece(text, cell, square)?;
    }
    say(text, "</svg>")
}
