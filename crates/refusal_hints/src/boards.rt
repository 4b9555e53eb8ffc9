//! A position as a small board.
ghost use Rattle.std.specs.Prelude.{◌≤◌};

use draughts_board::{Cell, Position, Side, Square};
use fen_text::print_fen;
use std::alloc::AllocError;
use terminal_text::{say, say_number};

/// The sign of what stands on a square: small letters for men, capital ones for kings.
fn cell_sign(cell: Cell) -> &'static str {
    match cell {
        Cell::Empty => ".",
        Cell::Man(Side::Black) => "b",
        Cell::Man(Side::White) => "w",
        Cell::King(Side::Black) => "B",
        Cell::King(Side::White) => "W",
    }
}

/// The name of a side.
pub(crate) fn side_name(side: Side) -> &'static str {
    match side {
        Side::Black => "Black",
        Side::White => "White",
    }
}

/// Appends what stands behind a row's last square: its numbers.
fn say_row_end(text: &mut Vec<u8>, last: u8, behind: &str) -> Result<(), AllocError>
    requires { 4 ≤ last }
{
    say_number(text, behind, u64::from(last - 3), "-")?;
    say_number(text, "", u64::from(last), "\n")
}

/// Appends a position as a board of 8 rows, square 1 on top, each with its numbers.
pub(crate) fn say_board(text: &mut Vec<u8>, p: &Position) -> Result<(), AllocError> {
    for square in Square::all() {
        let is_shifted = square.row() % 2 == 0;
        let place = (square.number() - 1) % 4;
        let before = if place > 0 {
            "   "
        } else if is_shifted {
            "    "
        } else {
            "  "
        };
        say(text, before)?;
        say(text, cell_sign(p.at(square)))?;
        if place == 3 {
            let behind = if is_shifted { "   " } else { "     " };
            say_row_end(text, 4 * square.row() + 4, behind)?;
        }
    }
    Ok(())
}

/// Appends whose turn it is, the FEN, and the board.
pub fn say_position(text: &mut Vec<u8>, p: &Position) -> Result<(), AllocError> {
    say(text, side_name(p.to_move()))?;
    say(text, " is to move: ")?;
    say(text, print_fen(p).as_str())?;
    say(text, "\n")?;
    say_board(text, p)
}
