//! Printing a position in its one spelling.
ghost use Rattle.std.specs.Prelude.{◌≡◌, ◌+◌, ◌≤◌, ◌++◌, length, if◌then◌else◌};
ghost use Rattle.arrayvec.specs.ArrayString.{array_string_len};
ghost use Rattle.draughts_board.specs.Board.{IsLawful};
ghost use Rattle.fen_text.specs.Grammar.{letter_of, item_text, list_text};
ghost use Rattle.fen_text.specs.Printed.{printed_item, next_text, printed_items, fen_of};

use arrayvec::ArrayString;
use draughts_board::{Cell, Position, Side, Square};

/// The letter of a side.
pub(crate) fn letter(side: Side) -> u8
    ensures value { result ≡ letter_of side }
    ensures ascii { result ≤ 87 }
{
    match side {
        Side::Black => b'B',
        Side::White => b'W',
    }
}

/// Appends a square, with `K` before it for a king.
fn push_item(text: &mut ArrayString<104>, square: Square, cell: Cell)
    requires { array_string_len text.old + 3 ≤ 104 }
    ensures bytes { text.new.bytes ≡ text.old.bytes ++ item_text (printed_item square cell) }
    ensures len { array_string_len text.new ≤ array_string_len text.old + 3 }
{
    if matches!(cell, Cell::King(_)) {
        text.push('K');
    }
    let number = square.number();
    if number >= 10 {
        text.push(char::from(b'0' + number / 10));
    }
    text.push(char::from(b'0' + number % 10));
}

/// Appends a square behind those of a list so far, of which this may be the first.
fn push_next(text: &mut ArrayString<104>, is_first: bool, square: Square, cell: Cell)
    requires { array_string_len text.old + 4 ≤ 104 }
    ensures bytes { text.new.bytes ≡ text.old.bytes
        ++ next_text is_first (printed_item square cell) }
    ensures len { array_string_len text.new
        ≤ array_string_len text.old + (if is_first then 3 else 4) }
{
    if !is_first {
        text.push(',');
    }
    push_item(text, square, cell);
}

/// Appends a side's pieces in rising order of square, with a comma between each two.
fn push_list(text: &mut ArrayString<104>, p: &Position, side: Side)
    requires lawful { IsLawful p.now }
    requires room { array_string_len text.old + 47 ≤ 104 }
    ensures bytes { text.new.bytes ≡ text.old.bytes
        ++ list_text (printed_items side 1 p.now.cells) }
    ensures len { array_string_len text.new ≤ array_string_len text.old + 47 }
{
    let mut is_first = true;
    for square in Square::all() {
        let cell = p.at(square);
        if cell.belongs_to(side) {
            push_next(text, is_first, square, cell);
            is_first = false;
        }
    }
}

/// The printed FEN of a position: the side to move, `:W`, White's pieces, `:B`, Black's pieces.
///
/// A side's pieces stand in rising order of square with commas between, and `K` before a king's.
/// There are no blanks, no ranges and no full stop. A side without pieces has none: `W:W:BK2`.
#[tactic(auto, unfolding(crate::specs::Printed::fen_of))]
pub fn print_fen(p: &Position) -> ArrayString<104>
    ensures text { result.bytes ≡ fen_of p.now }
    ensures short { length result.bytes ≤ 99 }
    ensures lawful { IsLawful p.now }
{
    let mut text = ArrayString::new();
    text.push(char::from(letter(p.to_move())));
    text.push_str(":W");
    push_list(&mut text, p, Side::White);
    text.push_str(":B");
    push_list(&mut text, p, Side::Black);
    text
}
