//! Whether a text is the printed FEN of a position: it is compared piece by piece, and nothing is
//! printed.
ghost use Rattle.std.specs.Prelude.{◌≡◌, ◌≢◌, ◌↔◌, ◌∷◌, [], IfNone, IfSome, IsTrue};
ghost use Rattle.std.specs.Option.{option_map};
ghost use Rattle.draughts_board.specs.Board.{Board, IsLawful, belongs, cell_at};
ghost use Rattle.draughts_board.specs.Masks.{IsMaskOf};
ghost use Rattle.fen_text.specs.Behind.{behind};
ghost use Rattle.fen_text.specs.Grammar.{item_text, list_text, numeral_text, opening_text, turn_text};
ghost use Rattle.fen_text.specs.Printed.{decimal, fen_of, next_text, printed_item, printed_items};

use crate::printing::letter;
use crate::reading::read_fen;
use draughts_board::{Cell, Position, Side, Square};

/// Behind this byte.
fn behind_byte(due: u8, text: &[u8]) -> Option<&[u8]>
    ensures { option_map (λ x. x.now) result ≡ behind (due ∷ []) text.now }
{
    match text {
        [b, rest @ ..] if *b == due => Some(rest),
        _ => None,
    }
}

/// Behind a square's number.
fn behind_number(square: Square, text: &[u8]) -> Option<&[u8]>
    ensures { option_map (λ x. x.now) result ≡ behind (numeral_text (decimal square)) text.now }
{
    let number = square.number();
    if number < 10 {
        return behind_byte(b'0' + number, text);
    }
    let rest = behind_byte(b'0' + number / 10, text)?;
    behind_byte(b'0' + number % 10, rest)
}

/// Behind a square, with `K` before it for a king.
fn behind_item(square: Square, cell: Cell, text: &[u8]) -> Option<&[u8]>
    ensures { option_map (λ x. x.now) result
        ≡ behind (item_text (printed_item square cell)) text.now }
{
    match cell {
        Cell::King(_) => behind_number(square, behind_byte(b'K', text)?),
        _ => behind_number(square, text),
    }
}

/// Behind a square that stands behind those of a list so far, of which it may be the first.
fn behind_next(is_first: bool, square: Square, cell: Cell, text: &[u8]) -> Option<&[u8]>
    ensures { option_map (λ x. x.now) result
        ≡ behind (next_text is_first (printed_item square cell)) text.now }
{
    if is_first {
        behind_item(square, cell, text)
    } else {
        behind_item(square, cell, behind_byte(b',', text)?)
    }
}

/// The squares on which a piece of the side stands, as a mask.
fn squares_with(p: &Position, side: Side) -> u32
    ensures mask { IsMaskOf (λ n. belongs side (cell_at p.now n)) result }
    ensures lawful { IsLawful p.now }
{
    let [black_men, black_kings, white_men, white_kings] = p.masks();
    match side {
        Side::Black => black_men | black_kings,
        Side::White => white_men | white_kings,
    }
}

/// Behind a side's pieces in rising order of square, with a comma between each two.
fn behind_list<'a>(p: &Position, side: Side, text: &'a [u8]) -> Option<&'a [u8]>
    ensures { option_map (λ x. x.now) result
        ≡ behind (list_text (printed_items side 1 p.now.cells)) text.now }
{
    let mut left = squares_with(p, side);
    let mut is_first = true;
    let mut rest = text;
    while left != 0 {
        let square = Square::lowest(left);
        rest = behind_next(is_first, square, p.at(square), rest)?;
        is_first = false;
        left &= left - 1;
    }
    Some(rest)
}

/// Behind the side to move and the letter of White, whose list stands first.
fn behind_opening(to_move: Side, text: &[u8]) -> Option<&[u8]>
    ensures { option_map (λ x. x.now) result ≡ behind (opening_text to_move Side.White) text.now }
{
    let due = letter(to_move);
    match text {
        [b, b':', b'W', rest @ ..] if *b == due => Some(rest),
        _ => None,
    }
}

/// Behind the letter of Black, whose list stands last.
fn behind_turn(text: &[u8]) -> Option<&[u8]>
    ensures { option_map (λ x. x.now) result ≡ behind (turn_text Side.White) text.now }
{
    match text {
        [b':', b'B', rest @ ..] => Some(rest),
        _ => None,
    }
}

/// Behind the printed FEN of the position.
fn behind_fen<'a>(p: &Position, text: &'a [u8]) -> Option<&'a [u8]>
    ensures { option_map (λ x. x.now) result ≡ behind (fen_of p.now) text.now }
{
    let rest = behind_opening(p.to_move(), text)?;
    let rest = behind_list(p, Side::White, rest)?;
    let rest = behind_turn(rest)?;
    behind_list(p, Side::Black, rest)
}

/// The text is the printed FEN of the position.
fn is_printed(p: &Position, text: &[u8]) -> bool
    ensures { IsTrue result ↔ (text.now ≡ fen_of p.now) }
{
    match behind_fen(p, text) {
        Some(rest) => rest.is_empty(),
        None => false,
    }
}

/// The position whose printed FEN this is; none where the text is no position's printed FEN. No
/// memory is taken.
pub fn read_printed_fen(text: &[u8]) -> Option<Position>
    ensures some { IfSome result (λ p. IsLawful p × (text.now ≡ fen_of p)) }
    ensures none { IfNone result ((p : Board) → IsLawful p → text.now ≢ fen_of p) }
{
    let Ok(p) = read_fen(text) else {
        return None;
    };
    if is_printed(&p, text) { Some(p) } else { None }
}
