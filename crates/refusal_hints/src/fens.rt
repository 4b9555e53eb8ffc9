//! FENs that are no position.
use crate::boards::side_name;
use fen_text::FenRefusal;
use std::alloc::AllocError;
use terminal_text::{say, say_number};

/// What is wrong with a byte at which a letter or a sign is due.
fn letter_advice(fen: &[u8], at: usize) -> &'static str {
    match fen.get(at) {
        None => "The text goes on where it should end.\n",
        Some(b'b' | b'w' | b'k') => "Letters are capital ones: B, W and K.\n",
        Some(b' ') => "A blank may stand only behind a comma.\n",
        Some(b':') =>
            "The FEN ends behind its second list: counts of moves (`:H0:F1`) are not read.\n",
        Some(b'a'..=b'h') => "Squares are numbers from 1 to 32, and not letters with a number.\n",
        Some(b'?') => "The side to move is B or W.\n",
        Some(b';') => "Between squares stands a comma, and between the parts `:`.\n",
        Some(b'0'..=b'9') => "A square has at most two digits, and a comma behind it.\n",
        Some(b'/') => "This is the FEN of chess. Here squares are listed by number.\n",
        _ => "This may not stand there.\n",
    }
}

/// What is wrong where a square is due.
fn square_advice(fen: &[u8], at: usize) -> &'static str {
    match fen.get(at) {
        Some(b'0'..=b'9') => "A square is a number from 1 to 32, and a range `5-8` rises.\n",
        Some(b'a'..=b'h' | b'A'..=b'H') =>
            "Squares are numbers from 1 to 32, and not letters with a number.\n",
        Some(b' ') => "A blank may stand only behind a comma.\n",
        Some(b':' | b'.' | b',') => "A square is missing here.\n",
        _ => "A square from 1 to 32 is due here, with `K` before it for a king.\n",
    }
}

/// Appends the fault of a FEN in words.
pub(crate) fn say_fen_fault(
    text: &mut Vec<u8>,
    fen: &[u8],
    fault: FenRefusal,
) -> Result<(), AllocError> {
    match fault {
        FenRefusal::BadLetter(at) => say(text, letter_advice(fen, at)),
        FenRefusal::BadSquare(at) => say(text, square_advice(fen, at)),
        FenRefusal::Twice(square) => say_number(
            text,
            "Square ",
            u64::from(square.number()),
            " is named more than once.\n",
        ),
        FenRefusal::TooMany(side) => {
            say(text, side_name(side))?;
            say(text, " has more than 12 pieces.\n")
        }
        FenRefusal::ManOnLastRow(square) => say_number(
            text,
            "The man on ",
            u64::from(square.number()),
            " stands on its last row, where it would be a king: write `K` before the square.\n",
        ),
        FenRefusal::Truncated => say(text, "The FEN ends too early.\n"),
    }?;
    say(
        text,
        "A FEN is the side to move and two lists of squares: W:W21,22,K30:B1,5-8. Squares 1 to 12 \
            are where Black begins.\n",
    )
}

/// The byte of a FEN at which its fault stands, if it stands at one.
pub(crate) fn place_in_fen(fault: FenRefusal) -> Option<usize> {
    match fault {
        FenRefusal::BadLetter(at) => Some(at),
        FenRefusal::BadSquare(at) => Some(at),
        _ => None,
    }
}
