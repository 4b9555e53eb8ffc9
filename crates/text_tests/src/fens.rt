//! Texts and their outcomes, worked out by hand from the grammar.
use draughts_board::{Position, Side, Square};
use fen_text::{FenRefusal, print_fen, read_fen};
use std::alloc::{AllocError, Global};
use std::process::Abort;
use std::test::Fail;

/// What a text is answered with: the printed FEN of its position, or the refusal.
#[derive(Clone, Copy)]
enum Want {
    Spells(&'static str),
    BadLetter(usize),
    BadSquare(usize),
    Twice(u8),
    TooMany(Side),
    Man(u8),
    Truncated,
}

use Want::*;

/// The refusal is the one that is wanted.
fn is_refusal(refusal: FenRefusal, want: Want) -> bool {
    match refusal {
        FenRefusal::BadLetter(at) => matches!(want, BadLetter(due) if due == at),
        FenRefusal::BadSquare(at) => matches!(want, BadSquare(due) if due == at),
        FenRefusal::Twice(square) => matches!(want, Twice(n) if n == square.number()),
        FenRefusal::TooMany(side) => matches!(want, TooMany(due) if due == side),
        FenRefusal::ManOnLastRow(square) => matches!(want, Man(n) if n == square.number()),
        FenRefusal::Truncated => matches!(want, Truncated),
    }
}

/// The text is answered so.
fn meets(text: &[u8], want: Want) -> bool {
    match read_fen(text) {
        Ok(p) => matches!(want, Spells(fen) if print_fen(&p).as_str() == fen),
        Err(refusal) => is_refusal(refusal, want),
    }
}

/// Each text is answered so.
fn expect(rt: &impl Abort, cases: &[(&str, Want)]) {
    for (text, want) in cases {
        assert!(rt; meets(text.as_bytes(), *want), "{text}");
    }
}

const SPELLINGS: &[(&str, Want)] = &[
    ("B:W16,19:B12", Spells("B:W16,19:B12")),
    ("W:W16,23:B12", Spells("W:W16,23:B12")),
    ("B:WK32:BK1", Spells("B:WK32:BK1")),
    // A side without pieces.
    ("W:W:BK2", Spells("W:W:BK2")),
    ("W:W:B", Spells("W:W:B")),
    ("B:B:W.", Spells("B:W:B")),
    // Black's list first, and squares in any order.
    ("B:B12:W16,19", Spells("B:W16,19:B12")),
    ("B:W19,16:B12", Spells("B:W16,19:B12")),
    // Ranges, with kings on each square of one behind a K.
    ("W:W21-24:B1-3", Spells("W:W21,22,23,24:B1,2,3")),
    ("W:WK1-3:B12", Spells("W:WK1,K2,K3:B12")),
    ("W:W9-9:BK30-30", Spells("W:W9:BK30")),
    ("B:WK1,8-10,K11:B", Spells("B:WK1,8,9,10,K11:B")),
    (
        "W:B1-12:W21-32.",
        Spells("W:W21,22,23,24,25,26,27,28,29,30,31,32:B1,2,3,4,5,6,7,8,9,10,11,12"),
    ),
    // Blanks behind a comma, a 0 in front, and the full stop.
    ("B:W16,   19, K20:B12.", Spells("B:W16,19,K20:B12")),
    ("B:W16:B01,02", Spells("B:W16:B1,2")),
    ("B:W08-10:BK07", Spells("B:W8,9,10:BK7")),
    ("W:BK05-07:WK30-30.", Spells("W:WK30:BK5,K6,K7")),
    // Men one row before their farthest, and kings on it.
    ("B:W5:B28", Spells("B:W5:B28")),
    ("B:WK4:BK29", Spells("B:WK4:BK29")),
];

#[test]
fn reads_every_spelling(rt: HostRuntime) {
    expect(&rt, SPELLINGS);
}

const OTHER_LETTERS: &[(&str, Want)] = &[
    // The side letter.
    ("x", BadLetter(0)),
    ("b", BadLetter(0)),
    ("K", BadLetter(0)),
    ("1", BadLetter(0)),
    (":", BadLetter(0)),
    (".", BadLetter(0)),
    (" ", BadLetter(0)),
    // The first colon and the first letter of colour.
    ("Bx", BadLetter(1)),
    ("BW", BadLetter(1)),
    ("B:x", BadLetter(2)),
    ("B:K1:B", BadLetter(2)),
    ("B: W16:B", BadLetter(2)),
    // Behind a letter of colour: the list may be empty, so no square is due.
    ("B:Wx", BadLetter(3)),
    ("B:W,16:B", BadLetter(3)),
    ("B:W 16:B", BadLetter(3)),
    ("B:W.", BadLetter(3)),
    ("B:W16:B:", BadLetter(7)),
    ("B:W16:B,1", BadLetter(7)),
    // Behind an item: blanks, a third digit, a second range and a full stop too early.
    ("B:W16x", BadLetter(5)),
    ("B:W161:B", BadLetter(5)),
    ("B:W16 ,19:B12", BadLetter(5)),
    ("B:W16.:B12", BadLetter(5)),
    ("B:W1K:B", BadLetter(4)),
    ("B:W16-20-22:B", BadLetter(8)),
    ("B:W16-201:B", BadLetter(8)),
    ("B:W16:B12:", BadLetter(9)),
    ("B:W16:B12:H0:F1", BadLetter(9)),
    ("B:W16:B12 ", BadLetter(9)),
    ("B:W16:B12\n", BadLetter(9)),
    // The second letter of colour: the other one alone.
    ("B:W16:W19", BadLetter(6)),
    ("B:B16:B19", BadLetter(6)),
    ("B:W16:x", BadLetter(6)),
    // Behind the full stop.
    ("B:W:B..", BadLetter(6)),
    ("B:W16:B.1", BadLetter(8)),
    ("B:W16:B12.x", BadLetter(10)),
    // It stands before any other fault.
    ("W:W21,21:B5x", BadLetter(11)),
];

#[test]
fn refuses_a_letter(rt: HostRuntime) {
    expect(&rt, OTHER_LETTERS);
}

const OTHER_SQUARES: &[(&str, Want)] = &[
    // No square's number.
    ("B:W0:B", BadSquare(3)),
    ("B:W00:B", BadSquare(3)),
    ("B:W0", BadSquare(3)),
    ("B:W33:B", BadSquare(3)),
    ("B:W99", BadSquare(3)),
    ("B:WK33:B", BadSquare(4)),
    ("B:W16:B0", BadSquare(7)),
    ("B:W16:B12,40", BadSquare(10)),
    // Behind a comma and its blanks.
    ("B:W16,x", BadSquare(6)),
    ("B:W16,,19:B", BadSquare(6)),
    ("B:W16,:B12", BadSquare(6)),
    ("B:W16,.", BadSquare(6)),
    ("B:W16, :B", BadSquare(7)),
    ("B:W16,  0:B", BadSquare(8)),
    // Behind a K.
    ("B:WKx", BadSquare(4)),
    ("B:WKK1:B", BadSquare(4)),
    ("B:WK:B", BadSquare(4)),
    ("B:WK 1:B", BadSquare(4)),
    // The last square of a range.
    ("B:W16-x", BadSquare(6)),
    ("B:W16-K17:B", BadSquare(6)),
    ("B:W16- 17:B", BadSquare(6)),
    ("B:W16-33:B", BadSquare(6)),
    ("B:W16-15:B", BadSquare(6)),
    ("B:W16-1", BadSquare(6)),
    ("B:W16:B12-11.", BadSquare(10)),
];

#[test]
fn refuses_a_square(rt: HostRuntime) {
    expect(&rt, OTHER_SQUARES);
}

const BROKEN_OFF: &[(&str, Want)] = &[
    ("", Truncated),
    ("B", Truncated),
    ("W", Truncated),
    ("B:", Truncated),
    ("B:W", Truncated),
    ("B:WK", Truncated),
    ("B:W1", Truncated),
    ("B:W16", Truncated),
    ("B:W16,", Truncated),
    ("B:W16,  ", Truncated),
    ("B:W16,K", Truncated),
    ("B:W16-", Truncated),
    ("B:W16-17", Truncated),
    ("B:W16:", Truncated),
    ("B:W16:BK", Truncated),
    ("B:W16:B12,", Truncated),
    ("B:W16:B12, ", Truncated),
    ("B:W16:B12-", Truncated),
    ("B:W4,4", Truncated),
    ("B:W1-13:B29,K", Truncated),
];

#[test]
fn refuses_what_breaks_off(rt: HostRuntime) {
    expect(&rt, BROKEN_OFF);
}

const NO_POSITIONS: &[(&str, Want)] = &[
    // The least square that is named twice, before anything else.
    ("W:W21,21:B5", Twice(21)),
    ("B:W16:B16", Twice(16)),
    ("W:W32:B32", Twice(32)),
    ("B:W1:B01", Twice(1)),
    ("B:WK30,K30,7,7:B", Twice(7)),
    ("B:W16-20,18:B12,9,09", Twice(9)),
    ("B:W5-9,9-12:B", Twice(9)),
    ("B:W21-32:B1-13,13", Twice(13)),
    ("W:W4,4:B30", Twice(4)),
    // More than 12 of a side, Black counted first.
    ("B:W:B1-13", TooMany(Side::Black)),
    ("B:W20-32:B", TooMany(Side::White)),
    ("B:WK14-26:BK1-13", TooMany(Side::Black)),
    ("B:W1-13:B", TooMany(Side::White)),
    // The least square with a man on its farthest row.
    ("W:W21:B30", Man(30)),
    ("W:W4:B5", Man(4)),
    ("W:W4:B29", Man(4)),
    ("B:W1:B", Man(1)),
    ("B:W:B32", Man(32)),
    ("B:W2,K1:B", Man(2)),
    ("B:W:BK29-31,32", Man(32)),
];

#[test]
fn refuses_what_is_no_position(rt: HostRuntime) {
    expect(&rt, NO_POSITIONS);
}

/// The prefixes of a text, from the empty one on.
const PREFIXES_OF_KINGS: &[(&str, Want)] = &[
    ("", Truncated),
    ("B", Truncated),
    ("B:", Truncated),
    ("B:W", Truncated),
    ("B:WK", Truncated),
    ("B:WK3", Truncated),
    ("B:WK32", Truncated),
    ("B:WK32:", Truncated),
    ("B:WK32:B", Spells("B:WK32:B")),
    ("B:WK32:BK", Truncated),
    ("B:WK32:BK1", Spells("B:WK32:BK1")),
];

/// The prefixes of a text, from the empty one on.
const PREFIXES_OF_RANGES: &[(&str, Want)] = &[
    ("", Truncated),
    ("W", Truncated),
    ("W:", Truncated),
    ("W:B", Truncated),
    ("W:B0", BadSquare(3)),
    ("W:B05", Truncated),
    ("W:B05,", Truncated),
    ("W:B05, ", Truncated),
    ("W:B05, 6", Truncated),
    ("W:B05, 6-", Truncated),
    ("W:B05, 6-0", BadSquare(9)),
    ("W:B05, 6-07", Truncated),
    ("W:B05, 6-07:", Truncated),
    ("W:B05, 6-07:W", Spells("W:W:B5,6,7")),
    ("W:B05, 6-07:WK", Truncated),
    ("W:B05, 6-07:WK9", Spells("W:WK9:B5,6,7")),
    ("W:B05, 6-07:WK9.", Spells("W:WK9:B5,6,7")),
];

/// The prefixes of a text, from the empty one on.
const PREFIXES_OF_LISTS: &[(&str, Want)] = &[
    ("", Truncated),
    ("B", Truncated),
    ("B:", Truncated),
    ("B:W", Truncated),
    ("B:W3", Truncated),
    ("B:W32", Truncated),
    ("B:W32,", Truncated),
    ("B:W32,3", Truncated),
    ("B:W32,31", Truncated),
    ("B:W32,31:", Truncated),
    ("B:W32,31:B", Spells("B:W31,32:B")),
    ("B:W32,31:B1", Spells("B:W31,32:B1")),
    ("B:W32,31:B10", Spells("B:W31,32:B10")),
    ("B:W32,31:B10-", Truncated),
    ("B:W32,31:B10-1", BadSquare(13)),
    ("B:W32,31:B10-12", Spells("B:W31,32:B10,11,12")),
    ("B:W32,31:B10-12,", Truncated),
    ("B:W32,31:B10-12,1", Spells("B:W31,32:B1,10,11,12")),
];

#[test]
fn answers_every_prefix(rt: HostRuntime) {
    expect(&rt, PREFIXES_OF_KINGS);
    expect(&rt, PREFIXES_OF_RANGES);
    expect(&rt, PREFIXES_OF_LISTS);
}

const START: &str = "B:W21,22,23,24,25,26,27,28,29,30,31,32:B1,2,3,4,5,6,7,8,9,10,11,12";

#[test]
fn prints_the_start(rt: HostRuntime) {
    let start = Position::start();
    assert!(rt; print_fen(&start).as_str() == START);
    assert!(rt; read_fen(START.as_bytes()) == Ok(start));
}

/// What is printed of the refusals, a line each; of those that name a square, this one.
fn printed(alloc: Global, square: Square) -> Result<String, AllocError> {
    format!(in alloc;
        "{}\n{}\n{}\n{}\n{}\n{}\n{}\n",
        FenRefusal::BadLetter(7),
        FenRefusal::BadSquare(3),
        FenRefusal::Twice(square),
        FenRefusal::TooMany(Side::Black),
        FenRefusal::TooMany(Side::White),
        FenRefusal::ManOnLastRow(square),
        FenRefusal::Truncated
    )
}

#[test]
fn refusals_name_their_data(rt: HostRuntime) -> Result<(), Fail> {
    let square = Square::new(9).ok_or("no square")?;
    let due = "byte 7 may not stand there\n\
        no square at byte 3\n\
        square 9 is named more than once\n\
        Black has more than 12 pieces\n\
        White has more than 12 pieces\n\
        the man on square 9 is on its farthest row\n\
        the text ends too early\n";
    assert_eq!(rt; printed(rt.alloc(), square)?.as_str(), due);
    Ok(())
}
