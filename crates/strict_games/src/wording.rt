//! Tags, numbers, moves and results as they are printed.
ghost use Rattle.std.specs.Prelude.{◌≡◌, ◌≤◌, ◌++◌, All, OnOk, length};
ghost use Rattle.std.specs.List.{flat_map};
ghost use Rattle.draughts_board.specs.Geometry.{IsSquare};
ghost use Rattle.strict_games.specs.Spelling.{escaped, move_text, number_text, score_text, separator_of, square_text, squares_text, tag_text};

use crate::printing::Score;
use draughts_board::{Move, Side, Square};
use shared_words::push_number;
use std::alloc::AllocError;

/// The word of a result.
pub(crate) fn word_of(score: Score) -> &'static str
    ensures { result.now ≡ score_text score }
{
    match score {
        Score::OneNil => "1-0",
        Score::NilOne => "0-1",
        Score::Halves => "1/2-1/2",
        Score::TwoNil => "2-0",
        Score::NilTwo => "0-2",
        Score::OneAll => "1-1",
        Score::NilAll => "0-0",
        Score::Unknown => "*",
    }
}

/// Appends a value, with `\` before each `"` and `\`.
fn push_value(text: &mut Vec<u8>, value: &[u8]) -> Result<(), AllocError>
    ensures { OnOk result (text.new.items ≡ text.old.items ++ flat_map escaped value.now) }
{
    for byte in value {
        if *byte == b'"' || *byte == b'\\' {
            text.push(b'\\')?;
        }
        text.push(*byte)?;
    }
    Ok(())
}

/// Appends a tag.
pub(crate) fn push_tag_text(text: &mut Vec<u8>, name: &[u8], value: &[u8]) -> Result<(), AllocError>
    ensures { OnOk result (text.new.items ≡ text.old.items ++ tag_text name.now value.now) }
{
    text.push(b'[')?;
    text.extend_from_slice(name)?;
    text.extend_from_slice(b" \"")?;
    push_value(text, value)?;
    text.extend_from_slice(b"\"]")?;
    Ok(())
}

/// Appends the number of a square.
#[inline]
fn push_square(text: &mut Vec<u8>, square: Square) -> Result<(), AllocError>
    ensures { OnOk result (text.new.items ≡ text.old.items ++ square_text square) }
{
    let number = square.number();
    if number >= 10 {
        text.push(b'0' + number / 10)?;
    }
    text.push(b'0' + number % 10)?;
    Ok(())
}

/// Appends squares, each behind a separator.
fn push_further(text: &mut Vec<u8>, separator: u8, squares: &[Square]) -> Result<(), AllocError>
    ensures { OnOk result (text.new.items ≡ text.old.items ++ squares_text separator squares.now) }
{
    for square in squares {
        text.push(separator)?;
        push_square(text, *square)?;
    }
    Ok(())
}

/// What stands between the squares of a move: `-` between the two squares of a step, `x` between those
/// of a capture.
fn separator_of(path: &[Square]) -> u8
    requires { 2 ≤ length path.now }
    ensures { result ≡ separator_of path.now }
{
    if path.len() == 2 && path[0].is_near(path[1]) {
        b'-'
    } else {
        b'x'
    }
}

/// Appends a move.
pub(crate) fn push_move_text(text: &mut Vec<u8>, squares: &Move) -> Result<(), AllocError>
    ensures text { OnOk result (text.new.items ≡ text.old.items ++ move_text squares.now) }
    ensures least { OnOk result (2 ≤ length squares.now) }
    ensures most { OnOk result (length squares.now ≤ 13) }
    ensures squares { OnOk result (All IsSquare squares.now) }
{
    let path = squares.path();
    let separator = separator_of(path);
    push_square(text, path[0])?;
    push_further(text, separator, &path[1..])
}

/// How many bytes a move and a blank before it have.
pub(crate) fn move_len(squares: &Move) -> usize {
    let mut len = 0_usize;
    for square in squares.path() {
        len = len.saturating_add(if square.number() < 10 { 2 } else { 3 });
    }
    len
}

/// Appends the number of a move, with a dot behind it, or three before a move of White.
pub(crate) fn push_number_text(
    text: &mut Vec<u8>,
    number: u64,
    is_white: bool,
) -> Result<(), AllocError>
    ensures { OnOk result (text.new.items ≡ text.old.items ++ number_text number is_white) }
{
    push_number(text, number)?;
    if is_white {
        text.extend_from_slice(b"...")?;
    } else {
        text.push(b'.')?;
    }
    Ok(())
}

/// The number of a move, which may be one of White.
#[derive(Clone, Copy)]
pub(crate) struct MoveNumber {
    pub(crate) number: u64,
    pub(crate) is_white: bool,
}

/// The number that stands before the move of this ply, from 0, if one does: before each move of Black,
/// and before a first move of White.
pub(crate) fn number_before(first: Side, ply: u64) -> Option<MoveNumber> {
    let moves = match first {
        Side::Black => ply,
        Side::White => ply.saturating_add(1),
    };
    let is_white = moves % 2 == 1;
    if is_white && ply > 0 {
        return None;
    }
    Some(MoveNumber {
        number: moves / 2 + 1,
        is_white,
    })
}

/// How many bytes a number with its dots, and a blank before it, have at most.
pub(crate) fn number_len(number: u64) -> usize {
    match number {
        0..=9 => 3,
        10..=99 => 4,
        100..=999 => 5,
        _ => 24,
    }
}
