//! Words: results, move numbers and moves.
ghost use Rattle.std.specs.Prelude.{◌≡◌, ◌+◌, ◌-◌, ◌*◌, ◌==◌, ◌||◌, true, false, IfSome, IfNone};
ghost use Rattle.std.specs.List.{AllPass};
ghost use Rattle.draughts_board.specs.Geometry.{IsSquare, is_square};
ghost use Rattle.std.specs.Char.{is_ascii_digit};
ghost use Rattle.pdn_text.specs.Words.{is_result, is_number, word_of, move_of, path_of, is_crossed, is_dashed, number, IsPair, pair_word};

use crate::runs::digits_len;
use draughts_board::{Move, Square};

/// What a word is.
#[derive(Clone, Copy)]
pub(crate) enum Word {
    Result,
    Number,
    Move(Move),
    Bad,
}

/// What this word is, in the order of trial: a result, a move number, a move.
#[tactic(auto, unfolding(crate::specs::Words::word_of))]
pub(crate) fn word_of(word: &[u8]) -> Word
    ensures { result ≡ word_of word.now }
{
    if is_result(word) {
        Word::Result
    } else if let Some((first, last)) = pair_of(word) {
        pair_word(first, last)
    } else if is_number(word) {
        Word::Number
    } else {
        match move_of(word) {
            Some(squares) => Word::Move(squares),
            None => Word::Bad,
        }
    }
}

/// The byte separates two squares: `-` or `x`.
fn is_separator(byte: u8) -> bool
    ensures { result ≡ (byte == 45 || byte == 120) }
{
    byte == b'-' || byte == b'x'
}

/// What one digit stands for, or two.
fn pair_number(tens: u8, ones: u8) -> u8
    requires tens { is_ascii_digit tens ≡ true }
    requires ones { is_ascii_digit ones ≡ true }
    ensures { result ≡ 10 * (tens - 48) + (ones - 48) }
{
    10 * (tens - b'0') + (ones - b'0')
}

/// The two numbers of a word that is one or two digits, a separator, and one or two digits. Most moves are
/// written so.
fn pair_of(word: &[u8]) -> Option<(u8, u8)>
    ensures { IfSome result (λ pair. IsPair word.now pair.0 pair.1) }
{
    match word {
        [a, sign, c] if a.is_ascii_digit() && is_separator(*sign) && c.is_ascii_digit() => Some((
            *a - b'0',
            *c - b'0',
        )),
        [a, sign, c, d]
            if a.is_ascii_digit()
                && is_separator(*sign)
                && c.is_ascii_digit()
                && d.is_ascii_digit() => Some((*a - b'0', pair_number(*c, *d))),
        [a, b, sign, c]
            if a.is_ascii_digit()
                && b.is_ascii_digit()
                && is_separator(*sign)
                && c.is_ascii_digit() => Some((pair_number(*a, *b), *c - b'0')),
        [a, b, sign, c, d]
            if a.is_ascii_digit()
                && b.is_ascii_digit()
                && is_separator(*sign)
                && c.is_ascii_digit()
                && d.is_ascii_digit() => Some((pair_number(*a, *b), pair_number(*c, *d))),
        _ => None,
    }
}

/// What the word of these two numbers is.
fn pair_word(first: u8, last: u8) -> Word
    ensures { result ≡ pair_word first last }
{
    match (Square::new(first), Square::new(last)) {
        (Some(from), Some(to)) => Word::Move(Move::direct(from, to)),
        _ => Word::Bad,
    }
}

/// The word is digits alone.
fn is_number(word: &[u8]) -> bool
    ensures { result ≡ is_number word.now }
{
    word.iter().all(|b| b.is_ascii_digit())
}

/// The word is one of the results of a game that was scored.
fn is_result(word: &[u8]) -> bool
    ensures { result ≡ is_result word.now }
{
    word == b"1-0".as_slice()
        || word == b"0-1".as_slice()
        || word == b"1/2-1/2".as_slice()
        || word == b"2-0".as_slice()
        || word == b"0-2".as_slice()
        || word == b"1-1".as_slice()
        || word == b"0-0".as_slice()
}

/// The squares of a move that is written so; none where the word is no move.
#[tactic(auto, unfolding(crate::specs::Words::move_of))]
fn move_of(word: &[u8]) -> Option<Move>
    ensures { result ≡ move_of word.now }
{
    let squares = path_of(word)?;
    if is_crossed(word) || (squares.path().len() == 2 && is_dashed(word)) {
        Some(squares)
    } else {
        None
    }
}

/// Each separator is `x`.
fn is_crossed(word: &[u8]) -> bool
    ensures { result ≡ is_crossed word.now }
{
    word.iter().all(|b| b.is_ascii_digit() || *b == b'x')
}

/// Each separator is `-`.
fn is_dashed(word: &[u8]) -> bool
    ensures { result ≡ is_dashed word.now }
{
    word.iter().all(|b| b.is_ascii_digit() || *b == b'-')
}

/// The squares between the separators, where they are squares, two to thirteen of them.
fn path_of(word: &[u8]) -> Option<Move>
    ensures { result ≡ path_of word.now }
{
    let (field, mut rest) = word.split_at(digits_len(word));
    let first = square_of(field)?;
    let mut squares = [first; 13];
    let mut len = 1;
    while !rest.is_empty() {
        if len == 13 {
            return None;
        }
        let (_separator, behind) = rest.split_at(1);
        let (field, after) = behind.split_at(digits_len(behind));
        squares[len] = square_of(field)?;
        len += 1;
        rest = after;
    }
    Move::of(&squares[..len])
}

/// The square that one or two digits stand for.
fn square_of(field: &[u8]) -> Option<Square>
    requires { AllPass is_ascii_digit field.now }
    ensures some { IfSome result (λ s. (s ≡ number field.now) × IsSquare s) }
    ensures none { IfNone result (is_square (number field.now) ≡ false) }
{
    let number = match field {
        [b] => b - b'0',
        [b, c] => 10 * (b - b'0') + (c - b'0'),
        _ => 0,
    };
    Square::new(number)
}
