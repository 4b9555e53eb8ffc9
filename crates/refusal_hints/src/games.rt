//! Games that have no opening: of another game, from no position, or with a move that is none.
ghost use Rattle.std.specs.Prelude.{◌≤◌, ◌<◌, ◌+◌, length};

use crate::boards::{say_position, side_name};
use crate::fens::{place_in_fen, say_fen_fault};
use crate::game_types::say_type_advice;
use crate::move_lists::{is_capture, legal_moves_text, push_moves};
use crate::pdn::{QUOTE_WIDTH, word_from};
use draughts_board::{Move, Position, is_written};
use draughts_rules::legal_moves;
use fen_text::FenRefusal;
use pdn_openings::{OpeningRefusal, openings};
use pdn_text::{Game, Item, MoveText, PdnRefusal, Sign, Tag, beginning, item_at, read_games};
use std::alloc::{AllocError, Global};
use terminal_text::{quote, say, say_excerpt, say_number, say_place};

/// The games of a source; none where it has no games to be read.
pub(crate) fn games_of(alloc: Global, source: &[u8]) -> Result<Vec<Game>, AllocError> {
    match read_games(alloc, source) {
        Ok(games) => Ok(games),
        Err(PdnRefusal::Memory(error)) => Err(error),
        Err(_) => Ok(Vec::new(alloc)),
    }
}

/// The game with this number, counted from 1.
pub(crate) fn game_numbered(games: &[Game], number: u32) -> Option<&Game> {
    if number == 0 {
        return None;
    }
    games.get(number as usize - 1)
}

/// The value of a game's first tag of this name.
fn value_of<'a>(game: &'a Game, name: &[u8]) -> Option<&'a [u8]> {
    let first = game
        .tags
        .as_slice()
        .iter()
        .find(|tag| tag.name.as_slice() == name)?;
    Some(first.value.as_slice())
}

/// The front of these bytes that is quoted.
fn cut(bytes: &[u8]) -> &[u8] {
    &bytes[..bytes.len().min(QUOTE_WIDTH)]
}

/// Appends a game's number, and in parentheses its event and its players where it names them.
fn say_game(text: &mut Vec<u8>, number: u32, game: &Game) -> Result<(), AllocError> {
    say_number(text, "Game ", u64::from(number), "")?;
    let mut before = " (";
    for name in ["Event", "Black", "White"] {
        if let Some(value) = value_of(game, name.as_bytes()) {
            say(text, before)?;
            say(text, name)?;
            say(text, ": ")?;
            quote(text, cut(value))?;
            before = ", ";
        }
    }
    say(text, if before == ", " { ")" } else { "" })
}

/// Where the games before this one have their last move, at most the end of the source.
fn end_of_earlier(games: &[Game], number: u32, source: &[u8]) -> usize
    ensures { result ≤ length source.now }
{
    let mut end = 0;
    let most = games.len().min(number.saturating_sub(1) as usize);
    for game in &games[..most] {
        if let Some(written) = game.moves.as_slice().last() {
            end = written.end;
        }
    }
    end.min(source.len())
}

/// The item is a tag of this name and this value.
fn is_tag(sign: Option<Sign>, name: &[u8], value: &[u8]) -> bool {
    match sign {
        Some(
            Sign::Tagged(
                Tag {
                    name: own,
                    value: said,
                },
            ),
        ) => own.as_slice() == name && said.as_slice() == value,
        _ => false,
    }
}

/// The place from `from` on at which the first tag of this name and this value begins. An item
/// stands at `from`.
fn place_of_tag(
    alloc: Global,
    source: &[u8],
    from: usize,
    name: &[u8],
    value: &[u8],
) -> Result<Option<usize>, AllocError> {
    let mut at = from;
    while at < source.len() {
        let Item { end, sign } = match item_at(alloc, source, at) {
            Ok(item) => item,
            Err(PdnRefusal::Memory(error)) => return Err(error),
            Err(_) => return Ok(None),
        };
        if is_tag(sign, name, value) {
            return Ok(Some(at));
        }
        at = end;
    }
    Ok(None)
}

/// The place of the value's first byte in the tag of this name and value that a game has.
fn place_of_value(
    alloc: Global,
    games: &[Game],
    number: u32,
    source: &[u8],
    name: &[u8],
    value: &[u8],
) -> Result<Option<usize>, AllocError> {
    let from = end_of_earlier(games, number, source).max(beginning(source));
    let Some(place) = place_of_tag(alloc, source, from, name, value)? else {
        return Ok(None);
    };
    let mark = source
        .iter()
        .skip(place)
        .position(|b| *b == b'"')
        .unwrap_or(0);
    Ok(Some(place.saturating_add(mark).saturating_add(1)))
}

/// Appends the line and the column of a byte, and the text as it stands there.
fn say_byte(text: &mut Vec<u8>, source: &[u8], at: usize) -> Result<(), AllocError> {
    let at = at.min(source.len());
    say_place(text, source, at)?;
    say_excerpt(text, source, at)
}

/// Appends why the FEN of a game is none: where it stands, and the fault in words.
pub(crate) fn say_fen(
    text: &mut Vec<u8>,
    alloc: Global,
    games: &[Game],
    number: u32,
    fault: FenRefusal,
    source: &[u8],
) -> Result<(), AllocError> {
    let Some(game) = game_numbered(games, number) else {
        return say_fen_fault(text, b"", fault);
    };
    let fen = value_of(game, b"FEN").unwrap_or(b"");
    let within = place_in_fen(fault).unwrap_or(0);
    match place_of_value(alloc, games, number, source, b"FEN", fen)? {
        Some(place) => say_byte(text, source, place.saturating_add(within)),
        None => say_excerpt(text, fen, within.min(fen.len())),
    }?;
    say_game(text, number, game)?;
    say(text, " begins from no position. ")?;
    say_fen_fault(text, fen, fault)
}

/// Appends that a game is of another kind: where its tag stands, which, and what may be done.
pub(crate) fn say_other_game(
    text: &mut Vec<u8>,
    alloc: Global,
    games: &[Game],
    number: u32,
    source: &[u8],
) -> Result<(), AllocError> {
    let Some(game) = game_numbered(games, number) else {
        return Ok(());
    };
    let value = value_of(game, b"GameType").unwrap_or(b"");
    if let Some(place) = place_of_value(alloc, games, number, source, b"GameType", value)? {
        say_byte(text, source, place)?;
    }
    say_game(text, number, game)?;
    say(text, " has the tag GameType \"")?;
    quote(text, cut(value))?;
    say(text, "\". ")?;
    say_type_advice(text, value)
}

/// The position before the move of a ply, counted from 1, of the game with this number; none where
/// it cannot be had.
fn position_before(
    alloc: Global,
    games: &[Game],
    number: u32,
    ply: u32,
) -> Result<Option<Position>, AllocError> {
    let at = number.saturating_sub(1) as usize;
    if at >= games.len() {
        return Ok(None);
    }
    match openings(alloc, &games[at..at + 1], ply.saturating_sub(1)) {
        Ok(found) => match found.first() {
            Some(opening) => Ok(Some(opening.position)),
            None => Ok(None),
        },
        Err(OpeningRefusal::Memory(error)) => Err(error),
        Err(_) => Ok(None),
    }
}

/// The sides of a position that cannot move, or which moves are legal.
fn say_legal(text: &mut Vec<u8>, alloc: Global, p: &Position) -> Result<(), AllocError> {
    let moves = legal_moves(alloc, p)?;
    let side = side_name(p.to_move());
    match moves.first() {
        None => {
            say(text, side)?;
            say(text, " has no legal move: the game is over.\n")
        }
        Some(first) => {
            say(text, side)?;
            if is_capture(first.path()) {
                say(text, " has to capture. The captures: ")?;
            } else {
                say(text, " has no capture. The legal moves: ")?;
            }
            text.extend_from_slice(&legal_moves_text(alloc, p)?)?;
            say(text, "\n")
        }
    }
}

/// Why a piece of the side that is not to move may be moved at a ply of a game.
fn whose_advice(ply: u32, has_fen: bool) -> &'static str {
    if ply > 1 {
        "'s: a move before it may be missing or stand there twice.\n"
    } else if has_fen {
        "'s: the letter at the front of the tag `FEN` says who is to move first.\n"
    } else {
        "'s, and in English draughts Black begins: is this a game of another kind, in which White \
            begins, or does it lack its tag `FEN`?\n"
    }
}

/// Appends why the move of a ply cannot be made, so far as its first square says.
fn say_first_square(
    text: &mut Vec<u8>,
    p: &Position,
    written: &Move,
    ply: u32,
    has_fen: bool,
) -> Result<(), AllocError> {
    let from = written.path()[0];
    let cell = p.at(from);
    if cell.belongs_to(p.to_move()) {
        return Ok(());
    }
    let number = u64::from(from.number());
    if cell.is_empty() {
        return say_number(text, "No piece stands on ", number, ".\n");
    }
    say_number(text, "The piece on ", number, " is ")?;
    say(text, side_name(p.to_move().other()))?;
    say(text, whose_advice(ply, has_fen))
}

/// The star that ends the game before may have been meant for the move behind it.
fn follows_star(source: &[u8], at: usize) -> bool
    requires { at ≤ length source.now }
{
    let front = source[..at].trim_ascii_end();
    front.ends_with(b"*")
}

/// Appends the position before a move, and what is legal there.
fn say_illegal(
    text: &mut Vec<u8>,
    alloc: Global,
    p: &Position,
    written: &MoveText,
    ply: u32,
    has_fen: bool,
) -> Result<(), AllocError> {
    say(text, " is not legal.\n")?;
    say_first_square(text, p, &written.squares, ply, has_fen)?;
    say_position(text, p)?;
    say_legal(text, alloc, p)
}

/// Appends which legal moves are written so.
fn say_ambiguous(
    text: &mut Vec<u8>,
    alloc: Global,
    p: &Position,
    written: &MoveText,
) -> Result<(), AllocError> {
    let squares = written.squares.path();
    let last = squares.len() - 1;
    let (from, middle, to) = (squares[0], &squares[1..last], squares[last]);
    let mut moves = legal_moves(alloc, p)?;
    moves.retain(|m| is_written(m, from, middle, to));
    say(
        text,
        " may mean two moves that differ. Write all squares of the one that was played: ",
    )?;
    push_moves(text, &moves)?;
    say(text, "\n")?;
    say_position(text, p)
}

/// Appends what is wrong with the move of a ply of a game, whose first byte stands at `at`.
pub(crate) fn say_move_fault(
    text: &mut Vec<u8>,
    alloc: Global,
    source: &[u8],
    at: usize,
    number: u32,
    ply: u32,
    is_ambiguous: bool,
) -> Result<(), AllocError>
    requires { at ≤ length source.now }
{
    say_excerpt(text, source, at)?;
    let games = games_of(alloc, source)?;
    let Some(game) = game_numbered(&games, number) else {
        return Ok(());
    };
    let Some(written) = game.moves.as_slice().get(ply.saturating_sub(1) as usize) else {
        return Ok(());
    };
    let Some(p) = position_before(alloc, &games, number, ply)? else {
        return Ok(());
    };
    say_game(text, number, game)?;
    say_number(text, ", ply ", u64::from(ply), ": ")?;
    quote(text, word_from(source, at))?;
    if is_ambiguous {
        return say_ambiguous(text, alloc, &p, written);
    }
    let has_fen = value_of(game, b"FEN").is_some();
    say_illegal(text, alloc, &p, written, ply, has_fen)?;
    if ply == 1 && follows_star(source, at) {
        say(
            text,
            "A star before a move is read as the end of the game before it.\n",
        )?;
    }
    Ok(())
}
