//! The game that is read.
ghost use Rattle.std.specs.Prelude.{◌≡◌, ◌<◌, ◌^◌};
ghost use Rattle.source_warnings.specs.Games as games;

use crate::items::Kind;
use crate::tags::TagKind;

/// What is known of the game that is read, or of the next one where none has begun.
#[derive(Clone, Copy)]
pub(crate) struct Game {
    /// Its number, from 1.
    pub(crate) number: usize,
    /// Where it begins, once it has.
    pub(crate) begins: usize,
    /// It has begun: it has a tag or a move.
    pub(crate) is_open: bool,
    /// It has a tag `FEN`.
    pub(crate) has_position: bool,
    /// It has a tag `SetUp` of value 1.
    pub(crate) has_set_up: bool,
    /// It has a tag `GameType`.
    pub(crate) has_type: bool,
    /// It has a tag `Event`.
    pub(crate) has_event: bool,
    /// It has a tag `Black`.
    pub(crate) has_black: bool,
    /// It has a tag `White`.
    pub(crate) has_white: bool,
    /// The last number of a move in it; 0 where it has none.
    pub(crate) move_number: usize,
    /// How many moves it has.
    pub(crate) plies: usize,
    /// Nothing but a result stands before it, since the game before it.
    pub(crate) follows_result: bool,
}

/// A game of this number, before it begins. `ended` says whether a result has ended the one before.
fn unbegun(number: usize, ended: bool) -> Game
    ensures { result ≡ games.unbegun number ended }
{
    Game {
        number,
        begins: 0,
        is_open: false,
        has_position: false,
        has_set_up: false,
        has_type: false,
        has_event: false,
        has_black: false,
        has_white: false,
        move_number: 0,
        plies: 0,
        follows_result: ended,
    }
}

/// The first game, before it begins.
pub(crate) fn first_game() -> Game
    ensures { result ≡ games.first_game }
{
    unbegun(1, false)
}

/// A tag, a move or a result stands there, and the game begins there where it has not.
pub(crate) fn opened(game: Game, at: usize) -> Game
    ensures { result ≡ games.opened game at }
{
    let begins = if game.is_open { game.begins } else { at };
    let mut game = game;
    game.begins = begins;
    game.is_open = true;
    game.follows_result = false;
    game
}

/// The next game, before it begins. `ended` says whether a result has ended the one before.
fn next_game(game: Game, ended: bool) -> Game
    requires { game.number < 2 ^ 63 }
    ensures { result ≡ games.next_game game ended }
{
    unbegun(game.number + 1, ended)
}

/// The game that a tag belongs to.
pub(crate) fn game_of_tag(game: Game) -> Game
    requires { game.number < 2 ^ 63 }
    ensures { result ≡ games.game_of_tag game }
{
    if game.plies == 0 {
        game
    } else {
        next_game(game, false)
    }
}

/// The game has a tag of this meaning, of those of which it may have one.
pub(crate) fn has_tag(game: Game, tag: TagKind) -> bool
    ensures { result ≡ games.has_tag game tag }
{
    match tag {
        TagKind::Fen => game.has_position,
        TagKind::GameType => game.has_type,
        TagKind::OtherGameType => game.has_type,
        TagKind::Event => game.has_event,
        TagKind::Black => game.has_black,
        TagKind::White => game.has_white,
        TagKind::LikeFen => false,
        TagKind::LikeGameType => false,
        TagKind::SetUp => false,
        TagKind::Other => false,
    }
}

/// The game with a tag of this meaning.
fn tagged(game: Game, tag: TagKind) -> Game
    ensures { result ≡ games.tagged game tag }
{
    let mut game = game;
    match tag {
        TagKind::Fen => game.has_position = true,
        TagKind::SetUp => game.has_set_up = true,
        TagKind::GameType => game.has_type = true,
        TagKind::OtherGameType => game.has_type = true,
        TagKind::Event => game.has_event = true,
        TagKind::Black => game.has_black = true,
        TagKind::White => game.has_white = true,
        TagKind::LikeFen => {}
        TagKind::LikeGameType => {}
        TagKind::Other => {}
    }
    game
}

/// The game with the number of a move more.
fn numbered(game: Game, number: usize) -> Game
    ensures { result ≡ games.numbered game number }
{
    let mut game = game;
    game.move_number = number;
    game
}

/// The game with a move more.
fn moved(game: Game) -> Game
    requires { game.plies < 2 ^ 63 }
    ensures { result ≡ games.moved game }
{
    let mut game = game;
    game.plies += 1;
    game
}

/// The game behind the item at a place.
pub(crate) fn after(game: Game, at: usize, kind: Kind) -> Game
    requires number { game.number < 2 ^ 63 }
    requires plies { game.plies < 2 ^ 63 }
    ensures { result ≡ games.after game at kind }
{
    match kind {
        Kind::Skipped => game,
        Kind::RunsOn => game,
        Kind::Number(number) => numbered(game, number),
        Kind::Tag(tag) => tagged(opened(game_of_tag(game), at), tag),
        Kind::Move => moved(opened(game, at)),
        Kind::Result => next_game(game, true),
    }
}

/// A game without a move has a tag `SetUp` and no tag `FEN`.
pub(crate) fn lacks_fen(game: Game) -> bool
    ensures { result ≡ games.lacks_fen game }
{
    game.plies == 0 && game.has_set_up && !game.has_position
}
