//! What a game's tags say: whether it is one of English draughts, and where it begins.
ghost use Rattle.std.specs.Prelude.{◌≡◌, IfOk, IfErr};
ghost use Rattle.std.specs.Option.{option_map};
ghost use Rattle.pdn_openings.specs.Beginning.{first_value, is_english, is_other_game, BeginsFrom, HasRefusedFen};

use draughts_board::Position;
use fen_text::{FenRefusal, read_fen};
use pdn_text::{Game, Tag};

/// The value of the first tag of this name.
fn first_value<'a>(name: &[u8], tags: &'a [Tag]) -> Option<&'a [u8]>
    ensures { option_map (λ value. value.now) result ≡ first_value name.now tags.now }
{
    let first = tags.iter().find(|tag| tag.name.as_slice() == name)?;
    Some(first.value.as_slice())
}

/// The value of a `GameType` tag stands for English draughts.
fn is_english(value: &[u8]) -> bool
    ensures { result ≡ is_english value.now }
{
    value == b"21".as_slice() || value.starts_with(b"21,")
}

/// The game is another than English draughts.
pub(crate) fn is_other_game(game: &Game) -> bool
    ensures { result ≡ is_other_game game.now }
{
    match first_value(b"GameType", game.tags.as_slice()) {
        Some(value) => !is_english(value),
        None => false,
    }
}

/// The position that the game begins from, or why its first `FEN` is none.
pub(crate) fn beginning(game: &Game) -> Result<Position, FenRefusal>
    ensures begins { IfOk result (BeginsFrom game.now) }
    ensures fault { IfErr result (HasRefusedFen game.now) }
{
    match first_value(b"FEN", game.tags.as_slice()) {
        Some(text) => read_fen(text),
        None => Ok(Position::start()),
    }
}
