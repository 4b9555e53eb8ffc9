//! The lines of games.
ghost use Rattle.std.specs.Prelude.{◌≡◌, ◌++◌, OnOk, Some};
ghost use Rattle.std.specs.List.{flat_map};
ghost use Rattle.std.specs.Option.{option_map};
ghost use Rattle.pdn_openings.specs.Beginning.{first_value};
ghost use Rattle.opened_games.specs.Opened.{game_line, line_of, names_text, value_text};

use pdn_text::{Game, Tag};
use std::alloc::AllocError;
use terminal_text::{quote, say, say_number};

/// The value of the first tag of this name.
pub(crate) fn first_value<'a>(name: &[u8], tags: &'a [Tag]) -> Option<&'a [u8]>
    ensures { option_map (λ value. value.now) result ≡ first_value name.now tags.now }
{
    let first = tags.iter().find(|tag| tag.name.as_slice() == name)?;
    Some(first.value.as_slice())
}

/// Appends the value of the first tag of this name; `?` if the game has none. Bytes that are not
/// printable ASCII are escaped.
fn say_value(text: &mut Vec<u8>, game: &Game, name: &[u8]) -> Result<(), AllocError>
    ensures { OnOk result (text.new.items ≡ text.old.items ++ value_text game.now name.now) }
{
    match first_value(name, game.tags.as_slice()) {
        Some(value) => quote(text, value),
        None => quote(text, b"?"),
    }
}

/// Appends what a game is called: ` (Club, Ann - Bob)`.
fn say_names(text: &mut Vec<u8>, game: &Game) -> Result<(), AllocError>
    ensures { OnOk result (text.new.items ≡ text.old.items ++ names_text game.now) }
{
    say(text, " (")?;
    say_value(text, game, b"Event")?;
    say(text, ", ")?;
    say_value(text, game, b"Black")?;
    say(text, " - ")?;
    say_value(text, game, b"White")?;
    say(text, ")\n")
}

/// Appends the line of a game with this number.
fn push_line(text: &mut Vec<u8>, number: u32, game: &Game) -> Result<(), AllocError>
    ensures { OnOk result (text.new.items
        ≡ text.old.items ++ line_of number (Some game.now)) }
{
    say_number(text, "  game ", u64::from(number), "")?;
    say_names(text, game)
}

/// Appends the line of the game with this number, from 1.
fn push_game(text: &mut Vec<u8>, games: &[Game], number: u32) -> Result<(), AllocError>
    ensures { OnOk result (text.new.items ≡ text.old.items ++ game_line games.now number) }
{
    match games.get((number as usize).saturating_sub(1)) {
        Some(game) => push_line(text, number, game),
        None => Ok(()),
    }
}

/// Appends the lines of the games with these numbers.
pub(crate) fn push_games(
    text: &mut Vec<u8>,
    games: &[Game],
    numbers: &[u32],
) -> Result<(), AllocError>
    ensures { OnOk result (text.new.items
        ≡ text.old.items ++ flat_map (game_line games.now) numbers.now) }
{
    for number in numbers {
        push_game(text, games, *number)?;
    }
    Ok(())
}
