//! Games as JSON.
ghost use Rattle.std.specs.Prelude.{◌≡◌, ◌++◌, OnOk, Some, true};
ghost use Rattle.std.specs.List.{flat_map};
ghost use Rattle.opened_games.specs.Json.{comma_before, json_byte, json_game, json_list, json_names, json_object, json_string, json_tag};

use crate::texts::first_value;
use pdn_text::Game;
use shared_words::push_number;
use std::alloc::AllocError;
use terminal_text::{is_printable, quote};

/// Appends a byte within a JSON string.
fn push_json_byte(text: &mut Vec<u8>, b: u8) -> Result<(), AllocError>
    ensures { OnOk result (text.new.items ≡ text.old.items ++ json_byte b) }
{
    if b == b'"' || b == b'\\' {
        text.extend_from_slice(&[b'\\', b])
    } else if is_printable(b) {
        text.push(b)?;
        Ok(())
    } else {
        text.push(b'\\')?;
        quote(text, &[b])
    }
}

/// Appends bytes within a JSON string.
fn push_json_bytes(text: &mut Vec<u8>, bytes: &[u8]) -> Result<(), AllocError>
    ensures { OnOk result (text.new.items ≡ text.old.items ++ flat_map json_byte bytes.now) }
{
    for b in bytes {
        push_json_byte(text, *b)?;
    }
    Ok(())
}

/// Appends bytes as a JSON string, of which a reader has what a terminal is given of them.
fn push_json_string(text: &mut Vec<u8>, bytes: &[u8]) -> Result<(), AllocError>
    ensures { OnOk result (text.new.items ≡ text.old.items ++ json_string bytes.now) }
{
    text.push(b'"')?;
    push_json_bytes(text, bytes)?;
    text.push(b'"')?;
    Ok(())
}

/// Appends the value of the first tag of this name; `null` if the game has none.
fn push_json_tag(text: &mut Vec<u8>, game: &Game, name: &[u8]) -> Result<(), AllocError>
    ensures { OnOk result (text.new.items ≡ text.old.items ++ json_tag game.now name.now) }
{
    match first_value(name, game.tags.as_slice()) {
        Some(value) => push_json_string(text, value),
        None => text.extend_from_slice(b"null"),
    }
}

/// Appends what a game is called, as the end of its object.
#[tactic(auto, unfolding(crate::specs::Json::json_names))]
fn push_json_names(text: &mut Vec<u8>, game: &Game) -> Result<(), AllocError>
    ensures { OnOk result (text.new.items ≡ text.old.items ++ json_names game.now) }
{
    text.extend_from_slice(b",\"event\":")?;
    push_json_tag(text, game, b"Event")?;
    text.extend_from_slice(b",\"black\":")?;
    push_json_tag(text, game, b"Black")?;
    text.extend_from_slice(b",\"white\":")?;
    push_json_tag(text, game, b"White")?;
    text.extend_from_slice(b"}")
}

/// Appends the object of a game with this number.
fn push_json_object(text: &mut Vec<u8>, number: u32, game: &Game) -> Result<(), AllocError>
    ensures { OnOk result (text.new.items
        ≡ text.old.items ++ json_object number (Some game.now)) }
{
    text.extend_from_slice(b"{\"game\":")?;
    push_number(text, u64::from(number))?;
    push_json_names(text, game)
}

/// Appends the object of the game with this number, from 1.
fn push_json_game(text: &mut Vec<u8>, games: &[Game], number: u32) -> Result<(), AllocError>
    ensures { OnOk result (text.new.items ≡ text.old.items ++ json_game games.now number) }
{
    match games.get((number as usize).saturating_sub(1)) {
        Some(game) => push_json_object(text, number, game),
        None => Ok(()),
    }
}

/// Appends a comma before each object but the first.
fn push_comma(text: &mut Vec<u8>, is_first: bool) -> Result<(), AllocError>
    ensures { OnOk result (text.new.items ≡ text.old.items ++ comma_before is_first) }
{
    if !is_first {
        text.push(b',')?;
    }
    Ok(())
}

/// Appends the objects of the games with these numbers.
pub(crate) fn push_json_list(
    text: &mut Vec<u8>,
    games: &[Game],
    numbers: &[u32],
) -> Result<(), AllocError>
    ensures { OnOk result (text.new.items
        ≡ text.old.items ++ json_list games.now true numbers.now) }
{
    let mut is_first = true;
    for number in numbers {
        push_comma(text, is_first)?;
        push_json_game(text, games, *number)?;
        is_first = false;
    }
    Ok(())
}
