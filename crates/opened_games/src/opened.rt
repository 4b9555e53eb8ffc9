//! Games, and which of them lead to a position.
use crate::json::push_json_list;
use crate::numbers::Numbers;
use crate::texts::push_games;
use draughts_board::Position;
use pdn_openings::Opening;
use pdn_text::Game;
use std::alloc::{AllocError, Global};
use std::marker::Model;

/// Games with their openings. Those at a position are looked up, and nobody who chooses the games
/// can make that slow.
#[derive(Drop)]
pub struct OpenedGames {
    games: Vec<Game>,
    openings: Vec<Opening>,
    // The numbers of the openings' games, by their positions.
    numbers: Numbers,
}

impl Model for OpenedGames {
    ghost use Rattle.std.specs.Prelude.{◌≡◌};
    ghost use Rattle.draughts_board.specs.Board.{Board};
    ghost use Rattle.opened_games.specs.Numbers.{HaveLists, numbers_at};
    ghost use Rattle.opened_games.specs.Opened.{Opened, games_at};

    ghost Value = { Opened };

    ghost view = { λ opened. record {
      games = opened.games.items;
      openings = opened.openings.items;
    } };

    ghost invariant = { λ opened.
        HaveLists opened.numbers.positions.entries opened.numbers.lists.items
        × ((p : Board) → numbers_at opened.numbers.positions.entries opened.numbers.lists.items p
        ≡ games_at opened.openings.items p) };
}

ghost use Rattle.std.specs.Prelude.{◌≡◌, IfOk};
ghost use Rattle.draughts_board.specs.Board.{Board};
ghost use Rattle.opened_games.specs.Numbers.{HaveLists, numbers_at};
ghost use Rattle.opened_games.specs.Opened.{games_at};

/// The numbers of the openings' games, by their positions.
fn numbers_of(alloc: Global, openings: &[Opening]) -> Result<Numbers, AllocError>
    ensures lists { IfOk result (λ numbers. HaveLists numbers.positions.entries numbers.lists.items) }
    ensures numbers { IfOk result (λ numbers. (p : Board) →
        numbers_at numbers.positions.entries numbers.lists.items p ≡ games_at openings.now p) }
{
    let mut numbers = Numbers::new(alloc);
    for opening in openings {
        numbers.add(alloc, opening.position, opening.game)?;
    }
    Ok(numbers)
}

impl OpenedGames {
    ghost use Rattle.std.specs.Prelude.{◌≡◌, ◌++◌, [], IfOk, OnOk};
    ghost use Rattle.opened_games.specs.Json.{json_games};
    ghost use Rattle.opened_games.specs.Opened.{games_text};

    /// No games.
    pub fn none(alloc: Global) -> OpenedGames
        ensures games { result.games ≡ [] }
        ensures openings { result.openings ≡ [] }
    {
        OpenedGames {
            games: Vec::new(alloc),
            openings: Vec::new(alloc),
            numbers: Numbers::new(alloc),
        }
    }

    /// Games with their openings.
    pub fn of(
        alloc: Global,
        games: Vec<Game>,
        openings: Vec<Opening>,
    ) -> Result<OpenedGames, AllocError>
        ensures games { IfOk result (λ opened. opened.games ≡ games.items) }
        ensures openings { IfOk result (λ opened. opened.openings ≡ openings.items) }
    {
        let numbers = numbers_of(alloc, &openings)?;
        Ok(OpenedGames {
            games,
            openings,
            numbers,
        })
    }

    /// Appends a line for each game that leads to the position: its number, its `Event` and its players.
    pub fn push_games_at(&self, text: &mut Vec<u8>, p: &Position) -> Result<(), AllocError>
        ensures { OnOk result (text.new.items ≡ text.old.items ++ games_text self.now p.now) }
    {
        push_games(text, &self.games, self.numbers.at(p))
    }

    /// Appends the games that lead to the position as a list of JSON: of each an object with its number, its
    /// `Event` and its players.
    pub fn push_json_at(&self, text: &mut Vec<u8>, p: &Position) -> Result<(), AllocError>
        ensures { OnOk result (text.new.items ≡ text.old.items ++ json_games self.now p.now) }
    {
        text.push(b'[')?;
        push_json_list(text, &self.games, self.numbers.at(p))?;
        text.push(b']')?;
        Ok(())
    }
}
