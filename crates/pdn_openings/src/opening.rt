//! The openings of games.
ghost use Rattle.std.specs.Prelude.{◌≡◌, ◌≤◌, All, IfOk, IfErr, length, take};
ghost use Rattle.std.specs.Bool.{OnFalse};
ghost use Rattle.shared_words.specs.Answers.{IsExact, listed};
ghost use Rattle.draughts_board.specs.Board.{IsLawful};
ghost use Rattle.pdn_openings.specs.Faults.{opening_wants_memory, IsOpeningFault, OpeningFaultStandsFirst};
ghost use Rattle.pdn_openings.specs.Openings.{IsOpening, AreOpenings};

use crate::beginning::{beginning, is_other_game};
use crate::playing::played;
use crate::refusal::OpeningRefusal;
use draughts_board::Position;
use pdn_text::{Game, MOST_GAMES, MoveText};
use std::alloc::{AllocError, Global};

/// A game's opening.
#[derive(Clone, Copy, PartialEq, Eq, Hash, Debug)]
pub struct Opening {
    /// The number of the game, from 1.
    pub game: u32,
    /// The position after the game's first plies.
    pub position: Position,
}

/// The first `plies` moves, or all where there are fewer.
fn first_moves(moves: &[MoveText], plies: u32) -> &[MoveText]
    ensures value { result.now ≡ take plies moves.now }
    ensures most { length result.now ≤ plies }
{
    moves.get(..plies as usize).unwrap_or(moves)
}

/// The opening of one game, or its first fault.
fn opening_of(
    alloc: Global,
    number: u32,
    game: &Game,
    plies: u32,
) -> Result<Opening, OpeningRefusal>
    ensures opening { IfOk result (IsOpening plies number game.now) }
    ensures fault { IfErr result (λ e. OnFalse (opening_wants_memory e)
        (IsOpeningFault plies number game.now e)) }
{
    if is_other_game(game) {
        return Err(OpeningRefusal::OtherGame(number));
    }
    let start = match beginning(game) {
        Ok(start) => start,
        Err(fault) => return Err(OpeningRefusal::Fen(number, fault)),
    };
    let moves = first_moves(game.moves.as_slice(), plies);
    match played(alloc, number, start, moves) {
        Ok(position) => Ok(Opening {
            game: number,
            position,
        }),
        Err(fault) => Err(fault),
    }
}

/// The openings of these games: of each the position after its first `plies` moves, or after all
/// where it has fewer.
///
/// A game begins from its first `FEN` tag, else from the start position. What stands behind those
/// moves is not looked at. Each move is resolved in the position that those before it lead to: with
/// two squares it may be any legal move between them, with more only the one along them.
///
/// The first game with a fault is answered, and of its faults the first of these: `OtherGame` where
/// its first `GameType` tag is not `21` and does not begin with `21,`; `Fen` where its first `FEN`
/// tag is none; `Illegal` or `Ambiguous` for its first move that means no legal one, with its ply
/// and its place in the text. Tag names are compared letter for letter.
pub fn openings(alloc: Global, games: &[Game], plies: u32) -> Result<Vec<Opening>, OpeningRefusal>
    requires { length games.now ≤ MOST_GAMES }

    // The openings of all games, or the fault of the first game that has one: exactly that, unless
    // memory ran out.
    ensures exact { IsExact opening_wants_memory (AreOpenings plies games.now)
        (OpeningFaultStandsFirst plies games.now)
        (listed result) }

    // There is one opening of each game, and it is a position of English draughts.
    ensures count { IfOk result (λ found. length found.items ≡ length games.now) }
    ensures lawful { IfOk result (λ found. All (λ opening. IsLawful opening.position) found.items) }
{
    all_openings(alloc, games, plies)
}

/// Takes the opening of game after game, up to the first fault.
fn all_openings(alloc: Global, games: &[Game], plies: u32) -> Result<Vec<Opening>, OpeningRefusal>
    requires { length games.now ≤ MOST_GAMES }
    ensures openings { IfOk result (λ found. AreOpenings plies games.now found.items) }
    ensures refused { IfErr result (λ e. OnFalse (opening_wants_memory e)
        (OpeningFaultStandsFirst plies games.now e)) }
{
    let mut found = Vec::new(alloc);
    for (i, game) in games.iter().enumerate() {
        let opening = opening_of(alloc, i as u32 + 1, game, plies)?;
        found
            .push(opening)
            .map_err(|_| OpeningRefusal::Memory(AllocError))?;
    }
    Ok(found)
}
