//! The games of a text, and their openings.
ghost use Rattle.std.specs.Prelude.{◌≡◌, ◌⊎◌, List, IfErr, IfOk};
ghost use Rattle.opening_report.specs.declared.refusals.Refusal.TheVariants as refusals;
ghost use Rattle.pdn_openings.specs.declared.opening.Opening.{Opening as OneOpening};
ghost use Rattle.pdn_text.specs.declared.game.Game.{Game as OneGame};
ghost use Rattle.program_edges.specs.Games.{HasGamesFault, OpensGames};

use opening_report::Refusal;
use pdn_openings::{Opening, openings};
use pdn_text::{Game, read_games};
use std::alloc::Global;

/// Games, and the opening of each in their order.
#[derive(Drop)]
pub struct OpenedText {
    pub games: Vec<Game>,
    pub openings: Vec<Opening>,
}

/// The games of a text, with their openings after `plies` plies. Answers the fault that stands first
/// in the text, that of the first game with one, or `Memory`.
pub fn read_openings(alloc: Global, plies: u32, text: &[u8]) -> Result<OpenedText, Refusal>
    ensures opened { IfOk result (λ found.
        OpensGames plies text.now found.games.items found.openings.items) }
    ensures refused { IfErr result (λ r.
        (r ≡ refusals.Memory) ⊎ HasGamesFault plies text.now r) }
    ensures accepted { IfErr result (λ r. (games : List OneGame) (openings : List OneOpening)
        → OpensGames plies text.now games openings → r ≡ refusals.Memory) }
{
    let games = read_games(alloc, text)?;
    let found = openings(alloc, &games, plies)?;
    Ok(OpenedText {
        games,
        openings: found,
    })
}
