//! Moves between two squares that nothing else can mean, found without memory.
ghost use Rattle.std.specs.Prelude.{◌≡◌, ◌∷◌, [], Ok};
ghost use Rattle.std.specs.Bool.{OnTrue};
ghost use Rattle.draughts_board.specs.Board.{IsLawful};
ghost use Rattle.draughts_board.specs.Resolution.{matches, meaning};
ghost use Rattle.draughts_board.specs.Rules.{IsLegal};
ghost use Rattle.strict_games.specs.Playing.{IsDirect};

use draughts_board::{Cell, Move, Position, Square};
use swift_moves::is_legal;

/// The squares are near, or a man stands on the first and they are a jump apart.
#[tactic(auto, using(crate::proofs::LonePaths::direct_man, crate::proofs::LonePaths::direct_near))]
fn is_direct(p: &Position, from: Square, to: Square) -> bool
    ensures lawful { IsLawful p.now }
    ensures direct { OnTrue result (IsDirect p.now from to) }
{
    let is_near = from.is_near(to);
    let is_jump = from.is_jump_apart(to);
    match p.at(from) {
        Cell::Man(_) => is_near || is_jump,
        _ => is_near,
    }
}

/// The path of these two squares is legal, and no other legal path has these ends: it is a step, or a
/// man's capture of one piece. Of a king's capture it says nothing.
pub(crate) fn is_lone(p: &Position, from: Square, to: Square) -> bool
    ensures legal { OnTrue result (IsLegal p.now (from ∷ to ∷ [])) }
    ensures alone { OnTrue result
        (meaning p.now (matches p.now from [] to) ≡ Ok (from ∷ to ∷ [])) }
{
    is_direct(p, from, to) && is_legal(p, &Move::direct(from, to))
}
