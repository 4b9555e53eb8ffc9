//! Plays written moves on a position, one after another.
ghost use Rattle.std.specs.Prelude.{◌≡◌, ◌<◌, ◌^◌, [], ◌∷◌, Err, IfOk, IfErr, length};
ghost use Rattle.std.specs.Bool.{OnFalse};
ghost use Rattle.draughts_board.specs.Resolution.{resolve_wants_memory};
ghost use Rattle.pdn_openings.specs.Faults.{opening_wants_memory, IsMoveFault, refusal_of};
ghost use Rattle.pdn_openings.specs.Playing.{LeadTo, meaning_of};

use crate::refusal::OpeningRefusal;
use draughts_board::Position;
use pdn_text::MoveText;
use std::alloc::Global;
use swift_moves::{ResolveRefusal, apply, resolve};

/// The position after the one move that is written so.
#[tactic(auto, unfolding(crate::specs::Playing::meaning_of))]
fn after_move(alloc: Global, p: &Position, written: &MoveText) -> Result<Position, ResolveRefusal>
    ensures led { IfOk result (LeadTo p.now (written.now ∷ [])) }
    ensures refused { IfErr result (λ cause.
        OnFalse (resolve_wants_memory cause) (meaning_of p.now written.now ≡ Err cause)) }
{
    let squares = written.squares.path();
    let last = squares.len() - 1;
    let chosen = resolve(alloc, p, squares[0], &squares[1..last], squares[last])?;
    Ok(apply(p, &chosen))
}

/// The refusal of a game's move that means no legal one.
fn refusal_of(cause: ResolveRefusal, game: u32, ply: u32, at: usize) -> OpeningRefusal
    ensures { result ≡ refusal_of cause game ply at }
{
    match cause {
        ResolveRefusal::Illegal => OpeningRefusal::Illegal { game, ply, at },
        ResolveRefusal::Ambiguous(_, _) => OpeningRefusal::Ambiguous { game, ply, at },
        ResolveRefusal::Memory(error) => OpeningRefusal::Memory(error),
    }
}

/// The position that these moves of a game lead to, or the first of them that means no legal move.
pub(crate) fn played(
    alloc: Global,
    game: u32,
    start: Position,
    moves: &[MoveText],
) -> Result<Position, OpeningRefusal>
    requires { length moves.now < 2 ^ 32 }
    ensures led { IfOk result (LeadTo start moves.now) }
    ensures fault { IfErr result (λ e. OnFalse (opening_wants_memory e)
        (IsMoveFault game start moves.now e)) }
{
    let mut here = start;
    for (i, written) in moves.iter().enumerate() {
        here = match after_move(alloc, &here, written) {
            Ok(next) => next,
            Err(cause) => return Err(refusal_of(cause, game, i as u32 + 1, written.at)),
        };
    }
    Ok(here)
}
