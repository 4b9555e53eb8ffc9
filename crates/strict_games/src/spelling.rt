//! How a move is written so that it is read as itself.
ghost use Rattle.std.specs.Prelude.{◌≡◌, IfOk, IfErr, Ok, Err};
ghost use Rattle.std.specs.Bool.{OnFalse};
ghost use Rattle.draughts_board.specs.Resolution.{matches, meaning, resolve_wants_memory};
ghost use Rattle.draughts_board.specs.Rules.{IsLegal};
ghost use Rattle.strict_games.specs.Playing.{LeadsAs};

use crate::lone::is_lone;
use draughts_board::{Move, Position, ResolveRefusal, Square};
use std::alloc::{AllocError, Global};
use swift_moves::{apply, resolve};

/// The squares that a move is written with, which lead where it leads: the first and the last where
/// they determine that, else all.
pub(crate) fn written_as(
    alloc: Global,
    p: &Position,
    from: Square,
    middle: &[Square],
    to: Square,
    played: &Move,
) -> Result<Move, AllocError>
    requires means { meaning p.now (matches p.now from middle.now to) ≡ Ok played.now }
    requires legal { IsLegal p.now played.now }
    ensures { IfOk result (λ written. LeadsAs p.now written played.now) }
{
    let direct = Move::direct(from, to);
    if middle.is_empty() {
        return Ok(direct);
    }
    let there = apply(p, played);
    match resolve(alloc, p, from, &[], to) {
        Ok(other) if apply(p, &other) == there => Ok(direct),
        Err(ResolveRefusal::Memory(error)) => Err(error),
        _ => Ok(*played),
    }
}

/// A move as it is played, and as it is written.
#[derive(Clone, Copy)]
pub(crate) struct Meant {
    pub(crate) played: Move,
    pub(crate) written: Move,
}

/// The legal move that is written with these ends and, if any are named, these squares in between.
pub(crate) fn move_meant(
    alloc: Global,
    p: &Position,
    from: Square,
    middle: &[Square],
    to: Square,
) -> Result<Meant, ResolveRefusal>
    ensures means { IfOk result (λ found.
        meaning p.now (matches p.now from middle.now to) ≡ Ok found.played) }
    ensures legal { IfOk result (λ found. IsLegal p.now found.played) }
    ensures written { IfOk result (λ found. LeadsAs p.now found.written found.played) }
    ensures refused { IfErr result (λ cause. OnFalse (resolve_wants_memory cause)
        (meaning p.now (matches p.now from middle.now to) ≡ Err cause)) }
{
    if middle.is_empty() && is_lone(p, from, to) {
        let step = Move::direct(from, to);
        return Ok(Meant {
            played: step,
            written: step,
        });
    }
    let played = resolve(alloc, p, from, middle, to)?;
    match written_as(alloc, p, from, middle, to, &played) {
        Ok(written) => Ok(Meant { played, written }),
        Err(error) => Err(ResolveRefusal::Memory(error)),
    }
}
