//! Which legal move a written one means.
ghost use Rattle.std.specs.Prelude.{◌≡◌, [], false, IfOk};
ghost use Rattle.draughts_board.specs.Board.{IsLawful};
ghost use Rattle.draughts_board.specs.Rules.{IsLegal, has_jump};
ghost use Rattle.draughts_board.specs.Resolution.{matches, meaning, resolve_wants_memory};
ghost use Rattle.shared_words.specs.Answers.{Unless};
ghost use Rattle.swift_moves.specs.Forces.{AreForces};

use crate::forces::Forces;
use crate::legal_test::is_step;
use crate::masks::is_any;
use crate::move_lists::legal_moves;
use crate::movers::{is_own, jumpers};
use crate::next::apply;
use draughts_board::{Move, MoveGenerator, Position, ResolveRefusal, Square};
use std::alloc::{AllocError, Global};

/// This crate's moves, for calls that take any generator.
pub struct MaskMoves;

impl MoveGenerator for MaskMoves {
    fn legal_moves(alloc: Global, p: &Position) -> Result<Vec<Move>, AllocError> {
        legal_moves(alloc, p)
    }

    fn apply(p: &Position, m: &Move) -> Position {
        apply(p, m)
    }
}

/// The legal move that is written with these ends and no squares in between, where no jump is there: the
/// step from the one to the other, if it is one.
fn resolve_step(p: &Position, f: &Forces, from: Square, to: Square) -> Result<Move, ResolveRefusal>
    requires forces { AreForces p.now f.now }
    requires lawful { IsLawful p.now }
    requires no_jump { has_jump p.now ≡ false }
    ensures exact { result ≡ meaning p.now (matches p.now from [] to) }
    ensures legal { IfOk result (IsLegal p.now) }
{
    if !is_own(p, from) {
        return Err(ResolveRefusal::Illegal);
    }
    if !is_step(p, f, from, to) {
        return Err(ResolveRefusal::Illegal);
    }
    Ok(Move::direct(from, to))
}

/// The legal move that is written with these ends and, if any are named, these squares in between.
///
/// With an empty `middle` every legal move from `from` that ends on `to` matches, else only the one
/// whose path is `from`, `middle`, `to`. `Ok` gives the first match in rising order of path, where
/// all matches lead to one position. Refused as `Illegal` exactly where nothing matches, and as
/// `Ambiguous` exactly where two matches lead to different positions. Takes memory only where there is a
/// jump, or squares are named in between.
pub fn resolve(
    alloc: Global,
    p: &Position,
    from: Square,
    middle: &[Square],
    to: Square,
) -> Result<Move, ResolveRefusal>
    ensures exact { Unless resolve_wants_memory result
        (result ≡ meaning p.now (matches p.now from middle.now to)) }
    ensures legal { IfOk result (IsLegal p.now) }
{
    if middle.is_empty() {
        let f = Forces::of(p);
        if !is_any(jumpers(&f)) {
            return resolve_step(p, &f, from, to);
        }
    }
    draughts_board::resolve::<MaskMoves>(alloc, p, from, middle, to)
}
