//! Steps.
ghost use Rattle.std.specs.Prelude.{◌≡◌, ◌++◌, OnOk};
ghost use Rattle.draughts_board.specs.Geometry.{IsSquare};
ghost use Rattle.draughts_board.specs.Rules.{is_step};
ghost use Rattle.draughts_board.specs.Play.{steps, steps_from};
ghost use Rattle.draughts_board.specs.Masks.{IsMaskOf};
ghost use Rattle.swift_moves.specs.Forces.{AreForces};

use crate::forces::Forces;
use crate::movers::{piece_at, steppers};
use crate::nearby::near;
use draughts_board::{Move, Position, Square};
use std::alloc::AllocError;

/// Where the piece on the square may step to.
#[inline]
pub(crate) fn step_targets(p: &Position, f: &Forces, from: Square) -> u32
    requires { AreForces p.now f.now }
    ensures { IsMaskOf (is_step p.now from) result }
{
    near(piece_at(p, f, from), from) & f.free
}

/// Adds the steps of the piece on the square, in rising order.
#[inline]
fn add_steps_of(
    p: &Position,
    f: &Forces,
    from: Square,
    found: &mut Vec<Move>,
) -> Result<(), AllocError>
    requires forces { AreForces p.now f.now }
    requires square { IsSquare from }
    ensures { OnOk result (found.new.items ≡ found.old.items ++ steps_from p.now from) }
{
    let mut left = step_targets(p, f, from);
    while left != 0 {
        let to = Square::lowest(left);
        found.push(Move::direct(from, to))?;
        left &= left - 1;
    }
    Ok(())
}

/// Adds the steps, in rising order; whether or not a jump forbids them.
#[inline]
pub(crate) fn add_steps(p: &Position, f: &Forces, found: &mut Vec<Move>) -> Result<(), AllocError>
    requires { AreForces p.now f.now }
    ensures { OnOk result (found.new.items ≡ found.old.items ++ steps p.now) }
{
    let mut left = steppers(f);
    while left != 0 {
        add_steps_of(p, f, Square::lowest(left), found)?;
        left &= left - 1;
    }
    Ok(())
}
