//! Steps.
ghost use Rattle.std.specs.Prelude.{◌≡◌, ◌++◌, ◌∷◌, ◌&&◌, [], filter, OnOk, IfOk, if◌then◌else◌};
ghost use Rattle.std.specs.List.{list_any};
ghost use Rattle.draughts_board.specs.Geometry.{squares};
ghost use Rattle.draughts_board.specs.Board.{IsLawful};
ghost use Rattle.draughts_board.specs.Rules.{is_own, is_step};
ghost use Rattle.draughts_board.specs.Play.{steps, steps_from};
ghost use Rattle.draughts_rules.specs.Conditions.{is_open_step};

use crate::cell_board::CellBoard;
use crate::near_squares::neighbours;
use crate::pieces::{may_go, own_squares};
use draughts_board::{Move, Square};
use std::alloc::{AllocError, Global};

/// The piece on the one square may step to that of the number, which is near it; never where the
/// number is that of no square.
#[inline]
fn is_open_step(p: &CellBoard, from: Square, number: u8) -> bool
    ensures { result ≡ is_open_step p.now from number }
{
    let Some(to) = Square::new(number) else {
        return false;
    };
    p.at(to).is_empty() && may_go(p.at(from), from, to)
}

/// The piece on the one square may step to the other.
pub(crate) fn is_step(p: &CellBoard, from: Square, to: Square) -> bool
    ensures { result ≡ is_step p.now from to }
{
    from.is_near(to) && is_open_step(p, from, to.number())
}

/// The piece on the square may step to one of these numbers' squares, which are near it.
#[inline]
fn can_step_to(p: &CellBoard, from: Square, targets: &[u8]) -> bool
    ensures { result ≡ list_any (is_open_step p.now from) targets.now }
{
    targets.iter().any(|number| is_open_step(p, from, *number))
}

/// The piece on the square has a step.
#[inline]
fn can_step(p: &CellBoard, from: Square) -> bool
    ensures { result ≡ list_any (is_step p.now from) squares }
{
    can_step_to(p, from, &neighbours(from))
}

/// A piece on one of these squares has a step.
fn can_any_step(p: &CellBoard, from: &[Square]) -> bool
    ensures { result ≡ list_any (λ x. list_any (is_step p.now x) squares) from.now }
{
    from.iter().any(|square| can_step(p, *square))
}

/// Some piece of the side to move has a step, whether or not a jump forbids it.
pub(crate) fn has_step(p: &CellBoard) -> bool
    ensures steps { result ≡ list_any
        (λ x. is_own p.now x && list_any (is_step p.now x) squares) squares }
    ensures lawful { IsLawful p.now }
{
    can_any_step(p, own_squares(p).as_slice())
}

/// Adds the step to the square of the number, which is near the first, if the piece may make it.
#[inline]
fn add_step(
    p: &CellBoard,
    from: Square,
    number: u8,
    found: &mut Vec<Move>,
) -> Result<(), AllocError>
    ensures { OnOk result
        (found.new.items
        ≡ found.old.items
        ++ (if is_open_step p.now from number then (from ∷ number ∷ []) ∷ [] else [])) }
{
    if let Some(to) = Square::new(number)
        && is_open_step(p, from, number)
    {
        let step = Move::of(&[from, to]).unwrap();
        found.push(step)?;
    }
    Ok(())
}

/// Adds the steps of the piece on the square, in rising order.
fn add_steps(p: &CellBoard, from: Square, found: &mut Vec<Move>) -> Result<(), AllocError>
    ensures { OnOk result (found.new.items ≡ found.old.items ++ steps_from p.now from) }
{
    let near = neighbours(from);
    for number in &near {
        add_step(p, from, *number, found)?;
    }
    Ok(())
}

/// The steps, in rising order, of the pieces on these squares, which are the mover's; whether or
/// not a jump forbids them.
pub(crate) fn steps(alloc: Global, p: &CellBoard, own: &[Square]) -> Result<Vec<Move>, AllocError>
    requires { own.now ≡ filter (is_own p.now) squares }
    ensures { IfOk result (λ v. v.items ≡ steps p.now) }
{
    let mut found = Vec::new(alloc);
    for from in own {
        add_steps(p, *from, &mut found)?;
    }
    Ok(found)
}
