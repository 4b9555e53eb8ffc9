//! Captures, grown jump by jump, depth first.
ghost use Rattle.std.specs.Prelude.{◌≡◌, ◌-◌, ◌≤◌, ◌++◌, ◌∷◌, [], true, length, OnOk};
ghost use Rattle.std.specs.List.{list_any};
ghost use Rattle.draughts_board.specs.Geometry.{squares, are_jump_apart};
ghost use Rattle.draughts_board.specs.Board.{IsLawful};
ghost use Rattle.draughts_board.specs.Rules.{first_square, last_square, is_own, is_jump, is_crowned_on, goes_on, contains, jumped};
ghost use Rattle.draughts_board.specs.Play.{IsCapturePrefix, is_done, grown, captures};
ghost use Rattle.draughts_board.specs.Masks.{IsMaskOf};
ghost use Rattle.swift_moves.specs.Forces.{AreForces, is_jumper};

use crate::forces::Forces;
use crate::masks::is_any;
use crate::movers::piece_at;
use crate::ways::{Way, by_ways, leapt};
use draughts_board::path_ends::{first, last};
use draughts_board::{Cell, Move, Position, Side, Square};
use std::alloc::AllocError;

/// The piece is a man, and the square lies in its farthest row.
#[inline]
pub(crate) fn is_crowned_on(piece: Cell, square: Square) -> bool
    ensures { result ≡ is_crowned_on piece square }
{
    match piece {
        Cell::Man(Side::Black) => square.row() == 7,
        Cell::Man(Side::White) => square.row() == 0,
        _ => false,
    }
}

/// Where the capture may go on to behind the path, which has jumped over the pieces of `taken`.
pub(crate) fn jump_targets(p: &Position, f: &Forces, path: &[Square], taken: u32) -> u32
    requires forces { AreForces p.now f.now }
    requires some { 1 ≤ length path.now }
    requires taken { IsMaskOf (contains (jumped path.now)) taken }
    ensures { IsMaskOf (goes_on p.now path.now) result }
{
    let start = first(path);
    let here = last(path).bit();
    let over = f.enemies & !taken;
    let landing = by_ways(
        piece_at(p, f, start),
        leapt(Way::UpLeft, here, over),
        leapt(Way::UpRight, here, over),
        leapt(Way::DownLeft, here, over),
        leapt(Way::DownRight, here, over),
    );
    landing & (f.free | start.bit())
}

/// The capture ends with this path, behind which it may go on to the squares of `targets`.
pub(crate) fn is_done(p: &Position, f: &Forces, path: &[Square], targets: u32) -> bool
    requires forces { AreForces p.now f.now }
    requires some { 1 ≤ length path.now }
    requires targets { IsMaskOf (goes_on p.now path.now) targets }
    ensures { result ≡ is_done p.now path.now }
{
    is_crowned_on(piece_at(p, f, first(path)), last(path)) || !is_any(targets)
}

/// The pieces taken once the path goes on to the square, which is a jump away.
#[inline]
pub(crate) fn with_jump(path: &[Square], taken: u32, to: Square) -> u32
    requires some { 1 ≤ length path.now }
    requires taken { IsMaskOf (contains (jumped path.now)) taken }
    requires jump { are_jump_apart (last_square path.now) to ≡ true }
    ensures { IsMaskOf (contains (jumped (path.now ++ to ∷ []))) result }
{
    taken | last(path).between(to).bit()
}

/// Adds the captures that begin with the trail, which has jumped over the pieces of `taken`, in
/// rising order.
fn grow(
    p: &Position,
    f: &Forces,
    trail: &Move,
    taken: u32,
    found: &mut Vec<Move>,
) -> Result<(), AllocError>
    requires forces { AreForces p.now f.now }
    requires lawful { IsLawful p.now }
    requires prefix { IsCapturePrefix p.now trail.now }
    requires taken { IsMaskOf (contains (jumped trail.now)) taken }
    ensures { OnOk result
        (found.new.items ≡ found.old.items ++ grown (13 - length trail.now) p.now trail.now) }
{
    let path = trail.path();
    let mut left = jump_targets(p, f, path, taken);
    if is_done(p, f, path, left) {
        found.push(*trail)?;
        return Ok(());
    }
    while left != 0 {
        let to = Square::lowest(left);
        let longer = trail.extended(to);
        grow(p, f, &longer, with_jump(path, taken, to), found)?;
        left &= left - 1;
    }
    Ok(())
}

/// Adds the captures of the mover's piece on the square, which has a jump, in rising order.
fn add_captures_of(
    p: &Position,
    f: &Forces,
    from: Square,
    found: &mut Vec<Move>,
) -> Result<(), AllocError>
    requires forces { AreForces p.now f.now }
    requires lawful { IsLawful p.now }
    requires own { is_own p.now from ≡ true }
    requires jump { list_any (is_jump p.now from from) squares ≡ true }
    ensures { OnOk result (found.new.items ≡ found.old.items ++ grown 12 p.now (from ∷ [])) }
{
    let path = [from];
    let mut left = jump_targets(p, f, &path, 0);
    while left != 0 {
        let to = Square::lowest(left);
        let trail = Move::direct(from, to);
        grow(p, f, &trail, with_jump(&path, 0, to), found)?;
        left &= left - 1;
    }
    Ok(())
}

/// Adds the captures, in rising order; `jumpers` holds the mover's pieces that have a jump.
pub(crate) fn add_captures(
    p: &Position,
    f: &Forces,
    jumpers: u32,
    found: &mut Vec<Move>,
) -> Result<(), AllocError>
    requires forces { AreForces p.now f.now }
    requires lawful { IsLawful p.now }
    requires jumpers { IsMaskOf (is_jumper p.now) jumpers }
    ensures { OnOk result (found.new.items ≡ found.old.items ++ captures p.now) }
{
    let mut left = jumpers;
    while left != 0 {
        add_captures_of(p, f, Square::lowest(left), found)?;
        left &= left - 1;
    }
    Ok(())
}
