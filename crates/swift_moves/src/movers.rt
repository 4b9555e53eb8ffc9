//! The pieces that can jump, and those that can step, found for the whole board at once.
ghost use Rattle.std.specs.Prelude.{◌≡◌, ◌&&◌, ◌||◌};
ghost use Rattle.draughts_board.specs.Board.{Board, cell_at};
ghost use Rattle.draughts_board.specs.Rules.{is_own, has_jump};
ghost use Rattle.draughts_board.specs.Masks.{IsMaskOf, stands_in};
ghost use Rattle.swift_moves.specs.Ways.{forward};
ghost use Rattle.swift_moves.specs.Forces.{AreForces, is_jumper, is_stepper, leaps};

use crate::forces::Forces;
use crate::masks::{holds, is_any};
use crate::ways::{Way, before, forward};
use draughts_board::{Cell, Position, Square};

/// The pieces that go one of the ways: `up` and `down` hold the squares from which some way up or
/// down is open.
#[inline]
pub(crate) fn going(f: &Forces, up: u32, down: u32) -> u32
    ensures { IsMaskOf (λ n. (stands_in f.now.men n && stands_in (forward f.now.mover up down) n)
        || (stands_in f.now.kings n && (stands_in up n || stands_in down n))) result }
{
    (f.men & forward(f.mover, up, down)) | (f.kings & (up | down))
}

/// The squares from which the way leads over an enemy to an empty square, on the board that these
/// are the forces of.
#[inline]
fn leaping(f: &Forces, way: Way) -> u32
    ensures { (p : Board) → AreForces p f.now → IsMaskOf (leaps p way) result }
{
    before(way, before(way, f.free) & f.enemies)
}

/// The mover's pieces that have a jump, on the board that these are the forces of.
#[inline]
pub(crate) fn jumpers(f: &Forces) -> u32
    ensures { (p : Board) → AreForces p f.now → IsMaskOf (is_jumper p) result }
{
    let up = leaping(f, Way::UpLeft) | leaping(f, Way::UpRight);
    let down = leaping(f, Way::DownLeft) | leaping(f, Way::DownRight);
    going(f, up, down)
}

/// The mover's pieces that have a step, whether or not a jump forbids it, on the board that these
/// are the forces of.
#[inline]
pub(crate) fn steppers(f: &Forces) -> u32
    ensures { (p : Board) → AreForces p f.now → IsMaskOf (is_stepper p) result }
{
    let up = before(Way::UpLeft, f.free) | before(Way::UpRight, f.free);
    let down = before(Way::DownLeft, f.free) | before(Way::DownRight, f.free);
    going(f, up, down)
}

/// Some piece of the side to move has a jump.
#[inline]
pub(crate) fn has_jump(p: &Position) -> bool
    ensures { result ≡ has_jump p.now }
{
    is_any(jumpers(&Forces::of(p)))
}

/// What stands on the square, the mover's pieces being asked first.
#[inline]
pub(crate) fn piece_at(p: &Position, f: &Forces, square: Square) -> Cell
    requires { AreForces p.now f.now }
    ensures { result ≡ cell_at p.now square }
{
    if holds(f.kings, square) {
        Cell::King(f.mover)
    } else if holds(f.men, square) {
        Cell::Man(f.mover)
    } else {
        p.at(square)
    }
}

/// A piece of the side to move stands on the square.
#[inline]
pub(crate) fn is_own(p: &Position, square: Square) -> bool
    ensures { result ≡ is_own p.now square }
{
    p.at(square).belongs_to(p.to_move())
}
