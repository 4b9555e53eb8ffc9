//! How many positions come after a position.
ghost use Rattle.std.specs.Prelude.{◌≡◌, length, IfOk};
ghost use Rattle.draughts_board.specs.Board.{Board};
ghost use Rattle.draughts_board.specs.Play.{steps, successors_of};
ghost use Rattle.swift_moves.specs.Forces.{AreForces};

use crate::forces::Forces;
use crate::masks::is_any;
use crate::movers::{going, jumpers};
use crate::next::add_captured;
use crate::ways::{Way, before};
use draughts_board::Position;
use std::alloc::{AllocError, Global};

/// How many steps there are, whether or not a jump forbids them, on the board that these are the
/// forces of.
fn count_steps(f: &Forces) -> u32
    ensures { (p : Board) → AreForces p f.now → result ≡ length (steps p) }
{
    let up_left = going(f, before(Way::UpLeft, f.free), 0);
    let up_right = going(f, before(Way::UpRight, f.free), 0);
    let down_left = going(f, 0, before(Way::DownLeft, f.free));
    let down_right = going(f, 0, before(Way::DownRight, f.free));
    up_left.count_ones() + up_right.count_ones() + down_left.count_ones() + down_right.count_ones()
}

/// How many successors there are: positions that the legal moves lead to, each counted once. Takes
/// memory for the captures alone, if there are any.
pub fn count_successors(alloc: Global, p: &Position) -> Result<usize, AllocError>
    ensures { IfOk result (λ count. count ≡ length (successors_of p.now)) }
{
    let f = Forces::of(p);
    let jumpers = jumpers(&f);
    if !is_any(jumpers) {
        return Ok(count_steps(&f) as usize);
    }
    let mut next = Vec::new(alloc);
    add_captured(alloc, p, &f, jumpers, &mut next)?;
    Ok(next.len())
}
