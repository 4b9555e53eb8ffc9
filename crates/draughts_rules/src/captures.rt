//! Captures, grown jump by jump, depth first.
ghost use Rattle.std.specs.Prelude.{◌≡◌, ◌-◌, ◌≤◌, ◌++◌, ◌∷◌, ◌⊎◌, [], true, false, length, filter, OnOk, IfOk, if◌then◌else◌};
ghost use Rattle.draughts_board.specs.Geometry.{squares};
ghost use Rattle.draughts_board.specs.Board.{IsLawful};
ghost use Rattle.draughts_board.specs.Rules.{is_own, further_jumps};
ghost use Rattle.draughts_board.specs.Play.{IsCapturePrefix, is_done, grown, starts, captures};

use crate::cell_board::CellBoard;
use crate::jumps::{can_jump, further_jumps};
use crate::pieces::is_crowned_on;
use crate::square_list::SquareList;
use draughts_board::path_ends::{first, last};
use draughts_board::{Move, Square};
use std::alloc::{AllocError, Global};

/// The capture ends with this path, behind which it may go on to `jumps`.
pub(crate) fn is_done(p: &CellBoard, path: &[Square], jumps: &[Square]) -> bool
    requires some { 1 ≤ length path.now }
    requires jumps { jumps.now ≡ further_jumps p.now path.now }
    ensures { result ≡ is_done p.now path.now }
{
    is_crowned_on(p.at(first(path)), last(path)) || jumps.is_empty()
}

/// Adds the captures that begin with the trail, in rising order.
fn grow(p: &CellBoard, trail: &SquareList, found: &mut Vec<Move>) -> Result<(), AllocError>
    requires lawful { IsLawful p.now }
    requires least { 1 ≤ length trail.now }
    requires prefix { IsCapturePrefix p.now trail.now }
    requires begun { (2 ≤ length trail.now) ⊎ (is_done p.now trail.now ≡ false) }
    ensures { OnOk result
        (found.new.items ≡ found.old.items ++ grown (13 - length trail.now) p.now trail.now) }
{
    let path = trail.as_slice();
    let further = further_jumps(p, path);
    let jumps = further.as_slice();
    if is_done(p, path, jumps) {
        let capture = Move::of(path).unwrap();
        found.push(capture)?;
        return Ok(());
    }
    for to in jumps {
        let longer = trail.with(*to);
        grow(p, &longer, found)?;
    }
    Ok(())
}

/// Adds the captures of the mover's piece on the square, in rising order.
fn add_captures(p: &CellBoard, from: Square, found: &mut Vec<Move>) -> Result<(), AllocError>
    requires lawful { IsLawful p.now }
    requires own { is_own p.now from ≡ true }
    ensures { OnOk result
        (found.new.items ≡ found.old.items
        ++ (if starts p.now from then grown 12 p.now (from ∷ []) else [])) }
{
    if can_jump(p, from) {
        grow(p, &SquareList::of(from), found)?;
    }
    Ok(())
}

/// The captures, in rising order, of the pieces on these squares, which are the mover's.
pub(crate) fn captures(
    alloc: Global,
    p: &CellBoard,
    own: &[Square],
) -> Result<Vec<Move>, AllocError>
    requires lawful { IsLawful p.now }
    requires own { own.now ≡ filter (is_own p.now) squares }
    ensures { IfOk result (λ v. v.items ≡ captures p.now) }
{
    let mut found = Vec::new(alloc);
    for from in own {
        add_captures(p, *from, &mut found)?;
    }
    Ok(found)
}
