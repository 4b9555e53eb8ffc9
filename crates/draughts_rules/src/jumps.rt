//! Jumps, one at a time.
ghost use Rattle.std.specs.Prelude.{◌≡◌, ◌≤◌, ◌<◌, ◌++◌, ◌∷◌, [], length, if◌then◌else◌};
ghost use Rattle.std.specs.List.{list_any};
ghost use Rattle.draughts_board.specs.Geometry.{squares};
ghost use Rattle.draughts_board.specs.Board.{IsLawful};
ghost use Rattle.draughts_board.specs.Rules.{contains, jumped, is_jump, further_jumps, has_jump};
ghost use Rattle.draughts_rules.specs.Conditions.{is_open_jump, is_open_further};

use crate::cell_board::CellBoard;
use crate::near_squares::jump_targets;
use crate::pieces::{may_go, own_squares};
use crate::square_list::SquareList;
use draughts_board::Square;
use draughts_board::path_ends::{first, last};

/// The piece that starts on `start` may jump from one square to that of the number, which is a jump
/// away; never where the number is that of no square.
#[inline]
fn is_open_jump(p: &CellBoard, start: Square, from: Square, number: u8) -> bool
    ensures { result ≡ is_open_jump p.now start from number }
{
    let Some(to) = Square::new(number) else {
        return false;
    };
    let enemy = p.to_move().other();
    (p.at(to).is_empty() || to == start)
        && may_go(p.at(start), from, to)
        && p.at(from.between(to)).belongs_to(enemy)
}

/// The piece that starts on `start` may jump from one square to the other.
pub(crate) fn is_jump(p: &CellBoard, start: Square, from: Square, to: Square) -> bool
    ensures { result ≡ is_jump p.now start from to }
{
    from.is_jump_apart(to) && is_open_jump(p, start, from, to.number())
}

/// The piece on the square may jump to one of these numbers' squares, which are a jump away.
#[inline]
fn can_jump_to(p: &CellBoard, from: Square, targets: &[u8]) -> bool
    ensures { result ≡ list_any (is_open_jump p.now from from) targets.now }
{
    targets
        .iter()
        .any(|number| is_open_jump(p, from, from, *number))
}

/// The piece on the square has a jump.
#[inline]
pub(crate) fn can_jump(p: &CellBoard, from: Square) -> bool
    ensures { result ≡ list_any (is_jump p.now from from) squares }
{
    can_jump_to(p, from, &jump_targets(from))
}

/// A piece on one of these squares has a jump.
fn can_any_jump(p: &CellBoard, from: &[Square]) -> bool
    ensures { result ≡ list_any (λ x. list_any (is_jump p.now x x) squares) from.now }
{
    from.iter().any(|square| can_jump(p, *square))
}

/// Some piece of the side to move has a jump.
pub(crate) fn has_jump(p: &CellBoard) -> bool
    ensures jump { result ≡ has_jump p.now }
    ensures lawful { IsLawful p.now }
{
    can_any_jump(p, own_squares(p).as_slice())
}

/// The path has jumped over the square.
pub(crate) fn has_jumped(path: &[Square], over: Square) -> bool
    ensures { result ≡ contains (jumped path.now) over }
{
    match path {
        [from, to, ..] => {
            (from.is_jump_apart(*to) && from.between(*to) == over) || has_jumped(&path[1..], over)
        }
        _ => false,
    }
}

/// Adds the square of the number, which is a jump away from the end of the path, if the capture may
/// go on to it.
fn add_further(p: &CellBoard, path: &[Square], number: u8, jumps: &mut SquareList)
    requires some { 1 ≤ length path.now }
    requires room { length jumps.old < 13 }
    ensures { jumps.new ≡ jumps.old
        ++ (if is_open_further p.now path.now number then number ∷ [] else []) }
{
    let here = last(path);
    if let Some(to) = Square::new(number) {
        let is_open = is_open_jump(p, first(path), here, number);
        jumps.push_if(to, is_open && !has_jumped(path, here.between(to)));
    }
}

/// Where the capture may go on to behind the path, over a piece that it has not yet jumped, in
/// rising order.
pub(crate) fn further_jumps(p: &CellBoard, path: &[Square]) -> SquareList
    requires { 1 ≤ length path.now }
    ensures { result ≡ further_jumps p.now path.now }
{
    let here = last(path);
    let targets = jump_targets(here);
    let mut jumps = SquareList::empty(here);
    for number in &targets {
        add_further(p, path, *number, &mut jumps);
    }
    jumps
}
