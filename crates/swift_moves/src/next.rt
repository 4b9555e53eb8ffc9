//! The positions after a position.
ghost use Rattle.std.specs.Prelude.{◌≡◌, ◌≢◌, ◌≤◌, ◌↔◌, ◌++◌, ◌∷◌, [], ℕ, List, true, false, length, map, IfOk, OnOk, IfSome, IsNone, Contains};
ghost use Rattle.draughts_board.specs.Board.{IsLawful};
ghost use Rattle.draughts_board.specs.Rules.{IsLegal, AreSuccessors, after, contains, first_places, has_jump, is_own, jumped};
ghost use Rattle.draughts_board.specs.Play.{first_to, legal_paths, steps, steps_from, successors_of};
ghost use Rattle.draughts_board.specs.Masks.{AreMasksOf, IsMaskOf};
ghost use Rattle.swift_moves.specs.Forces.{AreForces, is_jumper};

use crate::captures::add_captures;
use crate::forces::Forces;
use crate::masks::is_any;
use crate::masks_moved::{in_turn, jumped_over, masks_moved};
use crate::move_lists::{ROOM, legal_moves};
use crate::movers::{jumpers, steppers};
use crate::steps::step_targets;
use draughts_board::path_ends::{first, last};
use draughts_board::{Move, Position, Square};
use std::alloc::{AllocError, Global};

/// The position after a legal path, of which these are the masks.
#[inline]
fn position_of(
    p: &Position,
    black_men: u32,
    black_kings: u32,
    white_men: u32,
    white_kings: u32,
) -> Position
    requires { (path : List ℕ) × (IsLegal p.now path × AreMasksOf (after p.now path)
        (black_men ∷ black_kings ∷ white_men ∷ white_kings ∷ [])) }
    ensures { (path : List ℕ) → IsLegal p.now path → AreMasksOf (after p.now path)
        (black_men ∷ black_kings ∷ white_men ∷ white_kings ∷ []) → result ≡ after p.now path }
{
    let mover = p.to_move();
    Position::of_lawful_masks(
        [black_men, black_kings, white_men, white_kings],
        mover.other(),
    )
}

/// The position after the legal path, which jumps over the pieces of `taken`.
#[inline]
fn position_after(p: &Position, path: &[Square], taken: u32) -> Position
    requires some { 1 ≤ length path.now }
    requires legal { IsLegal p.now path.now }
    requires taken { IsMaskOf (contains (jumped path.now)) taken }
    ensures { result ≡ after p.now path.now }
{
    let mover = p.to_move();
    let before = in_turn(p.masks(), mover);
    let moved = masks_moved(before, mover, first(path), last(path), taken);
    let [black_men, black_kings, white_men, white_kings] = in_turn(moved, mover);
    position_of(p, black_men, black_kings, white_men, white_kings)
}

/// The position after a legal move: the piece stands on the path's last square, the pieces that it
/// jumped over are gone, a man on its farthest row is a king, and the other side is to move.
pub fn apply(p: &Position, m: &Move) -> Position
    requires { IsLegal p.now m.now }
    ensures { result ≡ after p.now m.now }
{
    let path = m.path();
    position_after(p, path, jumped_over(path))
}

/// Adds the positions after the steps of the mover's piece on the square, in the order of these
/// steps.
#[inline]
fn add_stepped_of(
    p: &Position,
    f: &Forces,
    from: Square,
    next: &mut Vec<Position>,
) -> Result<(), AllocError>
    requires forces { AreForces p.now f.now }
    requires own { is_own p.now from ≡ true }
    requires no_jump { has_jump p.now ≡ false }
    ensures { OnOk result
        (next.new.items ≡ next.old.items ++ map (after p.now) (steps_from p.now from)) }
{
    let mut left = step_targets(p, f, from);
    while left != 0 {
        let to = Square::lowest(left);
        let q = position_after(p, &[from, to], 0);
        next.push(q)?;
        left &= left - 1;
    }
    Ok(())
}

/// Adds the positions after the steps, in the order of these.
#[inline]
fn add_stepped(p: &Position, f: &Forces, next: &mut Vec<Position>) -> Result<(), AllocError>
    requires forces { AreForces p.now f.now }
    requires no_jump { has_jump p.now ≡ false }
    ensures { OnOk result
        (next.new.items ≡ next.old.items ++ map (after p.now) (steps p.now)) }
{
    let mut left = steppers(f);
    while left != 0 {
        add_stepped_of(p, f, Square::lowest(left), next)?;
        left &= left - 1;
    }
    Ok(())
}

/// Adds the positions after the moves, which are legal, each at its first place only.
fn add_distinct(p: &Position, moves: &[Move], next: &mut Vec<Position>) -> Result<(), AllocError>
    requires legal { (path : List ℕ) → Contains moves.now path → IsLegal p.now path }
    requires empty { next.old.items ≡ [] }
    ensures { OnOk result (next.new.items ≡ first_places (map (after p.now) moves.now)) }
{
    for m in moves {
        let q = apply(p, m);
        if !next.contains(&q) {
            next.push(q)?;
        }
    }
    Ok(())
}

/// Adds the positions after the captures, each at its first place only; `jumpers` holds the mover's
/// pieces that have a jump.
pub(crate) fn add_captured(
    alloc: Global,
    p: &Position,
    f: &Forces,
    jumpers: u32,
    next: &mut Vec<Position>,
) -> Result<(), AllocError>
    requires forces { AreForces p.now f.now }
    requires lawful { IsLawful p.now }
    requires jumpers { IsMaskOf (is_jumper p.now) jumpers }
    requires jump { has_jump p.now ≡ true }
    requires empty { next.old.items ≡ [] }
    ensures { OnOk result (next.new.items ≡ successors_of p.now) }
{
    let mut moves = Vec::new(alloc);
    add_captures(p, f, jumpers, &mut moves)?;
    add_distinct(p, &moves, next)
}

/// Puts the successors in place of what the list held: the positions that the legal moves lead to,
/// each once, in the order of the first move that gives it. Takes memory for the captures, if there
/// are any, and where the list's own is too small. No step leads where another does, so duplicates
/// are looked for among captures alone.
pub fn successors_into(
    alloc: Global,
    p: &Position,
    next: &mut Vec<Position>,
) -> Result<(), AllocError>
    ensures exact { OnOk result (next.new.items ≡ successors_of p.now) }
    ensures rules { OnOk result (AreSuccessors p.now next.new.items) }
{
    next.clear();
    let f = Forces::of(p);
    let jumpers = jumpers(&f);
    if is_any(jumpers) {
        add_captured(alloc, p, &f, jumpers, next)
    } else {
        add_stepped(p, &f, next)
    }
}

/// The positions that the legal moves lead to, each once, in the order of the first move that gives
/// it.
pub fn successors(alloc: Global, p: &Position) -> Result<Vec<Position>, AllocError>
    ensures exact { IfOk result (λ next. next.items ≡ successors_of p.now) }
    ensures rules { IfOk result (λ next. AreSuccessors p.now next.items) }
{
    let mut next = Vec::with_capacity(alloc, ROOM)?;
    successors_into(alloc, p, &mut next)?;
    Ok(next)
}

/// The first of the moves, which are legal, that leads to `next`.
fn first_to(p: &Position, next: &Position, moves: &[Move]) -> Option<Move>
    requires { (path : List ℕ) → Contains moves.now path → IsLegal p.now path }
    ensures { result ≡ first_to p.now next.now moves.now }
{
    for m in moves {
        if apply(p, m) == *next {
            return Some(*m);
        }
    }
    None
}

/// The first legal move, in rising order of path, that leads to `next`; none exactly where no legal
/// move leads there.
pub fn move_to(alloc: Global, p: &Position, next: &Position) -> Result<Option<Move>, AllocError>
    ensures exact { IfOk result (λ found. found ≡ first_to p.now next.now (legal_paths p.now)) }
    ensures some { IfOk result (λ found. IfSome found (λ path.
        IsLegal p.now path × (after p.now path ≡ next.now))) }
    ensures none { IfOk result (λ found. IsNone found
        ↔ ((path : List ℕ) → IsLegal p.now path → after p.now path ≢ next.now)) }
{
    let moves = legal_moves(alloc, p)?;
    Ok(first_to(p, next, &moves))
}
