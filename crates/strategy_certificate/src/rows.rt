//! The rows of a part, whatever stands beside each position: what parts of both kinds do alike.
ghost use Rattle.std.specs.Prelude.{◌≡◌, ◌∷◌, [], ◌++◌, ◌<◌, ◌≤◌, ◌+◌, ◌↔◌, Contains, IsNone, is_none, IsOk, IfOk, MatchBool, OnErr, ℕ, Option, length, slice_get, if◌then◌else◌};
ghost use Rattle.strategy_certificate.specs.Parts.{HasDistinctPositions, HasEntry, entry_of};
ghost use Rattle.strategy_certificate.specs.Places.{StandsAt};

use draughts_board::Position;
use position_rows::PositionRows;
use std::alloc::AllocError;

/// The position at this place, counted from 0, and its entry.
pub(crate) fn row_at<E: Copy>(rows: &PositionRows<E>, i: usize) -> (Position, E)
    requires { i < length rows.now.entries }
    ensures { slice_get rows.now.entries i ≡ Some result }
{
    rows.as_slice()[i]
}

/// The entry of this position; none exactly where it has none.
pub(crate) fn find_row<E: Copy>(rows: &PositionRows<E>, p: &Position) -> Option<E>
    requires { HasDistinctPositions rows.now.entries }
    ensures value { result ≡ entry_of rows.now.entries p.now }
    ensures found { (e : E) → (result ≡ Some e) ↔ Contains rows.now.entries (p.now, e) }
    ensures none { IsNone result ↔ (¬ HasEntry rows.now.entries p.now) }
{
    rows.get(p)
}

/// The place of this position's row, counted from 0; none exactly where it has none.
pub(crate) fn place_of_row<E: Copy>(rows: &PositionRows<E>, p: &Position) -> Option<usize>
    requires { HasDistinctPositions rows.now.entries }
    ensures { (i : ℕ) → (result ≡ Some i) ↔ StandsAt rows.now.entries i p.now }
{
    rows.place(p)
}

/// Adds a row behind the others, unless its position has one; tells whether it had none. The
/// position is hashed once.
///
/// After want of memory the rows are as they were.
pub(crate) fn add_new_row<E: Copy>(
    rows: &mut PositionRows<E>,
    p: Position,
    e: E,
) -> Result<bool, AllocError>
    requires { HasDistinctPositions rows.old.entries }
    ensures added { IfOk result (λ added. added ≡ is_none (entry_of rows.old.entries p)) }
    ensures tells { IfOk result (λ added.
        MatchBool added (¬ HasEntry rows.old.entries p) (HasEntry rows.old.entries p)) }
    ensures rows { IfOk result (λ added. rows.new.entries ≡
        (if added then rows.old.entries ++ (p, e) ∷ [] else rows.old.entries)) }
    ensures err { OnErr result (rows.new.entries ≡ rows.old.entries) }
    ensures distinct { HasDistinctPositions rows.new.entries }
    ensures succeeds { 0 < rows.old.spare → IsOk result }
    ensures room { rows.old.spare ≤ rows.new.spare + 1 }
{
    let (_i, added) = rows.note(p, e)?;
    Ok(added)
}
