//! Merging lists of entries in their maps.
ghost use Rattle.std.specs.Prelude.{◌≡◌, ◌≤◌, ◌<◌, ◌+◌, ◌∷◌, [], length, map, IfOk};
ghost use Rattle.strategy_certificate.specs.Parts.{HasDistinctPositions, merged_wins, merged_holds, without_rank};

use crate::entries::WinEntry;
use crate::rows::{add_new_row, row_at};
use draughts_board::{Move, Position};
use position_rows::PositionRows;
use std::alloc::{AllocError, Global};

/// Takes over the entry: a new position goes last, and one that is there takes the entry where its
/// rank is smaller. There is room for it.
fn improve(into: &mut PositionRows<WinEntry>, p: &Position, e: &WinEntry)
    requires room { 0 < into.old.spare }
    requires distinct { HasDistinctPositions into.old.entries }
    ensures entries { into.new.entries ≡ merged_wins into.old.entries ((p.now, e.now) ∷ []) }
    ensures distinct { HasDistinctPositions into.new.entries }
    ensures room { into.old.spare ≤ into.new.spare + 1 }
{
    let Ok((i, added)) = into.note(*p, *e) else {
        unreachable!()
    };
    if added {
        return;
    }
    let kept = row_at(into, i);
    if kept.1.rank <= e.rank {
        return;
    }
    into.replace(i, *e);
}

/// Takes over each entry of `from` so, in order. There is room for all of them.
pub(crate) fn improve_all(into: &mut PositionRows<WinEntry>, from: &PositionRows<WinEntry>)
    requires room { length from.now.entries ≤ into.old.spare }
    requires distinct { HasDistinctPositions into.old.entries }
    ensures entries { into.new.entries ≡ merged_wins into.old.entries from.now.entries }
    ensures distinct { HasDistinctPositions into.new.entries }
{
    for (p, e) in from.as_slice() {
        improve(into, p, e);
    }
}

/// Takes over each entry of `from` whose position has none yet, in order. There is room for all of
/// them.
pub(crate) fn add_all_new(into: &mut PositionRows<Option<Move>>, from: &PositionRows<Option<Move>>)
    requires room { length from.now.entries ≤ into.old.spare }
    requires distinct { HasDistinctPositions into.old.entries }
    ensures entries { into.new.entries ≡ merged_holds into.old.entries from.now.entries }
    ensures distinct { HasDistinctPositions into.new.entries }
{
    for (p, chosen) in from.as_slice() {
        let Ok(_) = add_new_row(into, *p, *chosen) else {
            unreachable!()
        };
    }
}

/// The same entries, in the same order, without their ranks.
pub(crate) fn without_ranks(
    alloc: Global,
    from: &PositionRows<WinEntry>,
) -> Result<PositionRows<Option<Move>>, AllocError>
    ensures entries { IfOk result (λ rows. rows.entries ≡ map without_rank from.now.entries) }
    ensures distinct { IfOk result (λ rows. HasDistinctPositions rows.entries) }
{
    let mut rows = PositionRows::with_capacity(alloc, from.len())?;
    for (p, e) in from.as_slice() {
        rows.note(*p, e.chosen)?;
    }
    Ok(rows)
}
