//! Ranks that a journal keeps, and how those of a win part are replaced by such.
ghost use Rattle.std.specs.Prelude.{◌≡◌, ◌<◌, ◌↔◌, ◌^◌, All, IfOk, IsTrue, length, map};
ghost use Rattle.strategy_certificate.specs.Claims.{HasShortRanks};
ghost use Rattle.strategy_certificate.specs.Parts.{HasDistinctPositions};
ghost use Rattle.strategy_certificate.specs.ShortRanks.{AreRanksOf, short_row};

use crate::certificates::{Certificate, Part};
use crate::entries::{MOST_FOUND_RANK, WinEntry};
use draughts_board::Position;
use position_rows::PositionRows;
use std::alloc::{AllocError, Global};

/// The least of the short ranks: each rank of a table is below it.
pub const FIRST_SHORT_RANK: u64 = 1 << 32;

/// The ranks of the rows, each once, rising.
pub(crate) fn ranks_of(alloc: Global, rows: &PositionRows<WinEntry>) -> Result<Vec<u64>, AllocError>
    ensures { IfOk result (λ ranks. AreRanksOf ranks.items rows.now.entries) }
{
    let mut ranks = Vec::with_capacity(alloc, rows.len())?;
    for (_p, e) in rows.as_slice() {
        ranks.push(e.rank)?;
    }
    ranks.sort_unstable();
    ranks.dedup();
    Ok(ranks)
}

/// The same rows, in the same order, each rank replaced by the short one of its place among these.
pub(crate) fn with_short_ranks(
    alloc: Global,
    rows: &PositionRows<WinEntry>,
    ranks: &[u64],
) -> Result<PositionRows<WinEntry>, AllocError>
    requires are { AreRanksOf ranks.now rows.now.entries }
    requires few { length ranks.now < 2 ^ 32 }
    ensures entries { IfOk result (λ short. short.entries
        ≡ map (short_row ranks.now) rows.now.entries) }
    ensures distinct { IfOk result (λ short. HasDistinctPositions short.entries) }
{
    let mut short = PositionRows::with_capacity(alloc, rows.len())?;
    for (p, e) in rows.as_slice() {
        let Ok(place) = ranks.binary_search(&e.rank) else {
            unreachable!()
        };
        let rank = FIRST_SHORT_RANK + place as u64;
        let chosen = e.chosen;
        short.note(*p, WinEntry { rank, chosen })?;
    }
    Ok(short)
}

/// Each rank is one that a journal keeps, at most [`MOST_FOUND_RANK`].
pub fn has_short_ranks(part: &Part) -> bool
    ensures { IsTrue result ↔ HasShortRanks part.now }
{
    match part {
        Part::Win(list) => (0..list.len()).all(|i| list.entry(i).1.rank <= MOST_FOUND_RANK),
        Part::Hold(_list) => true,
    }
}

/// Each rank of each part is one that a journal keeps.
pub fn is_short(c: &Certificate) -> bool
    ensures { IsTrue result ↔ All HasShortRanks c.now.parts }
{
    c.parts.as_slice().iter().all(has_short_ranks)
}
