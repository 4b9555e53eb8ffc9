//! How fast lists are searched.
ghost use Rattle.std.specs.Prelude.{◌≤◌};

use crate::lists::ListedPosition;
use crate::settling::settle_all;
use anyhow::Result;
use endgame_table::Table;
use leaf_search::Memo;
use std::alloc::Global;
use std::rt::Clock;
use std::time::Instant;

/// How often each list is searched; the best time counts.
const RUNS: u32 = 5;

/// The best time of searching the list, in nanoseconds, each time with an empty memory of `capacity` positions.
pub(crate) fn best_time(
    rt: &(impl Clock + Alloc<A = Global>),
    rows: &[ListedPosition],
    depth: u8,
    capacity: usize,
    table: &Table,
) -> Result<u128>
    requires { 1 ≤ capacity }
{
    let mut best = u128::MAX;
    for _ in 0..RUNS {
        let mut memo = Memo::new(rt.alloc(), table.pieces(), capacity)?;
        let start = Instant::now(rt)?;
        settle_all(rt.alloc(), rows, depth, table, &mut memo)?;
        best = best.min(start.elapsed(rt)?.as_nanos());
    }
    Ok(best)
}
