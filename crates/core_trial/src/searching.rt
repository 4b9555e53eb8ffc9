//! What workers give for their leases.
ghost use Rattle.std.specs.Prelude.{IfOk};
ghost use Rattle.bench_core.specs.Cores.{IsOutcomeOf};

use anyhow::{Result, bail};
use certificate_checker::Outcome;
use endgame_table::Table;
use leaf_search::Memo;
use lease_table::Lease;
use std::alloc::Global;
use worker_gate::{OpenGate, can_search, search_lease};

/// How many positions a search remembers.
const REMEMBERED: usize = 1_024;

/// What the search comes to that the lease asks for.
pub(crate) fn outcome_of(alloc: Global, lease: &Lease, table: &Table) -> Result<Outcome>
    ensures { IfOk result (IsOutcomeOf lease.now) }
{
    if !can_search(lease, table) {
        bail!("the lease is of no search");
    }
    let mut memo = Memo::new(alloc, table.pieces(), REMEMBERED)?;
    Ok(search_lease(alloc, lease, table, &OpenGate, &mut memo)?)
}
