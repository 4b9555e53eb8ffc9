//! A session worked out by hand. Its depth is 1 and its budget 5.
ghost use Rattle.std.specs.Prelude.{◌≡◌, ◌≤◌};
ghost use Rattle.bench_core.specs.declared.settings.TheConstants.{MOST_LEASE};

use crate::searching::outcome_of;
use crate::working::position_of;
use anyhow::Result;
use bench_core::{LeaseRefusal, Settings};
use bench_disk::Disk;
use disk_journal::Receipt;
use endgame_table::Table;
use lease_table::{Lease, LeaseId, Stale};
use std::alloc::Global;
use tree_manager::{BeginRefusal, Session, StageRefusal};

/// The position of its one root.
const ROOT: &str = "W:W16,23:B12";

/// So often a leaf is asked for that is leased.
const ASKED: u32 = 3;

/// The settings, where a lease lasts for `lease` leases given.
fn settings_of(pieces: u8, lease: u32) -> Settings
    requires first { 1 ≤ lease }
    requires last { lease ≤ MOST_LEASE }
    ensures { result.pieces ≡ pieces }
{
    Settings {
        pieces,
        depth: 1,
        budget: 5,
        lease,
    }
}

/// The session's answer to the result of the lease's search.
fn stage_found<D: Disk>(
    alloc: Global,
    session: &mut Session<D>,
    lease: &Lease,
    table: &Table,
) -> Result<Option<StageRefusal>> {
    let found = outcome_of(alloc, lease, table)?;
    match session.stage(lease, found) {
        Ok(()) => Ok(None),
        Err(refusal) => Ok(Some(refusal)),
    }
}

/// Whether the first lease is stale and the second one's result is the second record, which settles the root.
fn settle<D: Disk>(
    alloc: Global,
    session: &mut Session<D>,
    first: &Lease,
    second: &Lease,
    table: &Table,
) -> Result<bool> {
    let late = stage_found(alloc, session, first, table)?;
    let found = stage_found(alloc, session, second, table)?;
    let number = session.commit()?.number;
    let next = session.lease(1);
    Ok(
        late == Some(StageRefusal::Stale(first.id))
            && found.is_none()
            && number == 2
            && next == Err(LeaseRefusal::Done),
    )
}

/// Whether the second lease is of the first one's leaf, makes it stale and settles the root.
fn is_leased_again<D: Disk>(
    alloc: Global,
    session: &mut Session<D>,
    table: &Table,
) -> Result<bool> {
    let first = session.lease(1)?;
    let second = session.lease(2)?;
    let is_again = first.id == LeaseId::new(1)
        && second.id == LeaseId::new(2)
        && first.node == second.node;
    Ok(is_again && settle(alloc, session, &first, &second, table)?)
}

/// Whether a leased leaf is not given, however often it is asked for, until its lease is released.
fn is_kept_back<D: Disk>(session: &mut Session<D>) -> Result<bool> {
    let first = session.lease(1)?;
    for _ in 0..ASKED {
        if session.lease(2) != Err(LeaseRefusal::NoLeaf { live: 1 }) {
            return Ok(false);
        }
    }
    session.release(first.id)?;
    let again = session.release(first.id);
    let next = session.lease(2)?;
    Ok(again == Err(Stale(first.id)) && next.id == LeaseId::new(2))
}

/// Plays the session that began the root with this answer. Where a lease lasts for one lease given, the next is of the
/// same leaf; otherwise its leaf is kept back.
fn plays<D: Disk>(
    alloc: Global,
    session: &mut Session<D>,
    begun: Result<Receipt, BeginRefusal>,
    lease: u32,
    table: &Table,
) -> Result<bool> {
    let _begun = begun?;
    if lease == 1 {
        is_leased_again(alloc, session, table)
    } else {
        is_kept_back(session)
    }
}

/// Whether the worked session goes as it must on this empty disk, where a lease lasts for `lease` leases given, one or
/// two.
pub(crate) fn goes_as_worked<D: Disk + Drop>(
    alloc: Global,
    disk: D,
    lease: u32,
    table: &Table,
) -> Result<bool>
    requires first { 1 ≤ lease }
    requires last { lease ≤ MOST_LEASE }
{
    let root = position_of(ROOT)?;
    match Session::attach(alloc, disk, settings_of(table.pieces(), lease), table) {
        Ok(mut session) => {
            let begun = session.begin(&[root], table);
            plays(alloc, &mut session, begun, lease, table)
        }
        Err((_, refusal)) => Err(refusal.into()),
    }
}
