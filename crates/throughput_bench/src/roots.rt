//! The roots of a session, and what it came to.
ghost use Rattle.std.specs.Prelude.{◌≡◌};

use anyhow::Result;
use bench_core::Settings;
use bench_disk::Disk;
use draughts_board::Position;
use endgame_table::Table;
use std::alloc::Global;
use tree_manager::Session;

/// How many pieces the endgame table has at most.
pub(crate) const PIECES: u8 = 2;

/// How many plies a search looks ahead.
pub(crate) const DEPTH: u8 = 4;

/// How many work records a session may have.
const BUDGET: u32 = 2_000;

/// A lease lasts for as many leases given, longer than any run.
const LEASE: u32 = 1_000_000;

/// How a session searches.
pub(crate) fn settings() -> Settings
    ensures { result.pieces ≡ PIECES }
{
    Settings {
        pieces: PIECES,
        depth: DEPTH,
        budget: BUDGET,
        lease: LEASE,
    }
}

/// The disk, whose journal has a root at each of these positions.
pub(crate) fn begin<D: Disk + Drop>(
    alloc: Global,
    disk: D,
    positions: &[Position],
    table: &Table,
) -> Result<D>
    requires { table.now.pieces ≡ PIECES }
{
    match Session::attach(alloc, disk, settings(), table) {
        Ok(mut session) => {
            let _receipt = session.begin(positions, table)?;
            Ok(session.into_disk())
        }
        Err((_, refusal)) => Err(refusal.into()),
    }
}

/// What a session came to.
#[derive(Clone, Copy, PartialEq, Eq, Debug)]
pub(crate) struct End {
    pub(crate) roots: u32,
    pub(crate) settled: u32,
    /// How many work records of the session there are.
    pub(crate) work: u64,
}

impl End {
    /// What the session came to.
    pub(crate) fn of<D: Disk>(session: &Session<D>) -> End {
        let bench = session.bench();
        let tree = bench.tree();
        let roots = tree.roots();
        let mut settled = 0u32;
        for root in 1..=roots {
            if tree.settled(root).is_some() {
                settled = settled.saturating_add(1);
            }
        }
        End {
            roots,
            settled,
            work: bench.work(),
        }
    }
}
