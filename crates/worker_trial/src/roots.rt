//! The roots, and a disk on which they are begun.
ghost use Rattle.std.specs.Prelude.{◌≡◌, ◌≤◌};
ghost use Rattle.bench_core.specs.declared.settings.TheConstants.{MOST_LEASE};

use anyhow::Result;
use bench_core::Settings;
use bench_disk::MemoryDisk;
use draughts_board::Position;
use endgame_table::Table;
use fen_text::read_fen;
use std::alloc::Global;
use tree_manager::Session;

/// The positions of the roots: nine White wins, nine Black wins, and six draws. The one worker expands each at most ten times
/// before its value is known.
const ROOTS: &[&str] = &[
    "W:W27,32:B19",
    "W:W7,24:B1",
    "B:W18,K22:B9",
    "W:W11,28,29:B4",
    "B:WK23,24:B8",
    "W:W9,K10,22:B13",
    "B:W19,20:B4",
    "W:W11,K18,K21:B3",
    "W:W19,22,25:B11",
    "B:W20:B1,K16",
    "B:W13,18:B6,15",
    "B:W16:BK3,15",
    "B:WK4:B3,21",
    "B:W17:B5,K6",
    "W:W31:B8,15,23",
    "W:W6:B3,7,K10",
    "B:W29:B1,17,K30",
    "W:W32:BK12,24",
    "W:W14,23:BK18",
    "B:WK2,14,23:BK9",
    "W:W30:B26,27",
    "B:W8,22:BK25",
    "W:WK23:BK19,K32",
    "W:WK4:B8,24",
];

/// The most work records of one session.
const BUDGET: u32 = 1_000;

/// How a session searches in which a lease lasts for `lease` leases given.
pub(crate) fn settings(lease: u32) -> Settings
    requires first { 1 ≤ lease }
    requires last { lease ≤ MOST_LEASE }
    ensures { result.pieces ≡ 2 }
{
    Settings {
        pieces: 2,
        depth: 0,
        budget: BUDGET,
        lease,
    }
}

/// The positions of the roots, in order.
fn positions(alloc: Global) -> Result<Vec<Position>> {
    let mut positions = Vec::new(alloc);
    for fen in ROOTS {
        positions.push(read_fen(fen.as_bytes())?)?;
    }
    Ok(positions)
}

/// A disk whose journal begins the roots, and has no work record.
pub(crate) fn begun_disk(alloc: Global, table: &Table) -> Result<MemoryDisk>
    requires { table.now.pieces ≡ 2 }
{
    let positions = positions(alloc)?;
    match Session::attach(alloc, MemoryDisk::new(alloc), settings(1), table) {
        Ok(mut session) => {
            session.begin(positions.as_slice(), table)?;
            Ok(session.into_disk())
        }
        Err((_, refusal)) => Err(refusal.into()),
    }
}
