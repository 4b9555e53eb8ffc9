//! Where the journal is.
ghost use Rattle.std.specs.Prelude.{◌≡◌};

use crate::by_hand::{ByHand, work_by_hand};
use crate::roots::{PIECES, begin};
use crate::together::{Together, work_together};
use anyhow::Result;
use bench_disk::{Disk, FileDisk, MemoryDisk};
use draughts_board::Position;
use endgame_table::Table;
use std::fs;
use std::sync::Wait;
use std::thread::Threads;

/// Where the journal is: in memory, or in the file at a path, which is made anew.
#[derive(Clone, Copy)]
pub(crate) enum Place<'a> {
    Memory,
    File(&'a str),
}

impl<'a> Place<'a> {
    /// Its name, as it is printed.
    pub(crate) fn name(&self) -> &'static str {
        match self {
            Place::Memory => "memory",
            Place::File(_) => "file",
        }
    }
}

/// A disk without a file at this path.
fn new_file<'a>(rt: &'a HostRuntime, path: &str) -> Result<FileDisk<&'a HostRuntime>> {
    let _ = fs::remove_file(rt, path);
    Ok(FileDisk::new(rt, String::from_str(rt.alloc(), path)?))
}

/// Begins the roots on a disk, and lets `workers` workers work until all are settled.
fn begin_together<R: Threads + Wait + Sync, D: Disk + Drop + Send>(
    threads: &R,
    rt: &HostRuntime,
    disk: D,
    workers: u8,
    positions: &[Position],
    table: &Table,
) -> Result<Together>
    requires { table.now.pieces ≡ PIECES }
{
    let disk = begin(rt.alloc(), disk, positions, table)?;
    work_together(threads, rt, disk, workers, table)
}

/// Lets `workers` workers work at a place until all roots are settled.
pub(crate) fn run_together<R: Threads + Wait + Sync>(
    threads: &R,
    rt: &HostRuntime,
    place: Place,
    workers: u8,
    positions: &[Position],
    table: &Table,
) -> Result<Together>
    requires { table.now.pieces ≡ PIECES }
{
    match place {
        Place::Memory => {
            let disk = MemoryDisk::new(rt.alloc());
            begin_together(threads, rt, disk, workers, positions, table)
        }
        Place::File(path) => {
            let disk = new_file(rt, path)?;
            begin_together(threads, rt, disk, workers, positions, table)
        }
    }
}

/// Begins the roots on a disk, and lets one worker work by hand until all are settled.
fn begin_by_hand<R: Wait, D: Disk + Drop>(
    waiting: &R,
    rt: &HostRuntime,
    disk: D,
    positions: &[Position],
    table: &Table,
) -> Result<ByHand>
    requires { table.now.pieces ≡ PIECES }
{
    let disk = begin(rt.alloc(), disk, positions, table)?;
    work_by_hand(waiting, rt, disk, table)
}

/// Lets one worker work at a place by hand until all roots are settled.
pub(crate) fn run_by_hand<R: Wait>(
    waiting: &R,
    rt: &HostRuntime,
    place: Place,
    positions: &[Position],
    table: &Table,
) -> Result<ByHand>
    requires { table.now.pieces ≡ PIECES }
{
    match place {
        Place::Memory => {
            let disk = MemoryDisk::new(rt.alloc());
            begin_by_hand(waiting, rt, disk, positions, table)
        }
        Place::File(path) => {
            let disk = new_file(rt, path)?;
            begin_by_hand(waiting, rt, disk, positions, table)
        }
    }
}
