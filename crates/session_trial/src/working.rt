//! A session that works in rounds, on a disk that may fail.
ghost use Rattle.std.specs.Prelude.{◌≡◌};

use crate::searching::outcome_of;
use crate::trees::SeenTree;
use anyhow::Result;
use bench_core::{LeaseRefusal, Settings};
use bench_disk::Disk;
use disk_journal::{JournalRefusal, Receipt};
use draughts_board::Position;
use endgame_table::Table;
use fen_text::read_fen;
use proof_tree::Tree;
use std::alloc::{AllocError, Global};
use tree_manager::{BeginRefusal, CommitRefusal, Session};

/// How many roots a session begins.
const BEGUN: u64 = 3;

/// How many rounds a session works at most, and how many leases each round has.
const ROUNDS: u32 = 20;

const LEASES: u32 = 3;

/// How a session of `pieces` pieces searches.
pub(crate) fn settings(pieces: u8) -> Settings
    ensures { result.pieces ≡ pieces }
{
    Settings {
        pieces,
        depth: 0,
        budget: 50,
        lease: 5,
    }
}

/// What a session's tree showed behind a commit.
#[derive(Drop)]
pub(crate) struct Committed {
    /// How many records were acknowledged.
    pub(crate) records: u64,
    pub(crate) tree: SeenTree,
}

/// Where a session stopped.
#[derive(Drop)]
pub(crate) struct Stop {
    /// How many records were acknowledged.
    pub(crate) acknowledged: u64,
    /// How many more were staged, in the commit that failed.
    pub(crate) waiting: u64,
    /// What its tree showed there.
    pub(crate) tree: SeenTree,
    /// What it showed behind each commit that was acknowledged, that of the roots among them.
    pub(crate) commits: Vec<Committed>,
    /// Every root is settled.
    pub(crate) done: bool,
}

impl Stop {
    /// Where the disk failed before anything was acknowledged, and `waiting` records were staged.
    fn of(alloc: Global, waiting: u64) -> Stop {
        Stop {
            acknowledged: 0,
            waiting,
            tree: SeenTree::empty(alloc),
            commits: Vec::new(alloc),
            done: false,
        }
    }

    /// A commit is acknowledged, with `number` records in all. Behind it this is the tree.
    fn acknowledge(&mut self, alloc: Global, number: u64, tree: &Tree) -> Result<(), AllocError> {
        self.acknowledged = number;
        self.waiting = 0;
        self.commits.push(Committed {
            records: number,
            tree: SeenTree::of(alloc, tree)?,
        })?;
        Ok(())
    }
}

/// The position of a FEN.
pub(crate) fn position_of(fen: &str) -> Result<Position> {
    Ok(read_fen(fen.as_bytes())?)
}

/// The positions that begin roots. The first stands there twice, and begins one.
fn roots() -> Result<[Position; 4]> {
    let first = position_of("W:W16,23:B12")?;
    let second = position_of("B:W21:B10,17")?;
    let third = position_of("W:W14:B1,2")?;
    Ok([first, second, first, third])
}

/// Leases leaves, searches them and stages what is found: how many results there are, and whether every root is settled.
fn stage_round<D: Disk>(
    alloc: Global,
    session: &mut Session<D>,
    table: &Table,
) -> Result<(u64, bool)> {
    let mut staged: u64 = 0;
    for worker in 0..LEASES {
        let lease = match session.lease(worker) {
            Ok(lease) => lease,
            Err(LeaseRefusal::Done) => return Ok((staged, true)),
            Err(LeaseRefusal::NoLeaf { .. }) => break,
            Err(refusal) => return Err(refusal.into()),
        };
        let outcome = outcome_of(alloc, &lease, table)?;
        session.stage(&lease, outcome)?;
        staged = staged.saturating_add(1);
    }
    Ok((staged, false))
}

/// Commits what is staged: whether it is acknowledged, which it is unless the disk fails.
fn commit<D: Disk>(alloc: Global, session: &mut Session<D>, stop: &mut Stop) -> Result<bool> {
    match session.commit() {
        Ok(receipt) => {
            stop.acknowledge(alloc, receipt.number, session.bench().tree())?;
            Ok(true)
        }
        Err(CommitRefusal::Disk) => Ok(false),
        Err(refusal) => Err(refusal.into()),
    }
}

/// Works in rounds until every root is settled or the disk fails.
fn work<D: Disk>(
    alloc: Global,
    session: &mut Session<D>,
    table: &Table,
    stop: &mut Stop,
) -> Result<()> {
    for _ in 0..ROUNDS {
        let (staged, done) = stage_round(alloc, session, table)?;
        stop.waiting = staged;
        stop.done = done;
        if done || !commit(alloc, session, stop)? {
            return Ok(());
        }
    }
    Ok(())
}

/// Works on in the session that began its roots with this answer, until all are settled or the disk fails.
fn work_on<D: Disk>(
    alloc: Global,
    session: &mut Session<D>,
    begun: Result<Receipt, BeginRefusal>,
    table: &Table,
    stop: &mut Stop,
) -> Result<()> {
    match begun {
        Ok(receipt) => {
            stop.acknowledge(alloc, receipt.number, session.bench().tree())?;
            work(alloc, session, table, stop)
        }
        Err(BeginRefusal::Disk) => Ok(()),
        Err(refusal) => Err(refusal.into()),
    }
}

/// Where the session stops that began its roots with this answer. It works until all are settled or the disk fails.
fn go_on<D: Disk>(
    alloc: Global,
    session: &mut Session<D>,
    begun: Result<Receipt, BeginRefusal>,
    table: &Table,
) -> Result<Stop> {
    let mut stop = Stop::of(alloc, BEGUN);
    work_on(alloc, session, begun, table, &mut stop)?;
    stop.tree = SeenTree::of(alloc, session.bench().tree())?;
    Ok(stop)
}

/// What there is where no session attached to the disk, which is an error but where the disk failed.
fn without_session<D: Drop>(alloc: Global, disk: D, refusal: JournalRefusal) -> Result<(Stop, D)> {
    match refusal {
        JournalRefusal::DiskFault => Ok((Stop::of(alloc, 0), disk)),
        refusal => Err(refusal.into()),
    }
}

/// Attaches a session, begins the roots and works until all are settled or the disk fails: where it stopped, and the
/// disk.
pub(crate) fn run<D: Disk + Drop>(alloc: Global, disk: D, table: &Table) -> Result<(Stop, D)> {
    let positions = roots()?;
    match Session::attach(alloc, disk, settings(table.pieces()), table) {
        Ok(mut session) => {
            let begun = session.begin(&positions, table);
            let stop = go_on(alloc, &mut session, begun, table)?;
            Ok((stop, session.into_disk()))
        }
        Err((disk, refusal)) => without_session(alloc, disk, refusal),
    }
}
