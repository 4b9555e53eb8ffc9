//! Disks whose bytes are worked out from the format by hand, those that are attached and those that are refused; roots that
//! are begun once, and leases that end.
//!
//! Each function here is proved too, and dearly while it holds a session: so what a session does is answered by plain values,
//! and the tests compare those.
ghost use Rattle.std.specs.Prelude.{◌≡◌, IfOk};

use bench_core::{LeaseRefusal, Settings};
use bench_disk::MemoryDisk;
use disk_journal::JournalRefusal;
use draughts_board::{Cell, PlaceRefusal, Position, Side};
use endgame_table::{Table, fill};
use lease_table::{LeaseId, Stale};
use std::alloc::Global;
use std::test::Fail;
use tree_manager::{BeginRefusal, CommitRefusal, Session};

/// A session of depth 1 and budget 5 on this disk, whose leases last for ten leases given, or the disk again and why there is
/// none.
fn attach(
    alloc: Global,
    disk: MemoryDisk,
    table: &Table,
) -> Result<Session<MemoryDisk>, (MemoryDisk, JournalRefusal)>
    requires { table.now.pieces ≡ 2 }
    ensures { IfOk result (λ session. session.core.state.settings.pieces ≡ 2) }
{
    let settings = Settings {
        pieces: 2,
        depth: 1,
        budget: 5,
        lease: 10,
    };
    Session::attach(alloc, disk, settings, table)
}

/// The number of a lease, or why there is none.
type Answer = Result<LeaseId, LeaseRefusal>;

/// Leases the next leaf.
fn lease(session: &mut Session<MemoryDisk>, worker: u32) -> Answer {
    Ok(session.lease(worker)?.id)
}

/// How many roots a session has.
fn roots(session: &Session<MemoryDisk>) -> u32 {
    session.bench().tree().roots()
}

/// How many roots a session has, and what its first lease is.
fn roots_and_lease(session: &mut Session<MemoryDisk>) -> (u32, Answer) {
    (roots(session), lease(session, 1))
}

/// How many roots the session on a disk has, and what its first lease is; or why there is none, and whether the disk that
/// comes back has its bytes still.
type Attached = Result<(u32, Answer), (JournalRefusal, bool)>;

/// What came of attaching a disk of these bytes.
fn attached(
    answer: Result<Session<MemoryDisk>, (MemoryDisk, JournalRefusal)>,
    bytes: &[u8],
) -> Attached {
    match answer {
        Ok(mut session) => Ok(roots_and_lease(&mut session)),
        Err((disk, refusal)) => Err((refusal, disk.bytes() == bytes)),
    }
}

/// What comes of attaching a disk of these bytes.
fn attach_to(alloc: Global, bytes: &[u8]) -> Result<Attached, Fail> {
    let table = fill(alloc, 2)?;
    let disk = MemoryDisk::of(alloc, bytes.to_vec(alloc)?)?;
    Ok(attached(attach(alloc, disk, &table), bytes))
}

/// Begin of B:W16,19:B12, in which Black is blocked: a frame of 22 bytes, and a record of 18.
const BLOCKED: [u8; 40] = [
    0x44, 0x52, 0x42, 0x45, 0x4e, 0x43, 0x48, 2, 1, 0, 0, 0, 0, 0, 0, 0, 22, 0, 0, 0, 18, 1, 0, 0,
    0, 8, 0, 0, 0, 0, 0, 0, 4, 0x80, 0, 0, 0, 0, 0, 0,
];

/// Expand of node 0, where there is none: a frame of 13 bytes, and a record of 9, whose length field stands at 17.
const ROOTLESS: [u8; 31] = [
    0x44, 0x52, 0x42, 0x45, 0x4e, 0x43, 0x48, 2, 1, 0, 0, 0, 0, 0, 0, 0, 13, 0, 0, 0, 9, 3, 0, 0,
    0, 0, 0, 0, 0, 0, 0,
];

#[test]
fn attaches_a_blocked_root(rt: HostRuntime) -> Result<(), Fail> {
    let due = Ok((1, Err(LeaseRefusal::Done)));
    assert_eq!(rt; attach_to(rt.alloc(), &BLOCKED)?, due);
    Ok(())
}

/// Disks, and why they are refused, if they are.
const REFUSED: [(&[u8], Option<JournalRefusal>); 4] = [
    (b"hello worl", Some(JournalRefusal::NotAJournal)),
    (b"DRBENCH\x02\x01\0", Some(JournalRefusal::Damaged(8))),
    (b"DRBENCH\x02\x07\0", None),
    (&ROOTLESS, Some(JournalRefusal::Damaged(17))),
];

#[test]
fn refuses_what_is_no_journal_and_what_is_not_lawful(rt: HostRuntime) -> Result<(), Fail> {
    for (bytes, refusal) in REFUSED {
        let due = refusal.map(|refusal| (refusal, true));
        assert_eq!(rt; attach_to(rt.alloc(), bytes)?.err(), due);
    }
    Ok(())
}

/// White's men on 16 and on 23 or 24 to move against a man on 12.
pub(crate) fn two_against_one(other_on_24: bool) -> Result<Position, PlaceRefusal> {
    let mut cells = [Cell::Empty; 32];
    cells[16 - 1] = Cell::Man(Side::White);
    if other_on_24 {
        cells[24 - 1] = Cell::Man(Side::White);
    } else {
        cells[23 - 1] = Cell::Man(Side::White);
    }
    cells[12 - 1] = Cell::Man(Side::Black);
    Position::place(cells, Side::White)
}

/// A session on a fresh disk.
fn fresh_session(alloc: Global, table: &Table) -> Result<Session<MemoryDisk>, JournalRefusal>
    requires { table.now.pieces ≡ 2 }
    ensures { IfOk result (λ session. session.core.state.settings.pieces ≡ 2) }
{
    match attach(alloc, MemoryDisk::new(alloc), table) {
        Ok(session) => Ok(session),
        Err((_, refusal)) => Err(refusal),
    }
}

/// Begins these roots: how many records and roots stand then.
fn begin(
    session: &mut Session<MemoryDisk>,
    positions: &[Position],
    table: &Table,
) -> Result<(u64, u32), BeginRefusal>
    requires { table.now.pieces ≡ session.old.core.state.settings.pieces }
{
    let receipt = session.begin(positions, table)?;
    Ok((receipt.number, roots(session)))
}

/// The session, unless its roots were refused.
fn unless_refused(
    session: Session<MemoryDisk>,
    begun: Result<(u64, u32), BeginRefusal>,
) -> Result<Session<MemoryDisk>, Fail> {
    match begun {
        Ok(_) => Ok(session),
        Err(refusal) => Err(Fail::from(refusal)),
    }
}

/// A session on a fresh disk with these roots.
pub(crate) fn session_with(alloc: Global, roots: &[Position]) -> Result<Session<MemoryDisk>, Fail> {
    let table = fill(alloc, 2)?;
    let mut session = fresh_session(alloc, &table)?;
    let begun = begin(&mut session, roots, &table);
    unless_refused(session, begun)
}

/// Commits nothing, and ends all leases.
fn end_all(session: &mut Session<MemoryDisk>) -> Result<(), CommitRefusal> {
    let _idle = session.commit()?;
    session.end_leases();
    Ok(())
}

/// What a session answers: how many records and roots stand when this root is begun twice, two leases, the end of all
/// leases, the release of the first, and one more lease.
type Answers = (
    Option<(u64, u32)>,
    [Answer; 2],
    Result<(), CommitRefusal>,
    Result<(), Stale>,
    Answer,
);

/// Begins a root twice, and leases twice, ends all leases, releases the first and leases again.
fn begin_and_end(session: &mut Session<MemoryDisk>, p: Position, table: &Table) -> Answers
    requires { table.now.pieces ≡ session.old.core.state.settings.pieces }
{
    let begun = begin(session, &[p, p], table).ok();
    let leased = [lease(session, 1), lease(session, 2)];
    let ended = end_all(session);
    let released = session.release(LeaseId::new(1));
    (begun, leased, ended, released, lease(session, 2))
}

/// What a session on a fresh disk answers.
fn answers(alloc: Global, p: Position) -> Result<Answers, Fail> {
    let table = fill(alloc, 2)?;
    let mut session = fresh_session(alloc, &table)?;
    Ok(begin_and_end(&mut session, p, &table))
}

#[test]
fn begins_a_root_once_and_ends_the_leases_that_live(rt: HostRuntime) -> Result<(), Fail> {
    // A root that is named twice is begun once.
    let due: Answers = (
        Some((1, 1)),
        [Ok(LeaseId::new(1)), Err(LeaseRefusal::NoLeaf { live: 1 })],
        Ok(()),
        Err(Stale(LeaseId::new(1))),
        Ok(LeaseId::new(2)),
    );
    assert_eq!(rt; answers(rt.alloc(), two_against_one(false)?)?, due);
    Ok(())
}
