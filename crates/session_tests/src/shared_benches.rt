//! Threads at a shared bench with the roots W:W16,23:B12 and W:W16,24:B12.
ghost use Rattle.std.specs.Prelude.{IfOk};
ghost use Rattle.turn_lock.specs.Seen.{IsOutside};
ghost use Rattle.tree_manager.specs.Taken.{TurnGoesOn};

use crate::sessions::{session_with, two_against_one};
use bench_core::LeaseRefusal;
use bench_disk::MemoryDisk;
use draughts_board::{Cell, PlaceRefusal, Position, Side};
use lease_table::{Lease, LeaseId, Stale};
use std::alloc::{AllocError, Global};
use std::sync::Wait;
use std::test::*;
use std::thread;
use std::thread::Threads;
use tree_manager::{BenchPass, RootCounts, Session, SharedBench, Turn};

/// The number of a lease and its node, or why there is none.
type Answer = Result<(u128, u64), LeaseRefusal>;

/// Compiles where threads may share values of the type.
fn is_sync<T: Sync>() {}

/// Compiles where values of the type may go to another thread.
fn is_send<T: Send>() {}

#[test]
fn a_session_goes_to_other_threads() {
    is_sync::<SharedBench<MemoryDisk>>();
    is_send::<BenchPass<MemoryDisk>>();
    is_send::<Session<MemoryDisk>>();
}

/// White's man on 16 to move against a man on 12, whose value a table of two pieces has.
fn one_against_one() -> Result<Position, PlaceRefusal> {
    let mut cells = [Cell::Empty; 32];
    cells[16 - 1] = Cell::Man(Side::White);
    cells[12 - 1] = Cell::Man(Side::Black);
    Position::place(cells, Side::White)
}

/// A shared bench over the session, and its first pass.
fn shared_of(
    alloc: Global,
    session: Session<MemoryDisk>,
) -> Result<(SharedBench<MemoryDisk>, BenchPass<MemoryDisk>), AllocError>
    ensures { IfOk result (λ made. IsOutside made.0 made.1) }
{
    match SharedBench::new(alloc, session) {
        Ok(made) => Ok(made),
        Err((_, error)) => Err(error),
    }
}

/// A shared bench on a fresh disk with these roots, and its first pass.
fn shared_on(
    alloc: Global,
    roots: &[Position],
) -> Result<(SharedBench<MemoryDisk>, BenchPass<MemoryDisk>), Fail>
    ensures { IfOk result (λ made. IsOutside made.0 made.1) }
{
    let session = session_with(alloc, roots)?;
    Ok(shared_of(alloc, session)?)
}

/// Ends the sharing: how many entries the line has, by the session and by the lock.
fn count_at_end<R: Wait>(
    rt: &R,
    shared: SharedBench<MemoryDisk>,
    pass: BenchPass<MemoryDisk>,
) -> (u64, u64)
    requires { IsOutside shared pass }
{
    let (session, count) = shared.finish(rt, pass);
    (session.len(), count)
}

/// Ends a lease, in one turn.
fn give_back<R: Wait>(
    rt: &R,
    shared: &SharedBench<MemoryDisk>,
    pass: &mut BenchPass<MemoryDisk>,
    id: LeaseId,
) -> Result<(), Stale>
    requires { IsOutside shared.now pass.old }
    ensures { IsOutside shared.now pass.new }
{
    shared.release(rt, pass, id)
}

/// Asks for a lease, in one turn.
fn ask<R: Wait>(
    rt: &R,
    shared: &SharedBench<MemoryDisk>,
    pass: &mut BenchPass<MemoryDisk>,
    worker: u32,
) -> Answer
    requires { IsOutside shared.now pass.old }
    ensures { IsOutside shared.now pass.new }
{
    let lease = shared.lease(rt, pass, worker)?;
    Ok((lease.id.number(), lease.node))
}

/// The same, by a pass that comes along.
fn ask_with<R: Wait>(
    rt: &R,
    shared: &SharedBench<MemoryDisk>,
    mut pass: BenchPass<MemoryDisk>,
    worker: u32,
) -> (BenchPass<MemoryDisk>, Answer)
    requires { IsOutside shared.now pass }
    ensures { IsOutside shared.now result.0 }
{
    let answer = ask(rt, shared, &mut pass, worker);
    (pass, answer)
}

/// Two threads, each with a pass of its own, ask for a lease.
fn ask_in_two_threads<R: Threads + Wait + Sync>(
    rt: &R,
    shared: &SharedBench<MemoryDisk>,
    pass: &mut BenchPass<MemoryDisk>,
) -> (Answer, Answer)
    requires { IsOutside shared.now pass.old }
    ensures { IsOutside shared.now pass.new }
{
    let one = shared.split(pass);
    let two = shared.split(pass);
    let (one, two) = thread::join(
        rt,
        move || -> (BenchPass<MemoryDisk>, Answer)
            requires { IsOutside shared.now one }
            ensures { IsOutside shared.entry.now result.0 }
        { ask_with(rt, shared, one, 1) },
        move || -> (BenchPass<MemoryDisk>, Answer)
            requires { IsOutside shared.now two }
            ensures { IsOutside shared.entry.now result.0 }
        { ask_with(rt, shared, two, 2) },
    );
    shared.join_pass(pass, one.0);
    shared.join_pass(pass, two.0);
    (one.1, two.1)
}

/// The leases of two threads, the answer to a third worker, and how many entries the line has at the end, by the session and
/// by the lock.
fn three_ask<R: Threads + Wait + Sync>(
    rt: &R,
    alloc: Global,
    roots: &[Position],
) -> Result<((Answer, Answer), Answer, (u64, u64)), Fail> {
    let (shared, mut pass) = shared_on(alloc, roots)?;
    let both = ask_in_two_threads(rt, &shared, &mut pass);
    let third = ask(rt, &shared, &mut pass, 3);
    Ok((both, third, count_at_end(rt, shared, pass)))
}

/// The nodes of two leases, the lesser first.
fn nodes(both: (Answer, Answer)) -> Result<(u64, u64), LeaseRefusal> {
    let ((_, one), (_, two)) = (both.0?, both.1?);
    Ok((one.min(two), one.max(two)))
}

#[test]
fn two_threads_lease_a_root_each(rt: HostRuntime) -> Result<(), Fail> {
    let roots = [two_against_one(false)?, two_against_one(true)?];
    let (both, third, counts) = three_ask(&rt, rt.alloc(), &roots)?;
    let none: Answer = Err(LeaseRefusal::NoLeaf { live: 2 });
    // an Attached, two Puts and their Acked, and two leases
    assert_eq!(rt; (nodes(both), third, counts), (Ok((0, 1)), none, (6, 6)));
    Ok(())
}

/// What is answered to a worker who asks twice in a turn.
#[tactic(auto, using(tree_manager::proofs::TakenLemmas::turn_then))]
fn ask_twice(turn: &mut Turn<MemoryDisk>, worker: u32) -> (Answer, Answer)
    ensures { TurnGoesOn turn.old turn.new }
{
    let one = turn.lease(worker);
    let two = turn.lease(worker);
    let told = |answer: Result<Lease, LeaseRefusal>| -> Answer {
        let lease = answer?;
        Ok((lease.id.number(), lease.node))
    };
    (told(one), told(two))
}

/// The leases of one turn, the answer to another worker behind it, and how many entries the line has at the end, by the
/// session and by the lock.
#[tactic(auto, using(tree_manager::proofs::TakenLemmas::has_turn_on))]
fn two_in_one_turn<R: Wait>(
    rt: &R,
    alloc: Global,
    roots: &[Position],
) -> Result<((Answer, Answer), Answer, (u64, u64)), Fail> {
    let (shared, mut pass) = shared_on(alloc, roots)?;
    let mut turn = shared.enter(rt, &mut pass);
    let both = ask_twice(&mut turn, 1);
    shared.leave(&mut pass, turn);
    let third = ask(rt, &shared, &mut pass, 2);
    Ok((both, third, count_at_end(rt, shared, pass)))
}

#[test]
fn one_turn_leases_two_roots(rt: HostRuntime) -> Result<(), Fail> {
    let roots = [two_against_one(false)?, two_against_one(true)?];
    let none: Answer = Err(LeaseRefusal::NoLeaf { live: 2 });
    // an Attached, two Puts and their Acked, and two leases
    let due = ((Ok((1, 0)), Ok((2, 1))), none, (6, 6));
    assert_eq!(rt; two_in_one_turn(&rt, rt.alloc(), &roots)?, due);
    Ok(())
}

/// What is answered to two passes: to the other, which gives back lease 1; to this and to the other, which lease; to the
/// other, which gives back lease 1; and to this, which leases. Then how many entries the line has, by the session and by the
/// lock.
type Answers = (
    Result<(), Stale>,
    [Answer; 2],
    Result<(), Stale>,
    Answer,
    (u64, u64),
);

/// Lets two passes do that.
fn two_passes<R: Wait>(rt: &R, alloc: Global, roots: &[Position]) -> Result<Answers, Fail> {
    let (shared, mut pass) = shared_on(alloc, roots)?;
    let mut other = shared.split(&mut pass);
    let first = LeaseId::new(1);
    let early = give_back(rt, &shared, &mut other, first);
    let one = ask(rt, &shared, &mut pass, 1);
    let two = ask(rt, &shared, &mut other, 2);
    let given_back = give_back(rt, &shared, &mut other, first);
    let third = ask(rt, &shared, &mut pass, 1);
    shared.join_pass(&mut pass, other);
    let counts = count_at_end(rt, shared, pass);
    Ok((early, [one, two], given_back, third, counts))
}

#[test]
fn a_lease_of_one_pass_is_not_given_to_another(rt: HostRuntime) -> Result<(), Fail> {
    let roots = [two_against_one(false)?, two_against_one(true)?];
    let due: Answers = (
        Err(Stale(LeaseId::new(1))),
        [Ok((1, 0)), Ok((2, 1))],
        Ok(()),
        Ok((3, 0)),
        (8, 8),
    );
    assert_eq!(rt; two_passes(&rt, rt.alloc(), &roots)?, due);
    Ok(())
}

/// How many roots there are and are settled, and how many entries the line has at the end, by the session and by the lock.
fn counted<R: Wait>(
    rt: &R,
    alloc: Global,
    roots: &[Position],
) -> Result<(RootCounts, (u64, u64)), Fail> {
    let (shared, mut pass) = shared_on(alloc, roots)?;
    let counts = shared.count_roots(rt, &mut pass);
    Ok((counts, count_at_end(rt, shared, pass)))
}

#[test]
fn roots_are_counted(rt: HostRuntime) -> Result<(), Fail> {
    let roots = [
        two_against_one(false)?,
        one_against_one()?,
        two_against_one(true)?,
    ];
    // an Attached, three Puts and their Acked, and nothing by the count
    let due = (RootCounts { all: 3, settled: 1 }, (5, 5));
    assert_eq!(rt; counted(&rt, rt.alloc(), &roots)?, due);
    Ok(())
}
