//! Threads at the lock, and values that may not be dropped.
//!
//! Each function here is proved too, the dearer the more it calls and compares. So one function
//! leads the threads, and one compares what they leave.
ghost use Rattle.std.specs.Prelude.{◌<◌, All, IfOk};
ghost use Rattle.turn_lock.specs.Seen.{IsOutside};

use crate::{Kept, Pass, TurnLock};
use std::alloc::{AllocError, Global};
use std::process::Abort;
use std::rt::Clock;
use std::sync::Wait;
use std::sync::atomic::{AtomicU64, Ordering};
use std::test::*;
use std::thread;
use std::thread::Threads;
use std::time::Duration;

/// Who took a turn, and its number among this caller's turns.
type Turn = (u64, u64);

#[derive(Drop)]
struct Turns {
    taken: Vec<Turn>,
}

impl Kept for Turns {
    type Entry = Turn;

    ghost entries = { λ t. t.taken.items };

    // Callers are numbered from 1.
    ghost may_add = { λ turn. 0 < turn.0 };

    fn count(&self) -> u64 {
        self.taken.len() as u64
    }
}

/// What passes that share the lock know of each other.
#[derive(Drop)]
struct Relay {
    /// Whether each turn waits for the other passes. Without that all race for the turn.
    hands_on: bool,
    /// How many turns each pass takes.
    turns: u64,
    /// How often the turn was taken.
    taken: AtomicU64,
    /// How many passes come again, those that have the turn or wait for it among them.
    running: AtomicU64,
    /// The numbers of callers that were given out.
    callers: AtomicU64,
}

/// Waits until the count is at least this.
fn wait_for<R: Wait>(rt: &R, count: &AtomicU64, least: u64) {
    for _ in rt.forever() {
        if count.load(Ordering::SeqCst) >= least {
            return;
        }
        thread::yield_now();
    }
}

/// With the turn in hand waits until every other pass that comes again sleeps, in the first turn so
/// long that they do. How often the turn is to be taken before this pass comes again.
fn wait_for_sleepers<R: Wait + Clock>(
    rt: &R,
    relay: &Relay,
    sleepers: &AtomicU64,
    number: u64,
) -> u64 {
    if !relay.hands_on {
        return 0;
    }
    let taken = relay.taken.fetch_add(1, Ordering::SeqCst);
    let comes_again = number.saturating_add(1) < relay.turns;
    if !comes_again {
        relay.running.fetch_sub(1, Ordering::SeqCst);
    }
    let running = relay.running.load(Ordering::SeqCst);
    let others = running.saturating_sub(u64::from(comes_again));
    wait_for(rt, sleepers, others);
    if number == 0 {
        thread::sleep(rt, Duration::from_millis(20));
    }
    if others == 0 {
        0
    } else {
        taken.saturating_add(2)
    }
}

/// One turn, which is noted where there is memory for it. Where the passes hand the turn on,
/// `leave` alone can wake them, and this ends when one of them has the turn.
fn take_turn<R: Wait + Clock>(
    rt: &R,
    lock: &TurnLock<Turns>,
    relay: &Relay,
    pass: &mut Pass<Turns>,
    turn: Turn,
)
    requires outside { IsOutside lock.now pass.old }
    requires caller { 0 < turn.0 }
    ensures outside { IsOutside lock.now pass.new }
{
    let mut value = lock.enter(rt, pass);
    if value.taken.reserve(1).is_ok() {
        value.taken.push_reserved(turn);
        lock.note(pass, &value, 1);
    }
    let goal = wait_for_sleepers(rt, relay, &lock.sleepers, turn.1);
    lock.leave(pass, value);
    wait_for(rt, &relay.taken, goal);
}

/// The turns of one pass.
fn take_turns<R: Wait + Clock>(
    rt: &R,
    lock: &TurnLock<Turns>,
    relay: &Relay,
    pass: &mut Pass<Turns>,
)
    requires outside { IsOutside lock.now pass.old }
    ensures outside { IsOutside lock.now pass.new }
{
    let caller = relay.callers.fetch_add(1, Ordering::SeqCst).max(1);
    for number in 0..relay.turns {
        take_turn(rt, lock, relay, pass, (caller, number));
    }
}

/// `passes` passes of the lock.
fn split_off(
    alloc: Global,
    lock: &TurnLock<Turns>,
    pass: &mut Pass<Turns>,
    passes: u64,
) -> Result<Vec<Pass<Turns>>, AllocError>
    requires { IsOutside lock.now pass.old }
    ensures outside { IsOutside lock.now pass.new }
    ensures each { IfOk result (λ all. All (λ p. IsOutside lock.now p) all.items) }
{
    let mut all = Vec::new(alloc);
    for _ in 0..passes {
        all.push(lock.split(pass))?;
    }
    Ok(all)
}

/// This number of passes take turns, each in a thread of its own. What the lock keeps, and what it counts.
fn take_turns_in_threads<R: Threads + Wait + Clock + Sync>(
    rt: &R,
    alloc: Global,
    passes: u64,
    relay: &Relay,
) -> Result<(Turns, u64), AllocError> {
    let first = Turns {
        taken: [(9, 9)].to_vec(alloc)?,
    };
    let (lock, mut pass) = match TurnLock::new(alloc, first) {
        Ok(made) => made,
        Err((_, error)) => return Err(error),
    };
    let mut all = split_off(alloc, &lock, &mut pass, passes)?;
    let shared = &lock;
    thread::for_each_mut(
        rt,
        all.as_mut_slice(),
        (passes as usize).max(1),
        &|_, own: &mut Pass<Turns>|
            requires { IsOutside shared.now own.old }
            ensures { IsOutside shared.entry.now own.new }
        { take_turns(rt, shared, relay, own) },
    );
    Ok(lock.close(rt, pass))
}

/// How many turns the caller took, where they stand in order.
fn turns_of(taken: &[Turn], caller: u64) -> Option<u64> {
    let mut next = 0u64;
    for turn in taken {
        if turn.0 == caller {
            if turn.1 != next {
                return None;
            }
            next = next.saturating_add(1);
        }
    }
    Some(next)
}

/// Lets `passes` passes take `turns` turns each, and stops where one is lost.
fn keep_every_turn<R: Threads + Wait + Clock + Sync>(
    abort: &impl Abort,
    rt: &R,
    alloc: Global,
    hands_on: bool,
    passes: u64,
    turns: u64,
) -> Result<(), AllocError> {
    let relay = Relay {
        hands_on,
        turns,
        taken: AtomicU64::new(0),
        running: AtomicU64::new(passes),
        callers: AtomicU64::new(1),
    };
    let (value, count) = take_turns_in_threads(rt, alloc, passes, &relay)?;
    let taken = value.taken.as_slice();
    // The lock had one at first.
    let wanted = passes.saturating_mul(turns).saturating_add(1);
    assert_eq!(abort; (taken.len() as u64, count), (wanted, wanted));
    for caller in 0..passes {
        assert_eq!(abort; turns_of(taken, caller.saturating_add(1)), Some(turns));
    }
    Ok(())
}

#[test]
fn threads_keep_every_turn(rt: HostRuntime) -> Result<(), Fail> {
    keep_every_turn(&rt, &rt, rt.alloc(), false, 2, 100)?;
    Ok(())
}

// Each `leave` has one sleeper, which nothing else wakes: a wake that is lost shows as a test that
// does not end.
#[test]
fn two_passes_hand_the_turn_to_and_fro(rt: HostRuntime) -> Result<(), Fail> {
    keep_every_turn(&rt, &rt, rt.alloc(), true, 2, 5_000)?;
    Ok(())
}

// Each `leave` has two sleepers and wakes one; the other sleeps on.
#[test]
fn three_passes_hand_the_turn_round(rt: HostRuntime) -> Result<(), Fail> {
    keep_every_turn(&rt, &rt, rt.alloc(), true, 3, 3_000)?;
    Ok(())
}

/// A value that may not be dropped: it is taken apart by hand.
struct Sealed {
    marks: [u8; 3],
}

impl Kept for Sealed {
    type Entry = u8;

    ghost entries = { λ sealed. sealed.marks };

    ghost may_add = { λ _. Unit {0} };

    fn count(&self) -> u64 {
        3
    }
}

impl Sealed {
    /// Its marks.
    fn open(self) -> [u8; 3] {
        let Self { marks } = self;
        marks
    }
}

/// Keeps the value under a lock with two passes, and takes it out again. Want of memory hands it
/// back too.
fn keep_sealed<R: Wait>(rt: &R, alloc: Global, sealed: Sealed) -> Sealed {
    let (lock, mut pass) = match TurnLock::new(alloc, sealed) {
        Ok(made) => made,
        Err((sealed, _)) => return sealed,
    };
    let mut other = lock.split(&mut pass);
    let in_hand = lock.enter(rt, &mut other);
    lock.leave(&mut other, in_hand);
    lock.join_pass(&mut pass, other);
    lock.close(rt, pass).0
}

#[test]
fn a_value_that_is_no_drop_is_handed_back(rt: HostRuntime) -> Result<(), Fail> {
    let sealed = keep_sealed(&rt, rt.alloc(), Sealed { marks: [7, 8, 9] });
    assert_eq!(rt; sealed.open(), [7, 8, 9]);
    Ok(())
}
