//! Threads at the turn lock.
ghost use Rattle.std.specs.Prelude.{◌≡◌, List, [], ◌∷◌, ◌++◌, All, OnOk, IfOk};
ghost use Rattle.turn_lock_bench.specs.declared.history.Turn.{Turn};
ghost use Rattle.turn_lock.specs.Seen.{IsOutside};

use crate::history::{History, Turn};
use crate::job::Job;
use std::alloc::{AllocError, Global};
use std::sync::Wait;
use std::thread;
use std::thread::Threads;
use turn_lock::{Pass, TurnLock};

/// One turn, which adds one entry. After want of memory it adds none.
fn take_turn<R: Wait>(
    rt: &R,
    lock: &TurnLock<History>,
    pass: &mut Pass<History>,
    turn: Turn,
) -> Result<(), AllocError>
    requires { IsOutside lock.now pass.old }
    ensures outside { IsOutside lock.now pass.new }
    ensures last { OnOk result ((before : List Turn) × (pass.new.front ≡ before ++ turn ∷ [])) }
{
    let mut history = lock.enter(rt, pass);
    let answer = history.push(turn);
    if answer.is_ok() {
        lock.note(pass, &history, 1);
    }
    lock.leave(pass, history);
    answer
}

/// The turns of one caller, up to its first want of memory.
fn take_turns<R: Wait>(
    rt: &R,
    lock: &TurnLock<History>,
    pass: &mut Pass<History>,
    caller: u32,
    turns: u32,
)
    requires { IsOutside lock.now pass.old }
    ensures { IsOutside lock.now pass.new }
{
    for number in 0..turns {
        if take_turn(rt, lock, pass, Turn { caller, number }).is_err() {
            return;
        }
    }
}

/// A pass for each thread.
fn passes(
    alloc: Global,
    lock: &TurnLock<History>,
    pass: &mut Pass<History>,
    threads: u32,
) -> Result<Vec<Pass<History>>, AllocError>
    requires { IsOutside lock.now pass.old }
    ensures outside { IsOutside lock.now pass.new }
    ensures each { IfOk result (λ all. All (λ p. IsOutside lock.now p) all.items) }
{
    let mut all = Vec::new(alloc);
    for _ in 0..threads {
        all.push(lock.split(pass))?;
    }
    Ok(all)
}

/// Ends the passes, and takes what they have seen into this one.
fn join_all(lock: &TurnLock<History>, pass: &mut Pass<History>, mut all: Vec<Pass<History>>)
    requires outside { IsOutside lock.now pass.old }
    requires each { All (λ p. IsOutside lock.now p) all.items }
    ensures { IsOutside lock.now pass.new }
{
    while let Some(other) = all.pop() {
        lock.join_pass(pass, other);
    }
}

/// Starts the threads, and waits for their ends.
fn take_all<R: Threads + Wait + Sync>(
    rt: &R,
    lock: &TurnLock<History>,
    mut all: Vec<Pass<History>>,
    job: Job,
) -> Vec<Pass<History>>
    requires { All (λ p. IsOutside lock.now p) all.items }
    ensures { All (λ p. IsOutside lock.now p) result.items }
{
    thread::for_each_mut(
        rt,
        all.as_mut_slice(),
        (job.threads as usize).max(1),
        &|i: usize, own: &mut Pass<History>|
            requires { IsOutside lock.now own.old }
            ensures { IsOutside lock.entry.now own.new }
        {
            take_turns(
                rt,
                lock,
                own,
                u32::try_from(i).unwrap_or(u32::MAX),
                job.turns,
            );
        },
    );
    all
}

/// The history that the threads leave.
pub fn run<R: Threads + Wait + Sync>(
    rt: &R,
    alloc: Global,
    job: Job,
) -> Result<History, AllocError> {
    let (lock, mut pass) = match TurnLock::new(alloc, History::new(alloc)) {
        Ok(made) => made,
        Err((_, error)) => return Err(error),
    };
    let all = passes(alloc, &lock, &mut pass, job.threads)?;
    let all = take_all(rt, &lock, all, job);
    join_all(&lock, &mut pass, all);
    Ok(lock.close(rt, pass).0)
}
