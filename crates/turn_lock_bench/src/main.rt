//! Turns a second: the turn lock beside std's `Mutex`, both doing the same work. It prints the same
//! at each run, and is timed from outside.
//!
//! `turn_lock_bench lock 4 1000` starts four threads at the lock. Each takes 1,000 turns, and a
//! turn adds one entry, the number of the thread and the number of its turn, to a history. With
//! `mutex` in place of `lock` the history is under a `Mutex`. Without words it does both, with 1, 2
//! and 4 threads and 1,000 turns each.
#![tactic(auto)]

mod history;
mod job;
mod under_lock;
mod under_mutex;

use crate::job::{Job, Keeper, read_words};
use anyhow::{Result, ensure};
use std::alloc::Global;
use std::env;
use std::sync::Wait;
use std::thread::Threads;

const THREADS: [u32; 3] = [1, 2, 4];

/// Runs the job, and prints what it came to.
fn run<R: Threads + Wait + Print + Sync>(rt: &R, alloc: Global, job: Job) -> Result<()> {
    let history = match job.keeper {
        Keeper::Lock => under_lock::run(rt, alloc, job)?,
        Keeper::Mutex => under_mutex::run(rt, alloc, job)?,
    };
    let Job {
        keeper,
        threads,
        turns,
    } = job;
    for caller in 0..threads {
        ensure!(
            history.is_in_order(caller, turns),
            "thread {caller} lost a turn"
        );
    }
    let name = keeper.name();
    let entries = history.len();
    println!(rt; "{name} threads {threads} turns {turns} entries {entries}")?;
    Ok(())
}

fn main(rt: HostRuntime) -> Result<()> {
    let words = env::args(&rt)?.skip(1).collect::<Vec<_>>(rt.alloc())?;
    if let Some(job) = read_words(words.as_slice())? {
        return run(&rt, rt.alloc(), job);
    }
    for keeper in [Keeper::Lock, Keeper::Mutex] {
        for threads in THREADS {
            let job = Job {
                keeper,
                threads,
                turns: 1_000,
            };
            run(&rt, rt.alloc(), job)?;
        }
    }
    Ok(())
}
