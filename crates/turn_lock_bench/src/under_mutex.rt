//! Threads at std's `Mutex`, which do the same.
use crate::history::{History, Turn};
use crate::job::Job;
use std::alloc::{AllocError, Global};
use std::sync::{Mutex, Wait};
use std::thread;
use std::thread::Threads;

/// The turns of one caller, up to its first want of memory.
fn take_turns<R: Wait>(rt: &R, history: &Mutex<History>, caller: u32, turns: u32) {
    for number in 0..turns {
        if history.lock(rt).push(Turn { caller, number }).is_err() {
            return;
        }
    }
}

/// The history that the threads leave.
pub fn run<R: Threads + Wait + Sync>(
    rt: &R,
    alloc: Global,
    job: Job,
) -> Result<History, AllocError> {
    let history = Mutex::new(History::new(alloc));
    let shared = &history;
    let mut callers = Vec::new(alloc);
    for caller in 0..job.threads {
        callers.push(caller)?;
    }
    thread::for_each_mut(
        rt,
        callers.as_mut_slice(),
        (job.threads as usize).max(1),
        &|_, caller: &mut u32| take_turns(rt, shared, *caller, job.turns),
    );
    Ok(history.into_inner())
}
