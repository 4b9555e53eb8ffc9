//! What workers do between their turns, with no bench and no turns: searches, and making the sheets of what was found.
//!
//! Its threads share the endgame table and the positions, which nothing changes, so it shows how many times as much four
//! threads of this machine make as one, whatever a lock costs.
//!
//! And threads that only calculate, in registers, for about as long as one worker takes for all: what this machine makes of
//! four threads in so short a time, whatever they do.
ghost use Rattle.std.specs.Prelude.{◌≡◌, IfSome};
ghost use Rattle.bench_core.specs.Cores.{IsOutcomeOf};

use crate::roots::{DEPTH, PIECES};
use anyhow::{Result, bail};
use bench_core::LeaseResult;
use certificate_checker::Outcome;
use draughts_board::{Position, Side};
use endgame_table::Table;
use leaf_search::Memo;
use lease_table::{Lease, LeaseId};
use std::alloc::Global;
use std::thread;
use std::thread::Threads;
use std::time::Instant;
use worker_gate::{OpenGate, can_search, search_lease};

/// How many positions a thread remembers in which looking ahead shows no win.
const REMEMBERED: usize = 65_536;

/// How many steps are calculated for each position, which take about as long as a worker alone takes for its record.
const STEPS: u64 = 3_500;

/// The multiplier of a step. A step shifts too, so that no compiler makes one step of several.
const MULTIPLIER: u64 = 0xff51_afd7_ed55_8ccd;

/// What one thread has to do, and what it found.
#[derive(Drop)]
struct Part {
    /// Its positions: from the first on, and before the end.
    first: usize,
    end: usize,
    memo: Memo,
    found: Vec<LeaseResult>,
}

/// A lease of a root at this position, for a win of Black, as the first lease of each root is.
fn lease_of(position: &Position, number: usize) -> Lease {
    Lease {
        id: LeaseId::new(number as u128),
        node: number as u64,
        position: *position,
        goal: Side::Black,
        depth: DEPTH,
        pieces: PIECES,
        worker: 1,
    }
}

/// What the search comes to that the lease asks for; none where it asks for no search, or memory runs out.
pub(crate) fn outcome_of(
    alloc: Global,
    lease: &Lease,
    table: &Table,
    memo: &mut Memo,
) -> Option<Outcome>
    ensures { IfSome result (IsOutcomeOf lease.now) }
{
    if memo.pieces() != table.pieces() || !can_search(lease, table) {
        return None;
    }
    search_lease(alloc, lease, table, &OpenGate, memo).ok()
}

/// Searches the positions of a part, and keeps what was found, with its sheet. It ends early where memory runs out.
fn search_part(alloc: Global, positions: &[Position], table: &Table, part: &mut Part) {
    for number in part.first..part.end {
        let Some(position) = positions.get(number) else {
            return;
        };
        let lease = lease_of(position, number);
        let Some(outcome) = outcome_of(alloc, &lease, table, &mut part.memo) else {
            return;
        };
        let Ok(found) = LeaseResult::new(alloc, &lease, outcome) else {
            return;
        };
        if part.found.push(found).is_err() {
            return;
        }
    }
}

/// The positions in as many parts as there are threads, none of which is searched.
fn parts_of(alloc: Global, positions: usize, threads: usize) -> Result<Vec<Part>> {
    let mut parts = Vec::new(alloc);
    let size = positions.div_ceil(threads.max(1));
    for k in 0..threads {
        let first = k.saturating_mul(size);
        let end = first.saturating_add(size).min(positions);
        let memo = Memo::new(alloc, PIECES, REMEMBERED)?;
        parts.push(Part {
            first,
            end,
            memo,
            found: Vec::new(alloc),
        })?;
    }
    Ok(parts)
}

/// Searches the positions in `count` threads: in how many nanoseconds by the clock.
pub(crate) fn search_alone<R: Threads + Sync>(
    threads: &R,
    rt: &HostRuntime,
    positions: &[Position],
    table: &Table,
    count: usize,
) -> Result<u128> {
    let alloc = rt.alloc();
    let mut parts = parts_of(alloc, positions.len(), count)?;
    let start = Instant::now(rt)?;
    thread::for_each_mut(
        threads,
        parts.as_mut_slice(),
        count.max(1),
        &|_: usize, part: &mut Part| {
            search_part(alloc, positions, table, part);
        },
    );
    let spent = start.elapsed(rt)?.as_nanos();
    let mut found = 0usize;
    for part in parts.as_slice() {
        found = found.saturating_add(part.found.len());
    }
    if found != positions.len() {
        bail!("some positions were not searched");
    }
    Ok(spent)
}

/// A chain of steps, each of which waits for the one before.
#[derive(Clone, Copy, Drop)]
struct Chain {
    state: u64,
    steps: u64,
}

impl Chain {
    /// Goes through all its steps.
    fn run(&mut self) {
        let mut state = self.state;
        for _ in 0..self.steps {
            state = (state ^ state >> 33).wrapping_mul(MULTIPLIER);
        }
        self.state = state;
    }
}

/// Calculates the steps of `positions` positions in `count` threads: in how many nanoseconds by the clock.
pub(crate) fn calculate_alone<R: Threads + Sync>(
    threads: &R,
    rt: &HostRuntime,
    positions: usize,
    count: usize,
) -> Result<u128> {
    let size = positions.div_ceil(count.max(1)) as u64;
    let mut chains = Vec::new(rt.alloc());
    for k in 0..count {
        chains.push(Chain {
            state: k as u64 + 1,
            steps: size.saturating_mul(STEPS),
        })?;
    }
    let start = Instant::now(rt)?;
    thread::for_each_mut(
        threads,
        chains.as_mut_slice(),
        count.max(1),
        &|_: usize, chain: &mut Chain| {
            chain.run();
        },
    );
    let spent = start.elapsed(rt)?.as_nanos();
    for (k, chain) in chains.as_slice().iter().enumerate() {
        if chain.state == k as u64 + 1 {
            bail!("some steps were not calculated");
        }
    }
    Ok(spent)
}
