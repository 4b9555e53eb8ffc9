//! What a worker passes before each search.
use bench_core::Bench;
use lease_table::Lease;
use std::hint::spin_loop;
use std::sync::atomic::{AtomicU64, Ordering};
use std::thread;

/// What a worker passes before each search, and what looks on while a run works. It decides nothing: no answer rests on it.
pub trait Gate {
    /// Is called once before each search of a worker, when the worker has this lease.
    fn before_search(&self, lease: &Lease);

    /// Whether it wants to look at the bench now. Each worker asks before each of its searches, and takes a turn to show the
    /// bench only where it does.
    fn wants_look(&self) -> bool {
        false
    }

    /// Looks at the bench. It is shown where it was wanted, in a turn, and before and behind the work of a run.
    fn look(&self, _bench: &Bench) {}

    /// Tells of what it saw, where it wanted to look, behind the turn.
    fn tell(&self) {}

    /// A run begins to work on a journal that has this number of records.
    fn begins(&self, _records: u64) {}

    /// The work of a run has ended, and this is its bench.
    fn ends(&self, _bench: &Bench) {}

    /// Hears, while a worker searches and when its search ends, that it looked at this number of positions since the gate
    /// heard last.
    fn looked_at(&self, _positions: u64) {}
}

/// Holds nobody.
#[derive(Clone, Copy, Debug)]
pub struct OpenGate;

impl Gate for OpenGate {
    fn before_search(&self, _lease: &Lease) {}
}

/// How often the first search looks for a second one at most.
const MOST_TURNS: u32 = 200_000_000;

/// After how many looks it lets other threads run.
const TURNS_BETWEEN_YIELDS: u32 = 1_024;

/// No search has begun.
const NONE_BEGUN: u64 = 0;

/// The first search has begun, and is held.
const FIRST_HELD: u64 = 1;

/// A second search began while the first was held.
const BOTH_BEGUN: u64 = 2;

/// No second search came while the first was held.
const FIRST_LET_GO: u64 = 3;

/// Holds the first search until a second one has begun, for at most 200,000,000 turns.
#[derive(Drop)]
pub struct MeetGate {
    stage: AtomicU64,
}

impl MeetGate {
    /// A gate that no search has passed.
    pub fn new() -> MeetGate {
        MeetGate {
            stage: AtomicU64::new(NONE_BEGUN),
        }
    }

    /// A second search began while the first was held.
    pub fn met(&self) -> bool {
        self.stage.load(Ordering::SeqCst) == BOTH_BEGUN
    }

    /// Goes from the one stage to the other, where the gate is at that one.
    fn goes_on(&self, from: u64, to: u64) -> bool {
        self.stage
            .compare_exchange(from, to, Ordering::SeqCst, Ordering::SeqCst)
            .is_ok()
    }

    /// Waits for a second search, as long as the gate holds the first.
    fn hold(&self) {
        for turn in 0..MOST_TURNS {
            if self.met() {
                return;
            }
            if turn % TURNS_BETWEEN_YIELDS == 0 {
                thread::yield_now();
            }
            spin_loop();
        }
        self.goes_on(FIRST_HELD, FIRST_LET_GO);
    }
}

impl Gate for MeetGate {
    fn before_search(&self, _lease: &Lease) {
        if self.goes_on(NONE_BEGUN, FIRST_HELD) {
            self.hold();
        } else {
            self.goes_on(FIRST_HELD, BOTH_BEGUN);
        }
    }
}
