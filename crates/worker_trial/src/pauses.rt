//! Pauses before searches.
use lease_table::Lease;
use std::hint::spin_loop;
use std::sync::atomic::{AtomicU64, Ordering};
use std::thread;
use worker_gate::Gate;

/// A worker yields less often than this before a search.
const YIELDS: u64 = 4;

/// It turns in place less often than this.
const TURNS: u64 = 256;

/// How far a splitmix64 sequence goes in one step.
const STEP: u64 = 0x9e37_79b9_7f4a_7c15;

/// Lets each worker pause before its search, for as long as a sequence says that a seed begins, and counts the searches.
#[derive(Drop)]
pub(crate) struct PauseGate {
    seed: u64,
    searches: AtomicU64,
}

/// The word of a splitmix64 sequence with this state.
fn mixed(state: u64) -> u64 {
    let word = (state ^ (state >> 30)).wrapping_mul(0xbf58_476d_1ce4_e5b9);
    let word = (word ^ (word >> 27)).wrapping_mul(0x94d0_49bb_1331_11eb);
    word ^ (word >> 31)
}

impl PauseGate {
    /// A gate that no search has passed.
    pub(crate) fn new(seed: u64) -> PauseGate {
        PauseGate {
            seed: mixed(seed.wrapping_add(STEP)),
            searches: AtomicU64::new(0),
        }
    }

    /// How many searches have passed.
    pub(crate) fn searches(&self) -> u64 {
        self.searches.load(Ordering::SeqCst)
    }
}

impl Gate for PauseGate {
    fn before_search(&self, _lease: &Lease) {
        let search = self.searches.fetch_add(1, Ordering::SeqCst);
        let word = mixed(self.seed.wrapping_add(search.wrapping_mul(STEP)));
        for _ in 0..word % YIELDS {
            thread::yield_now();
        }
        for _ in 0..(word / YIELDS) % TURNS {
            spin_loop();
        }
    }
}
