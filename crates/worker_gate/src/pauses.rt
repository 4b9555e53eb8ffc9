//! How a worker waits for a leaf that nobody has leased.
ghost use Rattle.std.specs.Prelude.{◌≡◌, ◌≤◌, ◌-◌};
ghost use Rattle.worker_gate.specs.declared.pauses.TheConstants.{LONGEST_SLEEP};

use std::sync::Wait;
use std::thread;
use std::thread::Parker;
use std::time::Duration;

/// How often a worker lets other threads run before it sleeps.
const YIELDS: u32 = 16;

/// The first sleep, in microseconds.
const FIRST_SLEEP: u64 = 50;

/// The longest sleep, in microseconds.
const LONGEST_SLEEP: u64 = 5_000;

/// The waiting of a worker since it last had a lease.
#[derive(Drop)]
pub(crate) struct Pause {
    /// How often it yields before it sleeps.
    yields: u32,
    /// How long it sleeps next, in microseconds.
    sleep: u64,
    ghost short: { sleep ≤ LONGEST_SLEEP },
}

impl Pause {
    /// It has not waited yet.
    pub(crate) fn new() -> Pause {
        Pause {
            yields: YIELDS,
            sleep: FIRST_SLEEP,
        }
    }

    /// Waits a little: first it yields, and then it sleeps, each time twice as long as before, up to the longest sleep.
    pub(crate) fn rest<R: Wait>(&mut self, rt: &R)
        ensures yields { self.new.yields ≡ self.old.yields - 1 }
        ensures longer { self.old.sleep ≤ self.new.sleep }
    {
        if self.yields > 0 {
            self.yields -= 1;
            thread::yield_now();
            return;
        }
        // nobody wakes it before its time
        Parker::new().park_timeout(rt, Duration::from_micros(self.sleep));
        self.sleep = self.sleep.saturating_mul(2).min(LONGEST_SLEEP);
    }
}
