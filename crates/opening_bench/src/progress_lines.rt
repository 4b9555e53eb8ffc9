//! What a line of progress says, and when the next one may come.
use std::alloc::{AllocError, Global};
use std::sync::atomic::{AtomicU64, Ordering};

/// How many milliseconds pass at least from a line to the next one at a terminal, where it is rewritten.
const TERMINAL_PAUSE: u64 = 1_000;

/// How many elsewhere, and before the first line there.
const LOG_PAUSE: u64 = 60_000;

/// The time at which no line may come, since one is being written.
const NEVER: u64 = u64::MAX;

/// When the next line may come, in milliseconds since the run began.
#[derive(Drop)]
pub(crate) struct Pace {
    pause: u64,
    due: AtomicU64,
}

impl Pace {
    /// At a terminal the first line may come at once.
    pub(crate) fn at_terminal() -> Pace {
        Pace {
            pause: TERMINAL_PAUSE,
            due: AtomicU64::new(0),
        }
    }

    /// Elsewhere the first line comes behind the first pause.
    pub(crate) fn elsewhere() -> Pace {
        Pace {
            pause: LOG_PAUSE,
            due: AtomicU64::new(LOG_PAUSE),
        }
    }

    /// Whether a line may come now. Where it may, none may come again until this one is written.
    pub(crate) fn begins_line(&self, now: u64) -> bool {
        let due = self.due.load(Ordering::SeqCst);
        due <= now
            && self
                .due
                .compare_exchange(due, NEVER, Ordering::SeqCst, Ordering::SeqCst)
                .is_ok()
    }

    /// The line is written now: the next one comes a pause later at the earliest.
    pub(crate) fn ends_line(&self, now: u64) {
        self.due
            .store(now.saturating_add(self.pause), Ordering::SeqCst);
    }
}

/// How far a run is.
#[derive(Clone, Copy, Debug, PartialEq, Eq)]
pub(crate) struct Progress {
    /// How many records of work it has added, and how many it may add.
    pub(crate) records: u64,
    pub(crate) budget: u64,
    /// How many roots have a value, and how many there are.
    pub(crate) settled: u64,
    pub(crate) roots: u64,
    /// The root in work, counted from 1: the first without a value; 0 where each has one.
    pub(crate) root: u64,
    /// How many searches were begun, and in how many milliseconds.
    pub(crate) begun: u64,
    pub(crate) elapsed: u64,
    /// How many positions were looked at by searches that take long.
    pub(crate) positions: u64,
}

/// A line of progress, without its end.
pub(crate) fn progress_line(alloc: Global, progress: &Progress) -> Result<String, AllocError> {
    let Progress {
        records,
        budget,
        settled,
        roots,
        root,
        begun,
        elapsed,
        positions,
    } = *progress;
    let speed = begun.saturating_mul(1_000) / elapsed.max(1);
    if root == 0 {
        return format!(in alloc;
            "records {records} of {budget}, roots settled {settled} of {roots}"
        );
    }
    let looked_at = match positions {
        0 => String::new(alloc),
        _ => format!(in alloc; ", {positions} positions")?,
    };
    format!(in alloc;
        "records {records} of {budget}, roots settled {settled} of {roots}, root {root} in work, {speed} searches/s{looked_at}"
    )
}

/// What a run says of the records that it finds in its journal; nothing of a new one.
pub(crate) fn found_text(alloc: Global, records: u64) -> Result<String, AllocError> {
    match records {
        0 => Ok(String::new(alloc)),
        1 => String::from_str(
            alloc,
            "The journal has 1 record, and this run goes on from there.\n",
        ),
        _ => format!(in alloc;
            "The journal has {records} records, and this run goes on from there.\n"
        ),
    }
}
