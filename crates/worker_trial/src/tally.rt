//! What the searches of runs came to.
use std::io;

/// The searches of the runs in which a lease lasts for this number of leases given.
#[derive(Clone, Copy)]
pub(crate) struct Tally {
    lease: u32,
    runs: u64,
    searches: u64,
    /// Searches that left a work record. The results of the others came too late.
    recorded: u64,
}

impl Tally {
    /// No run yet.
    pub(crate) fn new(lease: u32) -> Tally {
        Tally {
            lease,
            runs: 0,
            searches: 0,
            recorded: 0,
        }
    }

    /// Adds one run.
    pub(crate) fn add(&mut self, searches: u64, recorded: u64) {
        self.runs = self.runs.saturating_add(1);
        self.searches = self.searches.saturating_add(searches);
        self.recorded = self.recorded.saturating_add(recorded);
    }

    /// How many searches left no record.
    pub(crate) fn late(&self) -> u64 {
        self.searches.saturating_sub(self.recorded)
    }

    /// Prints the numbers, which differ from run to run of this program.
    pub(crate) fn print(&self, rt: &impl Print) -> io::Result<()> {
        let (lease, runs, searches) = (self.lease, self.runs, self.searches);
        let late = self.late();
        println!(rt; "lease {lease}: {runs} runs, {searches} searches, {late} results too late")
    }
}
