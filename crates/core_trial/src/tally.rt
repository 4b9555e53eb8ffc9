//! What came of events.
use anyhow::Result;

/// How many events there were of each kind.
#[derive(Clone, Copy, Default)]
pub(crate) struct Tally {
    pub(crate) leases: u32,
    pub(crate) done: u32,
    pub(crate) spent: u32,
    pub(crate) without_leaf: u32,
    pub(crate) staged: u32,
    pub(crate) forgotten: u32,
    pub(crate) stale: u32,
    pub(crate) released: u32,
    pub(crate) roots: u32,
    pub(crate) records: usize,
    pub(crate) nodes: usize,
    /// Roots that are settled, each with a certificate that the checker accepted.
    pub(crate) settled: u32,
}

/// One more.
pub(crate) fn count(number: &mut u32) {
    *number = number.saturating_add(1);
}

impl Tally {
    /// Adds what came of one more list.
    pub(crate) fn add(&mut self, other: &Tally) {
        self.leases = self.leases.saturating_add(other.leases);
        self.done = self.done.saturating_add(other.done);
        self.spent = self.spent.saturating_add(other.spent);
        self.without_leaf = self.without_leaf.saturating_add(other.without_leaf);
        self.staged = self.staged.saturating_add(other.staged);
        self.forgotten = self.forgotten.saturating_add(other.forgotten);
        self.stale = self.stale.saturating_add(other.stale);
        self.released = self.released.saturating_add(other.released);
        self.roots = self.roots.saturating_add(other.roots);
        self.records = self.records.saturating_add(other.records);
        self.nodes = self.nodes.saturating_add(other.nodes);
        self.settled = self.settled.saturating_add(other.settled);
    }

    /// Prints what workers were answered who asked for a lease.
    fn print_answers(&self, rt: &impl Print) -> Result<()> {
        let (leases, done) = (self.leases, self.done);
        let (spent, without_leaf) = (self.spent, self.without_leaf);
        println!(rt; "{leases} leases, {done} done, {spent} spent, {without_leaf} without a leaf")?;
        Ok(())
    }

    /// Prints what came of leases.
    fn print_results(&self, rt: &impl Print) -> Result<()> {
        let (staged, forgotten) = (self.staged, self.forgotten);
        let (stale, released) = (self.stale, self.released);
        println!(rt; "{staged} staged, {forgotten} forgotten, {stale} stale, {released} released")?;
        Ok(())
    }

    /// Prints what stood at the end.
    fn print_trees(&self, rt: &impl Print) -> Result<()> {
        let (roots, settled) = (self.roots, self.settled);
        let (nodes, records) = (self.nodes, self.records);
        println!(rt;
            "{roots} roots, {settled} settled, {nodes} nodes, {records} records read back"
        )?;
        Ok(())
    }

    /// Prints what was counted.
    pub(crate) fn print(&self, rt: &impl Print) -> Result<()> {
        self.print_answers(rt)?;
        self.print_results(rt)?;
        self.print_trees(rt)
    }
}
