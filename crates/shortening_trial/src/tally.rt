//! How many there were of each kind.
use anyhow::Result;

/// How many journals' roots, records and nodes there were of each kind.
#[derive(Clone, Copy, Default)]
pub(crate) struct Tally {
    /// Roots that are decided at sight.
    pub(crate) at_sight: u64,
    /// Roots that one search settled.
    pub(crate) searched: u64,
    /// Roots that have a value by the nodes below them.
    pub(crate) expanded: u64,
    /// Roots that only the second run settled.
    pub(crate) late: u64,
    /// Roots without a value that were never expanded.
    pub(crate) waiting: u64,
    /// Roots without a value that were.
    pub(crate) open: u64,
    /// Records of the old journals, those of version 1 among them, and records of the new ones.
    pub(crate) before: u64,
    pub(crate) full: u64,
    pub(crate) after: u64,
    /// Nodes that were compared, and those whose position stands above them.
    pub(crate) nodes: u64,
    pub(crate) repeats: u64,
}

impl Tally {
    /// Prints the numbers of roots.
    fn print_roots(&self, rt: &impl Print) -> Result<()> {
        println!(rt;
            "settled roots: {} decided at sight, {} by a search, {} by expansion; {} late",
            self.at_sight, self.searched, self.expanded, self.late
        )?;
        println!(rt;
            "other roots: {} unexpanded, {} expanded",
            self.waiting, self.open
        )?;
        Ok(())
    }

    /// Prints all.
    pub(crate) fn print(&self, rt: &impl Print) -> Result<()> {
        self.print_roots(rt)?;
        println!(rt;
            "records: {}, {} of version 1; of the new journals {}",
            self.before, self.full, self.after
        )?;
        println!(rt;
            "nodes compared: {}, {} of them repeat",
            self.nodes, self.repeats
        )?;
        Ok(())
    }
}
