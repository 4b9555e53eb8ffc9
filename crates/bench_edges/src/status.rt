//! How a run ends.
ghost use Rattle.std.specs.Prelude.{◌≡◌};
ghost use Rattle.bench_edges.specs.Status.{status_number};

/// How a run ends.
#[derive(Clone, Copy, Debug, PartialEq, Eq, PartialOrd, Ord, Hash)]
pub enum Status {
    /// All that was asked is written.
    Done,
    /// All is written, and a root has no value yet.
    Unsolved,
    /// The words are not in the grammar.
    Words,
    /// The input is not what the command reads.
    Input,
    /// The disk failed.
    Disk,
    /// The journal is none, of other tables, or damaged.
    Journal,
    /// Memory ran out.
    Memory,
    /// The source failed.
    Read,
    /// The sink failed while the output was written.
    Write,
}

impl Status {
    /// The exit status of the program: 0 to 8, in the order of the variants.
    pub fn number(self) -> u8
        ensures { result ≡ status_number self }
    {
        self as u8
    }
}
