//! A record of a node, as one of another.
ghost use Rattle.std.specs.Prelude.{◌≡◌};
ghost use Rattle.journal_compaction.specs.Compactions.{renamed as record_renamed};

use bench_records::BenchRecord;

/// The same record, of the node with this number. One that begins a root is of none, and stays.
pub fn renamed(r: BenchRecord, node: u64) -> BenchRecord
    ensures { result ≡ record_renamed node r }
{
    match r {
        BenchRecord::Begin(p) => BenchRecord::Begin(p),
        BenchRecord::Solve {
            node: _,
            position,
            shown,
        } => BenchRecord::Solve {
            node,
            position,
            shown,
        },
        BenchRecord::Expand { .. } => BenchRecord::Expand { node },
    }
}
