//! What is kept of a shorter list while it is made.
ghost use Rattle.std.specs.Prelude.{◌≡◌, ◌+◌, ◌<◌, ◌^◌, ◌++◌, OnOk};
ghost use Rattle.journal_compaction.specs.Names.{named_from, unnamed_for};

use bench_records::Named;
use std::alloc::AllocError;

/// Of each node that the longer list made so far its number in the shorter list's forest, or none;
/// the size of that forest; how many roots began; and the positions that the shorter list names.
#[derive(Drop)]
pub(crate) struct Naming {
    pub(crate) names: Vec<Option<u64>>,
    pub(crate) next: u64,
    pub(crate) begun: u32,
    pub(crate) named: Named,
}

/// Adds this number of nodes, which have none in the new forest.
pub(crate) fn push_unnamed(names: &mut Vec<Option<u64>>, count: usize) -> Result<(), AllocError>
    ensures { OnOk result (names.new.items ≡ names.old.items ++ unnamed_for count) }
{
    for _ in 0..count {
        names.push(None)?;
    }
    Ok(())
}

/// Adds this number of nodes, which have the numbers from `next` on.
pub(crate) fn push_named(
    names: &mut Vec<Option<u64>>,
    next: u64,
    count: usize,
) -> Result<(), AllocError>
    requires { next + count < 2 ^ 64 }
    ensures { OnOk result (names.new.items ≡ names.old.items ++ named_from next count) }
{
    for i in 0..count {
        names.push(Some(next + i as u64))?;
    }
    Ok(())
}
