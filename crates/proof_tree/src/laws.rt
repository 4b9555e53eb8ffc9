//! Laws over the definitions: each function does nothing, and its contract is the law.
ghost use Rattle.proof_tree.specs.Laws.{UnsettledRootsAreOpen, SettledRootsAreResolved};

/// Work goes on until every root is settled: where nothing is taken, an unsettled root has a leaf
/// to work on.
pub fn unsettled_roots_are_open()
    ensures { UnsettledRootsAreOpen }
{}

/// A root of a sound forest has a value exactly where its numbers resolve it for both goals.
pub fn settled_roots_are_resolved()
    ensures { SettledRootsAreResolved }
{}
