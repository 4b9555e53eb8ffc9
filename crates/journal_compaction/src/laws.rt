//! Laws over the definitions: each function does nothing, and its contract is the law.
ghost use Rattle.journal_compaction.specs.Laws.{CompactionsAreLawful, CompactionsKeepNumbers};

/// A list that stands for another is lawful in turn, and its forest has the same roots in the same
/// order, each with the same numbers for both goals, and so the same value.
pub fn compactions_keep_values()
    ensures lawful { CompactionsAreLawful }
    ensures numbers { CompactionsKeepNumbers }
{}
