//! Worked examples of the definitions, proved by computation.
ghost use Rattle.journal_compaction.specs.Examples.{WorkedCompactions};

/// A root that is settled and one that is not.
pub fn worked_compactions()
    ensures { WorkedCompactions }
{}
