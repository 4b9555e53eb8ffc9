//! Worked examples of the definitions, proved by computation: the function does nothing, and its contract is a
//! record of `specs/Examples.antt`, one field an example.
ghost use Rattle.table_index.specs.Examples.{WorkedIndices};

/// Indices of positions and positions at indices, none where a man stands on its farthest row.
pub fn worked_indices()
    ensures { WorkedIndices }
{}
