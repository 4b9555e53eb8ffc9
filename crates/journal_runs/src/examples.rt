//! Worked examples of what a run leaves on its disk: the function does nothing, and its contract is a
//! record of `specs/Examples.antt`, one field an example.
ghost use Rattle.journal_runs.specs.Examples.{WorkedRuns};

/// A run that begins one root and reports it, on a disk that stops behind any of its calls.
pub fn worked_runs()
    ensures { WorkedRuns }
{}
