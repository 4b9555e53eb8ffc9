//! Worked examples of the definitions, proved by computation: each function does nothing, and its
//! contract is a record of `specs/Examples.antt`, one field an example.
ghost use Rattle.proof_numbers.specs.Examples.{WorkedFacts, WorkedNumbers, WorkedLeaves};

/// Facts: of each value, joined, decided.
pub fn worked_facts()
    ensures { WorkedFacts }
{}

/// Numbers: least and sum with infinity.
pub fn worked_numbers()
    ensures { WorkedNumbers }
{}

/// Leaves: known wins, known holds, repetitions, and mobility from one to 64.
pub fn worked_leaves()
    ensures { WorkedLeaves }
{}
