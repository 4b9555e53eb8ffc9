//! Worked examples of the definitions, proved by computation: the function does nothing, and its
//! contract is a record of `specs/Examples.antt`, one field an example.
ghost use Rattle.capture_positions.specs.Examples.{WorkedOpenings};

/// Jumps, and the first opening of a seed.
pub fn worked_openings()
    ensures { WorkedOpenings }
{}
