//! Worked examples of words on which the clauses of a run rest: each function does nothing, and its
//! contract is a record of `specs/Examples.antt`, one field an example.
ghost use Rattle.std.specs.Prelude.{List};
ghost use Rattle.strategy_certificate.specs.declared.certificates.Certificate.{Certificate};
ghost use Rattle.bench_commands.specs.Examples.{WorkedLimits, WorkedLines, WorkedMeanings, WorkedTears};

/// What written moves mean, one of them two things.
pub fn worked_meanings()
    ensures { WorkedMeanings }
{}

/// The line of a session in which a root is leased twice and its result is committed.
pub fn worked_lines()
    ensures { (shown : List Certificate) → WorkedLines shown }
{}

/// What a crash may leave of a write, and what not.
pub fn worked_tears()
    ensures { WorkedTears }
{}

/// Which number each limit is.
pub fn worked_limits()
    ensures { WorkedLimits }
{}
