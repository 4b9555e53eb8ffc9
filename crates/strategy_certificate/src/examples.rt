//! Worked examples of the definitions: each function does nothing, and its contract is a record of
//! `specs/Examples.antt`, one field an example.
ghost use Rattle.strategy_certificate.specs.Examples.{WorkedAnswers, WorkedParts, WorkedMerges, WorkedPlaces, WorkedRanks, WorkedCertificates};

/// Which answers are right of a blocked position and of the one before it.
pub fn worked_answers()
    ensures { WorkedAnswers }
{}

/// A win in one as a good part, and parts that are not good.
pub fn worked_parts()
    ensures { WorkedParts }
{}

/// Merging: a smaller rank, an equal one, a greater one, and holds.
pub fn worked_merges()
    ensures { WorkedMerges }
{}

/// Where positions stand in a part.
pub fn worked_places()
    ensures { WorkedPlaces }
{}

/// Ranks and the short ones that replace them.
pub fn worked_ranks()
    ensures { WorkedRanks }
{}

/// A good certificate, and parts that are not due.
pub fn worked_certificates()
    ensures { WorkedCertificates }
{}
