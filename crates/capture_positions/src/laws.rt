//! Laws over the walk: each function does nothing, and its contract is the law.
ghost use Rattle.capture_positions.specs.Laws.{BlackMustCapture, EachIndexIsMet, EnoughPositionsAreMet, NoIndexIsMetTwice, ThreePiecesStand};

/// The first 4,176 steps of a walk meet each index once, and 2,000 different positions.
pub fn walks_meet_all()
    ensures met { EachIndexIsMet }
    ensures once { NoIndexIsMetTwice }
    ensures enough { EnoughPositionsAreMet }
{}

/// Three pieces stand in each position, and Black must capture.
pub fn openings_are_captures()
    ensures pieces { ThreePiecesStand }
    ensures captures { BlackMustCapture }
{}
