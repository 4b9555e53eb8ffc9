//! Laws of openings: each function does nothing, and its contract is the law.
ghost use Rattle.pdn_openings.specs.Laws.{OpeningsAreDetermined, EachGameHasOne, OpeningsAreLawful};

/// A list of games has no two lists of openings, and in one there are as many openings as games.
pub fn openings_are_determined()
    ensures one { OpeningsAreDetermined }
    ensures count { EachGameHasOne }
{}

/// Each opening's position is one of English draughts.
pub fn openings_are_lawful()
    ensures { OpeningsAreLawful }
{}
