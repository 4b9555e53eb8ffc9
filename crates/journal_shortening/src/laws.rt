//! Laws over the definitions: each function does nothing, and its contract is the law.
ghost use Rattle.journal_shortening.specs.Laws.{ChosenIsWhole};

/// Of what a crash leaves, the journal that is chosen has the roots of the old one, with their values:
/// the new one is chosen where it is whole, and the old one where the new one has no record.
pub fn chosen_is_whole()
    ensures { ChosenIsWhole }
{}
