//! Laws over the definitions: each function does nothing, and its contract is the law.
ghost use Rattle.certificate_joiner.specs.Growth.{RootsStayCertified, ChildrenStayCertified, FactsStayCertified, ShownFactsAgree, ShelfStaysWithin};
ghost use Rattle.certificate_joiner.specs.Laws.{SettledRootsAreShown, SettledValuesAreTrue};

/// Where every fact of a forest is certified, a settled root has a good certificate that claims its value, and the
/// value is true.
pub fn settled_roots_are_shown()
    ensures shown { SettledRootsAreShown }
    ensures values { SettledValuesAreTrue }
{}

/// Every fact of a forest stays certified when a root or children come with their facts at sight, and when a node gets
/// facts that a batch shows which is put on the shelf for it.
pub fn certified_forests_grow()
    ensures root { RootsStayCertified }
    ensures children { ChildrenStayCertified }
    ensures facts { FactsStayCertified }
{}

/// Facts that certificates show do not contradict those that a node has, where each of them is certified.
pub fn shown_facts_agree()
    ensures { ShownFactsAgree }
{}

/// While a forest grows, nothing stands on the shelf for nodes that are not there.
pub fn shelves_stay_within()
    ensures { ShelfStaysWithin }
{}
