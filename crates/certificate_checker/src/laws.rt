//! Laws over the definitions: the function does nothing, and its contract is the law.
ghost use Rattle.certificate_checker.specs.Laws.{RefusedIsNotGood, OneRefusal};

/// A certificate that is refused is not good, and there is one refusal of it.
pub fn refusals_are_exact()
    ensures not_good { RefusedIsNotGood }
    ensures one { OneRefusal }
{}
