ghost use Rattle.selectors.specs.Grammar.{OneSelector};
ghost use Rattle.selectors.specs.Nth.{NthIsExact};

/// A law: the test of a place that a match makes is met by exactly the places `a * n + b` for n of 0 or more.
pub fn nth_is_exact()
    ensures { NthIsExact }
{}

/// A law: no text is two selectors.
pub fn one_selector()
    ensures { OneSelector }
{}
