//! Steps of small processes, as checks of the definitions. The functions do nothing.

ghost use Rattle.process_terms.specs.WorkedSteps.{DeltaDoesNothing, EndingGoesOn, EqualDataJoin, LeftMergeBegins, LeftMergeGoesOn, SilenceIsAllowed, SomeDataAreUnknown, SumTakesEveryTerm, SyncGoesOn, SyncGoesOnWithTheLeft, SyncGoesOnWithTheRight, SyncOfLabelsIsTheirLabel, TwoActionsSideBySide, UnequalDataStay, UnknownDataDoNothing};

/// `delta` does nothing.
pub fn delta_does_nothing()
    ensures { DeltaDoesNothing }
{}

/// `a || b` does a, b and a|b, and nothing else.
pub fn two_actions_side_by_side()
    ensures { TwoActionsSideBySide }
{}

/// `a ||_ b` does a and goes on with b, and `(a . p) ||_ q` does a and goes on with `p || q`. Neither does anything else.
pub fn left_merges_begin_on_the_left()
    ensures ends { LeftMergeBegins }
    ensures goes_on { LeftMergeGoesOn }
{}

/// `(a . p) | (b . q)` does a|b and goes on with `p || q`, and where one side ends, with the other one. As processes `a | b` does what
/// the label a|b does. None does anything else.
pub fn synchronisations_begin_on_both_sides()
    ensures goes_on { SyncGoesOn }
    ensures left_ends { SyncGoesOnWithTheRight }
    ensures right_ends { SyncGoesOnWithTheLeft }
    ensures ends { SyncOfLabelsIsTheirLabel }
{}

/// `comm({x|y -> z}, x(t)|y(u))` does `z(t)` where t and u are provably equal, `x(t)|y(u)` where they are provably unequal, and
/// nothing where neither is provable, as there are data.
pub fn data_decide_communication()
    ensures equal { EqualDataJoin }
    ensures unequal { UnequalDataStay }
    ensures unknown { UnknownDataDoNothing }
    ensures there_are { SomeDataAreUnknown }
{}

/// `allow` keeps the empty label.
pub fn silence_is_allowed()
    ensures { SilenceIsAllowed }
{}

/// `sum` takes every closed term of its sort.
pub fn sum_takes_every_term()
    ensures { SumTakesEveryTerm }
{}

/// An ending under `.` goes on.
pub fn ending_goes_on()
    ensures { EndingGoesOn }
{}
