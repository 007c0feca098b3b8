//! What no good link can pair, and what `Same` pairs, as checks of the definitions.

ghost use Rattle.bisim_laws.specs.LinkChecks.{AMissingParameterPairsNothing, BracketsDoNotCount, DeadlockIsNotTerminating, EndingIsNotStopping, NamesOfParametersDoNotCount, NamesOfSumsDoNotCount, NothingDoneIsNoAnswer, NothingPairedIsNotGood, PiecesMayStraddleABracket, SolvedWithItselfIsGood, StoppingIsNotTerminating, TerminatingAgainIsNotTerminating, WhatEndsIsNotGoodWithTerminate};

/// A process that can do something has no good link with `delta`.
pub fn nothing_done_is_no_answer()
    ensures { NothingDoneIsNoAnswer }
{}

/// `a` has no good link with `a . delta`.
pub fn ending_is_not_stopping()
    ensures { EndingIsNotStopping }
{}

/// A link that pairs nothing isn't good, and there are such links.
pub fn nothing_paired_is_not_good()
    ensures not_good { NothingPairedIsNotGood }
    ensures there_are { AMissingParameterPairsNothing }
{}

/// `Same` doesn't look at the names of parameters and of sum variables.
pub fn names_of_variables_do_not_count()
    ensures parameters { NamesOfParametersDoNotCount }
    ensures sums { NamesOfSumsDoNotCount }
{}

/// `Same` doesn't look at the brackets in a chain of `.` or of `||`. So `Form` is good for `X = (a . Y . b + d) . c . X; Y = e;`
/// and its Greibach form, where an equation stands for `b . c . X`, which straddles a bracket.
pub fn brackets_do_not_count()
    ensures chains { BracketsDoNotCount }
    ensures pieces { PiecesMayStraddleABracket }
{}

/// A base link that is good: a linear process with itself.
pub fn solved_with_itself_is_good()
    ensures { SolvedWithItselfIsGood }
{}

/// No link is good with `Terminate` for a second process that ends, that stops without `Terminate`, that terminates where the first one
/// is in a deadlock, or that terminates again and again.
pub fn terminating_is_not_ending()
    ensures ends { WhatEndsIsNotGoodWithTerminate }
    ensures stops { StoppingIsNotTerminating }
    ensures deadlock { DeadlockIsNotTerminating }
    ensures again { TerminatingAgainIsNotTerminating }
{}
