//! Good links compose.

ghost use Rattle.bisim_laws.specs.LinkLaws.{BegunIsGood, BesideIsGood, PiecesAreEnough, SameIsGood, SealedIsGoodWithTerminate, ThenIsGood, ThenIsGoodWithTerminate, UnderIsGood, UpToSameIsEnough, UpToSameIsEnoughWithTerminate};

/// `Same` is good for two processes that it pairs.
pub fn same_is_good()
    ensures { SameIsGood }
{}

/// A good link followed by a good link is good.
pub fn then_is_good()
    ensures { ThenIsGood }
{}

/// Two good links side by side, followed by a good link of the product, are good.
pub fn beside_is_good()
    ensures { BesideIsGood }
{}

/// Two good links with `||_` or `|` between them, followed by a good link of the product with that first step, are good.
pub fn begun_is_good()
    ensures { BegunIsGood }
{}

/// A good link under an operator, followed by a good link of the operator's result, is good.
pub fn under_is_good()
    ensures { UnderIsGood }
{}

/// Where the steps from the states of a base link are answered up to `Same`, its relation is a bisimulation.
pub fn up_to_same_is_enough()
    ensures { UpToSameIsEnough }
{}

/// Where the pieces of two compositions along one list answer each other, the relation of `Form` is a bisimulation.
pub fn pieces_are_enough()
    ensures { PiecesAreEnough }
{}

/// Links that are good with `Terminate` for the end: one behind a good link, one with a good link behind it, and one whose steps are
/// answered up to `Same`.
pub fn links_are_good_with_terminate()
    ensures sealed { SealedIsGoodWithTerminate }
    ensures then { ThenIsGoodWithTerminate }
    ensures up_to_same { UpToSameIsEnoughWithTerminate }
{}

ghost use Rattle.bisim_laws.specs.TerminatingRuns.{RunsAreAnswered, RunsComeFromRuns};

/// Where a link is good with `Terminate`, the runs of the second process are those of the first one, where `Terminate` may follow an
/// end.
pub fn runs_with_terminate()
    ensures come { RunsComeFromRuns }
    ensures answered { RunsAreAnswered }
{}
