//! Links that are good for the labels that matter.

ghost use Rattle.bisim_laws.specs.SomeSummands.{SomeSummandsAreGoodWithin, SomeSummandsAreLinear};
ghost use Rattle.bisim_laws.specs.WithinLaws.{AllowedMatterUnderAllow, BesideIsGoodWithin, CommunicationComesFromOpened, CompletableGoesToParts, CompletableMatterUnderAllow, CompletableMatterUnderComm, GoodIsGoodWithin, ThenIsGoodWithin, UnderIsGoodWithin, WithinAllIsGood};

/// A good link is good within any labels, and one that is good within all labels is good.
pub fn good_links_are_good_within()
    ensures within { GoodIsGoodWithin }
    ensures all { WithinAllIsGood }
{}

/// Links that are good within the same labels, one after another.
pub fn then_is_good_within()
    ensures { ThenIsGoodWithin }
{}

/// Two of them side by side, where what matters of a joint label matters of its parts.
pub fn beside_is_good_within()
    ensures { BesideIsGoodWithin }
{}

/// One under an operator, where what matters behind the operator comes from what matters in front of it.
pub fn under_is_good_within()
    ensures { UnderIsGoodWithin }
{}

/// The names of a label come from those of one that it communicates to, by left sides in the places of results.
pub fn communication_comes_from_opened()
    ensures { CommunicationComesFromOpened }
{}

/// Which labels matter under `allow`, and under `comm` under `allow`; and that what matters there of a joint label matters of its parts.
pub fn what_matters_below()
    ensures parts { CompletableGoesToParts }
    ensures allowed { AllowedMatterUnderAllow }
    ensures alone { CompletableMatterUnderAllow }
    ensures comm { CompletableMatterUnderComm }
{}

/// A linear process with some of its summands, among them all whose labels matter, is one, and is good within what matters.
pub fn some_summands_are_enough()
    ensures linear { SomeSummandsAreLinear }
    ensures good { SomeSummandsAreGoodWithin }
{}
