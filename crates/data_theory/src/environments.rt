//! Environments: what stands for the variables of a term.

ghost use Rattle.data_theory.specs.EnvironmentLaws.{AgreeingGiveTheSameTerm, AgreeingGiveTheSameTerms, ApplicationsHaveSorts, ArgumentsPutInBehindSums, ArgumentsPutInFirst, BoundAreTheParameters, BoundTogether, ClosedTermsFitAnywhere, ClosedTermsNeedNoVariables, ClosedTermsStay, EqualArgumentsGiveEqualEnvironments, EqualEnvironmentsGiveEqualLists, EqualOnTheVariablesGiveEqualLists, EqualOnTheVariablesGiveEqualTerms, ListsOfTerms, ParametersReadBack, PuttingInGoesThroughLists, PuttingInKeepsSorts, PuttingInTwice, TermsOfLists, TheFrontIsRead, TheFrontIsSkipped, TheMiddleIsSkipped, TheUnboundStay, WellSortedOverNothingIsClosed};

/// A joined environment gives what its first part that binds the variable gives; an unbound variable stands for itself.
pub fn joined_environments()
    ensures front { TheFrontIsRead }
    ensures behind { TheFrontIsSkipped }
    ensures around { TheMiddleIsSkipped }
    ensures unbound { TheUnboundStay }
{}

/// Parameters bound to arguments: side by side, their variables, and that reading them gives the arguments back.
pub fn bound_parameters()
    ensures together { BoundTogether }
    ensures variables { BoundAreTheParameters }
    ensures read_back { ParametersReadBack }
{}

/// Environments that agree on the variables of a term give the same term.
pub fn agreeing_environments()
    ensures term { AgreeingGiveTheSameTerm }
    ensures list { AgreeingGiveTheSameTerms }
{}

/// Putting in twice is putting in once.
pub fn putting_in_twice()
    ensures once { PuttingInTwice }
    ensures arguments { ArgumentsPutInFirst }
    ensures behind_sums { ArgumentsPutInBehindSums }
{}

/// Provably equal arguments give provably equal environments, and these give provably equal lists, as the arguments of an
/// action are. It is enough that they agree so on the variables that occur.
pub fn equal_environments()
    ensures arguments { EqualArgumentsGiveEqualEnvironments }
    ensures lists { EqualEnvironmentsGiveEqualLists }
    ensures term_over { EqualOnTheVariablesGiveEqualTerms }
    ensures list_over { EqualOnTheVariablesGiveEqualLists }
{}

/// The terms behind a symbol and lists of terms say the same.
pub fn lists_of_terms()
    ensures there_and_back { ListsOfTerms }
    ensures back_and_there { TermsOfLists }
    ensures put_in { PuttingInGoesThroughLists }
{}

/// Terms of the variables' sorts put in leave a term its sort.
pub fn putting_in_keeps_sorts()
    ensures application { ApplicationsHaveSorts }
    ensures term { PuttingInKeepsSorts }
{}

/// A term that is well sorted over no variables is closed, stays as it is when anything is put in, and is well sorted over
/// any variables. A term that is well sorted over some variables and has none of them is well sorted over no variables.
pub fn closed_terms_stay()
    ensures closed { WellSortedOverNothingIsClosed }
    ensures without_variables { ClosedTermsNeedNoVariables }
    ensures stay { ClosedTermsStay }
    ensures anywhere { ClosedTermsFitAnywhere }
{}
