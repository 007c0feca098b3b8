//! What labels, process terms and specifications in code mean. The functions do nothing: each contract is a law.

ghost use Rattle.process_terms.specs.MeaningLaws.{ComponentsAreSettled, DefinitionsAreSettled, LabelsAreSettled, ModelsAreSettled, PoolsAddEntries, ProcessesAreSettled, SignaturesAddEntries};
ghost use Rattle.process_terms.specs.WorkedMeanings.{ChainsAreNested, NoActionsMeanTau, ShortChainsAddNothing, SumsAreNested};

/// Where the pool and the tables of the signature get new entries behind the old ones, what code means stays.
pub fn meanings_are_settled()
    ensures labels { LabelsAreSettled }
    ensures processes { ProcessesAreSettled }
    ensures definitions { DefinitionsAreSettled }
    ensures models { ModelsAreSettled }
    ensures components { ComponentsAreSettled }
{}

/// Where a pool gets new terms, or a signature new entries behind the old ones, the numbers in code get new entries and keep
/// the old ones.
pub fn growth_adds_entries()
    ensures pools { PoolsAddEntries }
    ensures signatures { SignaturesAddEntries }
{}

/// A chain of `+` or `.` is nested to the right and one of `||` to the left, a sum over several variables is one inside the
/// other, and no actions are `tau`.
pub fn worked_meanings()
    ensures chains { ChainsAreNested }
    ensures short_chains { ShortChainsAddNothing }
    ensures sums { SumsAreNested }
    ensures tau { NoActionsMeanTau }
{}
