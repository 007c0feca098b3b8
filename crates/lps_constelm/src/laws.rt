//! Laws of constant parameters. The functions do nothing: each contract is a law.

ghost use Rattle.lps_constelm.specs.ConstantLaws.{EliminatedProcessesAreGood, RemovedConstantsAreGood, RemovedConstantsKeepTheShape, RemovedConstantsKeepTheSorts};

/// Constant sets that are left out: one, and the greatest ones one after another.
pub fn constants_are_dropped()
    ensures linear { RemovedConstantsKeepTheShape }
    ensures sorted { RemovedConstantsKeepTheSorts }
    ensures removed { RemovedConstantsAreGood }
    ensures eliminated { EliminatedProcessesAreGood }
{}

ghost use Rattle.lps_constelm.specs.ConstantLaws.{AllMarkedIsNoConstantSet, WhatIsNotReachedIsGreatest};

/// The greatest constant set is what doesn't use a parameter that changes.
pub fn constants_are_not_reached()
    ensures greatest { WhatIsNotReachedIsGreatest }
    ensures none { AllMarkedIsNoConstantSet }
{}

ghost use Rattle.lps_constelm.specs.ConstantLaws.{SimplifiedCodeFits, SimplifiedCodeMeansSimplerTerms, WhatIsPutInFits, WhatIsPutInMeansTheRemoval};

/// What is simplified, and what has initial terms put in, in code.
pub fn code_means_the_rounds()
    ensures simplified { SimplifiedCodeMeansSimplerTerms }
    ensures simplified_fits { SimplifiedCodeFits }
    ensures put { WhatIsPutInMeansTheRemoval }
    ensures put_fits { WhatIsPutInFits }
{}
