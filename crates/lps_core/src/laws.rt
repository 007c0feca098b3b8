//! Laws of linear processes. The functions do nothing: each contract is a law.

ghost use Rattle.lps_core.specs.Conditions.{JoinedConditionsAreConditions, JoinedConditionsAreOver, JoinedConditionsAreSorted, JoinedConditionsAreTrue};

/// A chain of conditions.
pub fn conditions_join()
    ensures holds { JoinedConditionsAreTrue }
    ensures conditions { JoinedConditionsAreConditions }
    ensures sorted { JoinedConditionsAreSorted }
    ensures over { JoinedConditionsAreOver }
{}

ghost use Rattle.lps_core.specs.Moving.{RenewedSumsAreGood, RenewedSumsAreLinear, RenewedSumsAreSorted};

/// Other ids for the sum variables.
pub fn sums_are_renewed()
    ensures linear { RenewedSumsAreLinear }
    ensures sorted { RenewedSumsAreSorted }
    ensures bisimilar { RenewedSumsAreGood }
{}

ghost use Rattle.lps_core.specs.Fitting.{WhatFitsFitsStill, WhatFitsIsSorted, WhatFitsStays};
ghost use Rattle.lps_core.specs.GoingOn.{GoingOnGoesBack, GoodLinksStayGood};

/// Data that go on from a signature's.
pub fn data_go_on()
    ensures back { GoingOnGoesBack }
    ensures good { GoodLinksStayGood }
{}

ghost use Rattle.lps_core.specs.GoingOn.{GoodForAllIsGood, GoodLinksAreGoodWithin, GoodLinksWithinStayGood};

/// Links that are good for the labels that matter, over data that go on from a signature's.
pub fn links_within_stay_good()
    ensures within { GoodLinksAreGoodWithin }
    ensures all { GoodForAllIsGood }
    ensures stays { GoodLinksWithinStayGood }
{}

/// What fits a pool and a signature is well sorted, and means the same as these grow.
pub fn what_fits_stays()
    ensures sorted { WhatFitsIsSorted }
    ensures stays { WhatFitsStays }
    ensures still { WhatFitsFitsStill }
{}

ghost use Rattle.lps_core.specs.MeantConditions.{ChainsMeanChains, NumbersMeanTheirSymbols, PartsMeanParts};

/// Conditions over trees mean conditions.
pub fn conditions_mean_conditions()
    ensures numbers { NumbersMeanTheirSymbols }
    ensures parts { PartsMeanParts }
    ensures chains { ChainsMeanChains }
{}

ghost use Rattle.lps_core.specs.Sealing.{NeverEndingIsGood, SealedBehindALink, SealedIsGood, SealedIsLinear, SealedIsSorted, SealedNeverEnds};

/// Sealed linear processes.
pub fn sealed_processes_never_end()
    ensures never { SealedNeverEnds }
    ensures linear { SealedIsLinear }
    ensures sorted { SealedIsSorted }
    ensures good { SealedIsGood }
    ensures behind { SealedBehindALink }
    ensures staying { NeverEndingIsGood }
{}
