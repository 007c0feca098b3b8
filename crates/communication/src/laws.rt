//! The laws of communication. The functions do nothing: each contract is a law.

ghost use Rattle.communication.specs.CommunicationLaws.{CommunicatingIsGood, CommunicatingIsLinear};

/// The listed ways of each summand are a linear process, well sorted, which does what the process does under `comm`.
pub fn ways_are_communication()
    ensures linear { CommunicatingIsLinear }
    ensures good { CommunicatingIsGood }
{}

ghost use Rattle.communication.specs.WayMeanings.{FurtherGroupsMeanFurtherGroups, WaysMeanWays};

/// What the ways of a label's places mean are the ways of the label, with the same further groups.
pub fn ways_mean_ways()
    ensures ways { WaysMeanWays }
    ensures further { FurtherGroupsMeanFurtherGroups }
{}

ghost use Rattle.communication.specs.PlanLaws.{PlansMeanWays, WaysServe};

/// The plans of a label's ways fit, and make the summands that the ways of a summand's label do.
pub fn plans_mean_ways()
    ensures serve { WaysServe }
    ensures means { PlansMeanWays }
{}

ghost use Rattle.communication.specs.WayNames.{WaysComeFromOpened};

/// The names of a label come from those of each of its ways, by left sides in the places of results.
pub fn ways_come_from_opened()
    ensures { WaysComeFromOpened }
{}
