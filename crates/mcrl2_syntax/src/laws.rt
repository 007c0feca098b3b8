//! Tokens spell no two trees, and each is made of their words. The functions do nothing: their contracts are the laws.
ghost use Rattle.mcrl2_syntax.specs.SpelledSorts.{SortsAreSingle};
ghost use Rattle.mcrl2_syntax.specs.SpelledData.{DataAreSingle};
ghost use Rattle.mcrl2_syntax.specs.SpelledLabels.{LabelsAreSingle};
ghost use Rattle.mcrl2_syntax.specs.SpelledProcesses.{ProcessesAreSingle};
ghost use Rattle.mcrl2_syntax.specs.SpelledDeclarations.{DeclarationsAreSingle, SpecificationsAreSingle};
ghost use Rattle.mcrl2_syntax.specs.TreeWords.{SpecsAreOfWords, LabelsAreOfWords};

/// The tokens spell one sort expression at most, and it ends at one place.
pub fn sorts_are_single()
    ensures { SortsAreSingle }
{}

/// The tokens spell one data expression at most.
pub fn data_are_single()
    ensures { DataAreSingle }
{}

/// The tokens spell one label at most.
pub fn labels_are_single()
    ensures { LabelsAreSingle }
{}

/// The tokens spell one process term at most.
pub fn processes_are_single()
    ensures { ProcessesAreSingle }
{}

/// The tokens of a declaration spell one in each section at most.
pub fn declarations_are_single()
    ensures { DeclarationsAreSingle }
{}

/// The tokens of a text spell one specification at most.
pub fn specifications_are_single()
    ensures { SpecificationsAreSingle }
{}

/// The names and numerals of what the tokens of a text spell are words that tokens can be.
pub fn spelled_trees_are_of_words()
    ensures specifications { SpecsAreOfWords }
    ensures labels { LabelsAreOfWords }
{}
