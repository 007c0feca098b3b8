//! Laws of elaboration.

ghost use Rattle.sort_checker.specs.Additions.{AdditionsChangeNothing};
ghost use Rattle.sort_checker.specs.ActionLaws.{ActionsAreFoundByNumbers};
ghost use Rattle.sort_checker.specs.FirstFaults.{TheFirstIsFound};
ghost use Rattle.sort_checker.specs.Refusals.{RefusalsAreSingle};
ghost use Rattle.sort_checker.specs.ScopeLaws.{TypingsAreRenamed, TypingNeedsNoNumbers, ElaboratingNeedsNoNumbers, DefinitionsNeedNoNumbers, EquationsNeedNoNumbers};
ghost use Rattle.sort_checker.specs.ClosingLaws.{ElaborationsCloseAlike};
ghost use Rattle.sort_checker.specs.FittingBodies.{WhatElaboratesFits, DefinitionsFit, EquationsFit};
ghost use Rattle.sort_checker.specs.GrowthLaws.{ProcessesStayAlike, DefinitionsStayAlike, EquationsStayAlike};
ghost use Rattle.sort_checker.specs.SoundTexts.{SoundProcessesElaborate, SoundDefinitionsElaborate, ElaboratedProcessesAreSound, ElaboratedEquationsAreSound};
ghost use Rattle.sort_checker.specs.SortedTrees.{SortedTermsHaveSortedTrees};
ghost use Rattle.sort_checker.specs.TextModels.{BuiltSignaturesAreOfTheirTexts};
ghost use Rattle.sort_checker.specs.WellTypedTexts.{WhatElaboratesIsWellTyped, WellTypedTextsGivePlainSorts};
ghost use Rattle.sort_checker.specs.WholeTexts.{WellTypedTextsElaborate, SoundTextsHaveVocabularies};
ghost use Rattle.sort_checker.specs.WorkedFaults.{TheseHaveFaults};
ghost use Rattle.sort_checker.specs.WorkedElaborations.{TheseElaborate};
ghost use Rattle.sort_checker.specs.WorkedWholeTexts.{TheWholeTextIsWellTyped};

/// A text is refused with one fault at most.
pub fn refusals_are_single()
    ensures { RefusalsAreSingle }
{}

/// A search for the first declaration with a fault finds just that one.
pub fn the_first_is_found()
    ensures { TheFirstIsFound }
{}

/// Under other numbers of the variables terms are renamed.
pub fn typings_are_renamed()
    ensures { TypingsAreRenamed }
{}

/// Whether and at which sorts an expression types doesn't hang on the numbers of variables.
pub fn typing_needs_no_numbers()
    ensures { TypingNeedsNoNumbers }
{}

/// What elaborates does so under any numbers: process terms, definitions and equations.
pub fn elaborating_needs_no_numbers()
    ensures processes { ElaboratingNeedsNoNumbers }
    ensures definitions { DefinitionsNeedNoNumbers }
    ensures equations { EquationsNeedNoNumbers }
{}

/// Under one table a process term closes to one process, whatever its numbers.
pub fn elaborations_close_alike()
    ensures { ElaborationsCloseAlike }
{}

/// What elaborates has terms of the sorts of their places, and no variable outside its scope.
pub fn what_elaborates_fits()
    ensures processes { WhatElaboratesFits }
    ensures definitions { DefinitionsFit }
    ensures equations { EquationsFit }
{}

/// Worked texts have the faults that the language says.
pub fn these_have_faults()
    ensures { TheseHaveFaults }
{}

/// A worked definition and a worked equation elaborate as the language says.
pub fn these_elaborate()
    ensures { TheseElaborate }
{}

/// A worked whole text is well typed.
pub fn the_whole_text_is_well_typed()
    ensures { TheWholeTextIsWellTyped }
{}

/// Sorts, and functions under names that don't stand in a text, change nothing in what it elaborates to.
pub fn other_declarations_change_nothing()
    ensures processes { ProcessesStayAlike }
    ensures definitions { DefinitionsStayAlike }
    ensures equations { EquationsStayAlike }
{}

/// What has no fault elaborates: process terms and definitions.
pub fn what_has_no_fault_elaborates()
    ensures processes { SoundProcessesElaborate }
    ensures definitions { SoundDefinitionsElaborate }
{}

/// What elaborates has no fault: process terms and equations.
pub fn what_elaborates_has_no_fault()
    ensures processes { ElaboratedProcessesAreSound }
    ensures equations { ElaboratedEquationsAreSound }
{}

/// The equations, definitions and `init` of a well-typed text elaborate.
pub fn well_typed_texts_elaborate()
    ensures { WellTypedTextsElaborate }
{}

/// A text is well typed where its declarations are sound, its equations, definitions and `init` elaborate, and each `cons` gives a sort that is
/// declared without a definition; and those of a well-typed text do.
pub fn what_elaborates_is_well_typed()
    ensures elaborates { WhatElaboratesIsWellTyped }
    ensures plain { WellTypedTextsGivePlainSorts }
{}

/// A text whose declarations are sound has a full vocabulary over a signature of what it declares.
pub fn sound_texts_have_vocabularies()
    ensures { SoundTextsHaveVocabularies }
{}

/// An action of a signature's vocabulary is found by the numbers of its sorts.
pub fn actions_are_found_by_numbers()
    ensures { ActionsAreFoundByNumbers }
{}

/// Variables and list sorts come behind what was there, and change nothing in the vocabulary.
pub fn additions_change_nothing()
    ensures { AdditionsChangeNothing }
{}

/// The signature that was built for a text is one of it, and stays so as variables and list sorts are added.
pub fn built_signatures_are_of_their_texts()
    ensures { BuiltSignaturesAreOfTheirTexts }
{}

/// A tree over a signature whose term has a sort of it has that sort itself.
pub fn sorted_terms_have_sorted_trees()
    ensures { SortedTermsHaveSortedTrees }
{}
