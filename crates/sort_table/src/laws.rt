//! Laws of what a text declares.

ghost use Rattle.mcrl2_syntax.specs.TreeWords.{IsSpecOfWords};
ghost use Rattle.mcrl2_syntax.specs.Declarations.{PlainSpec};
ghost use Rattle.std.specs.List.{AllByRecursion};
ghost use Rattle.std.specs.Str.{IsUtf8};
ghost use Rattle.sort_table.specs.Identifiers.{identifiers_in};
ghost use Rattle.sort_table.specs.VocabularyLaws.{ASortStandsForOneSort, DeclaredNamesStand, WhatStandsForASortHasIt};
ghost use Rattle.sort_table.specs.SameSorts.{SameSortsAreThoseOfAVocabulary};
ghost use Rattle.sort_table.specs.EmptinessLaws.{EmptySortsAreEmptyInEachVocabulary};
ghost use Rattle.sort_table.specs.CyclesOfAliases.{CyclesStandForNothing};
ghost use Rattle.sort_table.specs.WorkedRefusals.{TheseAreRefused};
ghost use Rattle.sort_table.specs.Refusals.{RefusalsAreSingle, SoundDeclarationsAreNotRefused};
ghost use Rattle.sort_table.specs.SignatureGrowth.{GrownSignaturesHaveMore};
ghost use Rattle.sort_table.specs.Growth.{VocabulariesGrow, TextsGrow};
ghost use Rattle.sort_table.specs.WorkedTrees.{TreesAreBare};
ghost use Rattle.sort_table.specs.PlacedSections.{SpelledSpecsArePlaced};
ghost use Rattle.sort_table.specs.Worked.{ATextHasVocabulariesInAnyNumbering};

/// Worked trees and their bare ones: spans and brackets fall away.
pub fn trees_are_bare()
    ensures { TreesAreBare }
{}

/// A sort expression stands for one sort at most.
pub fn a_sort_stands_for_one_sort()
    ensures { ASortStandsForOneSort }
{}

/// In each vocabulary an expression has the sort of what it stands for.
pub fn what_stands_for_a_sort_has_it()
    ensures { WhatStandsForASortHasIt }
{}

/// A name on a cycle of aliases stands for nothing.
pub fn cycles_stand_for_nothing()
    ensures { CyclesStandForNothing }
{}

/// Where all sort names are known and no definitions of sorts go round, each declared name stands for a sort.
pub fn declared_names_stand()
    ensures { DeclaredNamesStand }
{}

/// A worked text has vocabularies in two numberings.
pub fn a_text_has_vocabularies_in_any_numbering()
    ensures { ATextHasVocabulariesInAnyNumbering }
{}

/// Worked texts meet the conditions of refusals.
pub fn these_are_refused()
    ensures { TheseAreRefused }
{}

/// A text is refused with one fault of its declarations at most, and with none where no condition of theirs holds.
pub fn refusals_are_single()
    ensures single { RefusalsAreSingle }
    ensures sound { SoundDeclarationsAreNotRefused }
{}

/// A vocabulary grows with its text, by structs and by functions that aren't constructors of a `cons`.
pub fn vocabularies_grow()
    ensures { VocabulariesGrow }
{}

/// Declarations without actions behind others are more under their names.
pub fn texts_grow()
    ensures { TextsGrow }
{}

/// What a signature gets behind its tables stands behind its vocabulary.
pub fn grown_signatures_have_more()
    ensures { GrownSignaturesHaveMore }
{}

/// A sort that is empty in one vocabulary of a text is empty in each.
pub fn empty_sorts_are_empty_in_each_vocabulary()
    ensures { EmptySortsAreEmptyInEachVocabulary }
{}

/// Lists of sort expressions stand for the same sorts exactly where a vocabulary of the text gives them the same ones. So sorts may be
/// compared by their numbers in a signature.
pub fn same_sorts_are_those_of_a_vocabulary()
    ensures { SameSortsAreThoseOfAVocabulary }
{}

/// The identifiers of a specification that tokens spell are text.
pub fn identifiers_are_text()
    ensures { (spec : PlainSpec) → IsSpecOfWords spec → AllByRecursion IsUtf8 (identifiers_in spec) }
{}

/// In a specification that tokens spell, each declaration stands in a section of its word.
pub fn spelled_specs_are_placed()
    ensures { SpelledSpecsArePlaced }
{}
