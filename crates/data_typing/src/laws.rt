//! Laws of typing.

ghost use Rattle.mcrl2_syntax.specs.DataTrees.{PlainData};
ghost use Rattle.mcrl2_syntax.specs.TreeWords.{IsDataOfWords};
ghost use Rattle.data_typing.specs.Readings.{IsReadable};
ghost use Rattle.data_typing.specs.TypingLaws.{CheckedTermsHaveTheSort, InferredTermsHaveTheirSorts, OneTermAtMost, OtherNamesChangeNothing, TypingHangsOnItsWords, TypingReadsTheExpression};
ghost use Rattle.data_typing.specs.Plans.{CallsGoByPlan};
ghost use Rattle.data_typing.specs.Sortings.{SortsGoBeforeTerms};
ghost use Rattle.data_typing.specs.WorkedTypings.{TheseAreTyped};
ghost use Rattle.data_typing.specs.StandingSorts.{TreesHaveTheirSortsIn};
ghost use Rattle.data_typing.specs.ContextLaws.{ListSortsComeBehind, ListSortsKeepTheVocabulary, ReadingsStay, ScopesStay, TablesStay, WishesStay};

/// Worked expressions have the typings that the language says.
pub fn these_are_typed()
    ensures { TheseAreTyped }
{}

/// An expression infers one term at most, and checks as one at most at each sort.
pub fn one_term_at_most()
    ensures { OneTermAtMost }
{}

/// What an expression infers has the sort that it infers, and what it checks as has the sort at which it checks.
pub fn typing_gives_sorts()
    ensures inferred { InferredTermsHaveTheirSorts }
    ensures checked { CheckedTermsHaveTheSort }
{}

/// What an expression infers, and what it checks as, are readings of it.
pub fn typing_reads_the_expression()
    ensures { TypingReadsTheExpression }
{}

/// Where each of its words means the same, an expression has the same typing.
pub fn typing_hangs_on_its_words()
    ensures { TypingHangsOnItsWords }
{}

/// Sorts, and functions under names that don't stand in an expression, change nothing in its typing.
pub fn other_names_change_nothing()
    ensures { OtherNamesChangeNothing }
{}

/// The sorts of an expression are found without terms.
pub fn sorts_go_before_terms()
    ensures { SortsGoBeforeTerms }
{}

/// A call is elaborated as its plan says, and the plan is found by sorts alone.
pub fn calls_go_by_plan()
    ensures { CallsGoByPlan }
{}

/// List sorts come behind what was there, and change nothing in the vocabulary.
pub fn list_sorts_keep_the_vocabulary()
    ensures behind { ListSortsComeBehind }
    ensures vocabulary { ListSortsKeepTheVocabulary }
{}

/// What holds of a signature for typing stays where variables and list sorts are added.
pub fn contexts_stay()
    ensures tables { TablesStay }
    ensures scopes { ScopesStay }
    ensures wishes { WishesStay }
    ensures readings { ReadingsStay }
{}

/// A data expression that tokens spell can be read.
pub fn spelled_data_are_readable()
    ensures { (d : PlainData) → IsDataOfWords d → IsReadable d }
{}

/// Of a tree over the numbers of a signature the sort of each subterm is in it.
pub fn trees_have_their_sorts()
    ensures { TreesHaveTheirSortsIn }
{}
