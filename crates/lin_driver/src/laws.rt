//! Laws of the way from a text to its printed text. The functions do nothing: each contract is a law.

ghost use Rattle.lin_driver.specs.EqualLinears.{EqualLinearsAreGood};

/// Linear processes with provably equal data are bisimilar.
pub fn equal_linears_are_good()
    ensures { EqualLinearsAreGood }
{}

ghost use Rattle.lin_driver.specs.Linearised.{WhatIsLedToStandsForTheText, WhatIsMadeStandsForTheText, WhatIsPrintedStandsForTheText};

/// The linear process to which a text's process leads stands for the text, and so do what is made of a text and what is printed for that.
pub fn what_is_printed_stands_for_the_text()
    ensures led_to { WhatIsLedToStandsForTheText }
    ensures made { WhatIsMadeStandsForTheText }
    ensures printed { WhatIsPrintedStandsForTheText }
{}

ghost use Rattle.lin_driver.specs.ElaboratedModels.{WhatElaboratesCanBeLinear};

/// A specification for which a well-typed text stands can be linearised.
pub fn what_elaborates_can_be_linear()
    ensures { WhatElaboratesCanBeLinear }
{}

ghost use Rattle.lin_driver.specs.ModelsOfTexts.{ModelsOfTextsCanBeLinear};

/// The model of a text can be linearised.
pub fn models_of_texts_can_be_linear()
    ensures { ModelsOfTextsCanBeLinear }
{}

ghost use Rattle.lin_driver.specs.FilledLinears.{FilledLinearsServe};

/// With constants in the place of empty lists a linear process is equal to itself, where each constant has its equation.
pub fn filled_linears_serve()
    ensures { FilledLinearsServe }
{}

ghost use Rattle.lin_driver.specs.AddedParts.{WhatMayBeAddedAddsOnly};

/// A specification that has the copied sections of another, what may be added to it, and a process, adds only what is allowed.
pub fn what_may_be_added_adds_only()
    ensures { WhatMayBeAddedAddsOnly }
{}

ghost use Rattle.lin_driver.specs.Additions.{AdditionsMayBeAdded};

/// The structs and constants by which the signature of a text grows may be added to it, with the equations of empty lists.
pub fn additions_may_be_added()
    ensures { AdditionsMayBeAdded }
{}

ghost use Rattle.lin_driver.specs.ReadingBack.{PrintedTextsReadBack};

/// What is printed for a linear process that fits reads back.
pub fn printed_texts_read_back()
    ensures { PrintedTextsReadBack }
{}

ghost use Rattle.lin_driver.specs.MadeTexts.{WhatIsMadeCanBePrinted, WhatIsPrintedForATextStandsForIt};

/// What is made of a text can be printed, and what is printed for it stands for the text.
pub fn what_is_printed_for_a_text_stands_for_it()
    ensures can_be_printed { WhatIsMadeCanBePrinted }
    ensures stands_for { WhatIsPrintedForATextStandsForIt }
{}

ghost use Rattle.lin_driver.specs.NamedSignatures.{TextsDeclareIdentifiers};

/// The functions, the sorts and the actions of a text are named by identifiers.
pub fn texts_declare_identifiers()
    ensures { TextsDeclareIdentifiers }
{}

ghost use Rattle.lin_driver.specs.NetworkLaws.{WhatIsKeptIsOfWholeProducts};
ghost use Rattle.lin_driver.specs.Numberings.{RecursionNeedsNoNumbering, TypingNeedsNoNumbering};

/// Whether a text is well typed, and which fault it has if not, doesn't hang on the numbers of its sorts and functions; nor does whether its
/// parallelism stands outside recursion and its recursion is guarded.
pub fn texts_need_no_numbering()
    ensures typing { TypingNeedsNoNumbering }
    ensures recursion { RecursionNeedsNoNumbering }
{}

ghost use Rattle.lin_driver.specs.Accepted.{FaultyTextsCannotBeLinearised};

/// A text with a fault of its tokens, its declarations, its typing, its parallelism or its recursion can't be linearised.
pub fn faulty_texts_cannot_be_linearised()
    ensures { FaultyTextsCannotBeLinearised }
{}

ghost use Rattle.lin_driver.specs.NeededParts.{TidiedConditionsAreEqual, TidiedConditionsHaveNoNeedlessTrue, TidiedPartsStandInTheCondition, TidyConditionsStay};

/// Conditions without needless parts `true`.
pub fn conditions_are_tidied()
    ensures no_needless { TidiedConditionsHaveNoNeedlessTrue }
    ensures parts { TidiedPartsStandInTheCondition }
    ensures stays { TidyConditionsStay }
    ensures equal { TidiedConditionsAreEqual }
{}

ghost use Rattle.lin_driver.specs.OneReading.{SystemsAreOne, TextsHaveOneReading, TheSameHaveTheSameSteps, VocabulariesAreOne};
ghost use Rattle.lin_driver.specs.Renumberings.{StepsAreRenumbered, TypingsAreRenumbered};

/// Under other numbers of the declared sorts and functions an expression means the same, and a process has the same steps.
pub fn renumbering_changes_nothing()
    ensures typings { TypingsAreRenumbered }
    ensures steps { StepsAreRenumbered }
{}

/// Whatever the numbers of its sorts and functions and of bound variables, a text has one theory and one process, which has the same steps.
pub fn texts_have_one_reading()
    ensures vocabularies { VocabulariesAreOne }
    ensures systems { SystemsAreOne }
    ensures texts { TextsHaveOneReading }
    ensures steps { TheSameHaveTheSameSteps }
{}

ghost use Rattle.lin_driver.specs.EachReading.{WhatStandsForATextDoesSoInEachReading};

/// What stands for a text does so in each reading of both texts.
pub fn what_stands_for_a_text_does_so_in_each_reading()
    ensures { WhatStandsForATextDoesSoInEachReading }
{}

/// Of networks side by side under `comm` under `allow` the linear process is what both keep of whole products.
pub fn products_within_lose_nothing()
    ensures { WhatIsKeptIsOfWholeProducts }
{}

ghost use Rattle.lin_driver.specs.ConsistentTexts.{AcceptedModelsAreOfAcceptedTexts, AcceptedTextsNeedNoPremise, TextsWithoutEquationsNeedNoPremise};

/// Where a text has no written equations, or accepted ones, the theory of what is printed for it is consistent, in each reading, and the link is
/// good without a premise. The equations of a text are accepted where those of its model are.
pub fn consistent_texts_need_no_premise()
    ensures without_equations { TextsWithoutEquationsNeedNoPremise }
    ensures accepted { AcceptedTextsNeedNoPremise }
    ensures of_models { AcceptedModelsAreOfAcceptedTexts }
{}

ghost use Rattle.lin_driver.specs.SealedLinears.{EliminationsMakeNoEnd, EqualLinearsNeverEnd, SealedConditionsHaveNoNeedlessTrue, SealedLinearsArePlain, SealedParamsHaveOwnNames, SealedSumsHaveOwnNames, SealingAddsTerminate, SealingEmptiesNoSort, SealingKeepsIdentifiers, SomeSummandsNeverEnd};

/// Sealing adds the action `Terminate` alone to what a text declares, and keeps what is said of the linear process.
pub fn sealing_keeps()
    ensures growth { SealingAddsTerminate }
    ensures inhabited { SealingEmptiesNoSort }
    ensures identifiers { SealingKeepsIdentifiers }
    ensures params { SealedParamsHaveOwnNames }
    ensures sums { SealedSumsHaveOwnNames }
    ensures conditions { SealedConditionsHaveNoNeedlessTrue }
    ensures plain { SealedLinearsArePlain }
{}

/// What never ends stays so, as it is made smaller and as its text is read.
pub fn what_never_ends_stays_so()
    ensures eliminations { EliminationsMakeNoEnd }
    ensures equal { EqualLinearsNeverEnd }
    ensures some { SomeSummandsNeverEnd }
{}
