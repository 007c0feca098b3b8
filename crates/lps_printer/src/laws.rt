//! Laws of printed text. The functions do nothing: each contract is a law.

ghost use Rattle.lps_printer.specs.CanonicalTexts.{PrintedTextsAreCanonical};
ghost use Rattle.lps_printer.specs.CopiedParts.{WhatIsCopiedHasAllParts};
ghost use Rattle.lps_printer.specs.CopiedTokens.{CopiesLex};
ghost use Rattle.lps_printer.specs.CopyLaws.{CopiesSpellTheSame, DeclarationCopiesSpellTheSame};
ghost use Rattle.lps_printer.specs.DataLaws.{ExpressionsSpellBack, TermsReadBack};
ghost use Rattle.lps_printer.specs.DeclaredAdditions.{EmptyListsAreAdded, WhatIsAddedIsPrinted};
ghost use Rattle.lps_printer.specs.DefinitionTexts.{DefinitionsSpellBack, LinearTextsSpellBack, StartsSpellBack};
ghost use Rattle.lps_printer.specs.EmptyEquations.{EmptyEquationsElaborate};
ghost use Rattle.lps_printer.specs.EmptyLists.{FilledTermsAreWritable};
ghost use Rattle.lps_printer.specs.FilledLinears.{FilledLinearsAreEqual};
ghost use Rattle.lps_printer.specs.FittingLinears.{FittingLinearsRead};
ghost use Rattle.lps_printer.specs.FittingNames.{NamesThatFitRead};
ghost use Rattle.lps_printer.specs.FoundConstants.{ThereAreConstants, ConstantsHaveEquations};
ghost use Rattle.lps_printer.specs.FreshIdentifiers.{ConstantNamesAreIdentifiers, FreshNamesAreIdentifiers};
ghost use Rattle.lps_printer.specs.GrowingByAdditions.{AdditionsFollowEachOther, ConstantsAreAdditions};
ghost use Rattle.lps_printer.specs.GrownIdentifiers.{DeclaredStayIdentifiers, NamesStayIdentifiers, WhatIsAddedIsNamed, WrittenSortsRead};
ghost use Rattle.lps_printer.specs.LinearBack.{LinearProcessesElaborateBack};
ghost use Rattle.lps_printer.specs.NamedSummands.{SummandsSpellBack};
ghost use Rattle.lps_printer.specs.NeedLaws.{AddedConstantsAreNils, ListedNilsAreThose, WhatIsMetIsFound};
ghost use Rattle.lps_printer.specs.Pieces.{PiecesLex};
ghost use Rattle.lps_printer.specs.PrintedDeclarations.{GrowthByConstantsIsMore, PrintedDeclarationsAreSound, VariablesThatReadCanBeListed, WhatIsAddedIsDeclared};
ghost use Rattle.lps_printer.specs.PrintedSystems.{PrintedSystemsAreLinear};
ghost use Rattle.lps_printer.specs.PrintedTheories.{PrintedTextsHaveTheories};
ghost use Rattle.lps_printer.specs.SpelledSections.{AddedSectionsSpellBack, CopiedSectionsSpellBack, PrintedTextsSpellBack};
ghost use Rattle.lps_printer.specs.SummandTexts.{SummandTextsElaborate};
ghost use Rattle.lps_printer.specs.TermTexts.{TermTextsReadBack};
ghost use Rattle.lps_printer.specs.TextSections.{SectionTextsSpellBack};
ghost use Rattle.lps_printer.specs.WholeTexts.{WholeTextsSpellBack};

/// Pieces that stand apart lex back.
pub fn pieces_lex()
    ensures { PiecesLex }
{}

/// The bytes of a printed expression spell a tree of it.
pub fn expressions_spell_back()
    ensures { ExpressionsSpellBack }
{}

/// Printed terms read back.
pub fn terms_read_back()
    ensures { TermsReadBack }
{}

/// Names without duplicates lead to their functions.
pub fn names_that_fit_read()
    ensures { NamesThatFitRead }
{}

/// Copied tokens lex back.
pub fn copies_lex()
    ensures { CopiesLex }
{}

/// Copied tokens spell the same expression.
pub fn copies_spell_the_same()
    ensures { CopiesSpellTheSame }
{}

/// Copied tokens spell the same declaration of sorts, functions, variables, equations or actions.
pub fn declaration_copies_spell_the_same()
    ensures { DeclarationCopiesSpellTheSame }
{}

/// With constants in the place of empty lists a term can be written.
pub fn filled_terms_are_writable()
    ensures { FilledTermsAreWritable }
{}

/// With constants in the place of empty lists a linear process is provably equal to itself, where each has its equation.
pub fn filled_linears_are_equal()
    ensures { FilledLinearsAreEqual }
{}

/// The bytes of a printed term read back as the term.
pub fn term_texts_read_back()
    ensures { TermTextsReadBack }
{}

/// The bytes of printed summands spell a tree of them.
pub fn summands_spell_back()
    ensures { SummandsSpellBack }
{}

/// What is printed for a linear process elaborates to its definition and its state.
pub fn linear_processes_elaborate_back()
    ensures { LinearProcessesElaborateBack }
{}

/// The bytes of printed summands elaborate to the definition.
pub fn summand_texts_elaborate()
    ensures { SummandTextsElaborate }
{}

/// A well-typed text with the printed process of a linear process has that process, and is a linear text.
pub fn printed_systems_are_linear()
    ensures { PrintedSystemsAreLinear }
{}

/// The bytes of a printed definition, of a printed start, and of both of a linear process spell these.
pub fn definitions_spell_back()
    ensures definitions { DefinitionsSpellBack }
    ensures starts { StartsSpellBack }
    ensures linear { LinearTextsSpellBack }
{}

/// The bytes of sections spell a specification with just these sections.
pub fn section_texts_spell_back()
    ensures { SectionTextsSpellBack }
{}

/// The text of a linear process spells the sections in front, and the process and its start behind.
pub fn whole_texts_spell_back()
    ensures { WholeTextsSpellBack }
{}

/// The copied sections of a text spell its declarations, and none of these is a process.
pub fn copied_sections_spell_back()
    ensures { CopiedSectionsSpellBack }
{}

/// The added sections spell actions, structs, mappings and the equations of empty lists, where their names are identifiers.
pub fn added_sections_spell_back()
    ensures { AddedSectionsSpellBack }
{}

/// The printed text of a linear process spells the copied declarations, the added ones, and the process and its start.
pub fn printed_texts_spell_back()
    ensures { PrintedTextsSpellBack }
{}

/// What is added one behind the other is added, and constants are.
pub fn additions_follow_each_other()
    ensures follow { AdditionsFollowEachOther }
    ensures constants { ConstantsAreAdditions }
{}

/// Where the signature of a text grows by structs, constants and actions, what is printed are these actions, these structs, mappings of the
/// constants, and the equations of empty lists. Its names are identifiers where those of the signature are.
pub fn what_is_added_is_printed()
    ensures printed { WhatIsAddedIsPrinted }
    ensures empty_lists { EmptyListsAreAdded }
    ensures named { WhatIsAddedIsNamed }
{}

/// Names that are fresh to an identifier are identifiers, and so are those of the constants of sorts.
pub fn fresh_names_are_identifiers()
    ensures fresh { FreshNamesAreIdentifiers }
    ensures constants { ConstantNamesAreIdentifiers }
{}

/// The empty lists that are listed are those that stand in open places, and each sort that is met is found.
pub fn needed_constants_are_found()
    ensures listed { ListedNilsAreThose }
    ensures found { WhatIsMetIsFound }
{}

/// The constants that are added are mappings without arguments into the lists that they stand for.
pub fn added_constants_are_nils()
    ensures { AddedConstantsAreNils }
{}

/// The sections that are copied have all declarations of data and all equations of a specification.
pub fn what_is_copied_has_all_parts()
    ensures { WhatIsCopiedHasAllParts }
{}

/// The equation of a constant for an empty list elaborates.
pub fn empty_equations_elaborate()
    ensures { EmptyEquationsElaborate }
{}

/// Sorts that differ have constants for the empty lists over them, and each constant has its equation where a theory has those of these sorts.
pub fn constants_have_equations()
    ensures there { ThereAreConstants }
    ensures equations { ConstantsHaveEquations }
{}

/// The printed text of a linear process is well typed, and has the theory of its text with the equations of the constants for empty lists.
pub fn printed_texts_have_theories()
    ensures { PrintedTextsHaveTheories }
{}

/// A signature that has grown by constants has them behind its vocabulary, and nothing else.
pub fn growth_by_constants_is_more()
    ensures { GrowthByConstantsIsMore }
{}

/// Where the declarations of a text are sound and a signature has their vocabulary, those of a text that is printed for it are sound, too,
/// and the signature that has grown by the added structs, constants and actions has their vocabulary. The added sections declare these, and the
/// variables of a linear process that reads back can be listed.
pub fn printed_declarations_are_sound()
    ensures sound { PrintedDeclarationsAreSound }
    ensures additions { WhatIsAddedIsDeclared }
    ensures variables { VariablesThatReadCanBeListed }
{}

/// What is printed for a linear process that fits a signature can be read, with the constants that are added for empty lists.
pub fn fitting_linears_read()
    ensures { FittingLinearsRead }
{}

/// Names stay identifiers as structs, constants and actions are added, and what is written for a sort has that sort.
pub fn names_stay_identifiers()
    ensures stay { NamesStayIdentifiers }
    ensures declared { DeclaredStayIdentifiers }
    ensures sorts { WrittenSortsRead }
{}

/// What is printed for a linear process whose variables have their own names, and whose conditions say nothing needless, is a canonical text.
pub fn printed_texts_are_canonical()
    ensures { PrintedTextsAreCanonical }
{}
