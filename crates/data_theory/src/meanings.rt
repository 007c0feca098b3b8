//! What the numbers of a signature mean in the theory of data.
//!
//! A pool and a parser know sorts and functions by their numbers, and the theory of data by what they are. One map leads from
//! the first to the second. The laws here say that it loses nothing, that it goes through substitution, and that it stays.

ghost use Rattle.data_theory.specs.IdGrowth.{GrowthAfterGrowthIsGrowth, WithAFunctionItIsGrown, WithAListSortItIsGrown, WithASortItIsGrown, WithATextItIsGrown, WithAVariableItIsGrown, WithAnActionItIsGrown, WithAnAliasItIsGrown};
ghost use Rattle.data_theory.specs.IdTableLaws.{ActionsKeepTheTables, AliasesKeepTheTables, ConstructorsKeepTheTables, DeclaredSortsKeepTheTables, FunctionsKeepTheTables, ListSortsKeepTheTables, SortsKeepTheTables, StructsKeepTheTables, TextsKeepTheTables, TheFirstSignatureIsATable, VariablesKeepTheTables};
ghost use Rattle.data_theory.specs.IdRoles.{ActionsKeepTheRoles, AliasesKeepTheRoles, ConstructorsGiveNoRoleToOthers, ConstructorsKeepTheRoles, DeclaredSortsGiveNoRole, DeclaredSortsKeepTheRoles, FunctionsGiveNoRole, FunctionsKeepTheRoles, GrowthKeepsMeantData, ListSortsGiveNoRole, ListSortsKeepTheRoles, MeantDataAreData, NewFunctionsHaveNoRole, RolesAreFound, StructSortsGiveNoRoleToOthers, StructSortsKeepTheRoles, StructsGiveNoRoleToOthers, StructsKeepTheRoles, TextsKeepTheRoles, TheFirstSignatureHasRoles, VariablesKeepTheRoles};
ghost use Rattle.data_theory.specs.IdLaws.{DeclaredFunctionsStandInTheData, DeclaredSortsStandInTheData, DifferentFunctionsMeanDifferentSymbols, DifferentSortsMeanDifferentSorts, DifferentTreesMeanDifferentTerms, GrowthKeepsMeantSorts, GrowthKeepsMeantSymbols, GrowthKeepsMeantTerms, ListedFunctionsMeanTheirPlaces, MergingTreesMergesTerms, PuttingInTreesPutsInTerms, SettingConstructorsKeepsMeantTerms, SortedTreesAreWithin, SortedTreesMeanSortedTerms, SortsMeanTheirKinds};

/// A sort means what its kind says: a list sort the lists over what its element means, and a declared sort the one with its
/// number among the declared ones.
pub fn sorts_mean_their_kinds()
    ensures { SortsMeanTheirKinds }
{}

/// The declared sorts and functions stand in the data in their order, with their constructions, sorts and roles. The order of
/// the functions is that of [`crate::Signature::funs`].
pub fn the_data_are_what_is_declared()
    ensures sorts { DeclaredSortsStandInTheData }
    ensures functions { DeclaredFunctionsStandInTheData }
    ensures listed { ListedFunctionsMeanTheirPlaces }
{}

/// Different sorts, functions and trees of a signature mean different sorts, symbols and terms.
pub fn different_numbers_mean_different_things()
    ensures sorts { DifferentSortsMeanDifferentSorts }
    ensures symbols { DifferentFunctionsMeanDifferentSymbols }
    ensures terms { DifferentTreesMeanDifferentTerms }
{}

/// The term of trees put into a tree is the terms put into the term, and merging is the same on both sides.
pub fn meaning_goes_through_substitution()
    ensures merging { MergingTreesMergesTerms }
    ensures putting_in { PuttingInTreesPutsInTerms }
{}

/// Where what is new comes behind the old in each table, what was there means what it meant; so it does where a declared sort
/// gets its constructors.
pub fn growth_keeps_meanings()
    ensures sorts { GrowthKeepsMeantSorts }
    ensures symbols { GrowthKeepsMeantSymbols }
    ensures terms { GrowthKeepsMeantTerms }
    ensures constructors { SettingConstructorsKeepsMeantTerms }
{}

/// What the calls that add leave is such a growth, and so is one after another.
pub fn what_is_added_comes_behind()
    ensures texts { WithATextItIsGrown }
    ensures actions { WithAnActionItIsGrown }
    ensures variables { WithAVariableItIsGrown }
    ensures aliases { WithAnAliasItIsGrown }
    ensures functions { WithAFunctionItIsGrown }
    ensures sorts { WithASortItIsGrown }
    ensures list_sorts { WithAListSortItIsGrown }
    ensures after_growth { GrowthAfterGrowthIsGrowth }
{}

/// A tree whose functions fit their arguments' sorts means a well-sorted term, and its numbers stand in the tables.
pub fn sorted_trees_mean_sorted_terms()
    ensures sorted { SortedTreesMeanSortedTerms }
    ensures within { SortedTreesAreWithin }
{}

/// The tables hold from the start, and are kept by what is added: a text, an action, a variable, an alias, a declared function
/// that isn't there, a sort with its built-in functions, or the constructors of a declared sort, also those of a `struct` with
/// their projections and recognisers.
pub fn tables_are_kept()
    ensures first { TheFirstSignatureIsATable }
    ensures texts { TextsKeepTheTables }
    ensures actions { ActionsKeepTheTables }
    ensures variables { VariablesKeepTheTables }
    ensures aliases { AliasesKeepTheTables }
    ensures functions { FunctionsKeepTheTables }
    ensures sorts { SortsKeepTheTables }
    ensures declared_sorts { DeclaredSortsKeepTheTables }
    ensures list_sorts { ListSortsKeepTheTables }
    ensures constructors { ConstructorsKeepTheTables }
    ensures structs { StructsKeepTheTables }
{}

/// The data that a signature means are well formed, each function has the role that the entries give it, and the data grow with
/// the signature, so that what was provable stays provable.
pub fn meant_data_are_data()
    ensures roles { RolesAreFound }
    ensures well_formed { MeantDataAreData }
    ensures growth { GrowthKeepsMeantData }
{}

/// The roles hold from the start, and are kept by what is added: a text, an action, a variable, an alias, a declared function,
/// a sort without constructors with its built-in functions, the constructors of a declared sort, or what a `struct` declares.
pub fn roles_are_kept()
    ensures first { TheFirstSignatureHasRoles }
    ensures texts { TextsKeepTheRoles }
    ensures actions { ActionsKeepTheRoles }
    ensures variables { VariablesKeepTheRoles }
    ensures aliases { AliasesKeepTheRoles }
    ensures functions { FunctionsKeepTheRoles }
    ensures declared_sorts { DeclaredSortsKeepTheRoles }
    ensures list_sorts { ListSortsKeepTheRoles }
    ensures constructors { ConstructorsKeepTheRoles }
    ensures structs { StructsKeepTheRoles }
    ensures struct_sorts { StructSortsKeepTheRoles }
{}

/// A function that was declared by itself has no role: it is a mapping. It gets none by what else is declared, and none by
/// constructors among which it isn't, so that it may become a constructor later.
pub fn new_functions_are_mappings()
    ensures new { NewFunctionsHaveNoRole }
    ensures functions { FunctionsGiveNoRole }
    ensures declared_sorts { DeclaredSortsGiveNoRole }
    ensures list_sorts { ListSortsGiveNoRole }
    ensures constructors { ConstructorsGiveNoRoleToOthers }
    ensures structs { StructsGiveNoRoleToOthers }
    ensures struct_sorts { StructSortsGiveNoRoleToOthers }
{}

ghost use Rattle.data_theory.specs.SignatureLaws.{FirstFunctionsStand, FunctionsOverListsStand, FunctionsOverSortsStand, SignaturesHaveTruthFunctions, VariablesHaveSortsOfTheData};

/// In every signature the functions of the language's table are found by their names and sorts: those over all of its sorts, and
/// those over all of its list sorts. They mean what their rows say; no declared function stands in their place.
pub fn built_in_functions_stand()
    ensures first { FirstFunctionsStand }
    ensures over_sorts { FunctionsOverSortsStand }
    ensures over_lists { FunctionsOverListsStand }
{}

/// In every signature `true`, `false`, `!`, `&&`, `||` and `=>` have the numbers 6 to 11, and mean what they should.
pub fn truth_functions_have_their_numbers()
    ensures { SignaturesHaveTruthFunctions }
{}

/// The sorts of a signature's variables are sorts of the data that it means.
pub fn variables_have_sorts_of_the_data()
    ensures { VariablesHaveSortsOfTheData }
{}
