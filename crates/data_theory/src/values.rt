//! Values of closed terms, and consistency by them.

ghost use Rattle.data_theory.specs.ConsistencyLaws.{BuiltInEquationsAreConsistent, BuiltInEquationsHold, EquationsOfValuesAreConsistent, ProvablyEqualTermsHaveOneValue, QuotientAndRemainder, SymbolsKeepSorts, TermsHaveValues, ThereAreInterpretations};

/// The quotient times the divisor and the remainder make the number, and the remainder is below the divisor.
pub fn quotient_is_the_greatest()
    ensures { QuotientAndRemainder }
{}

/// Over any interpretation that keeps sorts, a symbol gives a value of its sort for values of its arguments' sorts.
pub fn symbols_keep_sorts()
    ensures { SymbolsKeepSorts }
{}

/// A closed term has a value of its sort, over any such interpretation.
pub fn closed_terms_have_values()
    ensures { TermsHaveValues }
{}

/// Where the condition of a built-in equation has the value true, both sides have one value.
pub fn built_in_equations_hold()
    ensures { BuiltInEquationsHold }
{}

/// Where the written equations hold of the values, provably equal terms have one value.
pub fn provably_equal_terms_have_one_value()
    ensures { ProvablyEqualTermsHaveOneValue }
{}

/// Where no sort is empty, there is an interpretation that keeps sorts, in which each mapping gives a default value.
pub fn no_empty_sort_gives_an_interpretation()
    ensures { ThereAreInterpretations }
{}

/// Data whose written equations hold of the values are consistent.
pub fn equations_of_values_are_consistent()
    ensures { EquationsOfValuesAreConsistent }
{}

/// Where no sort is empty and the written equations are `n = []` for mappings n without arguments, the data are
/// consistent.
pub fn built_in_equations_are_consistent()
    ensures { BuiltInEquationsAreConsistent }
{}
