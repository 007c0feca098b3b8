//! The sorts of provably equal terms.

ghost use Rattle.data_theory.specs.SortLaws.{ProvablyEqualTermsHaveTheSameSort};

/// Over well-formed equations a closed term has a sort exactly where every provably equal term has it.
pub fn provably_equal_terms_have_the_same_sort()
    ensures { ProvablyEqualTermsHaveTheSameSort }
{}
