//! Laws of provable equality.

ghost use Rattle.data_theory.specs.EqualityLaws.{EqualityIsACongruence, EqualityIsReflexive, EqualityIsSymmetric, EqualityIsTransitive, EqualsIsProvableEquality, EqualsItself, PlacesAreReflexive, PlacesAreSymmetric, PlacesAreTransitive, PuttingAllInRespectsEquality, PuttingInRespectsEquality};

/// Provable equality is an equivalence, on terms and on lists of terms.
pub fn equality_is_an_equivalence()
    ensures reflexive { EqualityIsReflexive }
    ensures symmetric { EqualityIsSymmetric }
    ensures transitive { EqualityIsTransitive }
    ensures reflexive_on_lists { PlacesAreReflexive }
    ensures symmetric_on_lists { PlacesAreSymmetric }
    ensures transitive_on_lists { PlacesAreTransitive }
{}

/// A symbol applied to provably equal terms gives provably equal terms.
pub fn equality_is_a_congruence()
    ensures { EqualityIsACongruence }
{}

/// Environments that are provably equal, variable by variable, make provably equal terms, and lists of them.
pub fn putting_in_respects_equality()
    ensures in_a_term { PuttingInRespectsEquality }
    ensures in_a_list { PuttingAllInRespectsEquality }
{}

/// `x == y` is provably true exactly where x and y are provably equal; so `x == x` is provably true.
pub fn equals_is_provable_equality()
    ensures either_way { EqualsIsProvableEquality }
    ensures of_itself { EqualsItself }
{}
