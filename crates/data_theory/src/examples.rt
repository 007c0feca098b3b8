//! Worked derivations, as checks of the definitions.

ghost use Rattle.data_theory.specs.Examples.{FalseIsNormal, HeadOfThree, MappingsAreEqual, NoNumeralBehindTheLast, NotTrueGoesToFalse, OneIsNotTwo, SmallDataAreConsistent, SmallDataMeetThePremises, TheLastNumeral, TrueIsFalseIsInconsistent, TwoIsInOneTwo, WrappedNumbersTell};

/// `2 in [1, 2]` is provably true.
pub fn membership_computes()
    ensures { TwoIsInOneTwo }
{}

/// `head([3]) == 3` is provably true.
pub fn head_computes()
    ensures { HeadOfThree }
{}

/// `1 == 2` is provably false.
pub fn numerals_differ()
    ensures { OneIsNotTwo }
{}

/// With `struct n(Nat)`, `n(x) == n(y)` gives that x and y are provably equal.
pub fn a_constructor_is_injective()
    ensures { WrappedNumbersTell }
{}

/// With the equation `f(x) = g(x)`, `f(t) == g(t)` is provably true.
pub fn an_equation_is_used()
    ensures { MappingsAreEqual }
{}

/// The equation `true = false` makes any data inconsistent.
pub fn true_is_false_is_inconsistent()
    ensures { TrueIsFalseIsInconsistent }
{}

/// Without written equations `!true` goes to `false` by one use, and `false` is normal.
pub fn not_computes()
    ensures goes { NotTrueGoesToFalse }
    ensures normal { FalseIsNormal }
{}

/// A struct with a projection and a recogniser, a sort without constructors and an equation `m = []` meet every premise of
/// the law on consistency.
pub fn the_premises_of_consistency_can_be_met()
    ensures premises { SmallDataMeetThePremises }
    ensures consistent { SmallDataAreConsistent }
{}

/// 2^128 - 1 has a numeral of Nat, and no greater number has one, so `sum n: Nat . a(n)` does no a(2^128).
pub fn numerals_end()
    ensures last { TheLastNumeral }
    ensures behind { NoNumeralBehindTheLast }
{}
