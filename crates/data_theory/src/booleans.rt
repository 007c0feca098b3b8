//! What is provable of `!`, `&&`, `||`, `=>` and `if`.

ghost use Rattle.data_theory.specs.BooleanLaws.{ConjunctionBeforeFalse, ConjunctionIsTrue, ConjunctionWithFalse, DisjunctionBeforeFalse, DisjunctionBeforeTrue, DisjunctionIsFalse, DisjunctionWithFalse, DisjunctionWithTrue, IfFalse, IfTrue, ImplicationFromFalse, ImplicationFromTrue, NegationIsFalse, NegationIsTrue};

/// A negation is provably true if and only if its part is provably false, and the other way round.
pub fn negation_is_exact()
    ensures true_of { NegationIsTrue }
    ensures false_of { NegationIsFalse }
{}

/// A conjunction is provably true if and only if both parts are, and provably false where one of them is.
pub fn conjunction_is_exact()
    ensures both { ConjunctionIsTrue }
    ensures first_is_false { ConjunctionWithFalse }
    ensures second_is_false { ConjunctionBeforeFalse }
{}

/// `x || y` is provably false exactly where x and y are, provably true where one of them is, and provably the other one
/// where one of them is provably false.
pub fn disjunction_with_a_decided_part()
    ensures neither { DisjunctionIsFalse }
    ensures first_is_true { DisjunctionWithTrue }
    ensures second_is_true { DisjunctionBeforeTrue }
    ensures first_is_false { DisjunctionWithFalse }
    ensures second_is_false { DisjunctionBeforeFalse }
{}

/// `x => y` is provably y where x is provably true, and provably true where x is provably false.
pub fn implication_from_a_decided_part()
    ensures first_is_true { ImplicationFromTrue }
    ensures first_is_false { ImplicationFromFalse }
{}

/// `if(b, x, y)` is provably x where b is provably true, and provably y where b is provably false.
pub fn if_with_a_decided_condition()
    ensures condition_is_true { IfTrue }
    ensures condition_is_false { IfFalse }
{}
