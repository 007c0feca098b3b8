//! The built-in equations on numbers.

ghost use Rattle.std.specs.Prelude.{◌≡◌, List, [], ◌∷◌, MatchOption, IfSome, pos};
ghost use Rattle.data_theory.specs.Signature.{Sig};
ghost use Rattle.data_theory.specs.IdTables.{IsTable};
ghost use Rattle.data_theory.specs.IdTrees.{Tree};
ghost use Rattle.data_theory.specs.Terms.{Sort, Operation, Term, arithmetic, minus, comparison};
ghost use Rattle.data_theory.specs.Arithmetic.{compares};
ghost use Rattle.data_theory.specs.Whole.{whole_of};
ghost use Rattle.data_theory.specs.Equations.{one, two};
ghost use Rattle.number_rules.specs.Rule.{IsExact, rule_of};
ghost use Rattle.data_rewriter.specs.Standing.{IsSortOf};
ghost use Rattle.data_rewriter.specs.Signs.{ComputesBy, comparison_of};
ghost use Rattle.data_rewriter.specs.Views.{IsView};
ghost use Rattle.data_rewriter.specs.FirstLines.{IsFirstLine};

use crate::rights::{Line, Right};
use crate::signs::Comparison;
use crate::truth_lines::line;
use crate::views::{View, number_over};
use data_theory::{Num, SortId};
use number_rules::{NumOp, NumberRules, is_less, negated};

const INT: SortId = SortId(3);

/// The first equation at an operation on one number of a sort, with a result of another.
pub fn one_line<F: Fn(NumOp, Num, Num) -> Option<Num>>(
    rules: &NumberRules<F>,
    op: NumOp,
    from: SortId,
    to: SortId,
    x: View,
) -> Option<Line>
    requires { IsExact (F.pre (rule_of rules.now)) (F.post (rule_of rules.now)) }
    ensures { (sig : Sig) (ts : List Tree) (o : Operation) (a b : Sort) (t : Term) → IsTable sig → ComputesBy o op → IsSortOf sig from a → IsSortOf sig to b → IsView sig ts t x → IsFirstLine sig ts (one (arithmetic o (a ∷ []) b) t) result }
{
    let Some(num) = number_over(x, from) else {
        return None;
    };
    let zero = Num {
        negative: false,
        magnitude: 0,
    };
    let Some(value) = rules.apply(op, num, zero) else {
        return None;
    };
    line(25, Right::Numeral(to, value))
}

/// The first equation at an operation on two numbers.
pub fn two_line<F: Fn(NumOp, Num, Num) -> Option<Num>>(
    rules: &NumberRules<F>,
    op: NumOp,
    left: SortId,
    right: SortId,
    to: SortId,
    x: View,
    y: View,
) -> Option<Line>
    requires { IsExact (F.pre (rule_of rules.now)) (F.post (rule_of rules.now)) }
    ensures { (sig : Sig) (ts : List Tree) (o : Operation) (a b d : Sort) (t u : Term) → IsTable sig → ComputesBy o op → IsSortOf sig left a → IsSortOf sig right b → IsSortOf sig to d → IsView sig ts t x → IsView sig ts u y → IsFirstLine sig ts (two (arithmetic o (a ∷ b ∷ []) d) t u) result }
{
    let Some(first) = number_over(x, left) else {
        return None;
    };
    let Some(second) = number_over(y, right) else {
        return None;
    };
    let Some(value) = rules.apply(op, first, second) else {
        return None;
    };
    line(26, Right::Numeral(to, value))
}

/// The first equation at the prefix `-` of a sort.
pub fn minus_line(sort: SortId, x: View) -> Option<Line>
    ensures { (sig : Sig) (ts : List Tree) (a : Sort) (t : Term) → IsTable sig → IsSortOf sig sort a → IsView sig ts t x → IsFirstLine sig ts (one (minus a) t) result }
{
    let Some(num) = number_over(x, sort) else {
        return None;
    };
    line(27, Right::Numeral(INT, negated(num)))
}

/// Whether one number stands so to another.
fn compare(comparison: Comparison, x: Num, y: Num) -> bool
    ensures { result ≡ compares (comparison_of comparison) (whole_of x) (whole_of y) }
{
    match comparison {
        Comparison::Less => is_less(x, y),
        Comparison::AtMost => !is_less(y, x),
        Comparison::Greater => is_less(y, x),
        Comparison::AtLeast => !is_less(x, y),
    }
}

/// The first equation at a comparison of a sort.
pub fn compare_line(sign: Comparison, sort: SortId, x: View, y: View) -> Option<Line>
    ensures { (sig : Sig) (ts : List Tree) (a : Sort) (t u : Term) → IsTable sig → IsSortOf sig sort a → IsView sig ts t x → IsView sig ts u y → IsFirstLine sig ts (two (comparison (comparison_of sign) a) t u) result }
{
    let Some(first) = number_over(x, sort) else {
        return None;
    };
    let Some(second) = number_over(y, sort) else {
        return None;
    };
    line(28, Right::Truth(compare(sign, first, second)))
}
