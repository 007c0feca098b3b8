//! A stored closure that computes the operations.

ghost use Rattle.number_rules.specs.Rule.{IsExact, rule_of};
ghost use Rattle.number_rules.specs.NumberValues.{IsAnswer, value_of};
ghost use Rattle.data_theory.specs.Whole.{whole_of};

use crate::num_op::NumOp;
use data_theory::Num;

/// A closure that computes the operations on numbers.
#[derive(Drop)]
pub struct NumberRules<F: Fn(NumOp, Num, Num) -> Option<Num>> {
    rule: F,
}

impl<F: Fn(NumOp, Num, Num) -> Option<Num>> NumberRules<F> {
    /// The rules of a closure. The closure may be called on every operation and pair of numbers with magnitudes of at most
    /// 2^128 - 1, and answers the operation's value, or `None` exactly where there is none or its magnitude is greater.
    pub fn new(rule: F) -> NumberRules<F>
        requires { IsExact (F.pre rule) (F.post rule) }
        ensures { IsExact (F.pre (rule_of result)) (F.post (rule_of result)) }
    {
        NumberRules { rule }
    }

    /// The value of an operation, and `None` exactly where there is none or its magnitude is above 2^128 - 1.
    pub fn apply(&self, op: NumOp, x: Num, y: Num) -> Option<Num>
        requires { IsExact (F.pre (rule_of self.now)) (F.post (rule_of self.now)) }
        ensures { IsAnswer (value_of op (whole_of x) (whole_of y)) result }
    {
        (self.rule)(op, x, y)
    }
}
