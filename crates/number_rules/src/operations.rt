//! The exact operations.

ghost use Rattle.number_rules.specs.NumberValues.{IsAnswer, value_of};
ghost use Rattle.data_theory.specs.Whole.{whole_of};

use crate::num_op::NumOp;
use crate::signs::{
    is_less, negated, product, raised, signed, sum, whole_quotient, whole_remainder,
};
use data_theory::Num;

/// The value of an operation on numbers with magnitudes of at most 2^128 - 1, computed with no wider type; `None` exactly
/// where there is no value or its magnitude is above 2^128 - 1. No operation takes more than some hundred steps.
pub fn exact(op: NumOp, x: Num, y: Num) -> Option<Num>
    ensures { IsAnswer (value_of op (whole_of x) (whole_of y)) result }
{
    match op {
        NumOp::Add => sum(x, y),
        NumOp::Sub => sum(x, negated(y)),
        NumOp::Mul => product(x, y),
        NumOp::Div => whole_quotient(x, y),
        NumOp::Mod => whole_remainder(x, y),
        NumOp::Neg => Some(negated(x)),
        NumOp::Abs => Some(signed(false, x.magnitude)),
        NumOp::Succ => sum(x, signed(false, 1)),
        NumOp::Pred => sum(x, signed(true, 1)),
        NumOp::Exp => raised(x, y),
        NumOp::Min => Some(if is_less(x, y) { x } else { y }),
        NumOp::Max => Some(if is_less(x, y) { y } else { x }),
        NumOp::ToPos => if x.negative || x.magnitude == 0 {
            None
        } else {
            Some(x)
        },
        NumOp::ToNat => if x.negative { None } else { Some(x) },
        NumOp::ToInt => Some(x),
    }
}
