//! Laws on the values of the operations.
//!
//! Each function has an empty body, and its contract is a law on whole numbers of any size.

ghost use Rattle.number_rules.specs.NumberLaws.{CastsExist, DivAndModExist, DivIsTheGreatest, ModIsTheRest, PowersExist};

/// `x div y` is the greatest whole number whose product with y is at most x.
pub fn div_is_the_greatest()
    ensures { DivIsTheGreatest }
{}

/// The product of `x div y` and y, and `x mod y`, make x.
pub fn mod_is_the_rest()
    ensures { ModIsTheRest }
{}

/// `x div y` and `x mod y` exist exactly where y is at least 1.
pub fn div_and_mod_exist()
    ensures { DivAndModExist }
{}

/// `exp(x, y)` exists exactly where y isn't negative.
pub fn powers_exist()
    ensures { PowersExist }
{}

/// The cast to Pos exists exactly where x is at least 1, and that to Nat exactly where x isn't negative.
pub fn casts_exist()
    ensures { CastsExist }
{}
