//! Operations on numbers, by their signs and magnitudes.

ghost use Rattle.std.specs.Prelude.{◌≡◌, ◌<◌, ℤ, pos, neg_ℤ, ◌+ℤ◌, ◌*ℤ◌, Some, if◌then◌else◌};
ghost use lib.Signed.{lt_z};
ghost use Rattle.data_theory.specs.Arithmetic.{quotient, quotient_if, remainder, remainder_if, raised_if};
ghost use Rattle.data_theory.specs.Whole.{whole_of};
ghost use Rattle.number_rules.specs.NumberValues.{IsAnswer};

use crate::magnitudes::power;
use data_theory::Num;

/// The number of a sign and a magnitude, where 0 comes without a sign.
pub fn signed(negative: bool, magnitude: u128) -> Num
    ensures { whole_of result ≡ (if negative then neg_ℤ (pos magnitude) else pos magnitude) }
{
    Num {
        negative: negative && magnitude != 0,
        magnitude,
    }
}

/// `-x`
pub fn negated(x: Num) -> Num
    ensures { whole_of result ≡ neg_ℤ (whole_of x) }
{
    signed(!x.negative, x.magnitude)
}

/// Whether x is less than y.
pub fn is_less(x: Num, y: Num) -> bool
    ensures { result ≡ lt_z (whole_of x) (whole_of y) }
{
    match (x.negative, y.negative) {
        (true, true) => y.magnitude < x.magnitude,
        (true, false) => true,
        (false, true) => false,
        (false, false) => x.magnitude < y.magnitude,
    }
}

/// `x + y`
pub fn sum(x: Num, y: Num) -> Option<Num>
    ensures { IsAnswer (Some (whole_of x +ℤ whole_of y)) result }
{
    if x.negative == y.negative {
        let magnitude = x.magnitude.checked_add(y.magnitude)?;
        Some(signed(x.negative, magnitude))
    } else if x.magnitude >= y.magnitude {
        Some(signed(x.negative, x.magnitude - y.magnitude))
    } else {
        Some(signed(y.negative, y.magnitude - x.magnitude))
    }
}

/// `x * y`
pub fn product(x: Num, y: Num) -> Option<Num>
    ensures { IsAnswer (Some (whole_of x *ℤ whole_of y)) result }
{
    let magnitude = x.magnitude.checked_mul(y.magnitude)?;
    Some(signed(x.negative != y.negative, magnitude))
}

/// x divided by a magnitude and rounded down.
fn quotient_by(x: Num, divisor: u128) -> Num
    requires { 0 < divisor }
    ensures { whole_of result ≡ quotient (whole_of x) divisor }
{
    if x.negative {
        signed(true, (x.magnitude - 1) / divisor + 1)
    } else {
        signed(false, x.magnitude / divisor)
    }
}

/// What is left of x then.
fn remainder_by(x: Num, divisor: u128) -> Num
    requires { 0 < divisor }
    ensures { whole_of result ≡ pos (remainder (whole_of x) divisor) }
{
    if x.negative {
        signed(false, divisor - 1 - (x.magnitude - 1) % divisor)
    } else {
        signed(false, x.magnitude % divisor)
    }
}

/// `x div y`
pub fn whole_quotient(x: Num, y: Num) -> Option<Num>
    ensures { IsAnswer (quotient_if (whole_of x) (whole_of y)) result }
{
    if y.negative || y.magnitude == 0 {
        None
    } else {
        Some(quotient_by(x, y.magnitude))
    }
}

/// `x mod y`
pub fn whole_remainder(x: Num, y: Num) -> Option<Num>
    ensures { IsAnswer (remainder_if (whole_of x) (whole_of y)) result }
{
    if y.negative || y.magnitude == 0 {
        None
    } else {
        Some(remainder_by(x, y.magnitude))
    }
}

/// `exp(x, y)`
pub fn raised(x: Num, y: Num) -> Option<Num>
    ensures { IsAnswer (raised_if (whole_of x) (whole_of y)) result }
{
    if y.negative {
        return None;
    }
    let magnitude = power(x.magnitude, y.magnitude)?;
    Some(signed(x.negative && y.magnitude % 2 == 1, magnitude))
}
