//! Operations on magnitudes.

ghost use Rattle.std.specs.Prelude.{◌^◌, ◌<◌, SomeIff};

/// A power, by squaring, or `None` where it is above 2^128 - 1. It calls itself at most 128 times.
pub fn power(base: u128, exponent: u128) -> Option<u128>
    ensures { SomeIff result (base ^ exponent < 2 ^ 128) (base ^ exponent) }
{
    if exponent == 0 {
        return Some(1);
    }
    let half = power(base, exponent / 2)?;
    let square = half.checked_mul(half)?;
    if exponent % 2 == 0 {
        Some(square)
    } else {
        square.checked_mul(base)
    }
}
