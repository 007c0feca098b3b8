//! Whole numbers.

ghost use Rattle.std.specs.Prelude.{◌≡◌, false};

/// A whole number, as a sign and a magnitude. Zero isn't negative, so that each number is written in one way.
#[derive(Clone, Copy, Debug, PartialEq, Eq, Hash)]
pub struct Num {
    pub negative: bool,
    pub magnitude: u128,
    ghost zero_is_not_negative: { magnitude ≡ 0 → negative ≡ false },
}
