//! The operations on numbers.

/// An operation on one or two numbers, x and y. One of a single number ignores y.
///
/// The operations and their values are those of the mCRL2 language reference for `Pos`, `Nat` and `Int`.
#[derive(Clone, Copy, Debug, PartialEq, Eq)]
pub enum NumOp {
    /// `x + y`
    Add,
    /// `x - y`
    Sub,
    /// `x * y`
    Mul,
    /// `x div y`, the greatest whole number whose product with y is at most x. It exists where y is at least 1.
    Div,
    /// `x mod y`, what `div` leaves of x. It exists where y is at least 1.
    Mod,
    /// `-x`
    Neg,
    /// `abs(x)`
    Abs,
    /// `succ(x)`
    Succ,
    /// `pred(x)`
    Pred,
    /// `exp(x, y)`, where 0 to the power 0 is 1. It exists where y isn't negative.
    Exp,
    /// `min(x, y)`
    Min,
    /// `max(x, y)`
    Max,
    /// `Nat2Pos(x)` and `Int2Pos(x)`. It exists where x is at least 1.
    ToPos,
    /// `Int2Nat(x)`. It exists where x isn't negative.
    ToNat,
    /// `Pos2Int(x)` and `Nat2Int(x)`
    ToInt,
}
