//! What a function is to the built-in equations.

use data_theory::{FunId, SortId};
use number_rules::NumOp;

/// A sign that compares two numbers: `<`, `<=`, `>` or `>=`.
#[derive(Clone, Copy)]
pub enum Comparison {
    Less,
    AtMost,
    Greater,
    AtLeast,
}

/// What the equality of a sort looks at.
#[derive(Clone, Copy)]
pub enum Equals {
    /// Truth values.
    Bool,
    /// Lists over a sort that has this equality.
    List(SortId, FunId),
    /// Values of a `struct`.
    Struct,
    /// Numbers, and values that have no equations but those of every sort.
    Other,
}

/// What a function is to the built-in equations, with the sorts and the functions that these ask for.
#[derive(Clone, Copy)]
pub enum Sign {
    /// A function without built-in equations at its root or right under a root.
    Other,
    True,
    False,
    Not,
    And,
    Or,
    Implies,
    /// `==` at a sort.
    Equal(SortId, Equals),
    /// `!=`, with the equality of its sort.
    Different(FunId),
    If,
    /// An operation on one number: the sorts of its argument and of its result.
    One(NumOp, SortId, SortId),
    /// An operation on two numbers: the sorts of its arguments and of its result.
    Two(NumOp, SortId, SortId, SortId),
    /// The prefix `-` at a sort.
    Minus(SortId),
    /// A comparison at a sort.
    Compare(Comparison, SortId),
    /// `[]`; as with all functions on lists, over a sort of elements.
    Empty(SortId),
    Cons(SortId),
    /// `<|`, with the `|>` over the same sort.
    Snoc(SortId, FunId),
    Concat(SortId),
    Size(SortId),
    At(SortId),
    Head(SortId),
    Tail(SortId),
    Rhead(SortId),
    Rtail(SortId),
    /// `in`, with the equality of the elements' sort.
    In(SortId, FunId),
    Constructor,
    /// The projection of a constructor's place.
    Projection(FunId, usize),
    /// The recogniser of a constructor.
    Recogniser(FunId),
}
