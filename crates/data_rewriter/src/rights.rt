//! Right sides of built-in equations.

use data_theory::{FunId, Num, SortId, TermId};

/// The right side of a built-in equation, over terms of a pool.
#[derive(Clone, Copy)]
pub enum Right {
    /// A part of the left side.
    Is(TermId),
    /// `true` or `false`.
    Truth(bool),
    Numeral(SortId, Num),
    /// `!x`
    Not(TermId),
    /// `!f(x, y)`
    NotTwo(FunId, TermId, TermId),
    /// `!x || y`
    NotOr(TermId, TermId),
    /// `f(x)`
    One(FunId, TermId),
    /// `f(x, y)`
    Two(FunId, TermId, TermId),
    /// `f(x, g(y))`
    TwoOne(FunId, TermId, FunId, TermId),
    /// `f(x, g(y, z))`
    TwoTwo(FunId, TermId, FunId, TermId, TermId),
    /// `f(x, y) && g(z, w)`
    Both(FunId, TermId, TermId, FunId, TermId, TermId),
    /// `f(x, y) || g(z, w)`
    Either(FunId, TermId, TermId, FunId, TermId, TermId),
    /// `Pos2Nat(succ(f(x)))`
    Longer(FunId, TermId),
    /// `f(x, Int2Nat(y - 1))`
    Later(FunId, TermId, TermId),
    /// The equalities of the arguments of two applications of a constructor.
    Places(FunId, TermId, TermId),
}

/// A built-in equation that matches at a root.
#[derive(Clone, Copy)]
pub struct Line {
    /// Its place among the built-in equations.
    pub number: usize,
    /// Where it has the condition `0 < n`, this n.
    pub above_zero: Option<TermId>,
    pub right: Right,
}
