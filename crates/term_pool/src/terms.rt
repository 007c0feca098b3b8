//! What terms are made of.

use data_theory::{FunId, Num, SortId, TermId, VarId};

/// What stands at the root of a term.
#[derive(Clone, Copy, Debug, PartialEq, Eq, Hash)]
pub enum Head {
    /// A variable of the signature.
    Var(VarId),
    /// A numeral of a sort: Pos, Nat or Int.
    Num(SortId, Num),
    /// A function of the signature, built-in or declared.
    Fun(FunId),
}

/// A term whose arguments are terms of a pool. A variable and a numeral have none.
#[derive(Debug, PartialEq, Eq, Hash, Drop)]
pub struct Node {
    pub head: Head,
    pub args: Vec<TermId>,
}

/// An equation: where the condition holds, the left side equals the right side, whatever stands for the variables.
#[derive(Debug, Drop)]
pub struct Equation {
    /// The variables that it speaks of.
    pub vars: Vec<VarId>,
    /// A term of sort Bool; `true` where none was written.
    pub cond: TermId,
    pub left: TermId,
    pub right: TermId,
}

/// Written equations, in the order of the text.
#[derive(Debug, Drop)]
pub struct Theory {
    pub equations: Vec<Equation>,
}
