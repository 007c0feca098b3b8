//! What a product is made of: its two sides, and its summands before their conditions are joined.

use data_theory::{TermId, VarId};
use indexmap::IndexSet;
use process_terms::Label;

/// A summand of one side.
#[derive(Debug, Drop)]
pub struct Move {
    pub sums: Vec<VarId>,
    /// The parts of its condition, without `true`.
    pub parts: Vec<TermId>,
    pub label: Label,
    /// The side's columns after it. Where it ends, these are the parameters, with the flag set.
    pub onward: Vec<TermId>,
    /// Whether it ends.
    pub ends: bool,
}

/// A side: its columns, which are its parameters and then its flag if it has one, as terms, and its summands.
#[derive(Debug, Drop)]
pub struct Side {
    pub columns: Vec<TermId>,
    /// The part `!f` where it has a flag f, and no part where it has none.
    pub running: Vec<TermId>,
    /// The flag as a term.
    pub flag: Option<TermId>,
    pub moves: Vec<Move>,
}

/// A summand whose condition is a list of parts yet.
#[derive(Debug, Drop)]
pub struct Draft {
    pub sums: Vec<VarId>,
    pub parts: Vec<TermId>,
    pub label: Label,
    pub next: Option<Vec<TermId>>,
}

/// The terms of a side's parameters and of its flag. The last three lists have one term where there is a flag, and none where
/// there is none.
#[derive(Debug, Drop)]
pub struct Frame {
    pub params: Vec<TermId>,
    pub flag: Option<TermId>,
    /// The flag as a column.
    pub own: Vec<TermId>,
    /// The part that the flag isn't set.
    pub running: Vec<TermId>,
    /// The flag's column once it is set.
    pub set: Vec<TermId>,
}

/// Variables of the side that gives way, in their order, and the new ones in their places.
#[derive(Drop)]
pub struct Renewal {
    pub from: IndexSet<VarId>,
    pub to: Vec<VarId>,
}
