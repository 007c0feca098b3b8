//! Greibach forms in code.

ghost use Rattle.std.specs.Prelude.{◌≡◌, ◌↔◌, IsTrue};
ghost use Rattle.greibach.specs.PlainForms.{plain_form};
ghost use Rattle.greibach.specs.Tails.{is_tail_equation, is_tail_form, HasTails};

use data_theory::{TermId, VarId};
use process_terms::Label;

/// A summand: for some values of its sum variables, where its condition is true, it does its label and then calls equations, one
/// after another, each with arguments. The equations are numbered from 1. Without calls it ends.
#[derive(Debug, Drop)]
pub struct GreibachSummand {
    pub sums: Vec<VarId>,
    pub cond: TermId,
    pub label: Label,
    pub next: Vec<(usize, Vec<TermId>)>,
}

/// An equation: its parameters and its summands.
#[derive(Debug, Drop)]
pub struct GreibachEquation {
    pub params: Vec<VarId>,
    pub summands: Vec<GreibachSummand>,
}

/// A Greibach normal form (book, guarded recursion): equations, and the arguments with which the first one starts.
#[derive(Debug, Drop)]
pub struct Greibach {
    pub equations: Vec<GreibachEquation>,
    pub init: Vec<TermId>,
}

impl GreibachEquation {
    /// Whether no summand has two calls.
    fn is_tail(&self) -> bool
        ensures { result ≡ is_tail_equation self.now }
    {
        self.summands.iter().all(|summand| summand.next.len() <= 1)
    }
}

impl Greibach {
    fn all_are_tail(&self) -> bool
        ensures { result ≡ is_tail_form self.now }
    {
        self.equations.iter().all(|equation| equation.is_tail())
    }

    /// Whether no summand has two calls.
    pub fn is_tail(&self) -> bool
        ensures { IsTrue result ↔ HasTails (plain_form self.now) }
    {
        self.all_are_tail()
    }
}
