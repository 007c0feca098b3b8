//! The tables of a rewriter.

ghost use Rattle.std.specs.Prelude.{◌≡◌, ◌<◌, length, slice_get, Some, get_or};
ghost use Rattle.data_rewriter.specs.Signs.{sign_at};
ghost use Rattle.data_rewriter.specs.Rules.{numbers_at};
ghost use Rattle.data_rewriter.specs.Signatures.{places_at};

use crate::signs::Sign;
use data_theory::{FunId, TermId};

/// A written equation.
#[derive(Clone, Copy)]
pub struct Rule {
    pub cond: TermId,
    pub left: TermId,
    pub right: TermId,
}

/// What functions are to the built-in equations, and the written equations by the head of their left side.
#[derive(Drop)]
pub struct Tables {
    /// The sign of each function.
    pub signs: Vec<Sign>,
    /// For each function the equalities of its arguments' sorts.
    pub places: Vec<Vec<FunId>>,
    pub rules: Vec<Rule>,
    /// For each function the numbers of the rules that have it at the root of their left side.
    pub by_head: Vec<Vec<usize>>,
}

impl Tables {
    /// The sign of a function.
    pub fn sign(&self, fun: FunId) -> Sign
        ensures { result ≡ sign_at self.now.signs.items fun }
    {
        if fun.0 < self.signs.len() {
            self.signs[fun.0]
        } else {
            Sign::True
        }
    }

    /// The numbers of the rules that have a function at the root of their left side.
    pub fn numbers(&self, fun: FunId) -> &[usize]
        ensures { result.now ≡ numbers_at self.now fun }
    {
        if fun.0 < self.by_head.len() {
            self.by_head[fun.0].as_slice()
        } else {
            &[]
        }
    }

    /// The equalities of the sorts of a constructor's arguments.
    pub fn equalities(&self, fun: FunId) -> &[FunId]
        ensures { result.now ≡ places_at self.now fun }
    {
        if fun.0 < self.places.len() {
            self.places[fun.0].as_slice()
        } else {
            &[]
        }
    }
}
