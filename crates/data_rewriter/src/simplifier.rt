//! Simplifiers of terms.

ghost use Rattle.std.specs.Prelude.{◌≡◌, ◌↔◌, List, IfOk};
ghost use Rattle.data_theory.specs.Provable.{Equation};
ghost use Rattle.data_theory.specs.Signature.{Sig};
ghost use Rattle.data_theory.specs.Terms.{Term};
ghost use Rattle.data_theory.specs.IdTrees.{Tree};
ghost use Rattle.term_pool.specs.Pools.{Extends};
ghost use Rattle.data_rewriter.specs.Standing.{IsTerm, term_at};
ghost use Rattle.data_rewriter.specs.Simplifying.{IsSimplified};

use crate::machine::Normal;
use crate::rewriter::Rewriter;
use data_theory::{NoMemory, Num, TermId};
use number_rules::NumOp;
use term_pool::Pool;

/// What brings terms into a simpler form, over data that it knows.
pub trait Simplifier {
    /// That it knows these data, and that what it keeps stands in a pool.
    ghost fits: { Self → Sig → List Equation → List Tree → Type 0 };

    /// Which terms are simple over these data.
    ghost simple: { Self → Sig → List Equation → Term → Type 0 };

    /// A simple term with the term's sort, without a variable that the term hasn't, and provably equal to it in every closed
    /// instance, over all data that go on from these and have their equations. No call changes which terms are simple.
    fn simplify(&mut self, pool: &mut Pool, term: TermId) -> Result<TermId, NoMemory>
        requires { (sig : Sig) × (own : List Equation) × fits self.old sig own pool.old.trees × IsTerm sig pool.old.trees term }
        ensures kept { Extends pool.old.trees pool.new.trees }
        ensures fitting { (sig : Sig) (own : List Equation) → fits self.old sig own pool.old.trees → IsTerm sig pool.old.trees term → fits self.new sig own pool.new.trees }
        ensures simplified { IfOk result (λ answer. (sig : Sig) (own : List Equation) → fits self.old sig own pool.old.trees → IsTerm sig pool.old.trees term → IsSimplified sig own pool.old.trees pool.new.trees term answer) }
        ensures reached { IfOk result (λ answer. (sig : Sig) (own : List Equation) → fits self.old sig own pool.old.trees → IsTerm sig pool.old.trees term → simple self.old sig own (term_at sig pool.new.trees answer)) }
        ensures same { (sig : Sig) (own : List Equation) (t : Term) → simple self.new sig own t ↔ simple self.old sig own t };

    /// Nothing is done: what a simplifier fits it fits still when new entries have come.
    fn fits_grown_pools(&self)
        ensures { (sig : Sig) (own : List Equation) (old new : List Tree) → Extends old new → fits self.now sig own old → fits self.now sig own new };
}

/// Brings terms to their normal forms, each with the same fuel, and leaves those for which it doesn't suffice.
#[derive(Drop)]
pub struct ByRewriter<F: Fn(NumOp, Num, Num) -> Option<Num>> {
    pub rewriter: Rewriter<F>,
    pub fuel: u64,
}

impl<F: Fn(NumOp, Num, Num) -> Option<Num>> Simplifier for ByRewriter<F> {
    ghost use Rattle.std.specs.Prelude.{◌≡◌, ◌↔◌};
    ghost use Rattle.number_rules.specs.Rule.{IsExact, rule_of};
    ghost use Rattle.data_rewriter.specs.Rewriters.{Fits, number_rules};
    ghost use Rattle.data_rewriter.specs.Simplifying.{IsSimpleWith};

    ghost fits = { λ s sig own ts. Fits s.rewriter sig own ts × IsExact (F.pre (rule_of (number_rules s.rewriter))) (F.post (rule_of (number_rules s.rewriter))) };

    ghost simple = { λ s sig own t. IsSimpleWith sig own s.fuel t };

    fn simplify(&mut self, pool: &mut Pool, term: TermId) -> Result<TermId, NoMemory> {
        let mut fuel = self.fuel;
        match self.rewriter.normalise(pool, term, &mut fuel)? {
            Normal::Done(done) => Ok(done),
            Normal::Spent(_) => Ok(term),
        }
    }

    fn fits_grown_pools(&self) {}
}

/// Leaves each term as it is.
#[derive(Clone, Copy, Debug)]
pub struct AsIs;

impl Simplifier for AsIs {
    ghost use Rattle.std.specs.Prelude.{◌≡◌, ◌↔◌, Ok};

    ghost fits = { λ s sig own ts. Unit {0} };

    ghost simple = { λ s sig own t. Unit {0} };

    // Behind the first two clauses stand the trait's, with this block's members.
    /// The term itself. It takes no memory.
    fn simplify(&mut self, pool: &mut Pool, term: TermId) -> Result<TermId, NoMemory>
        ensures answers { result ≡ Ok term }
        ensures untouched { pool.new ≡ pool.old }
        ensures kept { Extends pool.old.trees pool.new.trees }
        ensures fitting { (sig : Sig) (own : List Equation) → Unit {0} → IsTerm sig pool.old.trees term → Unit {0} }
        ensures simplified { IfOk result (λ answer. (sig : Sig) (own : List Equation) → Unit {0} → IsTerm sig pool.old.trees term → IsSimplified sig own pool.old.trees pool.new.trees term answer) }
        ensures reached { IfOk result (λ answer. (sig : Sig) (own : List Equation) → Unit {0} → IsTerm sig pool.old.trees term → Unit {0}) }
        ensures same { (sig : Sig) (own : List Equation) (t : Term) → Unit {0} ↔ Unit {0} }
    {
        Ok(term)
    }

    fn fits_grown_pools(&self) {}
}
