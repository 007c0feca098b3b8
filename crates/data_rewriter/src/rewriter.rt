//! Rewriters.

ghost use Rattle.std.specs.Prelude.{[], ◌≡◌, ◌≤◌, List, IfOk, IsOk, Ok, Some};
ghost use Rattle.data_rewriter.specs.declared.machine.Normal.TheVariants.{Done};
ghost use Rattle.data_rewriter.specs.Stored.{AreCovered};
ghost use Rattle.data_theory.specs.declared.ids.TermId.{TermId};
ghost use Rattle.data_theory.specs.Signature.{Sig};
ghost use Rattle.data_theory.specs.Provable.{Equation};
ghost use Rattle.number_rules.specs.Rule.{IsExact, rule_of};
ghost use Rattle.term_pool.specs.Pools.{Extends};
ghost use Rattle.data_rewriter.specs.Standing.{IsTerm};
ghost use Rattle.data_rewriter.specs.States.{Says};
ghost use Rattle.data_rewriter.specs.Rewriters.{Costs, EndsWithEnough, Fits, IsDecision, IsStoredAnswer, IsTruthOf, TruthCosts, number_rules, stored_form};
ghost use Rattle.std.specs.List.{All};
ghost use Rattle.data_rewriter.specs.Written.{AreEquationsOf, IsRule, rules_of};
ghost use Rattle.data_rewriter.specs.Signatures.{AreSignTables};
ghost use Rattle.term_pool.specs.HeadTrees.{IsIn};

use crate::building::tables_of;
use crate::machine::{Normal, keep, kept, run};
use crate::tables::Tables;
use crate::truth_lines::{is_false, is_true};
use crate::views::view_of;
use data_theory::{NoMemory, Num, Signature, TermId};
use number_rules::{NumOp, NumberRules};
use std::alloc::Global;
use std::collections::HashMap;
use term_pool::{Pool, Theory};

/// How a term of sort Bool is decided.
#[derive(Clone, Copy, Debug, PartialEq, Eq)]
pub enum Truth {
    /// It goes to `true`.
    Yes,
    /// It goes to `false`.
    No,
    /// It goes to this term, which is neither.
    Stuck(TermId),
    /// A chain of more uses than the fuel starts at this term, which is the given one.
    Spent(TermId),
}

/// Rewriting over the data of a signature and of written equations.
#[derive(Drop)]
pub struct Rewriter<F: Fn(NumOp, Num, Num) -> Option<Num>> {
    tables: Tables,
    rules: NumberRules<F>,
    normal_forms: HashMap<TermId, TermId>,
    alloc: Global,
}

impl<F: Fn(NumOp, Num, Num) -> Option<Num>> Rewriter<F> {
    /// A rewriter of the data of a signature and of written equations, whose terms are in the pool.
    pub fn new(
        alloc: Global,
        sig: &Signature,
        pool: &Pool,
        theory: &Theory,
        rules: NumberRules<F>,
    ) -> Result<Rewriter<F>, NoMemory>
        requires { All (IsRule sig.now pool.now.trees) (rules_of theory.now) }
        ensures fits { IfOk result (λ rewriter. (own : List Equation) → AreEquationsOf sig.now pool.now.trees (rules_of theory.now) own → Fits rewriter sig.now own pool.now.trees) }
        ensures rules { IfOk result (λ rewriter. number_rules rewriter ≡ rules) }
    {
        // What a signature keeps stands behind each of its calls.
        sig.next_sort();
        let tables = tables_of(alloc, sig, pool, theory)?;
        Ok(Rewriter {
            tables,
            rules,
            normal_forms: HashMap::new(alloc),
            alloc,
        })
    }

    /// The term that a term goes to, where the fuel suffices. One unit of fuel is one use of an equation, in the term or in a
    /// condition, or the beginning of a written equation's condition other than `true`. What is known of terms that were
    /// rewritten costs no fuel.
    ///
    /// `Done` comes only where the term goes to the answer, and the fuel falls by at most the uses. `Spent` comes only where
    /// no fuel is left and a chain of more uses than there was fuel starts at the term. The fuel never rises, and falls by exactly the
    /// uses of what was found on the way, one after another, where what is known by then is free. A term that was answered `Done`, and its
    /// answer, are answered so from then on, without fuel, also after want of memory.
    ///
    /// Where no equation is written, a well-sorted term of n nodes is answered `Done` if there is fuel of at least 4 * n * n + 4.
    pub fn normalise(
        &mut self,
        pool: &mut Pool,
        term: TermId,
        fuel: &mut u64,
    ) -> Result<Normal, NoMemory>
        requires known { (sig : Sig) × (own : List Equation) × Fits self.old sig own pool.old.trees × IsTerm sig pool.old.trees term }
        requires rules { IsExact (F.pre (rule_of (number_rules self.old))) (F.post (rule_of (number_rules self.old))) }
        ensures kept { Extends pool.old.trees pool.new.trees }
        ensures rules { number_rules self.new ≡ number_rules self.old }
        ensures fits { (sig : Sig) (own : List Equation) → Fits self.old sig own pool.old.trees → IsTerm sig pool.old.trees term → Fits self.new sig own pool.new.trees }
        ensures known { (u : TermId) → stored_form self.old term ≡ Some u → (result ≡ Ok (Done u)) × (fuel.new ≡ fuel.old) }
        ensures stored { IfOk result (λ r. (sig : Sig) (own : List Equation) → Fits self.old sig own pool.old.trees → IsTerm sig pool.old.trees term → AreCovered own → IsStoredAnswer self.new term r) }
        ensures pairs { (sig : Sig) (own : List Equation) → Fits self.old sig own pool.old.trees → IsTerm sig pool.old.trees term → AreCovered own → (t u : TermId) → stored_form self.old t ≡ Some u → stored_form self.new t ≡ Some u }
        ensures enough { IfOk result (λ r. (sig : Sig) → Fits self.old sig [] pool.old.trees → IsTerm sig pool.old.trees term → EndsWithEnough sig pool.old.trees term fuel.old r) }
        ensures says { IfOk result (λ r. (sig : Sig) (own : List Equation) → Fits self.old sig own pool.old.trees → IsTerm sig pool.old.trees term → Says sig own pool.old.trees pool.new.trees term fuel.old fuel.new r) }
        ensures costs { IfOk result (Costs self.old pool.old pool.new term fuel.old fuel.new) }
        ensures falls { fuel.new ≤ fuel.old }
    {
        if let Some(known) = kept(&self.normal_forms, term) {
            return Ok(Normal::Done(known));
        }
        let normal = run(
            self.alloc,
            &self.tables,
            &self.rules,
            &mut self.normal_forms,
            pool,
            term,
            fuel,
        )?;
        if let Normal::Done(done) = normal {
            keep(pool, &mut self.normal_forms, term, done)?;
        }
        Ok(normal)
    }

    /// How a term of sort Bool is decided with some fuel.
    ///
    /// `Yes` comes only where the term goes to `true`, `No` only where it goes to `false`, and `Stuck` only where it goes to the
    /// answer, which is neither. `Spent` and the fuel are as in [`normalise`](Self::normalise).
    pub fn decide(
        &mut self,
        pool: &mut Pool,
        term: TermId,
        fuel: &mut u64,
    ) -> Result<Truth, NoMemory>
        requires known { (sig : Sig) × (own : List Equation) × Fits self.old sig own pool.old.trees × IsTerm sig pool.old.trees term }
        requires rules { IsExact (F.pre (rule_of (number_rules self.old))) (F.post (rule_of (number_rules self.old))) }
        ensures kept { Extends pool.old.trees pool.new.trees }
        ensures rules { number_rules self.new ≡ number_rules self.old }
        ensures fits { (sig : Sig) (own : List Equation) → Fits self.old sig own pool.old.trees → IsTerm sig pool.old.trees term → Fits self.new sig own pool.new.trees }
        ensures pairs { (sig : Sig) (own : List Equation) → Fits self.old sig own pool.old.trees → IsTerm sig pool.old.trees term → AreCovered own → (t u : TermId) → stored_form self.old t ≡ Some u → stored_form self.new t ≡ Some u }
        ensures stored { (u : TermId) → stored_form self.old term ≡ Some u → IsOk result × (fuel.new ≡ fuel.old) }
        ensures says { IfOk result (λ r. (sig : Sig) (own : List Equation) → Fits self.old sig own pool.old.trees → IsTerm sig pool.old.trees term → IsDecision sig own pool.old.trees pool.new.trees term fuel.old fuel.new r) }
        ensures costs { IfOk result (TruthCosts self.old pool.old pool.new term fuel.old fuel.new) }
        ensures falls { fuel.new ≤ fuel.old }
    {
        let normal = self.normalise(pool, term, fuel)?;
        match normal {
            Normal::Spent(spent) => Ok(Truth::Spent(spent)),
            Normal::Done(done) => Ok(truth_of(&self.tables, pool, done)),
        }
    }
}

/// What a normal term decides.
fn truth_of(tables: &Tables, pool: &Pool, term: TermId) -> Truth
    requires { IsIn pool.now.trees term }
    ensures { (sig : Sig) → AreSignTables tables.now sig → IsTerm sig pool.now.trees term → IsTruthOf sig pool.now.trees term result }
{
    let shown = view_of(tables, pool, term);
    if is_true(shown) {
        return Truth::Yes;
    }
    if is_false(shown) {
        return Truth::No;
    }
    Truth::Stuck(term)
}
