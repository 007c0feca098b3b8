//! Summands whose terms are simplified.

ghost use Rattle.std.specs.Prelude.{◌≡◌, ◌↔◌, List, IfOk, IfSome};
ghost use Rattle.std.specs.List.{All, AllZip};
ghost use Rattle.data_theory.specs.Provable.{Equation};
ghost use Rattle.data_theory.specs.Signature.{Sig};
ghost use Rattle.data_theory.specs.Terms.{Term};
ghost use Rattle.data_rewriter.specs.Simplifying.{AreWellFormed};
ghost use Rattle.data_rewriter.specs.Standing.{IsTerm};
ghost use Rattle.term_pool.specs.Pools.{Extends};
ghost use Rattle.process_terms.specs.PlainProcesses.{plain_label};
ghost use Rattle.lps_core.specs.PlainLinears.{plain_next, plain_summand};
ghost use Rattle.lps_sumelm.specs.SummandsInCode.{AreActionAnswers, IsActionOver, IsNextAnswer, IsSummandAnswer, IsSummandOver, IsTermAnswer};

use data_rewriter::Simplifier;
use data_theory::{NoMemory, TermId};
use lps_core::Summand;
use process_terms::{Action, Label};
use std::alloc::Global;
use term_pool::Pool;

/// What a simplifier answers for each of these terms.
fn simplify_all<S: Simplifier>(
    alloc: Global,
    pool: &mut Pool,
    simp: &mut S,
    terms: &[TermId],
) -> Result<Vec<TermId>, NoMemory>
    requires { (g : Sig) × (own : List Equation) × S.fits simp.old g own pool.old.trees × All (IsTerm g pool.old.trees) terms.now }
    ensures kept { Extends pool.old.trees pool.new.trees }
    ensures fitting { (g : Sig) (own : List Equation) → S.fits simp.old g own pool.old.trees → All (IsTerm g pool.old.trees) terms.now → S.fits simp.new g own pool.new.trees }
    ensures same { (g : Sig) (own : List Equation) (t : Term) → S.simple simp.new g own t ↔ S.simple simp.old g own t }
    ensures answers { IfOk result (λ made. (g : Sig) (own : List Equation) → S.fits simp.old g own pool.old.trees → All (IsTerm g pool.old.trees) terms.now → AreWellFormed g own → AllZip (IsTermAnswer g own (S.simple simp.old g own) pool.old.trees pool.new.trees) terms.now made.items) }
{
    let mut made = Vec::new(alloc);
    for term in terms {
        made.push(simp.simplify(pool, *term)?)?;
    }
    Ok(made)
}

/// A label whose arguments are simplified.
fn simplify_label<S: Simplifier>(
    alloc: Global,
    pool: &mut Pool,
    simp: &mut S,
    label: &Label,
) -> Result<Label, NoMemory>
    requires { (g : Sig) × (own : List Equation) × S.fits simp.old g own pool.old.trees × All (IsActionOver g pool.old.trees) (plain_label label.now) }
    ensures kept { Extends pool.old.trees pool.new.trees }
    ensures fitting { (g : Sig) (own : List Equation) → S.fits simp.old g own pool.old.trees → All (IsActionOver g pool.old.trees) (plain_label label.now) → S.fits simp.new g own pool.new.trees }
    ensures same { (g : Sig) (own : List Equation) (t : Term) → S.simple simp.new g own t ↔ S.simple simp.old g own t }
    ensures answers { IfOk result (λ made. (g : Sig) (own : List Equation) → S.fits simp.old g own pool.old.trees → All (IsActionOver g pool.old.trees) (plain_label label.now) → AreWellFormed g own → AreActionAnswers g own (S.simple simp.old g own) pool.old.trees pool.new.trees (plain_label label.now) (plain_label made)) }
{
    let mut actions = Vec::new(alloc);
    for action in &label.actions {
        let args = simplify_all(alloc, pool, simp, action.args.as_slice())?;
        actions.push(Action {
            act: action.act,
            args,
        })?;
    }
    Ok(Label { actions })
}

/// Next terms that are simplified.
fn simplify_next<S: Simplifier>(
    alloc: Global,
    pool: &mut Pool,
    simp: &mut S,
    next: &Option<Vec<TermId>>,
) -> Result<Option<Vec<TermId>>, NoMemory>
    requires { (g : Sig) × (own : List Equation) × S.fits simp.old g own pool.old.trees × IfSome (plain_next next.now) (All (IsTerm g pool.old.trees)) }
    ensures kept { Extends pool.old.trees pool.new.trees }
    ensures fitting { (g : Sig) (own : List Equation) → S.fits simp.old g own pool.old.trees → IfSome (plain_next next.now) (All (IsTerm g pool.old.trees)) → S.fits simp.new g own pool.new.trees }
    ensures same { (g : Sig) (own : List Equation) (t : Term) → S.simple simp.new g own t ↔ S.simple simp.old g own t }
    ensures answers { IfOk result (λ made. (g : Sig) (own : List Equation) → S.fits simp.old g own pool.old.trees → IfSome (plain_next next.now) (All (IsTerm g pool.old.trees)) → AreWellFormed g own → IsNextAnswer g own (S.simple simp.old g own) pool.old.trees pool.new.trees (plain_next next.now) (plain_next made)) }
{
    match next {
        Some(terms) => Ok(Some(simplify_all(alloc, pool, simp, terms.as_slice())?)),
        None => Ok(None),
    }
}

/// A summand whose terms are simplified: the condition, the arguments of the label, and the next terms, in this order.
///
/// # Errors
///
/// `NoMemory` where the simplifier has none, or there is none for the summand.
pub(crate) fn simplify_summand<S: Simplifier>(
    alloc: Global,
    pool: &mut Pool,
    simp: &mut S,
    summand: &Summand,
) -> Result<Summand, NoMemory>
    requires { (g : Sig) × (own : List Equation) × S.fits simp.old g own pool.old.trees × IsSummandOver g pool.old.trees (plain_summand summand.now) }
    ensures kept { Extends pool.old.trees pool.new.trees }
    ensures fitting { (g : Sig) (own : List Equation) → S.fits simp.old g own pool.old.trees → IsSummandOver g pool.old.trees (plain_summand summand.now) → S.fits simp.new g own pool.new.trees }
    ensures same { (g : Sig) (own : List Equation) (t : Term) → S.simple simp.new g own t ↔ S.simple simp.old g own t }
    ensures sums { IfOk result (λ made. made.sums.items ≡ summand.now.sums.items) }
    ensures answers { IfOk result (λ made. (g : Sig) (own : List Equation) → S.fits simp.old g own pool.old.trees → IsSummandOver g pool.old.trees (plain_summand summand.now) → AreWellFormed g own → IsSummandAnswer g own (S.simple simp.old g own) pool.old.trees pool.new.trees (plain_summand summand.now) (plain_summand made)) }
{
    let cond = simp.simplify(pool, summand.cond)?;
    let label = simplify_label(alloc, pool, simp, &summand.label)?;
    let next = simplify_next(alloc, pool, simp, &summand.next)?;
    Ok(Summand {
        sums: summand.sums.to_vec(alloc)?,
        cond,
        label,
        next,
    })
}
