//! Linear processes whose terms are simplified.

ghost use Rattle.std.specs.Prelude.{map, List, IfOk, IfSome};
ghost use Rattle.std.specs.List.{All, AllZip};
ghost use Rattle.data_theory.specs.Provable.{Equation};
ghost use Rattle.data_theory.specs.Signature.{Sig};
ghost use Rattle.process_terms.specs.PlainProcesses.{plain_action, plain_label};
ghost use Rattle.lps_core.specs.PlainLinears.{plain_linear, plain_next, plain_summand};
ghost use Rattle.lps_constelm.specs.Runs.{ActionBecomes, AreTerms, IsActionWithin, IsLinearWithin, IsSummandWithin, LinearBecomes, Makes, NextBecomes, Runs, SummandBecomes, TermBecomes};

use data_rewriter::Simplifier;
use data_theory::{NoMemory, TermId};
use lps_core::{Linear, Summand};
use process_terms::{Action, Label};
use std::alloc::Global;
use term_pool::Pool;

/// What the simplifier makes of each of these terms.
fn simplify_terms<S: Simplifier>(
    alloc: Global,
    pool: &mut Pool,
    simp: &mut S,
    terms: &[TermId],
) -> Result<Vec<TermId>, NoMemory>
    requires { (g : Sig) × (own : List Equation) × S.fits simp.old g own pool.old.trees × AreTerms g pool.old.trees terms.now }
    ensures runs { Runs (S.fits simp.old) (S.fits simp.new) (S.simple simp.old) (S.simple simp.new) (λ g. AreTerms g pool.old.trees terms.now) pool.old.trees pool.new.trees }
    ensures made { IfOk result (λ made. Makes (S.fits simp.old) (S.simple simp.old) (λ g. AreTerms g pool.old.trees terms.now) pool.old.trees (λ g own P. AllZip (TermBecomes g own P pool.old.trees pool.new.trees) terms.now made.items)) }
{
    let mut made = Vec::new(alloc);
    for term in terms {
        made.push(simp.simplify(pool, *term)?)?;
    }
    Ok(made)
}

/// The action with its arguments simplified.
fn simplify_action<S: Simplifier>(
    alloc: Global,
    pool: &mut Pool,
    simp: &mut S,
    action: &Action,
) -> Result<Action, NoMemory>
    requires { (g : Sig) × (own : List Equation) × S.fits simp.old g own pool.old.trees × IsActionWithin g pool.old.trees (plain_action action.now) }
    ensures runs { Runs (S.fits simp.old) (S.fits simp.new) (S.simple simp.old) (S.simple simp.new) (λ g. IsActionWithin g pool.old.trees (plain_action action.now)) pool.old.trees pool.new.trees }
    ensures made { IfOk result (λ made. Makes (S.fits simp.old) (S.simple simp.old) (λ g. IsActionWithin g pool.old.trees (plain_action action.now)) pool.old.trees (λ g own P. ActionBecomes g own P pool.old.trees pool.new.trees (plain_action action.now) (plain_action made))) }
{
    let args = simplify_terms(alloc, pool, simp, action.args.as_slice())?;
    Ok(Action {
        act: action.act,
        args,
    })
}

/// The actions with their arguments simplified.
fn simplify_actions<S: Simplifier>(
    alloc: Global,
    pool: &mut Pool,
    simp: &mut S,
    actions: &[Action],
) -> Result<Vec<Action>, NoMemory>
    requires { (g : Sig) × (own : List Equation) × S.fits simp.old g own pool.old.trees × All (IsActionWithin g pool.old.trees) (map plain_action actions.now) }
    ensures runs { Runs (S.fits simp.old) (S.fits simp.new) (S.simple simp.old) (S.simple simp.new) (λ g. All (IsActionWithin g pool.old.trees) (map plain_action actions.now)) pool.old.trees pool.new.trees }
    ensures made { IfOk result (λ made. Makes (S.fits simp.old) (S.simple simp.old) (λ g. All (IsActionWithin g pool.old.trees) (map plain_action actions.now)) pool.old.trees (λ g own P. AllZip (ActionBecomes g own P pool.old.trees pool.new.trees) (map plain_action actions.now) (map plain_action made.items))) }
{
    let mut made = Vec::new(alloc);
    for action in actions {
        made.push(simplify_action(alloc, pool, simp, action)?)?;
    }
    Ok(made)
}

/// The label with the arguments of its actions simplified.
fn simplify_label<S: Simplifier>(
    alloc: Global,
    pool: &mut Pool,
    simp: &mut S,
    label: &Label,
) -> Result<Label, NoMemory>
    requires { (g : Sig) × (own : List Equation) × S.fits simp.old g own pool.old.trees × All (IsActionWithin g pool.old.trees) (plain_label label.now) }
    ensures runs { Runs (S.fits simp.old) (S.fits simp.new) (S.simple simp.old) (S.simple simp.new) (λ g. All (IsActionWithin g pool.old.trees) (plain_label label.now)) pool.old.trees pool.new.trees }
    ensures made { IfOk result (λ made. Makes (S.fits simp.old) (S.simple simp.old) (λ g. All (IsActionWithin g pool.old.trees) (plain_label label.now)) pool.old.trees (λ g own P. AllZip (ActionBecomes g own P pool.old.trees pool.new.trees) (plain_label label.now) (plain_label made))) }
{
    let actions = simplify_actions(alloc, pool, simp, label.actions.as_slice())?;
    Ok(Label { actions })
}

/// The next terms, simplified.
fn simplify_next<S: Simplifier>(
    alloc: Global,
    pool: &mut Pool,
    simp: &mut S,
    next: &Option<Vec<TermId>>,
) -> Result<Option<Vec<TermId>>, NoMemory>
    requires { (g : Sig) × (own : List Equation) × S.fits simp.old g own pool.old.trees × IfSome (plain_next next.now) (AreTerms g pool.old.trees) }
    ensures runs { Runs (S.fits simp.old) (S.fits simp.new) (S.simple simp.old) (S.simple simp.new) (λ g. IfSome (plain_next next.now) (AreTerms g pool.old.trees)) pool.old.trees pool.new.trees }
    ensures made { IfOk result (λ made. Makes (S.fits simp.old) (S.simple simp.old) (λ g. IfSome (plain_next next.now) (AreTerms g pool.old.trees)) pool.old.trees (λ g own P. NextBecomes g own P pool.old.trees pool.new.trees (plain_next next.now) (plain_next made))) }
{
    match next {
        Some(terms) => Ok(Some(simplify_terms(alloc, pool, simp, terms.as_slice())?)),
        None => Ok(None),
    }
}

/// The summand with all of its terms simplified.
fn simplify_summand<S: Simplifier>(
    alloc: Global,
    pool: &mut Pool,
    simp: &mut S,
    summand: &Summand,
) -> Result<Summand, NoMemory>
    requires { (g : Sig) × (own : List Equation) × S.fits simp.old g own pool.old.trees × IsSummandWithin g pool.old.trees (plain_summand summand.now) }
    ensures runs { Runs (S.fits simp.old) (S.fits simp.new) (S.simple simp.old) (S.simple simp.new) (λ g. IsSummandWithin g pool.old.trees (plain_summand summand.now)) pool.old.trees pool.new.trees }
    ensures made { IfOk result (λ made. Makes (S.fits simp.old) (S.simple simp.old) (λ g. IsSummandWithin g pool.old.trees (plain_summand summand.now)) pool.old.trees (λ g own P. SummandBecomes g own P pool.old.trees pool.new.trees (plain_summand summand.now) (plain_summand made))) }
{
    let sums = summand.sums.to_vec(alloc)?;
    let cond = simp.simplify(pool, summand.cond)?;
    let label = simplify_label(alloc, pool, simp, &summand.label)?;
    let next = simplify_next(alloc, pool, simp, &summand.next)?;
    Ok(Summand {
        sums,
        cond,
        label,
        next,
    })
}

/// The summands with all of their terms simplified.
fn simplify_summands<S: Simplifier>(
    alloc: Global,
    pool: &mut Pool,
    simp: &mut S,
    summands: &[Summand],
) -> Result<Vec<Summand>, NoMemory>
    requires { (g : Sig) × (own : List Equation) × S.fits simp.old g own pool.old.trees × All (IsSummandWithin g pool.old.trees) (map plain_summand summands.now) }
    ensures runs { Runs (S.fits simp.old) (S.fits simp.new) (S.simple simp.old) (S.simple simp.new) (λ g. All (IsSummandWithin g pool.old.trees) (map plain_summand summands.now)) pool.old.trees pool.new.trees }
    ensures made { IfOk result (λ made. Makes (S.fits simp.old) (S.simple simp.old) (λ g. All (IsSummandWithin g pool.old.trees) (map plain_summand summands.now)) pool.old.trees (λ g own P. AllZip (SummandBecomes g own P pool.old.trees pool.new.trees) (map plain_summand summands.now) (map plain_summand made.items))) }
{
    let mut made = Vec::new(alloc);
    for summand in summands {
        made.push(simplify_summand(alloc, pool, simp, summand)?)?;
    }
    Ok(made)
}

/// The linear process with all of its terms simplified, the initial ones too.
pub(crate) fn simplify_linear<S: Simplifier>(
    alloc: Global,
    pool: &mut Pool,
    simp: &mut S,
    lin: &Linear,
) -> Result<Linear, NoMemory>
    requires { (g : Sig) × (own : List Equation) × S.fits simp.old g own pool.old.trees × IsLinearWithin g pool.old.trees (plain_linear lin.now) }
    ensures runs { Runs (S.fits simp.old) (S.fits simp.new) (S.simple simp.old) (S.simple simp.new) (λ g. IsLinearWithin g pool.old.trees (plain_linear lin.now)) pool.old.trees pool.new.trees }
    ensures made { IfOk result (λ made. Makes (S.fits simp.old) (S.simple simp.old) (λ g. IsLinearWithin g pool.old.trees (plain_linear lin.now)) pool.old.trees (λ g own P. LinearBecomes g own P pool.old.trees pool.new.trees (plain_linear lin.now) (plain_linear made))) }
{
    let params = lin.params.to_vec(alloc)?;
    let init = simplify_terms(alloc, pool, simp, lin.init.as_slice())?;
    let summands = simplify_summands(alloc, pool, simp, lin.summands.as_slice())?;
    Ok(Linear {
        params,
        init,
        summands,
    })
}
