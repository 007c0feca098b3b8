//! Terms that are put in for variables, and then decided or rewritten.

ghost use Rattle.std.specs.Prelude.{◌≡◌, ◌<◌, ◌≤◌, ◌+◌, ◌⊎◌, ◌++◌, List, length, map, take, IfOk, IfSome, OnOk};
ghost use Rattle.std.specs.List.{All, AllZip, zip};
ghost use Rattle.data_theory.specs.Provable.{Equation};
ghost use Rattle.data_theory.specs.IdData.{data_meant};
ghost use Rattle.data_theory.specs.Environments.{term_in};
ghost use Rattle.data_theory.specs.Terms.{put};
ghost use Rattle.data_theory.specs.Rewriting.{IsDecided};
ghost use Rattle.number_rules.specs.Rule.{IsExact, rule_of};
ghost use Rattle.term_pool.specs.Bindings.{listed_terms};
ghost use Rattle.term_pool.specs.Pools.{Extends};
ghost use Rattle.data_rewriter.specs.Rewriters.{Fits, number_rules};
ghost use Rattle.data_rewriter.specs.Standing.{IsTerm, StandsFor, term_at};
ghost use Rattle.process_terms.specs.PlainProcesses.{plain_label};
ghost use Rattle.lps_core.specs.PlainLinears.{plain_next};
ghost use Rattle.lps_simulator.specs.LeadingParts.{instance_at, FailInFront};
ghost use Rattle.lps_simulator.specs.Rewritten.{environment_of, decision_of, IsActionOver, IsRewrittenTerm, IsRewrittenAction, IsRewrittenNext};

use data_rewriter::{Normal, Rewriter, Truth};
use data_theory::{NoMemory, Num, Signature, TermId, VarId};
use lps_core::signature_stands;
use number_rules::NumOp;
use process_terms::{Action, Label};
use std::alloc::Global;
use term_pool::Pool;

/// The lesser of two numbers.
fn least(a: usize, b: usize) -> usize
    ensures first { result ≤ a }
    ensures second { result ≤ b }
    ensures one { (result ≡ a) ⊎ (result ≡ b) }
{
    if a < b {
        return a;
    }
    b
}

/// Adds variables with the terms that stand for them, place by place, as far as both go.
fn bind(
    by: &mut Vec<(VarId, TermId)>,
    variables: &[VarId],
    terms: &[TermId],
) -> Result<(), NoMemory>
    ensures { OnOk result (by.new.items ≡ by.old.items ++ zip variables.now terms.now) }
{
    let count = least(variables.len(), terms.len());
    for number in 0..count {
        by.push((variables[number], terms[number]))?;
    }
    Ok(())
}

/// The sum variables with the values of a combination, and behind them the parameters with the terms of a state.
///
/// # Errors
///
/// `NoMemory` where there is none for them.
pub fn bindings(
    alloc: Global,
    sums: &[VarId],
    combination: &[TermId],
    params: &[VarId],
    state: &[TermId],
) -> Result<Vec<(VarId, TermId)>, NoMemory>
    ensures { IfOk result (λ by. by.items ≡ zip sums.now combination.now ++ zip params.now state.now) }
{
    let mut by = Vec::new(alloc);
    bind(&mut by, sums, combination)?;
    bind(&mut by, params, state)?;
    Ok(by)
}

/// A term with the listed terms in place of variables.
///
/// # Errors
///
/// `NoMemory` where there is none for it. The pool may have got parts of it then.
pub fn put_in(
    sig: &Signature,
    pool: &mut Pool,
    term: TermId,
    by: &[(VarId, TermId)],
) -> Result<TermId, NoMemory>
    requires term { IsTerm sig.now pool.old.trees term }
    requires listed { All (IsTerm sig.now pool.old.trees) (listed_terms by.now) }
    ensures kept { Extends pool.old.trees pool.new.trees }
    ensures put { IfOk result (λ made. StandsFor sig.now pool.new.trees made (put (term_in (environment_of sig.now pool.old.trees by.now)) (term_at sig.now pool.old.trees term))) }
{
    signature_stands(sig);
    let made = pool.subst(term, by)?;
    Ok(made)
}

/// How a term of sort Bool is decided with the listed terms in place of variables, where this fuel is left, which falls.
///
/// # Errors
///
/// `NoMemory` where the rewriter has none, or there is none for the term.
fn decide_left<F: Fn(NumOp, Num, Num) -> Option<Num>>(
    sig: &Signature,
    pool: &mut Pool,
    rewriter: &mut Rewriter<F>,
    term: TermId,
    by: &[(VarId, TermId)],
    left: &mut u64,
) -> Result<Truth, NoMemory>
    requires known { (own : List Equation) × Fits rewriter.old sig.now own pool.old.trees }
    requires rules { IsExact (F.pre (rule_of (number_rules rewriter.old))) (F.post (rule_of (number_rules rewriter.old))) }
    requires term { IsTerm sig.now pool.old.trees term }
    requires listed { All (IsTerm sig.now pool.old.trees) (listed_terms by.now) }
    ensures kept { Extends pool.old.trees pool.new.trees }
    ensures rules { number_rules rewriter.new ≡ number_rules rewriter.old }
    ensures fits { (own : List Equation) → Fits rewriter.old sig.now own pool.old.trees → Fits rewriter.new sig.now own pool.new.trees }
    ensures decided { IfOk result (λ truth. (own : List Equation) → Fits rewriter.old sig.now own pool.old.trees → IsDecided (data_meant sig.now) own left.old (put (term_in (environment_of sig.now pool.old.trees by.now)) (term_at sig.now pool.old.trees term)) (decision_of truth)) }
    ensures falls { left.new ≤ left.old }
{
    let made = put_in(sig, pool, term, by)?;
    let truth = rewriter.decide(pool, made, left)?;
    Ok(truth)
}

/// How a term of sort Bool is decided with the listed terms in place of variables, and with this fuel.
///
/// # Errors
///
/// `NoMemory` where the rewriter has none, or there is none for the term.
pub fn decide_with<F: Fn(NumOp, Num, Num) -> Option<Num>>(
    sig: &Signature,
    pool: &mut Pool,
    rewriter: &mut Rewriter<F>,
    term: TermId,
    by: &[(VarId, TermId)],
    fuel: u64,
) -> Result<Truth, NoMemory>
    requires known { (own : List Equation) × Fits rewriter.old sig.now own pool.old.trees }
    requires rules { IsExact (F.pre (rule_of (number_rules rewriter.old))) (F.post (rule_of (number_rules rewriter.old))) }
    requires term { IsTerm sig.now pool.old.trees term }
    requires listed { All (IsTerm sig.now pool.old.trees) (listed_terms by.now) }
    ensures kept { Extends pool.old.trees pool.new.trees }
    ensures rules { number_rules rewriter.new ≡ number_rules rewriter.old }
    ensures fits { (own : List Equation) → Fits rewriter.old sig.now own pool.old.trees → Fits rewriter.new sig.now own pool.new.trees }
    ensures decided { IfOk result (λ truth. (own : List Equation) → Fits rewriter.old sig.now own pool.old.trees → IsDecided (data_meant sig.now) own fuel (put (term_in (environment_of sig.now pool.old.trees by.now)) (term_at sig.now pool.old.trees term)) (decision_of truth)) }
{
    let mut left = fuel;
    let truth = decide_left(sig, pool, rewriter, term, by, &mut left)?;
    Ok(truth)
}

/// The place of the first of these parts of a condition that fails with the listed terms in place of variables, where those in front of it
/// hold. The parts share this fuel, of which the `&&` behind each part takes one; where it doesn't suffice, the answer is `None`.
///
/// # Errors
///
/// `NoMemory` where the rewriter has none, or there is none for a term.
pub fn failing_part<F: Fn(NumOp, Num, Num) -> Option<Num>>(
    sig: &Signature,
    pool: &mut Pool,
    rewriter: &mut Rewriter<F>,
    parts: &[TermId],
    by: &[(VarId, TermId)],
    fuel: u64,
) -> Result<Option<usize>, NoMemory>
    requires known { (own : List Equation) × Fits rewriter.old sig.now own pool.old.trees }
    requires rules { IsExact (F.pre (rule_of (number_rules rewriter.old))) (F.post (rule_of (number_rules rewriter.old))) }
    requires parts { All (IsTerm sig.now pool.old.trees) parts.now }
    requires listed { All (IsTerm sig.now pool.old.trees) (listed_terms by.now) }
    ensures kept { Extends pool.old.trees pool.new.trees }
    ensures rules { number_rules rewriter.new ≡ number_rules rewriter.old }
    ensures fits { (own : List Equation) → Fits rewriter.old sig.now own pool.old.trees → Fits rewriter.new sig.now own pool.new.trees }
    ensures place { IfOk result (λ found. IfSome found (λ place. place < length parts.now)) }
    ensures fails { IfOk result (λ found. IfSome found (λ place. (own : List Equation) → Fits rewriter.old sig.now own pool.old.trees → FailInFront (data_meant sig.now) own (map (instance_at sig.now pool.old.trees by.now) (take (place + 1) parts.now)))) }
{
    let mut left = fuel;
    for place in 0..parts.len() {
        let truth = decide_left(sig, pool, rewriter, parts[place], by, &mut left)?;
        if left == 0 {
            return Ok(None);
        }
        left -= 1;
        match truth {
            Truth::Yes => continue,
            Truth::No => return Ok(Some(place)),
            _ => return Ok(None),
        }
    }
    Ok(None)
}

/// A term with the listed terms in place of variables, rewritten with this fuel: what it goes to, or the term itself, where the
/// fuel doesn't suffice.
///
/// # Errors
///
/// `NoMemory` where the rewriter has none, or there is none for the term.
pub fn rewrite_with<F: Fn(NumOp, Num, Num) -> Option<Num>>(
    sig: &Signature,
    pool: &mut Pool,
    rewriter: &mut Rewriter<F>,
    term: TermId,
    by: &[(VarId, TermId)],
    fuel: u64,
) -> Result<TermId, NoMemory>
    requires known { (own : List Equation) × Fits rewriter.old sig.now own pool.old.trees }
    requires rules { IsExact (F.pre (rule_of (number_rules rewriter.old))) (F.post (rule_of (number_rules rewriter.old))) }
    requires term { IsTerm sig.now pool.old.trees term }
    requires listed { All (IsTerm sig.now pool.old.trees) (listed_terms by.now) }
    ensures kept { Extends pool.old.trees pool.new.trees }
    ensures rules { number_rules rewriter.new ≡ number_rules rewriter.old }
    ensures fits { (own : List Equation) → Fits rewriter.old sig.now own pool.old.trees → Fits rewriter.new sig.now own pool.new.trees }
    ensures rewritten { IfOk result (λ made. (own : List Equation) → Fits rewriter.old sig.now own pool.old.trees → IsRewrittenTerm sig.now own fuel (environment_of sig.now pool.old.trees by.now) pool.old.trees pool.new.trees term made) }
{
    let made = put_in(sig, pool, term, by)?;
    let mut left = fuel;
    match rewriter.normalise(pool, made, &mut left)? {
        Normal::Done(done) => Ok(done),
        Normal::Spent(spent) => Ok(spent),
    }
}

/// Each of these terms with the listed terms in place of variables, rewritten, each with this fuel.
///
/// # Errors
///
/// `NoMemory` where the rewriter has none, or there is none for the terms.
pub fn rewrite_all_with<F: Fn(NumOp, Num, Num) -> Option<Num>>(
    alloc: Global,
    sig: &Signature,
    pool: &mut Pool,
    rewriter: &mut Rewriter<F>,
    terms: &[TermId],
    by: &[(VarId, TermId)],
    fuel: u64,
) -> Result<Vec<TermId>, NoMemory>
    requires known { (own : List Equation) × Fits rewriter.old sig.now own pool.old.trees }
    requires rules { IsExact (F.pre (rule_of (number_rules rewriter.old))) (F.post (rule_of (number_rules rewriter.old))) }
    requires terms { All (IsTerm sig.now pool.old.trees) terms.now }
    requires listed { All (IsTerm sig.now pool.old.trees) (listed_terms by.now) }
    ensures kept { Extends pool.old.trees pool.new.trees }
    ensures rules { number_rules rewriter.new ≡ number_rules rewriter.old }
    ensures fits { (own : List Equation) → Fits rewriter.old sig.now own pool.old.trees → Fits rewriter.new sig.now own pool.new.trees }
    ensures rewritten { IfOk result (λ made. (own : List Equation) → Fits rewriter.old sig.now own pool.old.trees → AllZip (IsRewrittenTerm sig.now own fuel (environment_of sig.now pool.old.trees by.now) pool.old.trees pool.new.trees) terms.now made.items) }
{
    let mut made = Vec::new(alloc);
    for term in terms {
        made.push(rewrite_with(sig, pool, rewriter, *term, by, fuel)?)?;
    }
    Ok(made)
}

/// A label with the listed terms in place of variables, each argument rewritten with this fuel.
///
/// # Errors
///
/// `NoMemory` where the rewriter has none, or there is none for the label.
pub fn rewrite_label_with<F: Fn(NumOp, Num, Num) -> Option<Num>>(
    alloc: Global,
    sig: &Signature,
    pool: &mut Pool,
    rewriter: &mut Rewriter<F>,
    label: &Label,
    by: &[(VarId, TermId)],
    fuel: u64,
) -> Result<Label, NoMemory>
    requires known { (own : List Equation) × Fits rewriter.old sig.now own pool.old.trees }
    requires rules { IsExact (F.pre (rule_of (number_rules rewriter.old))) (F.post (rule_of (number_rules rewriter.old))) }
    requires label { All (IsActionOver sig.now pool.old.trees) (plain_label label.now) }
    requires listed { All (IsTerm sig.now pool.old.trees) (listed_terms by.now) }
    ensures kept { Extends pool.old.trees pool.new.trees }
    ensures rules { number_rules rewriter.new ≡ number_rules rewriter.old }
    ensures fits { (own : List Equation) → Fits rewriter.old sig.now own pool.old.trees → Fits rewriter.new sig.now own pool.new.trees }
    ensures rewritten { IfOk result (λ made. (own : List Equation) → Fits rewriter.old sig.now own pool.old.trees → AllZip (IsRewrittenAction sig.now own fuel (environment_of sig.now pool.old.trees by.now) pool.old.trees pool.new.trees) (plain_label label.now) (plain_label made)) }
{
    let mut actions = Vec::new(alloc);
    for action in &label.actions {
        let args = rewrite_all_with(alloc, sig, pool, rewriter, action.args.as_slice(), by, fuel)?;
        actions.push(Action {
            act: action.act,
            args,
        })?;
    }
    Ok(Label { actions })
}

/// Next terms with the listed terms in place of variables, each rewritten with this fuel.
///
/// # Errors
///
/// `NoMemory` where the rewriter has none, or there is none for the terms.
pub fn rewrite_next_with<F: Fn(NumOp, Num, Num) -> Option<Num>>(
    alloc: Global,
    sig: &Signature,
    pool: &mut Pool,
    rewriter: &mut Rewriter<F>,
    next: &Option<Vec<TermId>>,
    by: &[(VarId, TermId)],
    fuel: u64,
) -> Result<Option<Vec<TermId>>, NoMemory>
    requires known { (own : List Equation) × Fits rewriter.old sig.now own pool.old.trees }
    requires rules { IsExact (F.pre (rule_of (number_rules rewriter.old))) (F.post (rule_of (number_rules rewriter.old))) }
    requires next { IfSome (plain_next next.now) (All (IsTerm sig.now pool.old.trees)) }
    requires listed { All (IsTerm sig.now pool.old.trees) (listed_terms by.now) }
    ensures kept { Extends pool.old.trees pool.new.trees }
    ensures rules { number_rules rewriter.new ≡ number_rules rewriter.old }
    ensures fits { (own : List Equation) → Fits rewriter.old sig.now own pool.old.trees → Fits rewriter.new sig.now own pool.new.trees }
    ensures rewritten { IfOk result (λ made. (own : List Equation) → Fits rewriter.old sig.now own pool.old.trees → IsRewrittenNext sig.now own fuel (environment_of sig.now pool.old.trees by.now) pool.old.trees pool.new.trees (plain_next next.now) (plain_next made)) }
{
    match next {
        Some(terms) => Ok(Some(rewrite_all_with(
            alloc,
            sig,
            pool,
            rewriter,
            terms.as_slice(),
            by,
            fuel,
        )?)),
        None => Ok(None),
    }
}
