//! How the terms of a place are decided.

ghost use Rattle.std.specs.Prelude.{◌≡◌, ◌↔◌, ◌⊎◌, ◌==◌, List, IfOk, IsTrue, MatchOption, OnOk};
ghost use Rattle.std.specs.List.{list_any, Contains};
ghost use Rattle.data_theory.specs.Provable.{Equation};
ghost use Rattle.data_theory.specs.IdData.{data_meant};
ghost use Rattle.data_theory.specs.declared.ids.TermId.{TermId};
ghost use Rattle.number_rules.specs.Rule.{IsExact, rule_of};
ghost use Rattle.data_rewriter.specs.declared.rewriter.Truth.TheVariants.{No, Yes};
ghost use Rattle.data_rewriter.specs.Rewriters.{number_rules, Fits};
ghost use Rattle.data_rewriter.specs.Standing.{term_at, IsTerm};
ghost use Rattle.lps_invariant.specs.Decisions.{IsProvedWhole, IsRefuted};
ghost use Rattle.lps_invariant.specs.Judging.{AreAnswered, IsFirstOpen, IsTruthFor};
ghost use Rattle.lps_invariant.specs.JudgingInCode.{IsFound};
ghost use Rattle.lps_invariant.specs.Keeping.{Keeps};
ghost use Rattle.lps_invariant.specs.PlacesInCode.{place_at, PlaceStands};

use crate::places::Place;
use data_rewriter::{Rewriter, Truth};
use data_theory::{NoMemory, Num, Signature, TermId};
use indexmap::IndexSet;
use lps_core::signature_stands;
use number_rules::NumOp;
use std::alloc::Global;
use term_pool::Pool;

/// What is found at a place.
#[derive(Drop)]
pub(crate) enum Found {
    /// Some hypothesis is decided `No`.
    Contradictory,
    /// Each goal is proved. These are the answers for the hypotheses.
    Shown(Vec<Truth>),
    /// The first goal that isn't proved, from 1 among all goals, with the answers for the hypotheses and last for that goal.
    Open(usize, Vec<Truth>),
}

/// How a term is decided, with fuel of its own.
fn decided<F: Fn(NumOp, Num, Num) -> Option<Num>>(
    sig: &Signature,
    pool: &mut Pool,
    rewriter: &mut Rewriter<F>,
    term: TermId,
    fuel: u64,
) -> Result<Truth, NoMemory>
    requires known { (own : List Equation) × Fits rewriter.old sig.now own pool.old.trees }
    requires rules { IsExact (F.pre (rule_of (number_rules rewriter.old))) (F.post (rule_of (number_rules rewriter.old))) }
    requires term { IsTerm sig.now pool.old.trees term }
    ensures kept { Keeps sig.now pool.old.trees pool.new.trees rewriter.old rewriter.new }
    ensures decided { IfOk result (λ truth. (own : List Equation) → Fits rewriter.old sig.now own pool.old.trees → IsTruthFor sig.now own fuel pool.new.trees (term_at sig.now pool.old.trees term) truth) }
{
    let mut left = fuel;
    let truth = rewriter.decide(pool, term, &mut left)?;
    Ok(truth)
}

/// Whether an answer is `No`.
fn is_no(truth: Truth) -> bool
    ensures { IsTrue result ↔ (truth ≡ No) }
{
    truth == Truth::No
}

/// Whether an answer is `Yes`.
fn is_yes(truth: Truth) -> bool
    ensures { IsTrue result ↔ (truth ≡ Yes) }
{
    truth == Truth::Yes
}

/// The answers for the hypotheses of a place. None where one of them is `No`.
fn answers<F: Fn(NumOp, Num, Num) -> Option<Num>>(
    alloc: Global,
    sig: &Signature,
    pool: &mut Pool,
    rewriter: &mut Rewriter<F>,
    place: &Place,
    fuel: u64,
) -> Result<Option<Vec<Truth>>, NoMemory>
    requires known { (own : List Equation) × Fits rewriter.old sig.now own pool.old.trees }
    requires rules { IsExact (F.pre (rule_of (number_rules rewriter.old))) (F.post (rule_of (number_rules rewriter.old))) }
    requires place { PlaceStands sig.now pool.old.trees place.now }
    ensures kept { Keeps sig.now pool.old.trees pool.new.trees rewriter.old rewriter.new }
    ensures answered { IfOk result (λ found. (own : List Equation) → Fits rewriter.old sig.now own pool.old.trees → MatchOption found (IsRefuted (data_meant sig.now) own fuel (place_at sig.now pool.old.trees place.now)) (λ truths. AreAnswered sig.now own fuel pool.new.trees (place_at sig.now pool.old.trees place.now).hypotheses truths.items)) }
{
    let mut truths = Vec::new(alloc);
    for number in 0..place.hypotheses.len() {
        let truth = decided(sig, pool, rewriter, place.hypotheses[number], fuel)?;
        if is_no(truth) {
            return Ok(None);
        }
        truths.push(truth)?;
    }
    Ok(Some(truths))
}

/// Adds terms to a set.
fn insert_all(terms: &[TermId], set: &mut IndexSet<TermId>) -> Result<(), NoMemory>
    ensures { OnOk result ((term : TermId) → Contains set.new.keys term ↔ (Contains set.old.keys term ⊎ Contains terms.now term)) }
{
    for term in terms {
        set.insert(*term)?;
    }
    Ok(())
}

/// Whether a term is in a set.
fn has_term(set: &IndexSet<TermId>, term: TermId) -> bool
    ensures { result ≡ list_any (λ (t : TermId). term.0 == t.0) set.now.keys }
{
    set.contains(&term)
}

/// The first goal of a place that isn't proved, from 1 among all goals, with the answer for it.
///
/// # Errors
///
/// `NoMemory` where the rewriter has none, or there is none for the hypotheses as a set.
pub(crate) fn open_goal<F: Fn(NumOp, Num, Num) -> Option<Num>>(
    alloc: Global,
    sig: &Signature,
    pool: &mut Pool,
    rewriter: &mut Rewriter<F>,
    place: &Place,
    fuel: u64,
) -> Result<Option<(usize, Truth)>, NoMemory>
    requires known { (own : List Equation) × Fits rewriter.old sig.now own pool.old.trees }
    requires rules { IsExact (F.pre (rule_of (number_rules rewriter.old))) (F.post (rule_of (number_rules rewriter.old))) }
    requires place { PlaceStands sig.now pool.old.trees place.now }
    ensures kept { Keeps sig.now pool.old.trees pool.new.trees rewriter.old rewriter.new }
    ensures found { IfOk result (λ found. (own : List Equation) → Fits rewriter.old sig.now own pool.old.trees → MatchOption found (IsProvedWhole (data_meant sig.now) own fuel (place_at sig.now pool.old.trees place.now)) (λ p. IsFirstOpen sig.now own fuel pool.new.trees p.0 p.1 (place_at sig.now pool.old.trees place.now))) }
{
    signature_stands(sig);
    // What a pool keeps stands behind each of its calls.
    pool.len();
    let mut known = IndexSet::new(alloc);
    insert_all(place.hypotheses.as_slice(), &mut known)?;
    for number in 0..place.goals.len() {
        let goal = place.goals[number];
        if has_term(&known, goal) {
            continue;
        }
        let truth = decided(sig, pool, rewriter, goal, fuel)?;
        if !is_yes(truth) {
            return Ok(Some((number + 1, truth)));
        }
    }
    Ok(None)
}

/// What is found at a place: its hypotheses are decided, and then its goals, each with fuel of its own. A goal that is one of
/// the hypotheses is proved.
///
/// # Errors
///
/// `NoMemory` where the rewriter has none, or there is none for the answers.
pub(crate) fn look_at<F: Fn(NumOp, Num, Num) -> Option<Num>>(
    alloc: Global,
    sig: &Signature,
    pool: &mut Pool,
    rewriter: &mut Rewriter<F>,
    place: &Place,
    fuel: u64,
) -> Result<Found, NoMemory>
    requires known { (own : List Equation) × Fits rewriter.old sig.now own pool.old.trees }
    requires rules { IsExact (F.pre (rule_of (number_rules rewriter.old))) (F.post (rule_of (number_rules rewriter.old))) }
    requires place { PlaceStands sig.now pool.old.trees place.now }
    ensures kept { Keeps sig.now pool.old.trees pool.new.trees rewriter.old rewriter.new }
    ensures found { IfOk result (λ found. (own : List Equation) → Fits rewriter.old sig.now own pool.old.trees → IsFound sig.now own fuel pool.new.trees found (place_at sig.now pool.old.trees place.now)) }
{
    let Some(mut truths) = answers(alloc, sig, pool, rewriter, place, fuel)? else {
        return Ok(Found::Contradictory);
    };
    let Some((part, truth)) = open_goal(alloc, sig, pool, rewriter, place, fuel)? else {
        return Ok(Found::Shown(truths));
    };
    truths.push(truth)?;
    Ok(Found::Open(part, truths))
}
