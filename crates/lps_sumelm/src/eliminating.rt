//! Sums that an equality solves are removed.

ghost use Rattle.std.specs.Prelude.{◌≡◌, ◌↔◌, ◌<◌, List, map, length, IfOk, IfSome, MatchOption};
ghost use Rattle.std.specs.List.{All, AllZip};
ghost use Rattle.data_theory.specs.declared.ids.VarId.{VarId as MeantVariable};
ghost use Rattle.data_theory.specs.Provable.{Equation};
ghost use Rattle.data_theory.specs.Terms.{Term};
ghost use Rattle.term_pool.specs.Pools.{Extends};
ghost use Rattle.data_rewriter.specs.Simplifying.{AreWellFormed};
ghost use Rattle.process_terms.specs.SignatureEntries.{entries_of};
ghost use Rattle.bisim_laws.specs.LinearProcesses.{variables};
ghost use Rattle.lps_core.specs.Fitting.{Fits};
ghost use Rattle.lps_core.specs.PlainLinears.{linear_of, plain_linear, plain_summand};
ghost use Rattle.lps_sumelm.specs.Simplified.{EachTermIs, IsAnswer};
ghost use Rattle.lps_sumelm.specs.Solutions.{NoneGives};
ghost use Rattle.lps_sumelm.specs.SolvedLinears.{SolvingIsGood};
ghost use Rattle.lps_sumelm.specs.Solving.{conditions_of, IsSolvedSummand};
ghost use Rattle.lps_sumelm.specs.SolvingLaws.{HasNoSolution, HasNoUnused};
ghost use Rattle.lps_sumelm.specs.SummandsInCode.{summand_at, IsStep, SummandStands};

use crate::simplifying::simplify_summand;
use crate::solutions::first_solution;
use crate::solving::{solve, without_unused};
use data_rewriter::Simplifier;
use data_theory::{NoMemory, Signature};
use lps_core::{Linear, Summand, parts_of, signature_stands};
use std::alloc::Global;
use term_pool::Pool;

/// The summand solved for its first solvable part, with its terms simplified. None where no part is solvable.
fn step<S: Simplifier>(
    alloc: Global,
    sig: &Signature,
    pool: &mut Pool,
    simp: &mut S,
    summand: &Summand,
) -> Result<Option<Summand>, NoMemory>
    requires simplifier { (own : List Equation) × S.fits simp.old sig.now own pool.old.trees × AreWellFormed sig.now own }
    requires stands { (ps : List MeantVariable) × SummandStands sig.now pool.old.trees ps (plain_summand summand.now) }
    ensures kept { Extends pool.old.trees pool.new.trees }
    ensures fitting { (own : List Equation) → S.fits simp.old sig.now own pool.old.trees → S.fits simp.new sig.now own pool.new.trees }
    ensures same { (own : List Equation) (t : Term) → S.simple simp.new sig.now own t ↔ S.simple simp.old sig.now own t }
    ensures fewer { IfOk result (λ made. IfSome made (λ next. length next.sums.items < length summand.now.sums.items)) }
    ensures stands { IfOk result (λ made. IfSome made (λ next. (ps : List MeantVariable) → SummandStands sig.now pool.old.trees ps (plain_summand summand.now) → SummandStands sig.now pool.new.trees ps (plain_summand next))) }
    ensures steps { IfOk result (λ made. MatchOption made (NoneGives (variables (summand_at sig.now pool.old.trees (plain_summand summand.now)).sums) (conditions_of (summand_at sig.now pool.old.trees (plain_summand summand.now)))) (λ next. (own : List Equation) → S.fits simp.old sig.now own pool.old.trees → AreWellFormed sig.now own → IsStep (IsAnswer sig.now own (S.simple simp.old sig.now own)) (summand_at sig.now pool.old.trees (plain_summand summand.now)) (summand_at sig.now pool.new.trees (plain_summand next)))) }
{
    signature_stands(sig);
    let mut parts = Vec::new(alloc);
    parts_of(pool, summand.cond, &mut parts)?;
    let Some((place, found)) = first_solution(
        alloc,
        sig,
        pool,
        summand.sums.as_slice(),
        parts.as_slice(),
    )?
    else {
        return Ok(None);
    };
    let _ = parts.remove(place);
    simp.fits_grown_pools();
    let solved = solve(alloc, pool, summand, parts.as_slice(), found)?;
    Ok(Some(simplify_summand(alloc, pool, simp, &solved)?))
}

/// The summand with its terms simplified, solved for one part after another, and without the sums that then don't occur.
fn solved_summand<S: Simplifier>(
    alloc: Global,
    sig: &Signature,
    pool: &mut Pool,
    simp: &mut S,
    summand: &Summand,
) -> Result<Summand, NoMemory>
    requires simplifier { (own : List Equation) × S.fits simp.old sig.now own pool.old.trees × AreWellFormed sig.now own }
    requires stands { (ps : List MeantVariable) × SummandStands sig.now pool.old.trees ps (plain_summand summand.now) }
    ensures kept { Extends pool.old.trees pool.new.trees }
    ensures fitting { (own : List Equation) → S.fits simp.old sig.now own pool.old.trees → S.fits simp.new sig.now own pool.new.trees }
    ensures same { (own : List Equation) (t : Term) → S.simple simp.new sig.now own t ↔ S.simple simp.old sig.now own t }
    ensures stands { IfOk result (λ made. (ps : List MeantVariable) → SummandStands sig.now pool.old.trees ps (plain_summand summand.now) → SummandStands sig.now pool.new.trees ps (plain_summand made)) }
    ensures solved { IfOk result (λ made. (own : List Equation) → S.fits simp.old sig.now own pool.old.trees → AreWellFormed sig.now own → IsSolvedSummand (IsAnswer sig.now own (S.simple simp.old sig.now own)) (summand_at sig.now pool.old.trees (plain_summand summand.now)) (summand_at sig.now pool.new.trees (plain_summand made))) }
{
    signature_stands(sig);
    let mut solved = simplify_summand(alloc, pool, simp, summand)?;
    while let Some(next) = step(alloc, sig, pool, simp, &solved)? {
        solved = next;
    }
    let made = without_unused(alloc, pool, solved)?;
    Ok(made)
}

/// The summands, each solved.
fn solved_summands<S: Simplifier>(
    alloc: Global,
    lin: &Linear,
    sig: &Signature,
    pool: &mut Pool,
    simp: &mut S,
) -> Result<Vec<Summand>, NoMemory>
    requires fits { Fits sig.now pool.old.trees (plain_linear lin.now) }
    requires simplifier { (own : List Equation) × S.fits simp.old sig.now own pool.old.trees × AreWellFormed sig.now own }
    ensures kept { Extends pool.old.trees pool.new.trees }
    ensures fitting { (own : List Equation) → S.fits simp.old sig.now own pool.old.trees → S.fits simp.new sig.now own pool.new.trees }
    ensures same { (own : List Equation) (t : Term) → S.simple simp.new sig.now own t ↔ S.simple simp.old sig.now own t }
    ensures stand { IfOk result (λ made. All (SummandStands sig.now pool.new.trees (plain_linear lin.now).params) (map plain_summand made.items)) }
    ensures solved { IfOk result (λ made. (own : List Equation) → S.fits simp.old sig.now own pool.old.trees → AreWellFormed sig.now own → AllZip (IsSolvedSummand (IsAnswer sig.now own (S.simple simp.old sig.now own))) (map (summand_at sig.now pool.old.trees) (plain_linear lin.now).summands) (map (summand_at sig.now pool.new.trees) (map plain_summand made.items))) }
{
    signature_stands(sig);
    let mut summands = Vec::new(alloc);
    for summand in &lin.summands {
        simp.fits_grown_pools();
        summands.push(solved_summand(alloc, sig, pool, simp, summand)?)?;
    }
    Ok(summands)
}

/// The linear process with the sums removed that an equality solves, or that don't occur.
///
/// The terms of each summand are simplified. Then, while its condition has a part `d == e` or `e == d` with a sum d that isn't in
/// e, the first such part is left out, e takes the place of d, d is no sum any more, and the terms are simplified again. Where
/// both sides are such sums, the left one is removed. Last, the sums that don't occur in the summand are removed. The parameters, the
/// initial terms and the order of the summands stay. It rests on the one-point rule of `sum` (book, sum elimination).
///
/// After `NoMemory` the pool may have got some of this. What was there stays, then too.
///
/// # Errors
///
/// `NoMemory` where the simplifier has none, or there is none for the result.
pub fn eliminate<S: Simplifier>(
    alloc: Global,
    lin: Linear,
    sig: &Signature,
    pool: &mut Pool,
    simp: &mut S,
) -> Result<Linear, NoMemory>
    requires fits { Fits sig.now pool.old.trees (plain_linear lin) }
    requires simplifier { (own : List Equation) × S.fits simp.old sig.now own pool.old.trees × AreWellFormed sig.now own }
    ensures kept { Extends pool.old.trees pool.new.trees }
    ensures fitting { (own : List Equation) → S.fits simp.old sig.now own pool.old.trees → S.fits simp.new sig.now own pool.new.trees }
    ensures same { (own : List Equation) (t : Term) → S.simple simp.new sig.now own t ↔ S.simple simp.old sig.now own t }
    ensures params { IfOk result (λ made. (plain_linear made).params ≡ (plain_linear lin).params) }
    ensures init { IfOk result (λ made. (plain_linear made).init ≡ (plain_linear lin).init) }
    ensures fits { IfOk result (λ made. Fits sig.now pool.new.trees (plain_linear made)) }
    ensures summands { IfOk result (λ made. (own : List Equation) → S.fits simp.old sig.now own pool.old.trees → AreWellFormed sig.now own → AllZip (IsSolvedSummand (IsAnswer sig.now own (S.simple simp.old sig.now own))) (linear_of (entries_of sig.now pool.old.trees) (plain_linear lin)).summands (linear_of (entries_of sig.now pool.new.trees) (plain_linear made)).summands) }
    ensures solved { IfOk result (λ made. All HasNoSolution (linear_of (entries_of sig.now pool.new.trees) (plain_linear made)).summands) }
    ensures used { IfOk result (λ made. All HasNoUnused (linear_of (entries_of sig.now pool.new.trees) (plain_linear made)).summands) }
    ensures simple { IfOk result (λ made. (own : List Equation) → S.fits simp.old sig.now own pool.old.trees → AreWellFormed sig.now own → All (EachTermIs (S.simple simp.new sig.now own)) (linear_of (entries_of sig.now pool.new.trees) (plain_linear made)).summands) }
    ensures bisimilar { IfOk result (λ made. (own : List Equation) → S.fits simp.old sig.now own pool.old.trees → AreWellFormed sig.now own → SolvingIsGood sig.now own pool.old.trees pool.new.trees (plain_linear lin) (plain_linear made)) }
{
    signature_stands(sig);
    let summands = solved_summands(alloc, &lin, sig, pool, simp)?;
    let Linear { params, init, .. } = lin;
    Ok(Linear {
        params,
        init,
        summands,
    })
}
