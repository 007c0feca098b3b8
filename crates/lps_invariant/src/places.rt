//! Places where an invariant has to be shown.

ghost use Rattle.std.specs.Prelude.{◌≡◌, ◌<◌, ◌++◌, length, map, option_map, IfOk, IfSome, MatchOption};
ghost use Rattle.std.specs.List.{All, zip};
ghost use Rattle.data_theory.specs.Terms.{Term};
ghost use Rattle.term_pool.specs.Pools.{Extends};
ghost use Rattle.data_rewriter.specs.Standing.{listed_at, IsTerm};
ghost use Rattle.process_terms.specs.Meanings.{bound_at, term_at};
ghost use Rattle.process_terms.specs.SignatureEntries.{entries_of};
ghost use Rattle.lps_core.specs.Conditions.{parts};
ghost use Rattle.lps_core.specs.Fitting.{sort_of_variable, AreTermsOf, SummandFits};
ghost use Rattle.lps_core.specs.PlainLinears.{plain_next, plain_summand, summand_of};
ghost use Rattle.lps_core.specs.TreeSummands.{numbers_of};
ghost use Rattle.lps_sumelm.specs.Solutions.{NoneGives};
ghost use Rattle.lps_invariant.specs.Places.{next_goals, parts_at, summand_place, summand_variables, IsSolvedPlace};
ghost use Rattle.lps_invariant.specs.PlacesInCode.{place_at, IsPlaceStep, PlaceStands};

use crate::parts::add_parts;
use data_theory::{NoMemory, Signature, TermId, VarId};
use lps_core::{Summand, put_all, signature_stands};
use lps_sumelm::first_solution;
use std::alloc::Global;
use term_pool::Pool;

/// What may be assumed at a place, and what is to be shown there.
#[derive(Drop)]
pub(crate) struct Place {
    pub hypotheses: Vec<TermId>,
    pub goals: Vec<TermId>,
}

/// The place after one step. None where no hypothesis gives a term for one of the variables.
fn step(
    alloc: Global,
    sig: &Signature,
    pool: &mut Pool,
    vars: &[VarId],
    place: &Place,
) -> Result<Option<Place>, NoMemory>
    requires { PlaceStands sig.now pool.old.trees place.now }
    ensures kept { Extends pool.old.trees pool.new.trees }
    ensures constants { pool.new.constants ≡ pool.old.constants }
    ensures fewer { IfOk result (λ made. IfSome made (λ next. length next.hypotheses.items < length place.now.hypotheses.items)) }
    ensures stands { IfOk result (λ made. IfSome made (λ next. PlaceStands sig.now pool.new.trees next)) }
    ensures steps { IfOk result (λ made. MatchOption made (NoneGives (numbers_of vars.now) (place_at sig.now pool.old.trees place.now).hypotheses) (λ next. IsPlaceStep (numbers_of vars.now) (place_at sig.now pool.old.trees place.now) (place_at sig.now pool.new.trees next))) }
    ensures stays { IfOk result (λ made. MatchOption made (pool.new.trees ≡ pool.old.trees) (λ _. pool.new.constants ≡ pool.old.constants)) }
{
    signature_stands(sig);
    let mut rest = place.hypotheses.to_vec(alloc)?;
    let Some((number, found)) = first_solution(alloc, sig, pool, vars, rest.as_slice())? else {
        return Ok(None);
    };
    let _ = rest.remove(number);
    let by = [(found.var, found.term)];
    let hypotheses = put_all(alloc, pool, rest.as_slice(), &by)?;
    let goals = put_all(alloc, pool, place.goals.as_slice(), &by)?;
    Ok(Some(Place { hypotheses, goals }))
}

/// The place with one hypothesis after another taken away that gives a term for one of the variables, which is put in.
fn solved(
    alloc: Global,
    sig: &Signature,
    pool: &mut Pool,
    vars: &[VarId],
    place: Place,
) -> Result<Place, NoMemory>
    requires { PlaceStands sig.now pool.old.trees place }
    ensures kept { Extends pool.old.trees pool.new.trees }
    ensures constants { pool.new.constants ≡ pool.old.constants }
    ensures stands { IfOk result (λ made. PlaceStands sig.now pool.new.trees made) }
    ensures solved { IfOk result (λ made. IsSolvedPlace (numbers_of vars.now) (place_at sig.now pool.old.trees place) (place_at sig.now pool.new.trees made)) }
{
    let mut place = place;
    while let Some(next) = step(alloc, sig, pool, vars, &place)? {
        place = next;
    }
    Ok(place)
}

/// Variables with terms, place by place, to be put in.
fn pairs(alloc: Global, vars: &[VarId], terms: &[TermId]) -> Result<Vec<(VarId, TermId)>, NoMemory>
    requires { length terms.now ≡ length vars.now }
    ensures { IfOk result (λ by. by.items ≡ zip vars.now terms.now) }
{
    let mut by = Vec::new(alloc);
    for number in 0..vars.len() {
        by.push((vars[number], terms[number]))?;
    }
    Ok(by)
}

/// The parts of an invariant with these terms for the parameters.
///
/// # Errors
///
/// `NoMemory` where there is none for the terms.
pub(crate) fn parts_with(
    alloc: Global,
    sig: &Signature,
    pool: &mut Pool,
    params: &[VarId],
    invariant: &[TermId],
    terms: &[TermId],
) -> Result<Vec<TermId>, NoMemory>
    requires terms { AreTermsOf sig.now pool.old.trees (map (sort_of_variable sig.now) params.now) terms.now }
    requires invariant { All (IsTerm sig.now pool.old.trees) invariant.now }
    ensures kept { Extends pool.old.trees pool.new.trees }
    ensures stand { IfOk result (λ made. All (IsTerm sig.now pool.new.trees) made.items) }
    ensures put { IfOk result (λ made. (inv : Term) → listed_at sig.now pool.old.trees invariant.now ≡ parts inv → listed_at sig.now pool.new.trees made.items ≡ parts_at (map (bound_at (entries_of sig.now pool.old.trees)) params.now) inv (map (term_at (entries_of sig.now pool.old.trees)) terms.now)) }
{
    signature_stands(sig);
    let by = pairs(alloc, params, terms)?;
    let made = put_all(alloc, pool, invariant, by.as_slice())?;
    Ok(made)
}

/// The parts of an invariant with next terms for the parameters. None where there are no next terms.
fn parts_next(
    alloc: Global,
    sig: &Signature,
    pool: &mut Pool,
    params: &[VarId],
    invariant: &[TermId],
    next: &Option<Vec<TermId>>,
) -> Result<Vec<TermId>, NoMemory>
    requires next { IfSome (plain_next next.now) (AreTermsOf sig.now pool.old.trees (map (sort_of_variable sig.now) params.now)) }
    requires invariant { All (IsTerm sig.now pool.old.trees) invariant.now }
    ensures kept { Extends pool.old.trees pool.new.trees }
    ensures stand { IfOk result (λ made. All (IsTerm sig.now pool.new.trees) made.items) }
    ensures put { IfOk result (λ made. (inv : Term) → listed_at sig.now pool.old.trees invariant.now ≡ parts inv → listed_at sig.now pool.new.trees made.items ≡ next_goals (map (bound_at (entries_of sig.now pool.old.trees)) params.now) inv (option_map (map (term_at (entries_of sig.now pool.old.trees))) (plain_next next.now))) }
{
    match next {
        Some(terms) => parts_with(alloc, sig, pool, params, invariant, terms.as_slice()),
        None => Ok(Vec::new(alloc)),
    }
}

/// The place of a summand: where it fires, the invariant and its condition hold, and the invariant is to be shown of its next
/// terms.
fn place_of(
    alloc: Global,
    sig: &Signature,
    pool: &mut Pool,
    params: &[VarId],
    invariant: &[TermId],
    summand: &Summand,
) -> Result<Place, NoMemory>
    requires summand { SummandFits sig.now pool.old.trees params.now (plain_summand summand.now) }
    requires invariant { All (IsTerm sig.now pool.old.trees) invariant.now }
    ensures kept { Extends pool.old.trees pool.new.trees }
    ensures stands { IfOk result (λ made. PlaceStands sig.now pool.new.trees made) }
    ensures place { IfOk result (λ made. (inv : Term) → listed_at sig.now pool.old.trees invariant.now ≡ parts inv → place_at sig.now pool.new.trees made ≡ summand_place (map (bound_at (entries_of sig.now pool.old.trees)) params.now) inv (summand_of (entries_of sig.now pool.old.trees) (plain_summand summand.now))) }
{
    signature_stands(sig);
    let goals = parts_next(alloc, sig, pool, params, invariant, &summand.next)?;
    let mut hypotheses = invariant.to_vec(alloc)?;
    add_parts(pool, summand.cond, &mut hypotheses)?;
    Ok(Place { hypotheses, goals })
}

/// The sum variables and behind them the parameters.
fn all_variables(alloc: Global, sums: &[VarId], params: &[VarId]) -> Result<Vec<VarId>, NoMemory>
    ensures { IfOk result (λ vars. vars.items ≡ sums.now ++ params.now) }
{
    let mut vars = sums.to_vec(alloc)?;
    vars.extend_from_slice(params)?;
    Ok(vars)
}

/// The place of a summand, solved for its variables.
///
/// # Errors
///
/// `NoMemory` where there is none for the place or its terms.
pub(crate) fn solved_place(
    alloc: Global,
    sig: &Signature,
    pool: &mut Pool,
    params: &[VarId],
    invariant: &[TermId],
    summand: &Summand,
) -> Result<Place, NoMemory>
    requires summand { SummandFits sig.now pool.old.trees params.now (plain_summand summand.now) }
    requires invariant { All (IsTerm sig.now pool.old.trees) invariant.now }
    ensures kept { Extends pool.old.trees pool.new.trees }
    ensures stands { IfOk result (λ made. PlaceStands sig.now pool.new.trees made) }
    ensures solved { IfOk result (λ made. (inv : Term) → listed_at sig.now pool.old.trees invariant.now ≡ parts inv → IsSolvedPlace (summand_variables (map (bound_at (entries_of sig.now pool.old.trees)) params.now) (summand_of (entries_of sig.now pool.old.trees) (plain_summand summand.now))) (summand_place (map (bound_at (entries_of sig.now pool.old.trees)) params.now) inv (summand_of (entries_of sig.now pool.old.trees) (plain_summand summand.now))) (place_at sig.now pool.new.trees made)) }
{
    let vars = all_variables(alloc, summand.sums.as_slice(), params)?;
    let place = place_of(alloc, sig, pool, params, invariant, summand)?;
    solved(alloc, sig, pool, vars.as_slice(), place)
}
