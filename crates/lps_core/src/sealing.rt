//! Linear processes that never end.

ghost use Rattle.std.specs.Prelude.{◌≡◌, ◌≤◌, ◌++◌, [], ◌∷◌, length, map, option_map, IfOk, IfSome, OnOk, Some, true};
ghost use Rattle.std.specs.List.{All, AllZip};
ghost use Rattle.data_theory.specs.IdTrees.{variable};
ghost use Rattle.data_theory.specs.IdTerms.{IsGrown};
ghost use Rattle.data_theory.specs.Signature.{IsAct};
ghost use Rattle.term_pool.specs.HeadTrees.{tree_at, trees_at, AreIn, IsIn};
ghost use Rattle.term_pool.specs.Pools.{Extends};
ghost use Rattle.bisim_laws.specs.Terminations.{terminate_name};
ghost use Rattle.lps_core.specs.PlainLinears.{can_end, linear_of, plain_linear, plain_next, plain_summand};
ghost use Rattle.lps_core.specs.NumberTrees.{number_tree};
ghost use Rattle.lps_core.specs.SealedTrees.{last_tree, phase_tree, sealed_next_trees, sealed_tree, AreSealed, HasPhase, IsNoAction, IsSealed, IsSealedSummand, SealingDone, SealingIsGood};
ghost use Rattle.lps_core.specs.Sealing.{NeverEnds};
ghost use Rattle.lps_core.specs.Fitting.{Fits};
ghost use Rattle.process_terms.specs.SignatureEntries.{entries_of};
ghost use Rattle.lps_core.specs.TreeConditions.{conjunction_tree, tree_parts, trees_without_true};
ghost use Rattle.lps_core.specs.TreeSummands.{trees_of_summand, IsSummandIn};

use crate::conditions::{conjoined, parts_of};
use crate::linears::{Linear, Summand};
use crate::moving::variable_term;
use crate::naming::signature_stands;
use crate::numbers::{equals_number, numeral};
use data_theory::{ActId, NoMemory, Signature, SortId, TermId, VarId};
use process_terms::{Action, Label};
use std::alloc::Global;
use term_pool::Pool;

const POS: SortId = SortId(1);

/// That the phase is this number.
fn phase_is(pool: &mut Pool, phase: VarId, number: usize) -> Result<TermId, NoMemory>
    requires { 1 ≤ number }
    ensures kept { Extends pool.old.trees pool.new.trees }
    ensures constants { pool.new.constants ≡ pool.old.constants }
    ensures within { IfOk result (λ id. IsIn pool.new.trees id) }
    ensures tree { IfOk result (λ id. tree_at pool.new.trees id ≡ phase_tree phase number) }
{
    let term = variable_term(pool, phase)?;
    equals_number(pool, term, number)
}

/// The condition, behind the part that the phase is 1.
fn seal_condition(
    alloc: Global,
    pool: &mut Pool,
    phase: VarId,
    cond: TermId,
) -> Result<TermId, NoMemory>
    requires { IsIn pool.old.trees cond }
    ensures kept { Extends pool.old.trees pool.new.trees }
    ensures constants { pool.new.constants ≡ pool.old.constants }
    ensures within { IfOk result (λ id. IsIn pool.new.trees id) }
    ensures tree { IfOk result (λ id. tree_at pool.new.trees id ≡ conjunction_tree (phase_tree phase 1 ∷ trees_without_true (tree_parts (tree_at pool.old.trees cond)))) }
{
    let mut conditions = Vec::new(alloc);
    conditions.push(phase_is(pool, phase, 1)?)?;
    parts_of(pool, cond, &mut conditions)?;
    conjoined(pool, conditions)
}

/// The terms of variables.
fn variable_terms(alloc: Global, pool: &mut Pool, vars: &[VarId]) -> Result<Vec<TermId>, NoMemory>
    ensures kept { Extends pool.old.trees pool.new.trees }
    ensures constants { pool.new.constants ≡ pool.old.constants }
    ensures within { IfOk result (λ terms. AreIn pool.new.trees terms.items) }
    ensures terms { IfOk result (λ terms. trees_at pool.new.trees terms.items ≡ map variable vars.now) }
{
    let mut terms = Vec::new(alloc);
    for var in vars {
        terms.push(variable_term(pool, *var)?)?;
    }
    Ok(terms)
}

/// The terms of the parameters, and behind them a phase.
fn params_at(
    alloc: Global,
    pool: &mut Pool,
    params: &[VarId],
    number: usize,
) -> Result<Vec<TermId>, NoMemory>
    requires { 1 ≤ number }
    ensures kept { Extends pool.old.trees pool.new.trees }
    ensures constants { pool.new.constants ≡ pool.old.constants }
    ensures within { IfOk result (λ terms. AreIn pool.new.trees terms.items) }
    ensures terms { IfOk result (λ terms. trees_at pool.new.trees terms.items ≡ map variable params.now ++ number_tree number ∷ []) }
{
    let mut terms = variable_terms(alloc, pool, params)?;
    terms.push(numeral(pool, number)?)?;
    Ok(terms)
}

/// The next terms with the phase behind them: where there are none, the parameters stay and the phase becomes 2.
fn seal_next(
    alloc: Global,
    pool: &mut Pool,
    params: &[VarId],
    phase: VarId,
    next: &Option<Vec<TermId>>,
) -> Result<Vec<TermId>, NoMemory>
    requires { IfSome (plain_next next.now) (AreIn pool.old.trees) }
    ensures kept { Extends pool.old.trees pool.new.trees }
    ensures constants { pool.new.constants ≡ pool.old.constants }
    ensures within { IfOk result (λ terms. AreIn pool.new.trees terms.items) }
    ensures terms { IfOk result (λ terms. trees_at pool.new.trees terms.items ≡ sealed_next_trees params.now phase (option_map (trees_at pool.old.trees) (plain_next next.now))) }
{
    match next {
        Some(own) => {
            let mut terms = own.to_vec(alloc)?;
            terms.push(variable_term(pool, phase)?)?;
            Ok(terms)
        }
        None => params_at(alloc, pool, params, 2),
    }
}

/// The summand where the phase is 1.
fn seal_summand(
    alloc: Global,
    pool: &mut Pool,
    params: &[VarId],
    phase: VarId,
    summand: &Summand,
) -> Result<Summand, NoMemory>
    requires { IsSummandIn pool.old.trees (plain_summand summand.now) }
    ensures kept { Extends pool.old.trees pool.new.trees }
    ensures constants { pool.new.constants ≡ pool.old.constants }
    ensures within { IfOk result (λ made. IsSummandIn pool.new.trees (plain_summand made)) }
    ensures sealed { IfOk result (λ made. IsSealedSummand pool.old.trees pool.new.trees params.now phase (plain_summand summand.now) (plain_summand made)) }
{
    let cond = seal_condition(alloc, pool, phase, summand.cond)?;
    let next = seal_next(alloc, pool, params, phase, &summand.next)?;
    Ok(Summand {
        sums: summand.sums.to_vec(alloc)?,
        cond,
        label: summand.label.copy(alloc)?,
        next: Some(next),
    })
}

/// The summands where the phase is 1, in their order.
fn seal_summands(
    alloc: Global,
    pool: &mut Pool,
    params: &[VarId],
    phase: VarId,
    summands: &[Summand],
) -> Result<Vec<Summand>, NoMemory>
    requires { All (IsSummandIn pool.old.trees) (map plain_summand summands.now) }
    ensures kept { Extends pool.old.trees pool.new.trees }
    ensures constants { pool.new.constants ≡ pool.old.constants }
    ensures within { IfOk result (λ made. All (IsSummandIn pool.new.trees) (map plain_summand made.items)) }
    ensures sealed { IfOk result (λ made. map (trees_of_summand pool.new.trees) (map plain_summand made.items) ≡ map (sealed_tree params.now phase) (map (trees_of_summand pool.old.trees) (map plain_summand summands.now))) }
{
    let mut sealed = Vec::new(alloc);
    for summand in summands {
        sealed.push(seal_summand(alloc, pool, params, phase, summand)?)?;
    }
    Ok(sealed)
}

/// The last summand: where the phase is 2 it does the action.
fn last_summand(
    alloc: Global,
    pool: &mut Pool,
    params: &[VarId],
    phase: VarId,
    act: ActId,
) -> Result<Summand, NoMemory>
    ensures kept { Extends pool.old.trees pool.new.trees }
    ensures constants { pool.new.constants ≡ pool.old.constants }
    ensures within { IfOk result (λ made. IsSummandIn pool.new.trees (plain_summand made)) }
    ensures last { IfOk result (λ made. trees_of_summand pool.new.trees (plain_summand made) ≡ last_tree params.now phase act) }
{
    let cond = phase_is(pool, phase, 2)?;
    let next = params_at(alloc, pool, params, 3)?;
    let mut actions = Vec::new(alloc);
    actions.push(Action {
        act,
        args: Vec::new(alloc),
    })?;
    Ok(Summand {
        sums: Vec::new(alloc),
        cond,
        label: Label { actions },
        next: Some(next),
    })
}

/// Adds the action `Terminate` without arguments, and a variable for the phase.
fn add_phase(alloc: Global, sig: &mut Signature) -> Result<(ActId, VarId), NoMemory>
    requires { ¬ (IsAct sig.old terminate_name []) }
    ensures grown { IsGrown sig.old sig.new }
    ensures phase { IfOk result (λ r. HasPhase sig.old sig.new r.0 r.1) }
{
    signature_stands(sig);
    let act = sig.add_act("Terminate", Vec::new(alloc))?;
    let name = sig.fresh("phase")?;
    let phase = sig.add_var(name, POS)?;
    Ok((act, phase))
}

/// The summands, and behind them the last one.
fn all_sealed(
    alloc: Global,
    pool: &mut Pool,
    lin: &Linear,
    phase: VarId,
    act: ActId,
) -> Result<Vec<Summand>, NoMemory>
    requires { All (IsSummandIn pool.old.trees) (plain_linear lin.now).summands }
    ensures kept { Extends pool.old.trees pool.new.trees }
    ensures constants { pool.new.constants ≡ pool.old.constants }
    ensures sealed { IfOk result (λ made. AreSealed pool.old.trees pool.new.trees (plain_linear lin.now) phase act (map plain_summand made.items)) }
{
    let params = lin.params();
    let mut sealed = seal_summands(alloc, pool, params, phase, lin.summands())?;
    sealed.push(last_summand(alloc, pool, params, phase, act)?)?;
    Ok(sealed)
}

/// A linear process that can end, sealed.
fn seal_ending(
    alloc: Global,
    lin: Linear,
    sig: &mut Signature,
    pool: &mut Pool,
) -> Result<Linear, NoMemory>
    requires fits { Fits sig.old pool.old.trees (plain_linear lin) }
    requires ends { can_end (plain_linear lin) ≡ true }
    requires absent { IsNoAction sig.old terminate_name }
    ensures grown { IsGrown sig.old sig.new }
    ensures kept { Extends pool.old.trees pool.new.trees }
    ensures constants { pool.new.constants ≡ pool.old.constants }
    ensures done { IfOk result (λ made. SealingDone sig.old sig.new pool.old.trees pool.new.trees (plain_linear lin) (plain_linear made)) }
{
    signature_stands(sig);
    let (act, phase) = add_phase(alloc, sig)?;
    signature_stands(sig);
    let summands = all_sealed(alloc, pool, &lin, phase, act)?;
    let first = numeral(pool, 1)?;
    let Linear { params, init, .. } = lin;
    let mut params = params;
    let mut init = init;
    params.push(phase)?;
    init.push(first)?;
    Ok(Linear {
        params,
        init,
        summands,
    })
}

/// The linear process that never ends: where it can end, the action `Terminate` comes behind its end, and nothing behind that. A last
/// parameter of sort Pos, the phase, is 1 up to the end, 2 behind it, and 3 once the action is done. A process that can't end stays, with
/// the signature.
///
/// After `NoMemory` the pool and the signature may have got some of this. What was there stays, then too.
pub fn seal(
    alloc: Global,
    lin: Linear,
    sig: &mut Signature,
    pool: &mut Pool,
) -> Result<Linear, NoMemory>
    requires fits { Fits sig.old pool.old.trees (plain_linear lin) }
    requires absent { IsNoAction sig.old terminate_name }
    ensures grown { IsGrown sig.old sig.new }
    ensures kept { Extends pool.old.trees pool.new.trees }
    ensures constants { pool.new.constants ≡ pool.old.constants }
    ensures sealed { IfOk result (λ made. IsSealed sig.old pool.old.trees (plain_linear lin) sig.new pool.new.trees (plain_linear made)) }
    ensures fits { IfOk result (λ made. Fits sig.new pool.new.trees (plain_linear made)) }
    ensures never { IfOk result (λ made. NeverEnds (linear_of (entries_of sig.new pool.new.trees) (plain_linear made))) }
    ensures bisimilar { IfOk result (λ made. SealingIsGood sig.old pool.old.trees (plain_linear lin) sig.new pool.new.trees (plain_linear made)) }
{
    if !lin.can_end() {
        signature_stands(sig);
        return Ok(lin);
    }
    seal_ending(alloc, lin, sig, pool)
}
