//! Comparing a transition system with a linear process.

ghost use Rattle.std.specs.Prelude.{◌≡◌, ◌<◌, List, Option, length, map, IfOk, None, Some, slice_get, ℕ};
ghost use Rattle.data_theory.specs.IdTrees.{Tree};
ghost use Rattle.data_theory.specs.Provable.{Equation};
ghost use Rattle.number_rules.specs.Rule.{IsExact, rule_of};
ghost use Rattle.data_rewriter.specs.Rewriters.{Fits as FitsPool, number_rules};
ghost use Rattle.data_rewriter.specs.Simplifying.{AreWellFormed};
ghost use Rattle.lps_core.specs.Fitting.{sort_of_variable, Fits};
ghost use Rattle.lps_core.specs.PlainLinears.{plain_linear, PlainLinear};
ghost use Rattle.lps_simulator.specs.OptionsInCode.{IsState};
ghost use Rattle.trace_replay.specs.DecidedConditions.{answer_of};
ghost use Rattle.trace_replay.specs.Keeping.{Keeps};
ghost use Rattle.trace_replay.specs.Settings.{Setting};
ghost use Rattle.aut_check.specs.Comparing.{judgement_of, setting, state_answer, AreEdgesFrom, EdgesAreStates, TheStart};
ghost use Rattle.aut_check.specs.PlainSystems.{plain_system, IsSystem, PlainSystem};
ghost use Rattle.aut_check.specs.SystemLaws.{HasNoSums};
ghost use Rattle.aut_check.specs.Verdicts.{Judges, StateIs};

use crate::edges::edges_by_source;
use crate::equal_terms::{decide_equal, sorts_of_variables};
use crate::pairs::compare_moves;
use crate::systems::Lts;
use crate::tables::table_verdict;
use crate::verdicts::{AutVerdict, StateVerdict};
use data_rewriter::Rewriter;
use data_theory::{NoMemory, Num, Signature, SortId, TermId};
use lps_core::{Linear, signature_stands};
use lps_simulator::options_at;
use number_rules::NumOp;
use std::alloc::Global;
use term_pool::Pool;
use trace_replay::Answer;

/// How the initial terms compare with the first state.
fn compare_start<F: Fn(NumOp, Num, Num) -> Option<Num>>(
    alloc: Global,
    sig: &Signature,
    pool: &mut Pool,
    rewriter: &mut Rewriter<F>,
    lin: &Linear,
    sorts: &[SortId],
    lts: &Lts,
    fuel: u64,
) -> Result<Answer, NoMemory>
    requires known { (own : List Equation) × FitsPool rewriter.old sig.now own pool.old.trees }
    requires rules { IsExact (F.pre (rule_of (number_rules rewriter.old))) (F.post (rule_of (number_rules rewriter.old))) }
    requires lin { Fits sig.now pool.old.trees (plain_linear lin.now) }
    requires sorts { sorts.now ≡ map (sort_of_variable sig.now) (plain_linear lin.now).params }
    requires system { IsSystem sig.now pool.old.trees (plain_linear lin.now).params (plain_system lts.now) }
    ensures kept { Keeps sig.now pool.old.trees pool.new.trees rewriter.old rewriter.new }
    ensures start { IfOk result (λ answer. (own : List Equation) → FitsPool rewriter.old sig.now own pool.old.trees → TheStart (setting sig.now own fuel) pool.old.trees (plain_linear lin.now) (plain_system lts.now) (answer_of answer)) }
{
    signature_stands(sig);
    match &lts.states[lts.first] {
        None => Ok(Answer::Fail),
        Some(terms) => decide_equal(
            alloc,
            sig,
            pool,
            rewriter,
            sorts,
            lin.init.as_slice(),
            terms.as_slice(),
            fuel,
        ),
    }
}

/// How a state comes out that hasn't ended.
fn compare_running<F: Fn(NumOp, Num, Num) -> Option<Num>>(
    alloc: Global,
    sig: &Signature,
    pool: &mut Pool,
    rewriter: &mut Rewriter<F>,
    lin: &Linear,
    sorts: &[SortId],
    lts: &Lts,
    number: usize,
    terms: &[TermId],
    edges: &[usize],
    fuel: u64,
) -> Result<StateVerdict, NoMemory>
    requires known { (own : List Equation) × FitsPool rewriter.old sig.now own pool.old.trees × AreWellFormed sig.now own }
    requires rules { IsExact (F.pre (rule_of (number_rules rewriter.old))) (F.post (rule_of (number_rules rewriter.old))) }
    requires lin { Fits sig.now pool.old.trees (plain_linear lin.now) }
    requires sorts { sorts.now ≡ map (sort_of_variable sig.now) (plain_linear lin.now).params }
    requires system { IsSystem sig.now pool.old.trees (plain_linear lin.now).params (plain_system lts.now) }
    requires terms { IsState sig.now pool.old.trees (plain_linear lin.now).params terms.now }
    requires edges { AreEdgesFrom (plain_system lts.now) number edges.now }
    ensures kept { Keeps sig.now pool.old.trees pool.new.trees rewriter.old rewriter.new }
    ensures state { IfOk result (λ answer. (own : List Equation) → FitsPool rewriter.old sig.now own pool.old.trees → AreWellFormed sig.now own → StateIs (setting sig.now own fuel) pool.old.trees (plain_linear lin.now) (plain_system lts.now) number (Some terms.now) (state_answer answer)) }
{
    signature_stands(sig);
    let options = options_at(alloc, sig, pool, rewriter, lin, terms, fuel, 0)?;
    if !options.undecided.is_empty() {
        return Ok(StateVerdict::Open);
    }
    let moves = options.moves.as_slice();
    let rows = compare_moves(
        alloc, sig, pool, rewriter, lin, sorts, lts, moves, edges, fuel,
    )?;
    let verdict = table_verdict(alloc, rows.as_slice(), edges.len())?;
    Ok(verdict)
}

/// How the state after termination comes out.
fn compare_ended(edges: &[usize]) -> StateVerdict
    ensures { (s : Setting) (ts : List Tree) (l : PlainLinear) (f : PlainSystem) (i : ℕ) → AreEdgesFrom f i edges.now → EdgesAreStates f → StateIs s ts l f i None (state_answer result) }
{
    if edges.is_empty() {
        return StateVerdict::Good;
    }
    StateVerdict::Differs
}

/// How one state comes out.
fn compare_state<F: Fn(NumOp, Num, Num) -> Option<Num>>(
    alloc: Global,
    sig: &Signature,
    pool: &mut Pool,
    rewriter: &mut Rewriter<F>,
    lin: &Linear,
    sorts: &[SortId],
    lts: &Lts,
    number: usize,
    edges: &[usize],
    fuel: u64,
) -> Result<StateVerdict, NoMemory>
    requires known { (own : List Equation) × FitsPool rewriter.old sig.now own pool.old.trees × AreWellFormed sig.now own }
    requires rules { IsExact (F.pre (rule_of (number_rules rewriter.old))) (F.post (rule_of (number_rules rewriter.old))) }
    requires lin { Fits sig.now pool.old.trees (plain_linear lin.now) }
    requires no_sums { HasNoSums (plain_linear lin.now) }
    requires sorts { sorts.now ≡ map (sort_of_variable sig.now) (plain_linear lin.now).params }
    requires system { IsSystem sig.now pool.old.trees (plain_linear lin.now).params (plain_system lts.now) }
    requires number { number < length lts.now.states.items }
    requires edges { AreEdgesFrom (plain_system lts.now) number edges.now }
    ensures kept { Keeps sig.now pool.old.trees pool.new.trees rewriter.old rewriter.new }
    ensures state { IfOk result (λ answer. (own : List Equation) → FitsPool rewriter.old sig.now own pool.old.trees → AreWellFormed sig.now own → (o : Option (List TermId)) → slice_get (plain_system lts.now).states number ≡ Some o → StateIs (setting sig.now own fuel) pool.old.trees (plain_linear lin.now) (plain_system lts.now) number o (state_answer answer)) }
{
    signature_stands(sig);
    match &lts.states[number] {
        Some(terms) => {
            let terms = terms.as_slice();
            let verdict = compare_running(
                alloc, sig, pool, rewriter, lin, sorts, lts, number, terms, edges, fuel,
            )?;
            Ok(verdict)
        }
        None => Ok(compare_ended(edges)),
    }
}

/// Whether a transition system is strongly bisimilar to a linear process without sums, as far as that is decided by matching. The start is
/// tried first, and then the states from 0; the first one that fails is told.
///
/// # Errors
///
/// `NoMemory` where there is none for it.
pub fn compare<F: Fn(NumOp, Num, Num) -> Option<Num>>(
    alloc: Global,
    lin: &Linear,
    lts: &Lts,
    sig: &Signature,
    pool: &mut Pool,
    rewriter: &mut Rewriter<F>,
    fuel: u64,
) -> Result<AutVerdict, NoMemory>
    requires known { (own : List Equation) × FitsPool rewriter.old sig.now own pool.old.trees × AreWellFormed sig.now own }
    requires rules { IsExact (F.pre (rule_of (number_rules rewriter.old))) (F.post (rule_of (number_rules rewriter.old))) }
    requires lin { Fits sig.now pool.old.trees (plain_linear lin.now) }
    requires no_sums { HasNoSums (plain_linear lin.now) }
    requires system { IsSystem sig.now pool.old.trees (plain_linear lin.now).params (plain_system lts.now) }
    ensures kept { Keeps sig.now pool.old.trees pool.new.trees rewriter.old rewriter.new }
    ensures verdict { IfOk result (λ verdict. (own : List Equation) → FitsPool rewriter.old sig.now own pool.old.trees → AreWellFormed sig.now own → Judges (setting sig.now own fuel) pool.old.trees (plain_linear lin.now) (plain_system lts.now) (judgement_of verdict)) }
{
    signature_stands(sig);
    let sorts = sorts_of_variables(alloc, sig, lin.params.as_slice())?;
    let sorts = sorts.as_slice();
    match compare_start(alloc, sig, pool, rewriter, lin, sorts, lts, fuel)? {
        Answer::Hold => {}
        Answer::Open => return Ok(AutVerdict::Undecided(lts.first)),
        Answer::Fail => return Ok(AutVerdict::Mismatch(lts.first)),
    }
    let edges = edges_by_source(alloc, lts)?;
    for number in 0..lts.states.len() {
        let from = edges[number].as_slice();
        match compare_state(
            alloc, sig, pool, rewriter, lin, sorts, lts, number, from, fuel,
        )? {
            StateVerdict::Good => continue,
            StateVerdict::Differs => return Ok(AutVerdict::Mismatch(number)),
            StateVerdict::Open => return Ok(AutVerdict::Undecided(number)),
        }
    }
    Ok(AutVerdict::Bisimilar)
}
