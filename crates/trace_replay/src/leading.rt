//! Where one label leads.

ghost use Rattle.std.specs.Prelude.{◌≡◌, ◌<◌, ◌||◌, ℕ, List, map, length, IfOk, IfSome, OnOk};
ghost use Rattle.std.specs.List.{All, Contains};
ghost use Rattle.data_theory.specs.Provable.{Equation};
ghost use Rattle.data_theory.specs.IdData.{data_meant};
ghost use Rattle.number_rules.specs.Rule.{IsExact, rule_of};
ghost use Rattle.term_pool.specs.Bindings.{listed_terms};
ghost use Rattle.data_rewriter.specs.Rewriters.{Fits as FitsPool, number_rules};
ghost use Rattle.data_rewriter.specs.Standing.{IsTerm, term_at};
ghost use Rattle.process_terms.specs.Labels as labels;
ghost use Rattle.process_terms.specs.PlainProcesses.{plain_label};
ghost use Rattle.process_terms.specs.SignatureEntries.{entries_of};
ghost use Rattle.lps_core.specs.Fitting.{Fits};
ghost use Rattle.lps_core.specs.PlainLinears.{plain_linear, plain_next, plain_summand, linear_of, summand_of};
ghost use Rattle.lps_simulator.specs.Combinations.{combinations, rows};
ghost use Rattle.lps_simulator.specs.SumValues.{AreListsFor};
ghost use Rattle.trace_replay.specs.Attempts.{AreTried, OfCombinations, OfSummand};
ghost use Rattle.trace_replay.specs.DecidedConditions.{attempt_with, setting};
ghost use Rattle.trace_replay.specs.Keeping.{Keeps};
ghost use Rattle.trace_replay.specs.Pairings.{IsClosedLabel};
ghost use Rattle.trace_replay.specs.Replays.{LeadTo};
ghost use Rattle.trace_replay.specs.States.{meant_states, StatesStand};
ghost use Rattle.trace_replay.specs.Ways.{plain_way, LabelIs, OfWays, WayStands};

use crate::deciding::{Answer, decide_all};
use crate::states::{States, no_states};
use crate::ways::{Way, ways};
use data_rewriter::Rewriter;
use data_theory::{NoMemory, Num, Signature, TermId, VarId};
use lps_core::{Linear, Summand, signature_stands};
use lps_simulator::combinations::Combinations;
use lps_simulator::rewriting::{bindings, rewrite_next_with};
use lps_simulator::sum_values::{SumValues, sum_values};
use number_rules::NumOp;
use process_terms::Label;
use std::alloc::Global;
use term_pool::Pool;

/// One of the two, or both.
pub(crate) fn either(one: bool, other: bool) -> bool
    ensures { result ≡ (one || other) }
{
    one || other
}

/// Tries a summand under these conditions, with the listed terms in place of variables, and adds the state to which it leads. Whether it is
/// left open.
fn try_with<F: Fn(NumOp, Num, Num) -> Option<Num>>(
    alloc: Global,
    sig: &Signature,
    pool: &mut Pool,
    rewriter: &mut Rewriter<F>,
    summand: &Summand,
    conditions: &[TermId],
    by: &[(VarId, TermId)],
    fuel: u64,
    to: &mut States,
) -> Result<bool, NoMemory>
    requires known { (own : List Equation) × FitsPool rewriter.old sig.now own pool.old.trees }
    requires rules { IsExact (F.pre (rule_of (number_rules rewriter.old))) (F.post (rule_of (number_rules rewriter.old))) }
    requires conditions { All (IsTerm sig.now pool.old.trees) conditions.now }
    requires next { IfSome (plain_next summand.now.next) (All (IsTerm sig.now pool.old.trees)) }
    requires listed { All (IsTerm sig.now pool.old.trees) (listed_terms by.now) }
    requires states { StatesStand sig.now pool.old.trees to.old }
    ensures kept { Keeps sig.now pool.old.trees pool.new.trees rewriter.old rewriter.new }
    ensures states { OnOk result (StatesStand sig.now pool.new.trees to.new) }
    ensures tried { IfOk result (λ is_open. (own : List Equation) (bound : ℕ) → FitsPool rewriter.old sig.now own pool.old.trees → AreTried (setting sig.now own fuel bound) (λ a. a ≡ attempt_with sig.now pool.old.trees by.now conditions.now (plain_summand summand.now)) (meant_states sig.now pool.old.trees to.old) (meant_states sig.now pool.new.trees to.new) is_open) }
{
    match decide_all(sig, pool, rewriter, conditions, by, fuel)? {
        Answer::Hold => {
            let next = rewrite_next_with(alloc, sig, pool, rewriter, &summand.next, by, fuel)?;
            to.insert(next)?;
            Ok(false)
        }
        Answer::Fail => Ok(false),
        Answer::Open => Ok(true),
    }
}

/// Tries a summand under these conditions in a state, with each combination of these values of its sums. Whether it is left open with one.
fn try_combinations<F: Fn(NumOp, Num, Num) -> Option<Num>>(
    alloc: Global,
    sig: &Signature,
    pool: &mut Pool,
    rewriter: &mut Rewriter<F>,
    lin: &Linear,
    state: &[TermId],
    summand: &Summand,
    conditions: &[TermId],
    lists: Vec<Vec<TermId>>,
    fuel: u64,
    to: &mut States,
) -> Result<bool, NoMemory>
    requires known { (own : List Equation) × FitsPool rewriter.old sig.now own pool.old.trees }
    requires rules { IsExact (F.pre (rule_of (number_rules rewriter.old))) (F.post (rule_of (number_rules rewriter.old))) }
    requires conditions { All (IsTerm sig.now pool.old.trees) conditions.now }
    requires next { IfSome (plain_next summand.now.next) (All (IsTerm sig.now pool.old.trees)) }
    requires state { All (IsTerm sig.now pool.old.trees) state.now }
    requires lists { AreListsFor sig.now pool.old.trees summand.now.sums.items (rows lists.items) }
    requires states { StatesStand sig.now pool.old.trees to.old }
    ensures kept { Keeps sig.now pool.old.trees pool.new.trees rewriter.old rewriter.new }
    ensures states { OnOk result (StatesStand sig.now pool.new.trees to.new) }
    ensures tried { IfOk result (λ doubt. (own : List Equation) (bound : ℕ) → FitsPool rewriter.old sig.now own pool.old.trees → AreTried (setting sig.now own fuel bound) (OfCombinations (linear_of (entries_of sig.now pool.old.trees) (plain_linear lin.now)) (summand_of (entries_of sig.now pool.old.trees) (plain_summand summand.now)) (map (term_at sig.now pool.old.trees) state.now) (map (term_at sig.now pool.old.trees) conditions.now) (map (map (term_at sig.now pool.old.trees)) (combinations (rows lists.items)))) (meant_states sig.now pool.old.trees to.old) (meant_states sig.now pool.new.trees to.new) doubt) }
{
    signature_stands(sig);
    let sums = summand.sums.as_slice();
    let params = lin.params.as_slice();
    let mut combinations = Combinations::new(alloc, lists);
    let mut doubt = false;
    while let Some(combination) = combinations.next(alloc)? {
        let by = bindings(alloc, sums, combination.as_slice(), params, state)?;
        let is_open = try_with(
            alloc,
            sig,
            pool,
            rewriter,
            summand,
            conditions,
            by.as_slice(),
            fuel,
            to,
        )?;
        doubt = either(doubt, is_open);
    }
    Ok(doubt)
}

/// Tries a summand under these conditions in a state, and adds the states to which it leads. Whether it is left open for some values of its sums, or
/// a sum has others than the listed ones.
fn try_summand<F: Fn(NumOp, Num, Num) -> Option<Num>>(
    alloc: Global,
    sig: &Signature,
    pool: &mut Pool,
    rewriter: &mut Rewriter<F>,
    lin: &Linear,
    state: &[TermId],
    summand: &Summand,
    conditions: &[TermId],
    fuel: u64,
    bound: u64,
    to: &mut States,
) -> Result<bool, NoMemory>
    requires known { (own : List Equation) × FitsPool rewriter.old sig.now own pool.old.trees }
    requires rules { IsExact (F.pre (rule_of (number_rules rewriter.old))) (F.post (rule_of (number_rules rewriter.old))) }
    requires lin { Fits sig.now pool.old.trees (plain_linear lin.now) }
    requires state { All (IsTerm sig.now pool.old.trees) state.now }
    requires summand { Contains (plain_linear lin.now).summands (plain_summand summand.now) }
    requires conditions { All (IsTerm sig.now pool.old.trees) conditions.now }
    requires states { StatesStand sig.now pool.old.trees to.old }
    ensures kept { Keeps sig.now pool.old.trees pool.new.trees rewriter.old rewriter.new }
    ensures states { OnOk result (StatesStand sig.now pool.new.trees to.new) }
    ensures tried { IfOk result (λ doubt. (own : List Equation) → FitsPool rewriter.old sig.now own pool.old.trees → AreTried (setting sig.now own fuel bound) (OfSummand (setting sig.now own fuel bound) (linear_of (entries_of sig.now pool.old.trees) (plain_linear lin.now)) (summand_of (entries_of sig.now pool.old.trees) (plain_summand summand.now)) (map (term_at sig.now pool.old.trees) state.now) (map (term_at sig.now pool.old.trees) conditions.now)) (meant_states sig.now pool.old.trees to.old) (meant_states sig.now pool.new.trees to.new) doubt) }
{
    signature_stands(sig);
    let SumValues { lists, cut } = sum_values(alloc, sig, pool, summand.sums.as_slice(), bound)?;
    let is_open = try_combinations(
        alloc, sig, pool, rewriter, lin, state, summand, conditions, lists, fuel, to,
    )?;
    Ok(either(cut, is_open))
}

/// Tries these ways in a state, and adds the states to which they lead. Whether there is doubt.
fn try_ways<F: Fn(NumOp, Num, Num) -> Option<Num>>(
    alloc: Global,
    sig: &Signature,
    pool: &mut Pool,
    rewriter: &mut Rewriter<F>,
    lin: &Linear,
    state: &[TermId],
    ways: &[Way],
    fuel: u64,
    bound: u64,
    to: &mut States,
) -> Result<bool, NoMemory>
    requires known { (own : List Equation) × FitsPool rewriter.old sig.now own pool.old.trees }
    requires rules { IsExact (F.pre (rule_of (number_rules rewriter.old))) (F.post (rule_of (number_rules rewriter.old))) }
    requires lin { Fits sig.now pool.old.trees (plain_linear lin.now) }
    requires state { All (IsTerm sig.now pool.old.trees) state.now }
    requires ways { All (WayStands sig.now pool.old.trees (length lin.now.summands.items)) (map plain_way ways.now) }
    requires states { StatesStand sig.now pool.old.trees to.old }
    ensures kept { Keeps sig.now pool.old.trees pool.new.trees rewriter.old rewriter.new }
    ensures states { OnOk result (StatesStand sig.now pool.new.trees to.new) }
    ensures tried { IfOk result (λ doubt. (own : List Equation) → FitsPool rewriter.old sig.now own pool.old.trees → AreTried (setting sig.now own fuel bound) (OfWays sig.now pool.old.trees (setting sig.now own fuel bound) (linear_of (entries_of sig.now pool.old.trees) (plain_linear lin.now)) (map (term_at sig.now pool.old.trees) state.now) (map plain_way ways.now)) (meant_states sig.now pool.old.trees to.old) (meant_states sig.now pool.new.trees to.new) doubt) }
{
    signature_stands(sig);
    let mut doubt = false;
    for way in ways {
        let summand = &lin.summands[way.summand];
        let conditions = way.conditions.as_slice();
        let is_open = try_summand(
            alloc, sig, pool, rewriter, lin, state, summand, conditions, fuel, bound, to,
        )?;
        doubt = either(doubt, is_open);
    }
    Ok(doubt)
}

/// The states to which a label leads from some states, and whether there is doubt.
///
/// # Errors
///
/// `NoMemory` where the rewriter has none, or there is none for terms or states.
pub(crate) fn lead<F: Fn(NumOp, Num, Num) -> Option<Num>>(
    alloc: Global,
    sig: &Signature,
    pool: &mut Pool,
    rewriter: &mut Rewriter<F>,
    lin: &Linear,
    label: &Label,
    fuel: u64,
    bound: u64,
    states: &mut States,
) -> Result<bool, NoMemory>
    requires known { (own : List Equation) × FitsPool rewriter.old sig.now own pool.old.trees }
    requires rules { IsExact (F.pre (rule_of (number_rules rewriter.old))) (F.post (rule_of (number_rules rewriter.old))) }
    requires lin { Fits sig.now pool.old.trees (plain_linear lin.now) }
    requires label { (m : labels.Label) × LabelIs sig.now pool.old.trees (plain_label label.now) m }
    requires states { StatesStand sig.now pool.old.trees states.old }
    ensures kept { Keeps sig.now pool.old.trees pool.new.trees rewriter.old rewriter.new }
    ensures states { OnOk result (StatesStand sig.now pool.new.trees states.new) }
    ensures leads { IfOk result (λ doubt. (own : List Equation) (m : labels.Label) → FitsPool rewriter.old sig.now own pool.old.trees → LabelIs sig.now pool.old.trees (plain_label label.now) m → IsClosedLabel (data_meant sig.now) m → LeadTo (setting sig.now own fuel bound) (linear_of (entries_of sig.now pool.old.trees) (plain_linear lin.now)) m (meant_states sig.now pool.old.trees states.old) (meant_states sig.now pool.new.trees states.new) doubt) }
{
    signature_stands(sig);
    let ways = ways(alloc, sig, pool, lin, label)?;
    let mut to = no_states(alloc);
    let mut doubt = false;
    for number in 0..states.running.len() {
        let state = states.running[number].as_slice();
        let is_open = try_ways(
            alloc,
            sig,
            pool,
            rewriter,
            lin,
            state,
            ways.as_slice(),
            fuel,
            bound,
            &mut to,
        )?;
        doubt = either(doubt, is_open);
    }
    *states = to;
    Ok(doubt)
}
