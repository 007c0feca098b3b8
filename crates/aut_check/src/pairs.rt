//! How moves and edges compare.

ghost use Rattle.std.specs.Prelude.{◌≡◌, ◌<◌, ℕ, List, length, map, option_map, IfOk, IfSome};
ghost use Rattle.std.specs.List.{All, Contains};
ghost use Rattle.data_theory.specs.Provable.{Equation};
ghost use Rattle.number_rules.specs.Rule.{IsExact, rule_of};
ghost use Rattle.data_rewriter.specs.Rewriters.{Fits as FitsPool, number_rules};
ghost use Rattle.process_terms.specs.Meanings.{label_of};
ghost use Rattle.process_terms.specs.PlainProcesses.{plain_label};
ghost use Rattle.process_terms.specs.SignatureEntries.{entries_of};
ghost use Rattle.lps_core.specs.Fitting.{sort_of_variable, Fits};
ghost use Rattle.lps_core.specs.PlainLinears.{plain_linear, plain_next};
ghost use Rattle.lps_simulator.specs.OptionsInCode.{meant_move, plain_move, terms_at, IsMove, IsState};
ghost use Rattle.trace_replay.specs.DecidedConditions.{answer_of};
ghost use Rattle.trace_replay.specs.Keeping.{Keeps};
ghost use Rattle.aut_check.specs.Comparing.{setting, AreMoveRows, IsMoveRow, NextComes, PairComes};
ghost use Rattle.aut_check.specs.PlainSystems.{meant_state, plain_edge, plain_system, IsEdge, IsSystem};
ghost use Rattle.aut_check.specs.Tables.{answers_of, tables_of};
ghost use Rattle.aut_check.specs.Verdicts.{sorts_in};

use crate::equal_terms::decide_equal;
use crate::labels::compare_labels;
use crate::systems::{Edge, Lts};
use crate::tables::{both, fails};
use data_rewriter::Rewriter;
use data_theory::{NoMemory, Num, Signature, SortId, TermId};
use lps_core::{Linear, signature_stands};
use lps_simulator::Move;
use number_rules::NumOp;
use std::alloc::Global;
use term_pool::Pool;
use trace_replay::Answer;

/// How the next terms of a move compare with those of a state.
fn compare_next<F: Fn(NumOp, Num, Num) -> Option<Num>>(
    alloc: Global,
    sig: &Signature,
    pool: &mut Pool,
    rewriter: &mut Rewriter<F>,
    lin: &Linear,
    sorts: &[SortId],
    next: &Option<Vec<TermId>>,
    state: &Option<Vec<TermId>>,
    fuel: u64,
) -> Result<Answer, NoMemory>
    requires known { (own : List Equation) × FitsPool rewriter.old sig.now own pool.old.trees }
    requires rules { IsExact (F.pre (rule_of (number_rules rewriter.old))) (F.post (rule_of (number_rules rewriter.old))) }
    requires lin { Fits sig.now pool.old.trees (plain_linear lin.now) }
    requires sorts { sorts.now ≡ map (sort_of_variable sig.now) (plain_linear lin.now).params }
    requires next { IfSome (plain_next next.now) (IsState sig.now pool.old.trees (plain_linear lin.now).params) }
    requires state { IfSome (plain_next state.now) (IsState sig.now pool.old.trees (plain_linear lin.now).params) }
    ensures kept { Keeps sig.now pool.old.trees pool.new.trees rewriter.old rewriter.new }
    ensures next { IfOk result (λ answer. (own : List Equation) → FitsPool rewriter.old sig.now own pool.old.trees → NextComes (setting sig.now own fuel) (sorts_in (setting sig.now own fuel) pool.old.trees (plain_linear lin.now)) (option_map (terms_at sig.now pool.old.trees) (plain_next next.now)) (meant_state sig.now pool.old.trees (plain_next state.now)) (answer_of answer)) }
{
    signature_stands(sig);
    match (next, state) {
        (None, None) => Ok(Answer::Hold),
        (None, Some(_)) => Ok(Answer::Fail),
        (Some(_), None) => Ok(Answer::Fail),
        (Some(firsts), Some(seconds)) => decide_equal(
            alloc,
            sig,
            pool,
            rewriter,
            sorts,
            firsts.as_slice(),
            seconds.as_slice(),
            fuel,
        ),
    }
}

/// How a move compares with an edge to a state.
fn compare_pair<F: Fn(NumOp, Num, Num) -> Option<Num>>(
    alloc: Global,
    sig: &Signature,
    pool: &mut Pool,
    rewriter: &mut Rewriter<F>,
    lin: &Linear,
    sorts: &[SortId],
    step: &Move,
    edge: &Edge,
    state: &Option<Vec<TermId>>,
    fuel: u64,
) -> Result<Answer, NoMemory>
    requires known { (own : List Equation) × FitsPool rewriter.old sig.now own pool.old.trees }
    requires rules { IsExact (F.pre (rule_of (number_rules rewriter.old))) (F.post (rule_of (number_rules rewriter.old))) }
    requires lin { Fits sig.now pool.old.trees (plain_linear lin.now) }
    requires sorts { sorts.now ≡ map (sort_of_variable sig.now) (plain_linear lin.now).params }
    requires step { IsMove sig.now pool.old.trees (plain_linear lin.now).params (plain_move step.now) }
    requires edge { (count : ℕ) × IsEdge sig.now pool.old.trees count (plain_edge edge.now) }
    requires state { IfSome (plain_next state.now) (IsState sig.now pool.old.trees (plain_linear lin.now).params) }
    ensures kept { Keeps sig.now pool.old.trees pool.new.trees rewriter.old rewriter.new }
    ensures pair { IfOk result (λ answer. (own : List Equation) → FitsPool rewriter.old sig.now own pool.old.trees → PairComes (setting sig.now own fuel) (sorts_in (setting sig.now own fuel) pool.old.trees (plain_linear lin.now)) (meant_move sig.now pool.old.trees (plain_move step.now)) (label_of (entries_of sig.now pool.old.trees) (plain_edge edge.now).label) (meant_state sig.now pool.old.trees (plain_next state.now)) (answer_of answer)) }
{
    signature_stands(sig);
    let labels = compare_labels(alloc, sig, pool, rewriter, &step.label, &edge.label, fuel)?;
    if fails(labels) {
        return Ok(Answer::Fail);
    }
    let next = compare_next(
        alloc, sig, pool, rewriter, lin, sorts, &step.next, state, fuel,
    )?;
    Ok(both(labels, next))
}

/// How a move compares with each of these edges.
fn compare_move<F: Fn(NumOp, Num, Num) -> Option<Num>>(
    alloc: Global,
    sig: &Signature,
    pool: &mut Pool,
    rewriter: &mut Rewriter<F>,
    lin: &Linear,
    sorts: &[SortId],
    lts: &Lts,
    step: &Move,
    edges: &[usize],
    fuel: u64,
) -> Result<Vec<Answer>, NoMemory>
    requires known { (own : List Equation) × FitsPool rewriter.old sig.now own pool.old.trees }
    requires rules { IsExact (F.pre (rule_of (number_rules rewriter.old))) (F.post (rule_of (number_rules rewriter.old))) }
    requires lin { Fits sig.now pool.old.trees (plain_linear lin.now) }
    requires sorts { sorts.now ≡ map (sort_of_variable sig.now) (plain_linear lin.now).params }
    requires system { IsSystem sig.now pool.old.trees (plain_linear lin.now).params (plain_system lts.now) }
    requires step { IsMove sig.now pool.old.trees (plain_linear lin.now).params (plain_move step.now) }
    requires edges { All (λ k. k < length lts.now.edges.items) edges.now }
    ensures kept { Keeps sig.now pool.old.trees pool.new.trees rewriter.old rewriter.new }
    ensures row { IfOk result (λ row. (own : List Equation) → FitsPool rewriter.old sig.now own pool.old.trees → IsMoveRow (setting sig.now own fuel) (sorts_in (setting sig.now own fuel) pool.old.trees (plain_linear lin.now)) pool.old.trees (plain_system lts.now) edges.now (meant_move sig.now pool.old.trees (plain_move step.now)) (answers_of row.items)) }
{
    signature_stands(sig);
    let mut row = Vec::new(alloc);
    for number in edges {
        let edge = &lts.edges[*number];
        let state = &lts.states[edge.to];
        row.push(compare_pair(
            alloc, sig, pool, rewriter, lin, sorts, step, edge, state, fuel,
        )?)?;
    }
    Ok(row)
}

/// How each of these moves compares with each of these edges.
///
/// # Errors
///
/// `NoMemory` where there is none for it.
pub(crate) fn compare_moves<F: Fn(NumOp, Num, Num) -> Option<Num>>(
    alloc: Global,
    sig: &Signature,
    pool: &mut Pool,
    rewriter: &mut Rewriter<F>,
    lin: &Linear,
    sorts: &[SortId],
    lts: &Lts,
    moves: &[Move],
    edges: &[usize],
    fuel: u64,
) -> Result<Vec<Vec<Answer>>, NoMemory>
    requires known { (own : List Equation) × FitsPool rewriter.old sig.now own pool.old.trees }
    requires rules { IsExact (F.pre (rule_of (number_rules rewriter.old))) (F.post (rule_of (number_rules rewriter.old))) }
    requires lin { Fits sig.now pool.old.trees (plain_linear lin.now) }
    requires sorts { sorts.now ≡ map (sort_of_variable sig.now) (plain_linear lin.now).params }
    requires system { IsSystem sig.now pool.old.trees (plain_linear lin.now).params (plain_system lts.now) }
    requires moves { All (IsMove sig.now pool.old.trees (plain_linear lin.now).params) (map plain_move moves.now) }
    requires edges { All (λ k. k < length lts.now.edges.items) edges.now }
    ensures kept { Keeps sig.now pool.old.trees pool.new.trees rewriter.old rewriter.new }
    ensures rows { IfOk result (λ rows. (own : List Equation) → FitsPool rewriter.old sig.now own pool.old.trees → AreMoveRows (setting sig.now own fuel) (sorts_in (setting sig.now own fuel) pool.old.trees (plain_linear lin.now)) pool.old.trees (plain_system lts.now) edges.now (map (meant_move sig.now pool.old.trees) (map plain_move moves.now)) (tables_of rows.items)) }
{
    signature_stands(sig);
    let mut rows = Vec::new(alloc);
    for step in moves {
        rows.push(compare_move(
            alloc, sig, pool, rewriter, lin, sorts, lts, step, edges, fuel,
        )?)?;
    }
    Ok(rows)
}
