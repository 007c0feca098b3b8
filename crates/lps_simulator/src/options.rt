//! What a linear process can do in a state.

ghost use Rattle.std.specs.Prelude.{◌≡◌, ◌++◌, [], List, map, IfOk, OnOk};
ghost use Rattle.std.specs.List.{All, Contains, zip};
ghost use Rattle.data_theory.specs.declared.ids.TermId.{TermId};
ghost use Rattle.data_theory.specs.Provable.{Equation};
ghost use Rattle.number_rules.specs.Rule.{IsExact, rule_of};
ghost use Rattle.term_pool.specs.Bindings.{listed_terms};
ghost use Rattle.term_pool.specs.Pools.{Extends};
ghost use Rattle.data_rewriter.specs.Rewriters.{Fits as FitsPool, number_rules};
ghost use Rattle.data_rewriter.specs.Simplifying.{AreWellFormed};
ghost use Rattle.data_rewriter.specs.Standing.{IsTerm};
ghost use Rattle.lps_core.specs.Fitting.{Fits};
ghost use Rattle.lps_core.specs.PlainLinears.{plain_linear, plain_summand};
ghost use Rattle.lps_simulator.specs.Combinations.{combinations, rows};
ghost use Rattle.lps_simulator.specs.Rewritten.{environment_of};
ghost use Rattle.lps_simulator.specs.SumValues.{AreListsFor};
ghost use Rattle.lps_simulator.specs.Options.{cut_with, open_with};
ghost use Rattle.lps_simulator.specs.OptionsInCode.{no_options, plain_move, plain_options, AreOptions, IsMove, IsState};
ghost use Rattle.lps_simulator.specs.Trying.{AreLeadingParts, IsMade, IsSummandOver, ListsSummand, SumsAreTried, TriesOne, TriesWith};

use crate::combinations::Combinations;
use crate::leading_parts::{leading_parts, level_of};
use crate::rewriting::{
    bindings, decide_with, failing_part, rewrite_label_with, rewrite_next_with,
};
use crate::sum_values::{SumValues, sum_values};
use data_rewriter::{Rewriter, Truth};
use data_theory::{NoMemory, Num, Signature, TermId, VarId};
use lps_core::{Linear, Summand, signature_stands};
use number_rules::NumOp;
use process_terms::Label;
use std::alloc::Global;
use term_pool::Pool;

/// What the linear process can do: a summand, from 1, its label, and the state that it goes on with. Without next terms it ends.
#[derive(Debug, Drop)]
pub struct Move {
    pub summand: usize,
    pub label: Label,
    pub next: Option<Vec<TermId>>,
}

/// A summand, from 1, whose condition isn't decided for some values of its sums, and whether the fuel was spent for the first ones.
#[derive(Clone, Copy, Debug, PartialEq, Eq)]
pub struct Open {
    pub summand: usize,
    pub spent: bool,
}

/// What a linear process can do in a state, as far as that is decided.
#[derive(Debug, Drop)]
pub struct Options {
    pub moves: Vec<Move>,
    pub undecided: Vec<Open>,
    /// The summands, from 1, with a sum that has other values than the listed ones.
    pub cut: Vec<usize>,
}

/// The move of a summand with these terms in place of its variables.
fn move_with<F: Fn(NumOp, Num, Num) -> Option<Num>>(
    alloc: Global,
    sig: &Signature,
    pool: &mut Pool,
    rewriter: &mut Rewriter<F>,
    number: usize,
    summand: &Summand,
    by: &[(VarId, TermId)],
    fuel: u64,
) -> Result<Move, NoMemory>
    requires known { (own : List Equation) × FitsPool rewriter.old sig.now own pool.old.trees }
    requires rules { IsExact (F.pre (rule_of (number_rules rewriter.old))) (F.post (rule_of (number_rules rewriter.old))) }
    requires summand { IsSummandOver sig.now pool.old.trees (plain_summand summand.now) }
    requires listed { All (IsTerm sig.now pool.old.trees) (listed_terms by.now) }
    ensures kept { Extends pool.old.trees pool.new.trees }
    ensures rules { number_rules rewriter.new ≡ number_rules rewriter.old }
    ensures fits { (own : List Equation) → FitsPool rewriter.old sig.now own pool.old.trees → FitsPool rewriter.new sig.now own pool.new.trees }
    ensures made { IfOk result (λ made. (own : List Equation) → FitsPool rewriter.old sig.now own pool.old.trees → IsMade sig.now own fuel (environment_of sig.now pool.old.trees by.now) pool.old.trees pool.new.trees number (plain_summand summand.now) (plain_move made)) }
{
    let label = rewrite_label_with(alloc, sig, pool, rewriter, &summand.label, by, fuel)?;
    let next = rewrite_next_with(alloc, sig, pool, rewriter, &summand.next, by, fuel)?;
    Ok(Move {
        summand: number,
        label,
        next,
    })
}

/// Adds the move of a summand with these terms in place of its variables, if its condition is decided `Yes`. If it isn't decided, the
/// answer says whether the fuel was spent.
fn try_with<F: Fn(NumOp, Num, Num) -> Option<Num>>(
    alloc: Global,
    sig: &Signature,
    pool: &mut Pool,
    rewriter: &mut Rewriter<F>,
    number: usize,
    summand: &Summand,
    by: &[(VarId, TermId)],
    fuel: u64,
    moves: &mut Vec<Move>,
) -> Result<Option<bool>, NoMemory>
    requires known { (own : List Equation) × FitsPool rewriter.old sig.now own pool.old.trees }
    requires rules { IsExact (F.pre (rule_of (number_rules rewriter.old))) (F.post (rule_of (number_rules rewriter.old))) }
    requires summand { IsSummandOver sig.now pool.old.trees (plain_summand summand.now) }
    requires listed { All (IsTerm sig.now pool.old.trees) (listed_terms by.now) }
    ensures kept { Extends pool.old.trees pool.new.trees }
    ensures rules { number_rules rewriter.new ≡ number_rules rewriter.old }
    ensures fits { (own : List Equation) → FitsPool rewriter.old sig.now own pool.old.trees → FitsPool rewriter.new sig.now own pool.new.trees }
    ensures tried { IfOk result (λ why. (own : List Equation) → FitsPool rewriter.old sig.now own pool.old.trees → TriesWith sig.now own fuel (environment_of sig.now pool.old.trees by.now) pool.old.trees pool.new.trees number (plain_summand summand.now) (map plain_move moves.old.items) (map plain_move moves.new.items) why) }
{
    match decide_with(sig, pool, rewriter, summand.cond, by, fuel)? {
        Truth::Yes => {
            let made = move_with(alloc, sig, pool, rewriter, number, summand, by, fuel)?;
            moves.push(made)?;
            Ok(None)
        }
        Truth::No => Ok(None),
        Truth::Stuck(_) => Ok(Some(false)),
        Truth::Spent(_) => Ok(Some(true)),
    }
}

/// Adds the move of a summand in a state for a combination of values of its sums, as `try_with`. Where some parts in front of the condition
/// tell that it is false, the next combinations for which they tell it too are left out.
fn try_combination<F: Fn(NumOp, Num, Num) -> Option<Num>>(
    alloc: Global,
    sig: &Signature,
    pool: &mut Pool,
    rewriter: &mut Rewriter<F>,
    number: usize,
    summand: &Summand,
    parts: &[TermId],
    params: &[VarId],
    state: &[TermId],
    combination: &[TermId],
    left: &mut Combinations,
    fuel: u64,
    moves: &mut Vec<Move>,
) -> Result<Option<bool>, NoMemory>
    requires known { (own : List Equation) × FitsPool rewriter.old sig.now own pool.old.trees }
    requires rules { IsExact (F.pre (rule_of (number_rules rewriter.old))) (F.post (rule_of (number_rules rewriter.old))) }
    requires summand { IsSummandOver sig.now pool.old.trees (plain_summand summand.now) }
    requires parts { AreLeadingParts sig.now pool.old.trees summand.now.cond parts.now }
    requires listed { All (IsTerm sig.now pool.old.trees) (listed_terms (zip summand.now.sums.items combination.now ++ zip params.now state.now)) }
    ensures kept { Extends pool.old.trees pool.new.trees }
    ensures rules { number_rules rewriter.new ≡ number_rules rewriter.old }
    ensures fits { (own : List Equation) → FitsPool rewriter.old sig.now own pool.old.trees → FitsPool rewriter.new sig.now own pool.new.trees }
    ensures fewer { OnOk result ((before : List (List TermId)) × (left.old ≡ before ++ left.new)) }
    ensures tried { IfOk result (λ why. (own : List Equation) → FitsPool rewriter.old sig.now own pool.old.trees → TriesOne sig.now own fuel pool.old.trees pool.new.trees summand.now.sums.items (zip params.now state.now) combination.now number (plain_summand summand.now) (map plain_move moves.old.items) (map plain_move moves.new.items) left.old left.new why) }
{
    signature_stands(sig);
    let sums = summand.sums.as_slice();
    let by = bindings(alloc, sums, combination, params, state)?;
    let by = by.as_slice();
    let Some(place) = failing_part(sig, pool, rewriter, parts, by, fuel)? else {
        let why = try_with(alloc, sig, pool, rewriter, number, summand, by, fuel, moves)?;
        return Ok(why);
    };
    let level = level_of(alloc, pool, &parts[..place + 1], sums)?;
    left.leave_out(alloc, combination, level)?;
    Ok(None)
}

/// Adds the moves of a summand in a state, for the combinations of these values of its sums. If it isn't decided for one of them, the
/// answer says whether the fuel was spent for the first such one.
fn try_summand<F: Fn(NumOp, Num, Num) -> Option<Num>>(
    alloc: Global,
    sig: &Signature,
    pool: &mut Pool,
    rewriter: &mut Rewriter<F>,
    lin: &Linear,
    state: &[TermId],
    number: usize,
    summand: &Summand,
    lists: Vec<Vec<TermId>>,
    fuel: u64,
    moves: &mut Vec<Move>,
) -> Result<Option<bool>, NoMemory>
    requires known { (own : List Equation) × FitsPool rewriter.old sig.now own pool.old.trees }
    requires rules { IsExact (F.pre (rule_of (number_rules rewriter.old))) (F.post (rule_of (number_rules rewriter.old))) }
    requires lin { Fits sig.now pool.old.trees (plain_linear lin.now) }
    requires state { IsState sig.now pool.old.trees (plain_linear lin.now).params state.now }
    requires summand { Contains (plain_linear lin.now).summands (plain_summand summand.now) }
    requires lists { AreListsFor sig.now pool.old.trees summand.now.sums.items (rows lists.items) }
    ensures kept { Extends pool.old.trees pool.new.trees }
    ensures rules { number_rules rewriter.new ≡ number_rules rewriter.old }
    ensures fits { (own : List Equation) → FitsPool rewriter.old sig.now own pool.old.trees → FitsPool rewriter.new sig.now own pool.new.trees }
    ensures tried { IfOk result (λ why. (own : List Equation) → FitsPool rewriter.old sig.now own pool.old.trees → AreWellFormed sig.now own → SumsAreTried sig.now own fuel pool.old.trees pool.new.trees (plain_linear lin.now) state.now number (plain_summand summand.now) (combinations (rows lists.items)) [] (map plain_move moves.old.items) (map plain_move moves.new.items) why) }
{
    signature_stands(sig);
    let params = lin.params.as_slice();
    let parts = leading_parts(alloc, pool, summand.cond)?;
    let parts = parts.as_slice();
    let mut combinations = Combinations::new(alloc, lists);
    let mut why = None;
    while let Some(combination) = combinations.next(alloc)? {
        let combination = combination.as_slice();
        let found = try_combination(
            alloc,
            sig,
            pool,
            rewriter,
            number,
            summand,
            parts,
            params,
            state,
            combination,
            &mut combinations,
            fuel,
            moves,
        )?;
        why = why.or(found);
    }
    Ok(why)
}

/// Adds a summand that isn't decided, if there is a reason.
fn note_open(undecided: &mut Vec<Open>, number: usize, why: Option<bool>) -> Result<(), NoMemory>
    ensures { OnOk result (undecided.new.items ≡ undecided.old.items ++ open_with number why) }
{
    if let Some(spent) = why {
        undecided.push(Open {
            summand: number,
            spent,
        })?;
    }
    Ok(())
}

/// Adds a summand that is cut.
fn note_cut(cuts: &mut Vec<usize>, number: usize, cut: bool) -> Result<(), NoMemory>
    ensures { OnOk result (cuts.new.items ≡ cuts.old.items ++ cut_with number cut) }
{
    if cut {
        cuts.push(number)?;
    }
    Ok(())
}

/// Adds what a summand can do in a state.
fn list_summand<F: Fn(NumOp, Num, Num) -> Option<Num>>(
    alloc: Global,
    sig: &Signature,
    pool: &mut Pool,
    rewriter: &mut Rewriter<F>,
    lin: &Linear,
    state: &[TermId],
    number: usize,
    summand: &Summand,
    fuel: u64,
    bound: u64,
    found: &mut Options,
) -> Result<(), NoMemory>
    requires known { (own : List Equation) × FitsPool rewriter.old sig.now own pool.old.trees }
    requires rules { IsExact (F.pre (rule_of (number_rules rewriter.old))) (F.post (rule_of (number_rules rewriter.old))) }
    requires lin { Fits sig.now pool.old.trees (plain_linear lin.now) }
    requires state { IsState sig.now pool.old.trees (plain_linear lin.now).params state.now }
    requires summand { Contains (plain_linear lin.now).summands (plain_summand summand.now) }
    ensures kept { Extends pool.old.trees pool.new.trees }
    ensures rules { number_rules rewriter.new ≡ number_rules rewriter.old }
    ensures fits { (own : List Equation) → FitsPool rewriter.old sig.now own pool.old.trees → FitsPool rewriter.new sig.now own pool.new.trees }
    ensures listed { OnOk result ((own : List Equation) → FitsPool rewriter.old sig.now own pool.old.trees → AreWellFormed sig.now own → ListsSummand sig.now own fuel bound pool.old.trees pool.new.trees (plain_linear lin.now) state.now number (plain_summand summand.now) (plain_options found.old) (plain_options found.new)) }
{
    signature_stands(sig);
    let SumValues { lists, cut } = sum_values(alloc, sig, pool, summand.sums.as_slice(), bound)?;
    let why = try_summand(
        alloc,
        sig,
        pool,
        rewriter,
        lin,
        state,
        number,
        summand,
        lists,
        fuel,
        &mut found.moves,
    )?;
    note_open(&mut found.undecided, number, why)?;
    note_cut(&mut found.cut, number, cut)?;
    Ok(())
}

/// No options.
pub(crate) fn nothing(alloc: Global) -> Options
    ensures { plain_options result ≡ no_options }
{
    Options {
        moves: Vec::new(alloc),
        undecided: Vec::new(alloc),
        cut: Vec::new(alloc),
    }
}

/// What a linear process can do in a state.
pub fn options_at<F: Fn(NumOp, Num, Num) -> Option<Num>>(
    alloc: Global,
    sig: &Signature,
    pool: &mut Pool,
    rewriter: &mut Rewriter<F>,
    lin: &Linear,
    state: &[TermId],
    fuel: u64,
    bound: u64,
) -> Result<Options, NoMemory>
    requires known { (own : List Equation) × FitsPool rewriter.old sig.now own pool.old.trees }
    requires rules { IsExact (F.pre (rule_of (number_rules rewriter.old))) (F.post (rule_of (number_rules rewriter.old))) }
    requires lin { Fits sig.now pool.old.trees (plain_linear lin.now) }
    requires state { IsState sig.now pool.old.trees (plain_linear lin.now).params state.now }
    ensures kept { Extends pool.old.trees pool.new.trees }
    ensures rules { number_rules rewriter.new ≡ number_rules rewriter.old }
    ensures fits { (own : List Equation) → FitsPool rewriter.old sig.now own pool.old.trees → FitsPool rewriter.new sig.now own pool.new.trees }
    ensures options { IfOk result (λ found. (own : List Equation) → FitsPool rewriter.old sig.now own pool.old.trees → AreWellFormed sig.now own → AreOptions sig.now own fuel bound pool.old.trees pool.new.trees (plain_linear lin.now) state.now (plain_options found)) }
    ensures moves { IfOk result (λ found. (own : List Equation) → FitsPool rewriter.old sig.now own pool.old.trees → AreWellFormed sig.now own → All (IsMove sig.now pool.new.trees (plain_linear lin.now).params) (plain_options found).moves) }
{
    signature_stands(sig);
    let mut found = nothing(alloc);
    for (index, summand) in lin.summands.iter().enumerate() {
        list_summand(
            alloc,
            sig,
            pool,
            rewriter,
            lin,
            state,
            index + 1,
            summand,
            fuel,
            bound,
            &mut found,
        )?;
    }
    Ok(found)
}
