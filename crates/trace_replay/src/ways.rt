//! The ways to do a label.

ghost use Rattle.std.specs.Prelude.{◌≡◌, ◌<◌, ◌++◌, List, [], ◌∷◌, map, length, IfOk, OnOk};
ghost use Rattle.std.specs.List.{All};
ghost use Rattle.data_theory.specs.Equations.{equals};
ghost use Rattle.data_theory.specs.IdTerms.{sort_under};
ghost use Rattle.data_rewriter.specs.Standing.{IsTerm, StandsFor, term_at};
ghost use Rattle.lps_core.specs.Fitting.{Fits};
ghost use Rattle.lps_core.specs.PlainLinears.{plain_linear, plain_summand, linear_of, summand_of};
ghost use Rattle.process_terms.specs.Communication.{equalities};
ghost use Rattle.process_terms.specs.Labels as labels;
ghost use Rattle.process_terms.specs.PlainProcesses.{plain_action, plain_label};
ghost use Rattle.process_terms.specs.SignatureEntries.{entries_of};
ghost use Rattle.term_pool.specs.Pools.{Extends};
ghost use Rattle.trace_replay.specs.Ways.{actions_at, key_at, plain_way, without, ActionIs, LabelIs, AddsNext, AreNext, AreWays, AreWaysOf, PlainWay};

use data_theory::{FunId, NoMemory, Signature, SortId, TermId};
use lps_core::{Linear, Summand, signature_stands};
use process_terms::{Action, Label};
use std::alloc::Global;
use term_pool::{Head, Pool};

/// `true`
const TRUE: FunId = FunId(6);

/// A way to do a label: a summand, and its condition with the equalities of the paired arguments behind it, over the sums and the parameters.
/// While it is made, some actions of the label are left to be paired, by their places.
#[derive(Debug, Drop)]
pub(crate) struct Way {
    pub summand: usize,
    pub conditions: Vec<TermId>,
    pub left: Vec<usize>,
}

/// The term of an equality.
fn equality(
    sig: &Signature,
    pool: &mut Pool,
    sort: SortId,
    left: TermId,
    right: TermId,
) -> Result<TermId, NoMemory>
    requires sort { sort.0 < length sig.now.sorts }
    requires left { IsTerm sig.now pool.old.trees left }
    requires right { IsTerm sig.now pool.old.trees right }
    ensures kept { Extends pool.old.trees pool.new.trees }
    ensures means { IfOk result (λ id. StandsFor sig.now pool.new.trees id (equals (sort_under sig.now sort) (term_at sig.now pool.old.trees left) (term_at sig.now pool.old.trees right))) }
{
    signature_stands(sig);
    let Some(fun) = sig.fun("==", &[sort, sort]) else {
        return pool.intern(Head::Fun(TRUE), &[]);
    };
    pool.intern(Head::Fun(fun), &[left, right])
}

/// The sorts of an action's arguments.
pub fn sorts_of<'a>(sig: &'a Signature, action: &Action) -> &'a [SortId]
    requires { action.now.act.0 < length sig.now.actions }
    ensures { result.now ≡ (key_at sig.now (plain_action action.now)).sorts }
{
    sig.acts()[action.act.0].sorts.as_slice()
}

/// Adds the equalities of terms of these sorts, as far as all three go.
///
/// # Errors
///
/// `NoMemory` where there is none for them. The pool may have got some terms then.
pub fn add_term_equalities(
    sig: &Signature,
    pool: &mut Pool,
    sorts: &[SortId],
    firsts: &[TermId],
    seconds: &[TermId],
    conditions: &mut Vec<TermId>,
) -> Result<(), NoMemory>
    requires sorts { All (λ s. s.0 < length sig.now.sorts) sorts.now }
    requires firsts { All (IsTerm sig.now pool.old.trees) firsts.now }
    requires seconds { All (IsTerm sig.now pool.old.trees) seconds.now }
    requires conditions { All (IsTerm sig.now pool.old.trees) conditions.old.items }
    ensures kept { Extends pool.old.trees pool.new.trees }
    ensures over { OnOk result (All (IsTerm sig.now pool.new.trees) conditions.new.items) }
    ensures added { OnOk result (map (term_at sig.now pool.new.trees) conditions.new.items ≡ map (term_at sig.now pool.old.trees) conditions.old.items ++ equalities (map (sort_under sig.now) sorts.now) (map (term_at sig.now pool.old.trees) firsts.now) (map (term_at sig.now pool.old.trees) seconds.now)) }
{
    signature_stands(sig);
    let count = sorts.len().min(firsts.len()).min(seconds.len());
    for index in 0..count {
        conditions.push(equality(sig, pool, sorts[index], firsts[index], seconds[index])?)?;
    }
    Ok(())
}

/// Adds the equalities of the arguments of two actions, as far as both go.
fn add_equalities(
    sig: &Signature,
    pool: &mut Pool,
    left: &Action,
    right: &Action,
    conditions: &mut Vec<TermId>,
) -> Result<(), NoMemory>
    requires left { (a : labels.Action) × ActionIs sig.now pool.old.trees (plain_action left.now) a }
    requires right { (b : labels.Action) × ActionIs sig.now pool.old.trees (plain_action right.now) b }
    requires conditions { All (IsTerm sig.now pool.old.trees) conditions.old.items }
    ensures kept { Extends pool.old.trees pool.new.trees }
    ensures over { OnOk result (All (IsTerm sig.now pool.new.trees) conditions.new.items) }
    ensures added { OnOk result ((a b : labels.Action) → ActionIs sig.now pool.old.trees (plain_action left.now) a → ActionIs sig.now pool.old.trees (plain_action right.now) b → map (term_at sig.now pool.new.trees) conditions.new.items ≡ map (term_at sig.now pool.old.trees) conditions.old.items ++ equalities a.sorts a.args b.args) }
{
    signature_stands(sig);
    let sorts = sorts_of(sig, left);
    let firsts = left.args.as_slice();
    let seconds = right.args.as_slice();
    add_term_equalities(sig, pool, sorts, firsts, seconds, conditions)
}

/// These places without that at a number.
fn places_without(alloc: Global, places: &[usize], at: usize) -> Result<Vec<usize>, NoMemory>
    requires { at < length places.now }
    ensures { IfOk result (λ rest. rest.items ≡ without at places.now) }
{
    let mut rest = Vec::from_slice(alloc, &places[..at])?;
    rest.extend_from_slice(&places[at + 1..])?;
    Ok(rest)
}

/// A way that is begun, with one action more that is paired with the action at one of the places left.
fn paired_with(
    alloc: Global,
    sig: &Signature,
    pool: &mut Pool,
    action: &Action,
    other: &Action,
    begun: &Way,
    at: usize,
) -> Result<Way, NoMemory>
    requires left { (a : labels.Action) × ActionIs sig.now pool.old.trees (plain_action action.now) a }
    requires right { (b : labels.Action) × ActionIs sig.now pool.old.trees (plain_action other.now) b }
    requires conditions { All (IsTerm sig.now pool.old.trees) (plain_way begun.now).conditions }
    requires place { at < length (plain_way begun.now).left }
    ensures kept { Extends pool.old.trees pool.new.trees }
    ensures number { IfOk result (λ way. way.summand ≡ begun.now.summand) }
    ensures over { IfOk result (λ way. All (IsTerm sig.now pool.new.trees) way.conditions.items) }
    ensures conditions { IfOk result (λ way. (a b : labels.Action) → ActionIs sig.now pool.old.trees (plain_action action.now) a → ActionIs sig.now pool.old.trees (plain_action other.now) b → map (term_at sig.now pool.new.trees) way.conditions.items ≡ map (term_at sig.now pool.old.trees) (plain_way begun.now).conditions ++ equalities a.sorts a.args b.args) }
    ensures left { IfOk result (λ way. way.left.items ≡ without at (plain_way begun.now).left) }
{
    let mut conditions = begun.conditions.to_vec(alloc)?;
    add_equalities(sig, pool, action, other, &mut conditions)?;
    let left = places_without(alloc, begun.left.as_slice(), at)?;
    Ok(Way {
        summand: begun.summand,
        conditions,
        left,
    })
}

/// Adds the ways to go on with one that is begun: the next action is paired with each one of the label that is left and has the same name and
/// sorts.
fn add_next(
    alloc: Global,
    sig: &Signature,
    pool: &mut Pool,
    action: &Action,
    given: &[Action],
    begun: &Way,
    found: &mut Vec<Way>,
) -> Result<(), NoMemory>
    requires action { (a : labels.Action) × ActionIs sig.now pool.old.trees (plain_action action.now) a }
    requires given { (m : labels.Label) × LabelIs sig.now pool.old.trees (map plain_action given.now) m }
    requires conditions { All (IsTerm sig.now pool.old.trees) (plain_way begun.now).conditions }
    requires within { All (λ place. place < length given.now) (plain_way begun.now).left }
    ensures kept { Extends pool.old.trees pool.new.trees }
    ensures added { OnOk result ((a : labels.Action) (m : labels.Label) → ActionIs sig.now pool.old.trees (plain_action action.now) a → LabelIs sig.now pool.old.trees (map plain_action given.now) m → AddsNext sig.now pool.old.trees pool.new.trees action.now.act a (map plain_action given.now) m (plain_way begun.now) (length (plain_way begun.now).left) (map plain_way found.old.items) (map plain_way found.new.items)) }
{
    signature_stands(sig);
    for at in 0..begun.left.len() {
        let other = &given[begun.left[at]];
        if other.act.0 != action.act.0 {
            continue;
        }
        found.push(paired_with(alloc, sig, pool, action, other, begun, at)?)?;
    }
    Ok(())
}

/// The ways to go on with those that are begun.
fn next_ways(
    alloc: Global,
    sig: &Signature,
    pool: &mut Pool,
    action: &Action,
    given: &[Action],
    begun: &[Way],
) -> Result<Vec<Way>, NoMemory>
    requires action { (a : labels.Action) × ActionIs sig.now pool.old.trees (plain_action action.now) a }
    requires given { (m : labels.Label) × LabelIs sig.now pool.old.trees (map plain_action given.now) m }
    requires conditions { All (λ w. All (IsTerm sig.now pool.old.trees) w.conditions) (map plain_way begun.now) }
    requires within { All (λ w. All (λ place. place < length given.now) w.left) (map plain_way begun.now) }
    ensures kept { Extends pool.old.trees pool.new.trees }
    ensures next { IfOk result (λ found. (a : labels.Action) (m : labels.Label) → ActionIs sig.now pool.old.trees (plain_action action.now) a → LabelIs sig.now pool.old.trees (map plain_action given.now) m → AreNext sig.now pool.old.trees pool.new.trees action.now.act a (map plain_action given.now) m (map plain_way begun.now) (map plain_way found.items)) }
{
    signature_stands(sig);
    let mut found = Vec::new(alloc);
    for one in begun {
        add_next(alloc, sig, pool, action, given, one, &mut found)?;
    }
    Ok(found)
}

/// The places of so many actions.
fn all_places(alloc: Global, count: usize) -> Result<Vec<usize>, NoMemory>
    ensures many { IfOk result (λ places. length places.items ≡ count) }
    ensures within { IfOk result (λ places. All (λ place. place < count) places.items) }
    ensures all { IfOk result (λ places. (m : labels.Label) → length m ≡ count → actions_at m places.items ≡ m) }
{
    let mut places = Vec::new(alloc);
    for place in 0..count {
        places.push(place)?;
    }
    Ok(places)
}

/// The way of a summand that is begun with no action, where so many are left.
fn first_way(alloc: Global, number: usize, cond: TermId, count: usize) -> Result<Way, NoMemory>
    ensures number { IfOk result (λ way. way.summand ≡ number) }
    ensures conditions { IfOk result (λ way. way.conditions.items ≡ cond ∷ []) }
    ensures many { IfOk result (λ way. length way.left.items ≡ count) }
    ensures within { IfOk result (λ way. All (λ place. place < count) way.left.items) }
    ensures all { IfOk result (λ way. (m : labels.Label) → length m ≡ count → actions_at m way.left.items ≡ m) }
{
    let mut conditions = Vec::new(alloc);
    conditions.push(cond)?;
    let left = all_places(alloc, count)?;
    Ok(Way {
        summand: number,
        conditions,
        left,
    })
}

/// The ways of one summand to do a label with as many actions.
fn ways_of(
    alloc: Global,
    sig: &Signature,
    pool: &mut Pool,
    number: usize,
    summand: &Summand,
    label: &Label,
) -> Result<Vec<Way>, NoMemory>
    requires summand { LabelIs sig.now pool.old.trees (plain_label summand.now.label) (summand_of (entries_of sig.now pool.old.trees) (plain_summand summand.now)).label }
    requires cond { IsTerm sig.now pool.old.trees summand.now.cond }
    requires label { (m : labels.Label) × LabelIs sig.now pool.old.trees (plain_label label.now) m }
    requires many { length summand.now.label.actions.items ≡ length label.now.actions.items }
    ensures kept { Extends pool.old.trees pool.new.trees }
    ensures ways { IfOk result (λ found. (m : labels.Label) → LabelIs sig.now pool.old.trees (plain_label label.now) m → AreWaysOf sig.now pool.new.trees (summand_of (entries_of sig.now pool.old.trees) (plain_summand summand.now)) m number (map plain_way found.items)) }
{
    signature_stands(sig);
    let given = label.actions.as_slice();
    let mut found = Vec::new(alloc);
    found.push(first_way(alloc, number, summand.cond, given.len())?)?;
    for action in &summand.label.actions {
        found = next_ways(alloc, sig, pool, action, given, found.as_slice())?;
    }
    Ok(found)
}

/// Adds the ways of one summand to do a label.
fn add_ways(
    alloc: Global,
    sig: &Signature,
    pool: &mut Pool,
    number: usize,
    summand: &Summand,
    label: &Label,
    ways: &mut Vec<Way>,
) -> Result<(), NoMemory>
    requires summand { LabelIs sig.now pool.old.trees (plain_label summand.now.label) (summand_of (entries_of sig.now pool.old.trees) (plain_summand summand.now)).label }
    requires cond { IsTerm sig.now pool.old.trees summand.now.cond }
    requires label { (m : labels.Label) × LabelIs sig.now pool.old.trees (plain_label label.now) m }
    ensures kept { Extends pool.old.trees pool.new.trees }
    ensures ways { OnOk result ((m : labels.Label) → LabelIs sig.now pool.old.trees (plain_label label.now) m → (added : List PlainWay) × ((map plain_way ways.new.items ≡ map plain_way ways.old.items ++ added) × AreWaysOf sig.now pool.new.trees (summand_of (entries_of sig.now pool.old.trees) (plain_summand summand.now)) m number added)) }
{
    signature_stands(sig);
    if summand.label.actions.len() != label.actions.len() {
        return Ok(());
    }
    let mut found = ways_of(alloc, sig, pool, number, summand, label)?;
    ways.append(&mut found)?;
    Ok(())
}

/// The ways of all summands to do a label.
///
/// # Errors
///
/// `NoMemory` where there is none for them. The pool may have got some terms then.
pub(crate) fn ways(
    alloc: Global,
    sig: &Signature,
    pool: &mut Pool,
    lin: &Linear,
    label: &Label,
) -> Result<Vec<Way>, NoMemory>
    requires lin { Fits sig.now pool.old.trees (plain_linear lin.now) }
    requires label { (m : labels.Label) × LabelIs sig.now pool.old.trees (plain_label label.now) m }
    ensures kept { Extends pool.old.trees pool.new.trees }
    ensures ways { IfOk result (λ found. (m : labels.Label) → LabelIs sig.now pool.old.trees (plain_label label.now) m → AreWays sig.now pool.new.trees (linear_of (entries_of sig.now pool.old.trees) (plain_linear lin.now)) m (length lin.now.summands.items) (map plain_way found.items)) }
{
    signature_stands(sig);
    let mut ways = Vec::new(alloc);
    for (number, summand) in lin.summands.iter().enumerate() {
        add_ways(alloc, sig, pool, number, summand, label, &mut ways)?;
    }
    Ok(ways)
}
