//! Communication around a linear process.

ghost use Rattle.std.specs.Prelude.{◌≡◌, ◌++◌, ◌∷◌, [], List, map, flat_map, IfOk, OnOk};
ghost use Rattle.std.specs.List.{All};
ghost use Rattle.data_theory.specs.declared.ids.VarId.{VarId as MeantVariable};
ghost use Rattle.data_theory.specs.Table.{bool_sort};
ghost use Rattle.term_pool.specs.Pools.{Extends};
ghost use Rattle.process_terms.specs.PlainProcesses.{comm, plain_label, plain_rules};
ghost use Rattle.process_terms.specs.Meanings.{rule_of};
ghost use Rattle.process_terms.specs.SignatureEntries.{entries_of};
ghost use Rattle.lps_core.specs.PlainLinears.{linear_of, plain_linear, plain_summand, summand_of};
ghost use Rattle.lps_core.specs.Fitting.{Fits, IsActionOf, IsTermOf};
ghost use Rattle.action_filters.specs.Filters.{AreActionsIn, IsGoodAround};
ghost use Rattle.communication.specs.Communicated.{communicated, communicating};
ghost use Rattle.communication.specs.GrownSummands.{with_both, AreSummands, SummandServes, SummandsGrow};
ghost use Rattle.communication.specs.PlaceConditions.{HaveResults, RuleNamesIn};
ghost use Rattle.communication.specs.Places.{plain_way};
ghost use Rattle.communication.specs.PlanLaws.{is_shut, planned_summand, WayServes};
ghost use Rattle.communication.specs.PlanMeanings.{PlanFits};
ghost use Rattle.communication.specs.Plans.{plain_plan, planned};
ghost use Rattle.communication.specs.Rounds.{items_of};

use crate::conditions::condition_of;
use crate::places::{Way, places_of};
use crate::plans::{Plan, plan_of, signature_stands};
use crate::rule_tables::{RuleTable, table_of};
use crate::ways::ways_of;
use data_theory::{NoMemory, Signature, TermId};
use lps_core::{Linear, Summand};
use process_terms::{CommSet, Label};
use std::alloc::Global;
use term_pool::Pool;

/// Whether a plan has a further group without arguments.
fn is_shut(plan: &Plan) -> bool
    ensures { result ≡ is_shut (plain_plan plan.now) }
{
    for asked in &plan.further {
        if asked.is_empty() {
            return true;
        }
    }
    false
}

/// Adds a summand with another condition and another label.
fn add_with(
    alloc: Global,
    summand: &Summand,
    cond: TermId,
    label: Label,
    found: &mut Vec<Summand>,
) -> Result<(), NoMemory>
    ensures { OnOk result (map plain_summand found.new.items ≡ map plain_summand found.old.items ++ with_both (plain_summand summand.now) cond (plain_label label) ∷ []) }
{
    let mut made = summand.copy(alloc)?;
    made.cond = cond;
    made.label = label;
    found.push(made)?;
    Ok(())
}

/// Adds the summand that a plan makes of one, where it makes one.
fn add_planned(
    alloc: Global,
    sig: &Signature,
    pool: &mut Pool,
    summand: &Summand,
    plan: Plan,
    found: &mut Vec<Summand>,
) -> Result<(), NoMemory>
    requires cond { IsTermOf sig.now pool.old.trees bool_sort (plain_summand summand.now).condition }
    requires plan { PlanFits sig.now pool.old.trees (plain_plan plan) }
    requires label { All (IsActionOf sig.now pool.old.trees) (plain_plan plan).label }
    ensures kept { Extends pool.old.trees pool.new.trees }
    ensures constants { pool.new.constants ≡ pool.old.constants }
    ensures added { OnOk result ((ps : List MeantVariable) → SummandServes sig.now pool.old.trees ps (plain_summand summand.now) → SummandsGrow sig.now ps pool.old.trees (map plain_summand found.old.items) pool.new.trees (map plain_summand found.new.items) (planned_summand sig.now pool.old.trees (plain_summand summand.now) (plain_plan plan))) }
{
    signature_stands(sig);
    if is_shut(&plan) {
        return Ok(());
    }
    let cond = condition_of(alloc, sig, pool, summand.cond, &plan)?;
    add_with(alloc, summand, cond, plan.label, found)?;
    Ok(())
}

/// Adds the summands of ways.
fn add_ways(
    alloc: Global,
    sig: &Signature,
    pool: &mut Pool,
    rules: &RuleTable,
    summand: &Summand,
    ways: &[Way],
    found: &mut Vec<Summand>,
) -> Result<(), NoMemory>
    requires actions { AreActionsIn sig.now (plain_summand summand.now).label }
    requires cond { IsTermOf sig.now pool.old.trees bool_sort (plain_summand summand.now).condition }
    requires ways { All (WayServes sig.now pool.old.trees rules.now (plain_summand summand.now).label) (map items_of (map plain_way ways.now)) }
    ensures kept { Extends pool.old.trees pool.new.trees }
    ensures constants { pool.new.constants ≡ pool.old.constants }
    ensures added { OnOk result ((ps : List MeantVariable) → SummandServes sig.now pool.old.trees ps (plain_summand summand.now) → SummandsGrow sig.now ps pool.old.trees (map plain_summand found.old.items) pool.new.trees (map plain_summand found.new.items) (flat_map (λ v. planned_summand sig.now pool.old.trees (plain_summand summand.now) (planned sig.now rules.now (plain_summand summand.now).label v)) (map items_of (map plain_way ways.now)))) }
{
    signature_stands(sig);
    for way in ways {
        let plan = plan_of(
            alloc,
            sig,
            rules,
            summand.label.actions.as_slice(),
            way.items.as_slice(),
        )?;
        add_planned(alloc, sig, pool, summand, plan, found)?;
    }
    Ok(())
}

/// Adds the summands that one becomes.
fn add_communicated(
    alloc: Global,
    sig: &Signature,
    pool: &mut Pool,
    rules: &RuleTable,
    summand: &Summand,
    found: &mut Vec<Summand>,
) -> Result<(), NoMemory>
    requires fits { (ps : List MeantVariable) × SummandServes sig.now pool.old.trees ps (plain_summand summand.now) }
    requires names { All (RuleNamesIn sig.now) rules.now }
    requires results { HaveResults sig.now rules.now }
    ensures kept { Extends pool.old.trees pool.new.trees }
    ensures constants { pool.new.constants ≡ pool.old.constants }
    ensures added { OnOk result ((ps : List MeantVariable) → SummandServes sig.now pool.old.trees ps (plain_summand summand.now) → SummandsGrow sig.now ps pool.old.trees (map plain_summand found.old.items) pool.new.trees (map plain_summand found.new.items) (communicated (map (rule_of (entries_of sig.now pool.old.trees)) rules.now) (summand_of (entries_of sig.now pool.old.trees) (plain_summand summand.now)))) }
{
    signature_stands(sig);
    let places = places_of(alloc, sig, summand.label.actions.as_slice())?;
    let ways = ways_of(alloc, rules, places)?;
    add_ways(alloc, sig, pool, rules, summand, ways.as_slice(), found)?;
    Ok(())
}

/// The summands that those of a process become.
fn communicated_summands(
    alloc: Global,
    lin: &Linear,
    rules: &RuleTable,
    sig: &Signature,
    pool: &mut Pool,
) -> Result<Vec<Summand>, NoMemory>
    requires fits { Fits sig.now pool.old.trees (plain_linear lin.now) }
    requires names { All (RuleNamesIn sig.now) rules.now }
    requires results { HaveResults sig.now rules.now }
    ensures kept { Extends pool.old.trees pool.new.trees }
    ensures constants { pool.new.constants ≡ pool.old.constants }
    ensures made { IfOk result (λ made. AreSummands sig.now pool.new.trees (plain_linear lin.now).params (map plain_summand made.items) (flat_map (communicated (map (rule_of (entries_of sig.now pool.old.trees)) rules.now)) (map (summand_of (entries_of sig.now pool.old.trees)) (plain_linear lin.now).summands))) }
{
    signature_stands(sig);
    let mut summands = Vec::new(alloc);
    for summand in &lin.summands {
        add_communicated(alloc, sig, pool, rules, summand, &mut summands)?;
    }
    Ok(summands)
}

/// `comm(C, p)`: for each summand, in its place, those of the ways to group its actions by the rules (mCRL2 language
/// reference, `comm`).
///
/// # Errors
///
/// `NoMemory` where there is none for the result.
pub fn communicate(
    alloc: Global,
    lin: &Linear,
    rules: &CommSet,
    sig: &Signature,
    pool: &mut Pool,
) -> Result<Linear, NoMemory>
    requires fits { Fits sig.now pool.old.trees (plain_linear lin.now) }
    requires names { All (RuleNamesIn sig.now) (plain_rules rules.now) }
    requires results { HaveResults sig.now (plain_rules rules.now) }
    ensures kept { Extends pool.old.trees pool.new.trees }
    ensures constants { pool.new.constants ≡ pool.old.constants }
    ensures params { IfOk result (λ made. (plain_linear made).params ≡ (plain_linear lin.now).params) }
    ensures init { IfOk result (λ made. (plain_linear made).init ≡ (plain_linear lin.now).init) }
    ensures summands { IfOk result (λ made. linear_of (entries_of sig.now pool.new.trees) (plain_linear made) ≡ communicating (map (rule_of (entries_of sig.now pool.old.trees)) (plain_rules rules.now)) (linear_of (entries_of sig.now pool.old.trees) (plain_linear lin.now))) }
    ensures fits { IfOk result (λ made. Fits sig.now pool.new.trees (plain_linear made)) }
    ensures bisimilar { IfOk result (λ made. IsGoodAround sig.now pool.new.trees (comm (plain_rules rules.now)) (plain_linear lin.now) (plain_linear made)) }
{
    signature_stands(sig);
    let table = table_of(alloc, rules)?;
    let summands = communicated_summands(alloc, lin, &table, sig, pool)?;
    Ok(Linear {
        params: lin.params.to_vec(alloc)?,
        init: lin.init.to_vec(alloc)?,
        summands,
    })
}
