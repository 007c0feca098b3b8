//! Process terms in code, from trees.

ghost use Rattle.std.specs.Prelude.{◌≡◌, map, IfOk, OnOk};
ghost use Rattle.std.specs.List.{AllByRecursion};
ghost use Rattle.mcrl2_syntax.specs.DataTrees.{plain_data};
ghost use Rattle.mcrl2_syntax.specs.ProcessParts.{var_group_of};
ghost use Rattle.mcrl2_syntax.specs.ProcessTrees as trees;
ghost use Rattle.mcrl2_syntax.specs.ProcessTrees.{plain_process};
ghost use Rattle.mcrl2_syntax.specs.TreeWords.{IsDataOfWords, IsProcessOfWords, AreProcessesOfWords, IsGroupOfWords};
ghost use Rattle.process_terms.specs.PlainProcesses as code;
ghost use Rattle.sort_table.specs.BareData.{bare_data};
ghost use Rattle.sort_table.specs.BareProcesses as bare;
ghost use Rattle.sort_table.specs.BareProcesses.{bare_variables, bare_process, bare_processes};
ghost use Rattle.data_typing.specs.Meanings as meanings;
ghost use Rattle.sort_checker.specs.FullVocabularies.{FullVocabulary};
ghost use Rattle.sort_checker.specs.Additions.{GoesOn};
ghost use Rattle.sort_checker.specs.CodeContexts.{IsReady, IsTableOver, Sees, CanElaborate, AllCanElaborate, IsElaborated, AreElaborated, SumNamesStand, AllSumNamesStand};

use crate::binders::{enter_groups, leave_to};
use crate::form_trees::{around, joined};
use crate::labels::{action_or_call, call_by_name, multi_action};
use crate::process_tables::ProcessTable;
use crate::wished_terms::condition_term;
use data_theory::{NoMemory, Signature};
use data_typing::scope::Scope;
use data_typing::sort_tables::SortTables;
use mcrl2_syntax::{DataTree, ProcTree, VarGroup};
use process_terms::Proc;
use std::alloc::Global;
use term_pool::Pool;

/// The process term that a tree elaborates to.
///
/// # Errors
///
/// `NoMemory` where there is none for it.
#[cycle(elaborating)]
pub(crate) fn process_of<'a>(
    alloc: Global,
    sig: &mut Signature,
    pool: &mut Pool,
    tables: &mut SortTables,
    scope: &mut Scope,
    processes: &ProcessTable<'a>,
    tree: &'a ProcTree,
) -> Result<Proc, NoMemory>
    requires ready { IsReady sig.old pool.old tables.old scope.old }
    requires table { IsTableOver sig.old processes.now }
    requires words { IsProcessOfWords (plain_process tree.now) }
    requires names { SumNamesStand sig.old (bare_process (plain_process tree.now)) }
    requires elaborates { CanElaborate sig.old processes.now scope.old (bare_process (plain_process tree.now)) }
    ensures kept { GoesOn sig.old pool.old sig.new pool.new }
    ensures ready { OnOk result (IsReady sig.new pool.new tables.new scope.new) }
    ensures scope { OnOk result (scope.new ≡ scope.old) }
    ensures means { IfOk result (λ made. (v : FullVocabulary) (variables : meanings.Scope) → Sees sig.old processes.now scope.old v variables → IsElaborated v variables (bare_process (plain_process tree.now)) sig.new pool.new (code.plain_process made)) }
{
    match tree {
        ProcTree::Delta(_) => Ok(Proc::Delta),
        ProcTree::Action(action) => action_or_call(
            alloc, sig, pool, tables, scope, processes, action,
        ),
        ProcTree::Multi(_, actions) => {
            let actions = actions.as_slice();
            multi_action(alloc, sig, pool, tables, scope, processes, actions)
        }
        ProcTree::Call(_, name, values) => {
            let values = values.as_slice();
            call_by_name(alloc, sig, pool, tables, scope, processes, name, values)
        }
        ProcTree::Brackets(_, inner) => process_of(
            alloc, sig, pool, tables, scope, processes, inner,
        ),
        ProcTree::Allow(_, _, inner)
        | ProcTree::Block(_, _, inner)
        | ProcTree::Hide(_, _, inner)
        | ProcTree::Rename(_, _, inner)
        | ProcTree::Comm(_, _, inner) => {
            let inner = boxed_process(alloc, sig, pool, tables, scope, processes, inner)?;
            around(alloc, sig, tree, inner)
        }
        ProcTree::Sequence(_, list)
        | ProcTree::Parallel(_, list)
        | ProcTree::Choice(_, list)
        | ProcTree::Sync(_, list) => {
            let parts = processes_of(alloc, sig, pool, tables, scope, processes, list.as_slice())?;
            Ok(joined(tree, parts))
        }
        ProcTree::Sum(_, groups, inner) => {
            let groups = groups.as_slice();
            sum_of(alloc, sig, pool, tables, scope, processes, groups, inner)
        }
        ProcTree::When(_, condition, then) => when_of(
            alloc, sig, pool, tables, scope, processes, condition, then,
        ),
        ProcTree::Either(_, test, one, other) => either_of(
            alloc, sig, pool, tables, scope, processes, test, one, other,
        ),
        ProcTree::LeftMerge(_, first, second) => left_merge_of(
            alloc, sig, pool, tables, scope, processes, first, second,
        ),
    }
}

/// The process term that a tree elaborates to, in a box.
#[cycle(elaborating)]
fn boxed_process<'a>(
    alloc: Global,
    sig: &mut Signature,
    pool: &mut Pool,
    tables: &mut SortTables,
    scope: &mut Scope,
    processes: &ProcessTable<'a>,
    inner: &'a ProcTree,
) -> Result<Box<Proc>, NoMemory>
    requires ready { IsReady sig.old pool.old tables.old scope.old }
    requires table { IsTableOver sig.old processes.now }
    requires words { IsProcessOfWords (plain_process inner.now) }
    requires names { SumNamesStand sig.old (bare_process (plain_process inner.now)) }
    requires elaborates { CanElaborate sig.old processes.now scope.old (bare_process (plain_process inner.now)) }
    ensures kept { GoesOn sig.old pool.old sig.new pool.new }
    ensures ready { OnOk result (IsReady sig.new pool.new tables.new scope.new) }
    ensures scope { OnOk result (scope.new ≡ scope.old) }
    ensures means { IfOk result (λ made. (v : FullVocabulary) (variables : meanings.Scope) → Sees sig.old processes.now scope.old v variables → IsElaborated v variables (bare_process (plain_process inner.now)) sig.new pool.new (code.plain_process made.value)) }
{
    let made = process_of(alloc, sig, pool, tables, scope, processes, inner)?;
    Ok(Box::new(alloc, made)?)
}

/// The process terms to which trees elaborate.
#[cycle(elaborating)]
fn processes_of<'a>(
    alloc: Global,
    sig: &mut Signature,
    pool: &mut Pool,
    tables: &mut SortTables,
    scope: &mut Scope,
    processes: &ProcessTable<'a>,
    parts: &'a [ProcTree],
) -> Result<Vec<Proc>, NoMemory>
    requires ready { IsReady sig.old pool.old tables.old scope.old }
    requires table { IsTableOver sig.old processes.now }
    requires words { AreProcessesOfWords (trees.processes_of (map plain_process parts.now)) }
    requires names { AllSumNamesStand sig.old (bare_processes (trees.processes_of (map plain_process parts.now))) }
    requires elaborates { AllCanElaborate sig.old processes.now scope.old (bare_processes (trees.processes_of (map plain_process parts.now))) }
    ensures kept { GoesOn sig.old pool.old sig.new pool.new }
    ensures ready { OnOk result (IsReady sig.new pool.new tables.new scope.new) }
    ensures scope { OnOk result (scope.new ≡ scope.old) }
    ensures means { IfOk result (λ made. (v : FullVocabulary) (variables : meanings.Scope) → Sees sig.old processes.now scope.old v variables → AreElaborated v variables (bare_processes (trees.processes_of (map plain_process parts.now))) sig.new pool.new (map code.plain_process made.items)) }
{
    let mut made = Vec::new(alloc);
    for part in parts {
        made.push(process_of(alloc, sig, pool, tables, scope, processes, part)?)?;
    }
    Ok(made)
}

/// A process term for each value of the variables.
#[cycle(elaborating)]
fn sum_of<'a>(
    alloc: Global,
    sig: &mut Signature,
    pool: &mut Pool,
    tables: &mut SortTables,
    scope: &mut Scope,
    processes: &ProcessTable<'a>,
    groups: &'a [VarGroup],
    inner: &'a ProcTree,
) -> Result<Proc, NoMemory>
    requires ready { IsReady sig.old pool.old tables.old scope.old }
    requires table { IsTableOver sig.old processes.now }
    requires words { AllByRecursion IsGroupOfWords (map var_group_of groups.now) × IsProcessOfWords (plain_process inner.now) }
    requires names { SumNamesStand sig.old (bare.sum (bare_variables (map var_group_of groups.now)) (bare_process (plain_process inner.now))) }
    requires elaborates { CanElaborate sig.old processes.now scope.old (bare.sum (bare_variables (map var_group_of groups.now)) (bare_process (plain_process inner.now))) }
    ensures kept { GoesOn sig.old pool.old sig.new pool.new }
    ensures ready { OnOk result (IsReady sig.new pool.new tables.new scope.new) }
    ensures scope { OnOk result (scope.new ≡ scope.old) }
    ensures means { IfOk result (λ made. (v : FullVocabulary) (variables : meanings.Scope) → Sees sig.old processes.now scope.old v variables → IsElaborated v variables (bare.sum (bare_variables (map var_group_of groups.now)) (bare_process (plain_process inner.now))) sig.new pool.new (code.plain_process made)) }
{
    let left = scope.len();
    let variables = enter_groups(alloc, sig, pool, tables, scope, groups)?;
    let made = boxed_process(alloc, sig, pool, tables, scope, processes, inner)?;
    leave_to(scope, left);
    Ok(Proc::Sum(variables, made))
}

/// A process term under a condition.
#[cycle(elaborating)]
fn when_of<'a>(
    alloc: Global,
    sig: &mut Signature,
    pool: &mut Pool,
    tables: &mut SortTables,
    scope: &mut Scope,
    processes: &ProcessTable<'a>,
    condition: &'a DataTree,
    then: &'a ProcTree,
) -> Result<Proc, NoMemory>
    requires ready { IsReady sig.old pool.old tables.old scope.old }
    requires table { IsTableOver sig.old processes.now }
    requires words { IsDataOfWords (plain_data condition.now) × IsProcessOfWords (plain_process then.now) }
    requires names { SumNamesStand sig.old (bare_process (plain_process then.now)) }
    requires elaborates { CanElaborate sig.old processes.now scope.old (bare.when (bare_data (plain_data condition.now)) (bare_process (plain_process then.now))) }
    ensures kept { GoesOn sig.old pool.old sig.new pool.new }
    ensures ready { OnOk result (IsReady sig.new pool.new tables.new scope.new) }
    ensures scope { OnOk result (scope.new ≡ scope.old) }
    ensures means { IfOk result (λ made. (v : FullVocabulary) (variables : meanings.Scope) → Sees sig.old processes.now scope.old v variables → IsElaborated v variables (bare.when (bare_data (plain_data condition.now)) (bare_process (plain_process then.now))) sig.new pool.new (code.plain_process made)) }
{
    let condition = condition_term(alloc, sig, pool, tables, scope, condition)?;
    let then = boxed_process(alloc, sig, pool, tables, scope, processes, then)?;
    let other = Box::new(alloc, Proc::Delta)?;
    Ok(Proc::Cond(condition, then, other))
}

/// One of two process terms, as a condition holds.
#[cycle(elaborating)]
fn either_of<'a>(
    alloc: Global,
    sig: &mut Signature,
    pool: &mut Pool,
    tables: &mut SortTables,
    scope: &mut Scope,
    processes: &ProcessTable<'a>,
    condition: &'a DataTree,
    then: &'a ProcTree,
    other: &'a ProcTree,
) -> Result<Proc, NoMemory>
    requires ready { IsReady sig.old pool.old tables.old scope.old }
    requires table { IsTableOver sig.old processes.now }
    requires words { IsDataOfWords (plain_data condition.now) × IsProcessOfWords (plain_process then.now) × IsProcessOfWords (plain_process other.now) }
    requires names { SumNamesStand sig.old (bare_process (plain_process then.now)) × SumNamesStand sig.old (bare_process (plain_process other.now)) }
    requires elaborates { CanElaborate sig.old processes.now scope.old (bare.either (bare_data (plain_data condition.now)) (bare_process (plain_process then.now)) (bare_process (plain_process other.now))) }
    ensures kept { GoesOn sig.old pool.old sig.new pool.new }
    ensures ready { OnOk result (IsReady sig.new pool.new tables.new scope.new) }
    ensures scope { OnOk result (scope.new ≡ scope.old) }
    ensures means { IfOk result (λ made. (v : FullVocabulary) (variables : meanings.Scope) → Sees sig.old processes.now scope.old v variables → IsElaborated v variables (bare.either (bare_data (plain_data condition.now)) (bare_process (plain_process then.now)) (bare_process (plain_process other.now))) sig.new pool.new (code.plain_process made)) }
{
    let condition = condition_term(alloc, sig, pool, tables, scope, condition)?;
    let then = boxed_process(alloc, sig, pool, tables, scope, processes, then)?;
    let other = boxed_process(alloc, sig, pool, tables, scope, processes, other)?;
    Ok(Proc::Cond(condition, then, other))
}

/// Two process terms side by side, of which the first one goes first.
#[cycle(elaborating)]
fn left_merge_of<'a>(
    alloc: Global,
    sig: &mut Signature,
    pool: &mut Pool,
    tables: &mut SortTables,
    scope: &mut Scope,
    processes: &ProcessTable<'a>,
    first: &'a ProcTree,
    second: &'a ProcTree,
) -> Result<Proc, NoMemory>
    requires ready { IsReady sig.old pool.old tables.old scope.old }
    requires table { IsTableOver sig.old processes.now }
    requires words { IsProcessOfWords (plain_process first.now) × IsProcessOfWords (plain_process second.now) }
    requires names { SumNamesStand sig.old (bare_process (plain_process first.now)) × SumNamesStand sig.old (bare_process (plain_process second.now)) }
    requires elaborates { CanElaborate sig.old processes.now scope.old (bare.left_merge (bare_process (plain_process first.now)) (bare_process (plain_process second.now))) }
    ensures kept { GoesOn sig.old pool.old sig.new pool.new }
    ensures ready { OnOk result (IsReady sig.new pool.new tables.new scope.new) }
    ensures scope { OnOk result (scope.new ≡ scope.old) }
    ensures means { IfOk result (λ made. (v : FullVocabulary) (variables : meanings.Scope) → Sees sig.old processes.now scope.old v variables → IsElaborated v variables (bare.left_merge (bare_process (plain_process first.now)) (bare_process (plain_process second.now))) sig.new pool.new (code.plain_process made)) }
{
    let first = boxed_process(alloc, sig, pool, tables, scope, processes, first)?;
    let second = boxed_process(alloc, sig, pool, tables, scope, processes, second)?;
    Ok(Proc::LeftMerge(first, second))
}
