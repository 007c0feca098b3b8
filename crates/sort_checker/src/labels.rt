//! Actions, multi-actions and calls in code, from trees.

ghost use Rattle.std.specs.Prelude.{◌≡◌, ◌∷◌, [], ℕ, List, Some, map, option_map, IfOk, OnOk};
ghost use Rattle.std.specs.List.{AllByRecursion};
ghost use Rattle.data_theory.specs.Terms.{Term};
ghost use Rattle.mcrl2_syntax.specs.Words.{word_of};
ghost use Rattle.mcrl2_syntax.specs.DataTrees.{plain_data};
ghost use Rattle.mcrl2_syntax.specs.ProcessParts.{plain_action, assignment_of};
ghost use Rattle.mcrl2_syntax.specs.TreeWords.{IsActionOfWords, IsAssignmentOfWords, IsDataOfWords, IsName};
ghost use Rattle.process_terms.specs.PlainProcesses as code;
ghost use Rattle.sort_table.specs.BareProcesses as bare;
ghost use Rattle.sort_table.specs.BareProcesses.{bare_action};
ghost use Rattle.sort_table.specs.Expressions.{Name};
ghost use Rattle.sort_table.specs.NamedLists.{all_named};
ghost use Rattle.sort_table.specs.Vocabularies.{Vocabulary};
ghost use Rattle.data_typing.specs.declared.scope.Bound.{Bound};
ghost use Rattle.data_typing.specs.Meanings as meanings;
ghost use Rattle.data_typing.specs.Meanings.{typing_in};
ghost use Rattle.data_typing.specs.Readings.{bare_trees};
ghost use Rattle.data_typing.specs.Typings.{Typing};
ghost use Rattle.sort_checker.specs.FullVocabularies.{FullVocabulary};
ghost use Rattle.sort_checker.specs.Additions.{GoesOn};
ghost use Rattle.sort_checker.specs.AssignedTrees.{assigned_value};
ghost use Rattle.sort_checker.specs.CodeContexts.{IsReady, IsTableOver, SeesData, Sees, CanElaborate, AllCanElaborate, IsElaborated, AreElaborated};
ghost use Rattle.sort_checker.specs.ElaboratedLabels.{IsChosen, IsAction, IsWishedAction, IsWishedLabel, IsWishedCall};
ghost use Rattle.sort_checker.specs.Elaborations.{each_alone};
ghost use Rattle.sort_checker.specs.PartTypings.{action_of, label_in};
ghost use Rattle.sort_checker.specs.SortedActions.{sorts_of, AreActionsOf};

use crate::argument_readings::terms_at;
use crate::argument_terms::argument_terms;
use crate::assigned_terms::assigned_terms;
use crate::chosen_actions::{Chosen, chosen_action};
use crate::process_tables::ProcessTable;
use crate::sorted_actions::SortedActions;
use data_theory::{NoMemory, ProcId, Signature};
use data_typing::scope::Scope;
use data_typing::sort_tables::SortTables;
use mcrl2_syntax::{ActionTree, Assignment, DataTree, Word};
use process_terms::{Action, Label, Proc};
use std::alloc::Global;
use term_pool::Pool;

/// The action that was chosen, with its arguments.
fn taken_action(
    alloc: Global,
    sig: &mut Signature,
    pool: &mut Pool,
    tables: &mut SortTables,
    chosen: &Chosen,
) -> Result<Action, NoMemory>
    requires ready { (bs : List Bound) × IsReady sig.old pool.old tables.old bs }
    requires chosen { (x : Name) × (ts : List Typing) × (us : List Term) × IsChosen sig.old x ts chosen.now us }
    ensures kept { GoesOn sig.old pool.old sig.new pool.new }
    ensures ready { OnOk result ((bs : List Bound) → IsReady sig.old pool.old tables.old bs → IsReady sig.new pool.new tables.new bs) }
    ensures means { IfOk result (λ made. (x : Name) (ts : List Typing) (us : List Term) → IsChosen sig.old x ts chosen.now us → IsAction sig.new pool.new (code.plain_action made) (record { name = x; sorts = sorts_of chosen.now.action.now; args = us })) }
{
    let readings = chosen.readings.as_slice();
    let sorts = chosen.action.sorts.as_slice();
    let args = terms_at(alloc, sig, pool, tables, readings, sorts, chosen.way)?;
    Ok(Action {
        act: chosen.action.act,
        args,
    })
}

/// The action that a name with arguments is, where it is one.
fn named_action(
    alloc: Global,
    sig: &mut Signature,
    pool: &mut Pool,
    tables: &mut SortTables,
    scope: &Scope,
    actions: &SortedActions,
    name: &Word,
    arguments: &[DataTree],
) -> Result<Option<Action>, NoMemory>
    requires ready { IsReady sig.old pool.old tables.old scope.now }
    requires actions { AreActionsOf sig.old actions.now }
    requires words_name { IsName (word_of name.now) }
    requires words_arguments { AllByRecursion IsDataOfWords (map plain_data arguments.now) }
    ensures kept { GoesOn sig.old pool.old sig.new pool.new }
    ensures ready { OnOk result (IsReady sig.new pool.new tables.new scope.now) }
    ensures means { IfOk result (λ found. (v : Vocabulary) (variables : meanings.Scope) → SeesData sig.old scope.now v variables → IsWishedAction sig.new pool.new (action_of name.now.bytes.items (map (typing_in v variables) (bare_trees arguments.now)) (all_named name.now.bytes.items v.actions)) (option_map code.plain_action found)) }
{
    let found = chosen_action(alloc, sig, tables, scope, actions, name, arguments)?;
    let Some(chosen) = found else {
        return Ok(None);
    };
    let made = taken_action(alloc, sig, pool, tables, &chosen)?;
    Ok(Some(made))
}

/// The label that some actions are, where each is one.
///
/// # Errors
///
/// `NoMemory` where there is none for it.
pub(crate) fn label_of(
    alloc: Global,
    sig: &mut Signature,
    pool: &mut Pool,
    tables: &mut SortTables,
    scope: &Scope,
    actions: &SortedActions,
    trees: &[ActionTree],
) -> Result<Option<Label>, NoMemory>
    requires ready { IsReady sig.old pool.old tables.old scope.now }
    requires actions { AreActionsOf sig.old actions.now }
    requires words { AllByRecursion IsActionOfWords (map plain_action trees.now) }
    ensures kept { GoesOn sig.old pool.old sig.new pool.new }
    ensures ready { OnOk result (IsReady sig.new pool.new tables.new scope.now) }
    ensures means { IfOk result (λ found. (v : Vocabulary) (variables : meanings.Scope) → SeesData sig.old scope.now v variables → IsWishedLabel sig.new pool.new (label_in v variables (map bare_action (map plain_action trees.now))) (option_map code.plain_label found)) }
{
    let mut list = Vec::new(alloc);
    for tree in trees {
        let ActionTree::Named(_, name, arguments) = tree else {
            continue;
        };
        let arguments = arguments.as_slice();
        let made = named_action(alloc, sig, pool, tables, scope, actions, name, arguments)?;
        let Some(action) = made else {
            return Ok(None);
        };
        list.push(action)?;
    }
    Ok(Some(Label { actions: list }))
}

/// The call that a name with arguments is, where the name is that of a process and each argument checks at its parameter's sort.
fn call_in_order<'a>(
    alloc: Global,
    sig: &mut Signature,
    pool: &mut Pool,
    tables: &mut SortTables,
    scope: &Scope,
    processes: &ProcessTable<'a>,
    name: &'a [u8],
    arguments: &[DataTree],
) -> Result<Option<Proc>, NoMemory>
    requires ready { IsReady sig.old pool.old tables.old scope.now }
    requires table { IsTableOver sig.old processes.now }
    requires words { AllByRecursion IsDataOfWords (map plain_data arguments.now) }
    ensures kept { GoesOn sig.old pool.old sig.new pool.new }
    ensures ready { OnOk result (IsReady sig.new pool.new tables.new scope.now) }
    ensures means { IfOk result (λ found. (v : FullVocabulary) (variables : meanings.Scope) → Sees sig.old processes.now scope.now v variables → IsWishedCall v variables name.now (bare_trees arguments.now) sig.new pool.new (option_map code.plain_process found)) }
{
    let Some(place) = processes.places.get(name) else {
        return Ok(None);
    };
    let parameters = processes.parameters[place].as_slice();
    let terms = argument_terms(alloc, sig, pool, tables, scope, parameters, arguments)?;
    match terms {
        Some(terms) => Ok(Some(Proc::Call(ProcId(place), terms))),
        None => Ok(None),
    }
}

/// The action, or the call with arguments in order, that a name with arguments elaborates to.
///
/// # Errors
///
/// `NoMemory` where there is none for it.
pub(crate) fn action_or_call<'a>(
    alloc: Global,
    sig: &mut Signature,
    pool: &mut Pool,
    tables: &mut SortTables,
    scope: &mut Scope,
    processes: &ProcessTable<'a>,
    action: &'a ActionTree,
) -> Result<Proc, NoMemory>
    requires ready { IsReady sig.old pool.old tables.old scope.old }
    requires table { IsTableOver sig.old processes.now }
    requires words { IsActionOfWords (plain_action action.now) }
    requires elaborates { CanElaborate sig.old processes.now scope.old (bare.acts (bare_action (plain_action action.now) ∷ [])) }
    ensures kept { GoesOn sig.old pool.old sig.new pool.new }
    ensures ready { OnOk result (IsReady sig.new pool.new tables.new scope.new) }
    ensures scope { OnOk result (scope.new ≡ scope.old) }
    ensures means { IfOk result (λ made. (v : FullVocabulary) (variables : meanings.Scope) → Sees sig.old processes.now scope.old v variables → IsElaborated v variables (bare.acts (bare_action (plain_action action.now) ∷ [])) sig.new pool.new (code.plain_process made)) }
{
    let ActionTree::Named(_, name, arguments) = action else {
        let actions = Vec::new(alloc);
        return Ok(Proc::Act(Label { actions }));
    };
    let text = name.bytes.as_slice();
    let arguments = arguments.as_slice();
    let call = call_in_order(alloc, sig, pool, tables, scope, processes, text, arguments)?;
    if let Some(call) = call {
        return Ok(call);
    }
    let table = &processes.actions;
    let made = named_action(alloc, sig, pool, tables, scope, table, name, arguments)?;
    let Some(action) = made else {
        unreachable!();
    };
    let mut actions = Vec::new(alloc);
    actions.push(action)?;
    Ok(Proc::Act(Label { actions }))
}

/// The actions and calls that names with arguments elaborate to, one by one.
fn each_alone<'a>(
    alloc: Global,
    sig: &mut Signature,
    pool: &mut Pool,
    tables: &mut SortTables,
    scope: &mut Scope,
    processes: &ProcessTable<'a>,
    actions: &'a [ActionTree],
) -> Result<Vec<Proc>, NoMemory>
    requires ready { IsReady sig.old pool.old tables.old scope.old }
    requires table { IsTableOver sig.old processes.now }
    requires words { AllByRecursion IsActionOfWords (map plain_action actions.now) }
    requires elaborates { AllCanElaborate sig.old processes.now scope.old (each_alone (map bare_action (map plain_action actions.now))) }
    ensures kept { GoesOn sig.old pool.old sig.new pool.new }
    ensures ready { OnOk result (IsReady sig.new pool.new tables.new scope.new) }
    ensures scope { OnOk result (scope.new ≡ scope.old) }
    ensures means { IfOk result (λ made. (v : FullVocabulary) (variables : meanings.Scope) → Sees sig.old processes.now scope.old v variables → AreElaborated v variables (each_alone (map bare_action (map plain_action actions.now))) sig.new pool.new (map code.plain_process made.items)) }
{
    let mut made = Vec::new(alloc);
    for action in actions {
        made.push(action_or_call(alloc, sig, pool, tables, scope, processes, action)?)?;
    }
    Ok(made)
}

/// What happens at once: a label, or, where one of the names is that of a process, these one by one.
///
/// # Errors
///
/// `NoMemory` where there is none for them.
pub(crate) fn multi_action<'a>(
    alloc: Global,
    sig: &mut Signature,
    pool: &mut Pool,
    tables: &mut SortTables,
    scope: &mut Scope,
    processes: &ProcessTable<'a>,
    actions: &'a [ActionTree],
) -> Result<Proc, NoMemory>
    requires ready { IsReady sig.old pool.old tables.old scope.old }
    requires table { IsTableOver sig.old processes.now }
    requires words { AllByRecursion IsActionOfWords (map plain_action actions.now) }
    requires elaborates { CanElaborate sig.old processes.now scope.old (bare.acts (map bare_action (map plain_action actions.now))) }
    ensures kept { GoesOn sig.old pool.old sig.new pool.new }
    ensures ready { OnOk result (IsReady sig.new pool.new tables.new scope.new) }
    ensures scope { OnOk result (scope.new ≡ scope.old) }
    ensures means { IfOk result (λ made. (v : FullVocabulary) (variables : meanings.Scope) → Sees sig.old processes.now scope.old v variables → IsElaborated v variables (bare.acts (map bare_action (map plain_action actions.now))) sig.new pool.new (code.plain_process made)) }
{
    if actions.len() == 1 {
        return action_or_call(alloc, sig, pool, tables, scope, processes, &actions[0]);
    }
    let table = &processes.actions;
    let made = label_of(alloc, sig, pool, tables, scope, table, actions)?;
    if let Some(label) = made {
        return Ok(Proc::Act(label));
    }
    let parts = each_alone(alloc, sig, pool, tables, scope, processes, actions)?;
    Ok(Proc::Sync(parts))
}

/// The call that a call by assignment elaborates to.
///
/// # Errors
///
/// `NoMemory` where there is none for it.
pub(crate) fn call_by_name<'a>(
    alloc: Global,
    sig: &mut Signature,
    pool: &mut Pool,
    tables: &mut SortTables,
    scope: &mut Scope,
    processes: &ProcessTable<'a>,
    name: &'a Word,
    assignments: &'a [Assignment],
) -> Result<Proc, NoMemory>
    requires ready { IsReady sig.old pool.old tables.old scope.old }
    requires table { IsTableOver sig.old processes.now }
    requires words_name { IsName (word_of name.now) }
    requires words_values { AllByRecursion IsAssignmentOfWords (map assignment_of assignments.now) }
    requires elaborates { CanElaborate sig.old processes.now scope.old (bare.call name.now.bytes.items (map assigned_value assignments.now)) }
    ensures kept { GoesOn sig.old pool.old sig.new pool.new }
    ensures ready { OnOk result (IsReady sig.new pool.new tables.new scope.new) }
    ensures scope { OnOk result (scope.new ≡ scope.old) }
    ensures means { IfOk result (λ made. (v : FullVocabulary) (variables : meanings.Scope) → Sees sig.old processes.now scope.old v variables → IsElaborated v variables (bare.call name.now.bytes.items (map assigned_value assignments.now)) sig.new pool.new (code.plain_process made)) }
{
    let Some(place) = processes.places.get(name.bytes.as_slice()) else {
        unreachable!();
    };
    let parameters = processes.parameters[place].as_slice();
    let made = assigned_terms(alloc, sig, pool, tables, scope, parameters, assignments)?;
    let Some(terms) = made else {
        unreachable!();
    };
    Ok(Proc::Call(ProcId(place), terms))
}
