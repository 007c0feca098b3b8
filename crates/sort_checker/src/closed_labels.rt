//! Labels from trees, over a signature to which nothing is added.

ghost use Rattle.std.specs.Prelude.{◌≡◌, List, map, option_map, IfOk, IsErrOf, OnOk};
ghost use Rattle.std.specs.List.{All, AllByRecursion};
ghost use Rattle.data_theory.specs.IdTerms.{IsTreeWithin};
ghost use Rattle.data_theory.specs.Terms.{Term};
ghost use Rattle.mcrl2_syntax.specs.Words.{word_of};
ghost use Rattle.mcrl2_syntax.specs.DataTrees.{plain_data};
ghost use Rattle.mcrl2_syntax.specs.ProcessParts.{plain_action, label_of};
ghost use Rattle.mcrl2_syntax.specs.TreeWords.{IsActionOfWords, IsDataOfWords, IsLabelOfWords, IsName};
ghost use Rattle.process_terms.specs.Labels as labels;
ghost use Rattle.process_terms.specs.PlainProcesses as code;
ghost use Rattle.sort_table.specs.BareProcesses.{bare_action};
ghost use Rattle.sort_table.specs.Expressions.{Name};
ghost use Rattle.sort_table.specs.NamedLists.{all_named};
ghost use Rattle.sort_table.specs.Vocabularies.{Vocabulary};
ghost use Rattle.data_typing.specs.declared.scope.Bound.{Bound};
ghost use Rattle.data_typing.specs.Meanings as meanings;
ghost use Rattle.data_typing.specs.Meanings.{typing_in};
ghost use Rattle.data_typing.specs.Readings.{bare_trees};
ghost use Rattle.data_typing.specs.Typings.{Typing};
ghost use Rattle.sort_checker.specs.Additions.{GoesOn};
ghost use Rattle.sort_checker.specs.CodeContexts.{IsReady, SeesData};
ghost use Rattle.sort_checker.specs.ElaboratedLabels.{IsChosen};
ghost use Rattle.sort_checker.specs.PartTypings.{action_of, label_in};
ghost use Rattle.sort_checker.specs.SortedActions.{sorts_of, AreActionsOf};
ghost use Rattle.sort_checker.specs.TypedLabels.{IsTakenIn, IsActionIn, IsLabelIn, IsTypedLabel, IsLabelOf, IsClosedLabelIn};

use crate::argument_readings::terms_over;
use crate::chosen_actions::{Chosen, chosen_action};
use crate::sorted_actions::{SortedActions, sorted_actions};
use data_theory::{NoMemory, Signature};
use data_typing::scope::Scope;
use data_typing::sort_tables::{SortTables, sort_tables};
use mcrl2_parser::LabelFault;
use mcrl2_syntax::{ActionTree, DataTree, LabelTree, Word};
use process_terms::{Action, Label};
use std::alloc::Global;
use term_pool::Pool;

/// The action that was chosen, with its arguments. There is none where the sort of a subterm isn't in the signature.
fn taken_over(
    alloc: Global,
    sig: &Signature,
    pool: &mut Pool,
    tables: &SortTables,
    chosen: &Chosen,
) -> Result<Option<Action>, NoMemory>
    requires ready { (bs : List Bound) × IsReady sig.now pool.old tables.now bs }
    requires chosen { (x : Name) × (ts : List Typing) × (us : List Term) × IsChosen sig.now x ts chosen.now us }
    ensures kept { GoesOn sig.now pool.old sig.now pool.new }
    ensures ready { OnOk result ((bs : List Bound) → IsReady sig.now pool.old tables.now bs → IsReady sig.now pool.new tables.now bs) }
    ensures means { IfOk result (λ made. (x : Name) (ts : List Typing) (us : List Term) → IsChosen sig.now x ts chosen.now us → IsTakenIn sig.now pool.new (record { name = x; sorts = sorts_of chosen.now.action.now; args = us }) (option_map code.plain_action made)) }
{
    let readings = chosen.readings.as_slice();
    let sorts = chosen.action.sorts.as_slice();
    let Some(args) = terms_over(alloc, sig, pool, tables, readings, sorts, chosen.way)? else {
        return Ok(None);
    };
    Ok(Some(Action {
        act: chosen.action.act,
        args,
    }))
}

/// The action that a name with arguments is, where it is one. There is none where the sort of a subterm isn't in the signature.
fn action_over(
    alloc: Global,
    sig: &Signature,
    pool: &mut Pool,
    tables: &SortTables,
    scope: &Scope,
    actions: &SortedActions,
    name: &Word,
    arguments: &[DataTree],
) -> Result<Option<Action>, NoMemory>
    requires ready { IsReady sig.now pool.old tables.now scope.now }
    requires actions { AreActionsOf sig.now actions.now }
    requires words_name { IsName (word_of name.now) }
    requires words_arguments { AllByRecursion IsDataOfWords (map plain_data arguments.now) }
    ensures kept { GoesOn sig.now pool.old sig.now pool.new }
    ensures ready { OnOk result (IsReady sig.now pool.new tables.now scope.now) }
    ensures means { IfOk result (λ found. (v : Vocabulary) (variables : meanings.Scope) → SeesData sig.now scope.now v variables → IsActionIn sig.now pool.new (action_of name.now.bytes.items (map (typing_in v variables) (bare_trees arguments.now)) (all_named name.now.bytes.items v.actions)) (option_map code.plain_action found)) }
{
    let found = chosen_action(alloc, sig, tables, scope, actions, name, arguments)?;
    let Some(chosen) = found else {
        return Ok(None);
    };
    let made = taken_over(alloc, sig, pool, tables, &chosen)?;
    Ok(made)
}

/// The label that some actions are, where each is one. There is none where the sort of a subterm isn't in the signature.
fn label_over(
    alloc: Global,
    sig: &Signature,
    pool: &mut Pool,
    tables: &SortTables,
    scope: &Scope,
    actions: &SortedActions,
    trees: &[ActionTree],
) -> Result<Option<Label>, NoMemory>
    requires ready { IsReady sig.now pool.old tables.now scope.now }
    requires actions { AreActionsOf sig.now actions.now }
    requires words { AllByRecursion IsActionOfWords (map plain_action trees.now) }
    ensures kept { GoesOn sig.now pool.old sig.now pool.new }
    ensures ready { OnOk result (IsReady sig.now pool.new tables.now scope.now) }
    ensures means { IfOk result (λ found. (v : Vocabulary) (variables : meanings.Scope) → SeesData sig.now scope.now v variables → IsLabelIn sig.now pool.new (label_in v variables (map bare_action (map plain_action trees.now))) (option_map code.plain_label found)) }
{
    let mut list = Vec::new(alloc);
    for tree in trees {
        let ActionTree::Named(_, name, arguments) = tree else {
            continue;
        };
        let arguments = arguments.as_slice();
        let made = action_over(alloc, sig, pool, tables, scope, actions, name, arguments)?;
        let Some(action) = made else {
            return Ok(None);
        };
        list.push(action)?;
    }
    Ok(Some(Label { actions: list }))
}

/// The closed, typed label that a tree is, where it is one.
fn closed_label(
    alloc: Global,
    label: &LabelTree,
    sig: &Signature,
    pool: &mut Pool,
) -> Result<Option<Label>, NoMemory>
    requires words { IsLabelOfWords (label_of label.now) }
    requires trees { All (IsTreeWithin sig.now) pool.old.trees }
    ensures kept { GoesOn sig.now pool.old sig.now pool.new }
    ensures trees { OnOk result (All (IsTreeWithin sig.now) pool.new.trees) }
    ensures means { IfOk result (λ found. IsClosedLabelIn sig.now pool.new (label_of label.now) (option_map code.plain_label found)) }
{
    let tables = sort_tables(alloc, sig)?;
    let actions = sorted_actions(alloc, sig, &tables)?;
    let scope = Scope::new(alloc);
    let _ = sig.next_sort();
    let trees = label.actions.as_slice();
    let made = label_over(alloc, sig, pool, &tables, &scope, &actions, trees)?;
    Ok(made)
}

/// The label that a tree elaborates to over a signature, with nothing in scope. Nothing is added to the signature, and the pool keeps every old
/// entry.
///
/// # Errors
///
/// `NotALabel` where the tree is no closed, typed label: it has no elaboration with nothing in scope, or a subterm has a sort that isn't in
/// the signature, as a list sort that was never added. `NoMemory` comes only where memory runs out.
pub fn elaborate_label(
    alloc: Global,
    label: &LabelTree,
    sig: &Signature,
    pool: &mut Pool,
) -> Result<Label, LabelFault>
    requires words { IsLabelOfWords (label_of label.now) }
    requires trees { All (IsTreeWithin sig.now) pool.old.trees }
    ensures kept { GoesOn sig.now pool.old sig.now pool.new }
    ensures trees { OnOk result (All (IsTreeWithin sig.now) pool.new.trees) }
    ensures means { IfOk result (λ made. IsLabelOf sig.now pool.new (label_of label.now) (code.plain_label made)) }
    ensures not_a_label { IsErrOf result LabelFault.NotALabel → (m : labels.Label) → ¬ (IsTypedLabel sig.now (label_of label.now) m) }
{
    match closed_label(alloc, label, sig, pool) {
        Ok(Some(made)) => Ok(made),
        Ok(None) => Err(LabelFault::NotALabel),
        Err(_) => Err(LabelFault::NoMemory),
    }
}
