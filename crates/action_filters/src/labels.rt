//! What comes out of a label.

ghost use Rattle.std.specs.Prelude.{◌≡◌, ◌++◌, ◌∷◌, [], false, map, option_map, if◌then◌else◌, Some, None, IfOk, OnOk};
ghost use Rattle.std.specs.List.{list_any};
ghost use Rattle.data_theory.specs.WholeSignatures.{IsSignature};
ghost use Rattle.process_terms.specs.PlainProcesses.{items_of_each, plain_action, plain_label};
ghost use Rattle.action_filters.specs.NameTests.{is_among, is_permuted, without_one};
ghost use Rattle.action_filters.specs.LabelFilters.{allowed_label, are_allowed, are_blocked, new_name, shown, shown_label, unblocked_label};
ghost use Rattle.action_filters.specs.FilterOutcomes.{outcome, Serves};
ghost use Rattle.action_filters.specs.Indexes.{AreInOrder};
ghost use Rattle.action_filters.specs.Filters.{key_of_action, naming, renamed_action, renamed_label, same_name, AreActionsIn, HaveTargets, IsActionIn};

use crate::indexes::is_in;
use data_theory::{ActId, NameId, NoMemory, Signature};
use indexmap::{IndexMap, IndexSet};
use process_terms::{Action, Label};
use std::alloc::Global;

/// What filters labels: an index, in which each name of a label is looked up.
#[derive(Drop)]
pub(crate) enum Filter {
    /// The names that are allowed together, each set in ascending order.
    Allow(IndexSet<Vec<NameId>>),
    /// The names that are blocked.
    Block(IndexSet<NameId>),
    /// The names that are hidden.
    Hide(IndexSet<NameId>),
    /// Names, and what they are replaced by.
    Rename(IndexMap<NameId, NameId>),
}

/// Says what each signature keeps.
pub(crate) fn signature_stands(sig: &Signature)
    ensures { IsSignature sig.now }
{
    let _ = sig.names();
}

/// The name of an action.
fn name_of(sig: &Signature, action: &Action) -> NameId
    requires { IsActionIn sig.now (plain_action action.now) }
    ensures { result ≡ (key_of_action sig.now (plain_action action.now)).name }
{
    sig.acts()[action.act.0].name
}

/// The names of a label's actions, in their order.
///
/// # Errors
///
/// `NoMemory` where there is none for them.
pub fn names_of(alloc: Global, sig: &Signature, label: &Label) -> Result<Vec<NameId>, NoMemory>
    requires { AreActionsIn sig.now (plain_label label.now) }
    ensures { IfOk result (λ names. names.items ≡ map (naming sig.now).name (plain_label label.now)) }
{
    let mut names = Vec::new(alloc);
    for action in &label.actions {
        names.push(name_of(sig, action))?;
    }
    Ok(names)
}

/// Whether a name is among these.
pub fn is_among(names: &[NameId], name: NameId) -> bool
    ensures { result ≡ is_among same_name names.now name }
{
    names.iter().any(|other| other.0 == name.0)
}

/// Takes the first one of a name out, if there is one, and else leaves the names as they are.
pub fn take_one(unmatched: &mut Vec<NameId>, name: NameId) -> bool
    ensures otherwise { result ≡ false → unmatched.new.items ≡ unmatched.old.items }
    ensures taken { without_one same_name name unmatched.old.items ≡ (if result then Some unmatched.new.items else None) }
{
    for place in 0..unmatched.len() {
        if unmatched[place].0 == name.0 {
            let _ = unmatched.remove(place);
            return true;
        }
    }
    false
}

/// Whether these names are those of one of the sets.
fn are_one_of(names: Vec<NameId>, sets: &IndexSet<Vec<NameId>>) -> bool
    requires { AreInOrder sets.now.keys }
    ensures { result ≡ list_any (is_permuted same_name names.items) (items_of_each sets.now.keys) }
{
    let mut sorted = names;
    sorted.sort_unstable();
    sets.contains(sorted.as_slice())
}

/// Whether there are no names, or those of one of the sets.
fn are_allowed(names: Vec<NameId>, sets: &IndexSet<Vec<NameId>>) -> bool
    requires { AreInOrder sets.now.keys }
    ensures { result ≡ are_allowed same_name (items_of_each sets.now.keys) names.items }
{
    if names.is_empty() {
        return true;
    }
    are_one_of(names, sets)
}

/// Whether one of the names is blocked.
fn are_blocked(names: &[NameId], blocked: &IndexSet<NameId>) -> bool
    ensures { result ≡ are_blocked same_name blocked.now.keys names.now }
{
    names.iter().any(|name| is_in(blocked, *name))
}

/// The label, where its names are allowed.
fn allowed_label(
    alloc: Global,
    sig: &Signature,
    sets: &IndexSet<Vec<NameId>>,
    label: &Label,
) -> Result<Option<Label>, NoMemory>
    requires actions { AreActionsIn sig.now (plain_label label.now) }
    requires sets { AreInOrder sets.now.keys }
    ensures { IfOk result (λ made. option_map plain_label made ≡ allowed_label (naming sig.now) (items_of_each sets.now.keys) (plain_label label.now)) }
{
    let names = names_of(alloc, sig, label)?;
    if !are_allowed(names, sets) {
        return Ok(None);
    }
    Ok(Some(label.copy(alloc)?))
}

/// The label, where none of its names is blocked.
fn unblocked_label(
    alloc: Global,
    sig: &Signature,
    blocked: &IndexSet<NameId>,
    label: &Label,
) -> Result<Option<Label>, NoMemory>
    requires { AreActionsIn sig.now (plain_label label.now) }
    ensures { IfOk result (λ made. option_map plain_label made ≡ unblocked_label (naming sig.now) blocked.now.keys (plain_label label.now)) }
{
    let names = names_of(alloc, sig, label)?;
    if are_blocked(names.as_slice(), blocked) {
        return Ok(None);
    }
    Ok(Some(label.copy(alloc)?))
}

/// Adds an action that isn't hidden.
fn add_shown(
    alloc: Global,
    sig: &Signature,
    hidden: &IndexSet<NameId>,
    action: &Action,
    found: &mut Vec<Action>,
) -> Result<(), NoMemory>
    requires { IsActionIn sig.now (plain_action action.now) }
    ensures { OnOk result (map plain_action found.new.items ≡ map plain_action found.old.items ++ shown (naming sig.now) hidden.now.keys (plain_action action.now ∷ [])) }
{
    if is_in(hidden, name_of(sig, action)) {
        return Ok(());
    }
    found.push(action.copy(alloc)?)?;
    Ok(())
}

/// The actions that aren't hidden.
fn shown_label(
    alloc: Global,
    sig: &Signature,
    hidden: &IndexSet<NameId>,
    label: &Label,
) -> Result<Option<Label>, NoMemory>
    requires { AreActionsIn sig.now (plain_label label.now) }
    ensures { IfOk result (λ made. option_map plain_label made ≡ shown_label (naming sig.now) hidden.now.keys (plain_label label.now)) }
{
    let mut actions = Vec::new(alloc);
    for action in &label.actions {
        add_shown(alloc, sig, hidden, action, &mut actions)?;
    }
    Ok(Some(Label { actions }))
}

/// The name that stands for this one.
fn new_name(pairs: &IndexMap<NameId, NameId>, name: NameId) -> NameId
    ensures { result ≡ new_name same_name pairs.now.entries name }
{
    match pairs.get(&name) {
        Some(new) => *new,
        None => name,
    }
}

/// An action with the same arguments under another number.
fn with_number(alloc: Global, act: ActId, action: &Action) -> Result<Action, NoMemory>
    ensures { IfOk result (λ made. plain_action made ≡ record { act = act; args = (plain_action action.now).args }) }
{
    Ok(Action {
        act,
        args: action.args.to_vec(alloc)?,
    })
}

/// The action with the new name and the same sorts.
fn renamed_action(
    alloc: Global,
    sig: &Signature,
    pairs: &IndexMap<NameId, NameId>,
    action: &Action,
) -> Result<Action, NoMemory>
    requires action { IsActionIn sig.now (plain_action action.now) }
    requires targets { HaveTargets sig.now pairs.now.entries }
    ensures { IfOk result (λ made. plain_action made ≡ renamed_action sig.now pairs.now.entries (plain_action action.now)) }
{
    signature_stands(sig);
    let entry = &sig.acts()[action.act.0];
    let name = new_name(pairs, entry.name);
    let Some(act) = sig.act(name, entry.sorts.as_slice()) else {
        return action.copy(alloc);
    };
    with_number(alloc, act, action)
}

/// The label with the new names.
fn renamed_label(
    alloc: Global,
    sig: &Signature,
    pairs: &IndexMap<NameId, NameId>,
    label: &Label,
) -> Result<Option<Label>, NoMemory>
    requires actions { AreActionsIn sig.now (plain_label label.now) }
    requires targets { HaveTargets sig.now pairs.now.entries }
    ensures { IfOk result (λ made. option_map plain_label made ≡ renamed_label sig.now pairs.now.entries (plain_label label.now)) }
{
    let mut actions = Vec::new(alloc);
    for action in &label.actions {
        actions.push(renamed_action(alloc, sig, pairs, action)?)?;
    }
    Ok(Some(Label { actions }))
}

/// The label that comes out of a filter, if one does.
pub(crate) fn filtered_label(
    alloc: Global,
    sig: &Signature,
    filter: &Filter,
    label: &Label,
) -> Result<Option<Label>, NoMemory>
    requires actions { AreActionsIn sig.now (plain_label label.now) }
    requires serves { Serves sig.now filter.now }
    ensures { IfOk result (λ made. option_map plain_label made ≡ outcome sig.now filter.now (plain_label label.now)) }
{
    match filter {
        Filter::Allow(sets) => allowed_label(alloc, sig, sets, label),
        Filter::Block(names) => unblocked_label(alloc, sig, names, label),
        Filter::Hide(names) => shown_label(alloc, sig, names, label),
        Filter::Rename(pairs) => renamed_label(alloc, sig, pairs, label),
    }
}
