//! What the ways of a label make, before any term is.

ghost use Rattle.std.specs.Prelude.{◌≡◌, ◌++◌, ◌<◌, ◌∷◌, [], map, flat_map, length, IfOk, OnOk};
ghost use Rattle.std.specs.List.{All};
ghost use Rattle.data_theory.specs.Signature.{Sig};
ghost use Rattle.data_theory.specs.WholeSignatures.{IsSignature};
ghost use Rattle.process_terms.specs.PlainProcesses.{plain_action, plain_label};
ghost use Rattle.action_filters.specs.Filters.{AreActionsIn, IsActionIn};
ghost use Rattle.communication.specs.PlaceConditions.{HasResult, IsWithin, ItemHasResult};
ghost use Rattle.communication.specs.Places.{plain_group, plain_item};
ghost use Rattle.communication.specs.Plans.{action_at_place, action_of_place_item, equalities_of_each, equated, equated_with, item_equated, paired, plain_plan, planned, under_name};
ghost use Rattle.communication.specs.Ways.{GroupHas, ItemHas};

use crate::places::{Group, Item, Place, sorts_of};
use crate::rule_tables::RuleTable;
use crate::ways::{further_of, rest_of};
use data_theory::{ActId, NameId, NoMemory, Signature, SortId, TermId};
use process_terms::{Action, Label};
use std::alloc::Global;

/// Two terms that are asked to be equal, and their sort.
#[derive(Clone, Copy, Debug)]
pub struct Equality {
    pub sort: SortId,
    pub left: TermId,
    pub right: TermId,
}

/// The label of a way, the equalities of its groups, and those of each further group.
#[derive(Debug, Drop)]
pub struct Plan {
    pub label: Label,
    pub equal: Vec<Equality>,
    pub further: Vec<Vec<Equality>>,
}

/// Adds the equalities of two lists of arguments.
fn add_paired(
    sorts: &[SortId],
    left: &[TermId],
    right: &[TermId],
    found: &mut Vec<Equality>,
) -> Result<(), NoMemory>
    ensures { OnOk result (found.new.items ≡ found.old.items ++ paired sorts.now left.now right.now) }
{
    let count = sorts.len().min(left.len()).min(right.len());
    for index in 0..count {
        found.push(Equality {
            sort: sorts[index],
            left: left[index],
            right: right[index],
        })?;
    }
    Ok(())
}

/// Adds the equalities of the arguments of two actions.
fn add_equated_with(
    sig: &Signature,
    first: &Action,
    other: &Action,
    found: &mut Vec<Equality>,
) -> Result<(), NoMemory>
    requires { IsActionIn sig.now (plain_action first.now) }
    ensures { OnOk result (found.new.items ≡ found.old.items ++ equated_with sig.now (plain_action first.now) (plain_action other.now)) }
{
    add_paired(
        sorts_of(sig, first),
        first.args.as_slice(),
        other.args.as_slice(),
        found,
    )
}

/// The action at a place.
fn action_at(actions: &[Action], place: Place) -> &Action
    requires { IsWithin (length actions.now) place }
    ensures action { plain_action result.now ≡ action_at_place (map plain_action actions.now) place }
    ensures within { (g : Sig) → AreActionsIn g (map plain_action actions.now) → IsActionIn g (plain_action result.now) }
{
    &actions[place.index]
}

/// Adds the equalities of a group.
fn add_equated(
    sig: &Signature,
    actions: &[Action],
    group: &Group,
    found: &mut Vec<Equality>,
) -> Result<(), NoMemory>
    requires actions { AreActionsIn sig.now (map plain_action actions.now) }
    requires within { GroupHas (IsWithin (length actions.now)) (plain_group group.now) }
    ensures { OnOk result (found.new.items ≡ found.old.items ++ equated sig.now (map plain_action actions.now) (plain_group group.now)) }
{
    let first = action_at(actions, group.first);
    for other in &group.others {
        add_equated_with(sig, first, action_at(actions, *other), found)?;
    }
    Ok(())
}

/// The equalities of each of these groups.
fn equated_each(
    alloc: Global,
    sig: &Signature,
    actions: &[Action],
    groups: &[Group],
) -> Result<Vec<Vec<Equality>>, NoMemory>
    requires actions { AreActionsIn sig.now (map plain_action actions.now) }
    requires within { All (GroupHas (IsWithin (length actions.now))) (map plain_group groups.now) }
    ensures { IfOk result (λ found. equalities_of_each found.items ≡ map (equated sig.now (map plain_action actions.now)) (map plain_group groups.now)) }
{
    let mut found = Vec::new(alloc);
    for group in groups {
        let mut equalities = Vec::new(alloc);
        add_equated(sig, actions, group, &mut equalities)?;
        found.push(equalities)?;
    }
    Ok(found)
}

/// Adds the equalities of an item, if it is a group.
fn add_item_equated(
    sig: &Signature,
    actions: &[Action],
    item: &Item,
    found: &mut Vec<Equality>,
) -> Result<(), NoMemory>
    requires actions { AreActionsIn sig.now (map plain_action actions.now) }
    requires within { ItemHas (IsWithin (length actions.now)) (plain_item item.now) }
    ensures { OnOk result (found.new.items ≡ found.old.items ++ item_equated sig.now (map plain_action actions.now) (plain_item item.now)) }
{
    match item {
        Item::Stays(_) => Ok(()),
        Item::Joins(group) => add_equated(sig, actions, group, found),
    }
}

/// The equalities of the groups of a way.
fn equated_in(
    alloc: Global,
    sig: &Signature,
    actions: &[Action],
    items: &[Item],
) -> Result<Vec<Equality>, NoMemory>
    requires actions { AreActionsIn sig.now (map plain_action actions.now) }
    requires within { All (ItemHas (IsWithin (length actions.now))) (map plain_item items.now) }
    ensures { IfOk result (λ found. found.items ≡ flat_map (item_equated sig.now (map plain_action actions.now)) (map plain_item items.now)) }
{
    let mut found = Vec::new(alloc);
    for item in items {
        add_item_equated(sig, actions, item, &mut found)?;
    }
    Ok(found)
}

/// States what each signature keeps.
pub(crate) fn signature_stands(sig: &Signature)
    ensures { IsSignature sig.now }
{
    let _ = sig.names();
}

/// An action with the same arguments under another number.
fn with_act(alloc: Global, act: ActId, action: &Action) -> Result<Action, NoMemory>
    ensures { IfOk result (λ made. plain_action made ≡ record { act = act; args = (plain_action action.now).args }) }
{
    Ok(Action {
        act,
        args: action.args.to_vec(alloc)?,
    })
}

/// The action with another name, the same sorts and the same arguments.
fn under_name(
    alloc: Global,
    sig: &Signature,
    name: NameId,
    action: &Action,
) -> Result<Action, NoMemory>
    requires action { IsActionIn sig.now (plain_action action.now) }
    requires result { HasResult sig.now name (plain_action action.now) }
    ensures { IfOk result (λ made. plain_action made ≡ under_name sig.now name (plain_action action.now)) }
{
    signature_stands(sig);
    let Some(act) = sig.act(name, sorts_of(sig, action)) else {
        return action.copy(alloc);
    };
    with_act(alloc, act, action)
}

/// What stands at a place of a way.
fn action_of(
    alloc: Global,
    sig: &Signature,
    actions: &[Action],
    item: &Item,
) -> Result<Action, NoMemory>
    requires actions { AreActionsIn sig.now (map plain_action actions.now) }
    requires within { ItemHas (IsWithin (length actions.now)) (plain_item item.now) }
    requires results { ItemHasResult sig.now (map plain_action actions.now) (plain_item item.now) }
    ensures { IfOk result (λ made. plain_action made ≡ action_of_place_item sig.now (map plain_action actions.now) (plain_item item.now)) }
{
    match item {
        Item::Stays(place) => action_at(actions, *place).copy(alloc),
        Item::Joins(group) => {
            under_name(alloc, sig, group.result, action_at(actions, group.first))
        }
    }
}

/// The label of a way.
fn label_of(
    alloc: Global,
    sig: &Signature,
    actions: &[Action],
    items: &[Item],
) -> Result<Label, NoMemory>
    requires actions { AreActionsIn sig.now (map plain_action actions.now) }
    requires within { All (ItemHas (IsWithin (length actions.now))) (map plain_item items.now) }
    requires results { All (ItemHasResult sig.now (map plain_action actions.now)) (map plain_item items.now) }
    ensures { IfOk result (λ label. plain_label label ≡ map (action_of_place_item sig.now (map plain_action actions.now)) (map plain_item items.now)) }
{
    let mut made = Vec::new(alloc);
    for item in items {
        made.push(action_of(alloc, sig, actions, item)?)?;
    }
    Ok(Label { actions: made })
}

/// What a way makes: its label, the equalities of its groups, and those of each further group that its rest could form.
///
/// # Errors
///
/// `NoMemory` where there is none for it.
pub(crate) fn plan_of(
    alloc: Global,
    sig: &Signature,
    rules: &RuleTable,
    actions: &[Action],
    items: &[Item],
) -> Result<Plan, NoMemory>
    requires actions { AreActionsIn sig.now (map plain_action actions.now) }
    requires within { All (ItemHas (IsWithin (length actions.now))) (map plain_item items.now) }
    requires results { All (ItemHasResult sig.now (map plain_action actions.now)) (map plain_item items.now) }
    ensures { IfOk result (λ plan. plain_plan plan ≡ planned sig.now rules.now (map plain_action actions.now) (map plain_item items.now)) }
{
    let rest = rest_of(alloc, items)?;
    let groups = further_of(alloc, rules, rest.as_slice())?;
    Ok(Plan {
        label: label_of(alloc, sig, actions, items)?,
        equal: equated_in(alloc, sig, actions, items)?,
        further: equated_each(alloc, sig, actions, groups.as_slice())?,
    })
}
