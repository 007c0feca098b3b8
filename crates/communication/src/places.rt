//! What the ways of a label are made of: its actions by their places.

ghost use Rattle.std.specs.Prelude.{◌≡◌, map, IfOk};
ghost use Rattle.std.specs.Str.{bytes_eq};
ghost use Rattle.process_terms.specs.PlainProcesses.{plain_action};
ghost use Rattle.action_filters.specs.Filters.{key_of_action, sort_numbers, AreActionsIn, IsActionIn};
ghost use Rattle.communication.specs.Places.{class_of, place_of, places_of};

use data_theory::{NameId, NoMemory, Signature, SortId};
use process_terms::Action;
use std::alloc::Global;

/// An action of a label, by its place.
#[derive(Clone, Copy, Debug)]
pub struct Place {
    /// The number of its place in the label, from 0.
    pub index: usize,
    pub name: NameId,
    /// The first place of an action whose arguments have the same sorts.
    pub class: usize,
}

/// Actions that join.
#[derive(Debug, Drop)]
pub struct Group {
    /// The name of what they join to.
    pub result: NameId,
    pub first: Place,
    pub others: Vec<Place>,
}

/// A group, and the actions behind its first one that aren't in it.
#[derive(Debug, Drop)]
pub struct Start {
    pub group: Group,
    pub behind: Vec<Place>,
}

/// A choice of actions that isn't complete yet.
#[derive(Debug, Drop)]
pub struct Draft {
    /// The names that are wanted still.
    pub wanted: Vec<NameId>,
    pub chosen: Vec<Place>,
    pub passed: Vec<Place>,
}

/// What stands at a place of a way.
#[derive(Debug, Drop)]
pub enum Item {
    /// An action that stays.
    Stays(Place),
    /// A group, at the place of its first action.
    Joins(Group),
}

/// A way that isn't complete yet.
#[derive(Debug, Drop)]
pub struct Way {
    pub items: Vec<Item>,
    /// The actions that aren't looked at yet.
    pub waiting: Vec<Place>,
}

/// Whether two lists of sorts are the same.
fn are_same(sorts: &[SortId], others: &[SortId]) -> bool
    ensures { result ≡ bytes_eq (sort_numbers sorts.now) (sort_numbers others.now) }
{
    sorts == others
}

/// The sorts of an action's arguments.
pub(crate) fn sorts_of<'a>(sig: &'a Signature, action: &Action) -> &'a [SortId]
    requires { IsActionIn sig.now (plain_action action.now) }
    ensures { result.now ≡ (key_of_action sig.now (plain_action action.now)).sorts }
{
    sig.acts()[action.act.0].sorts.as_slice()
}

/// Whether two actions have arguments of the same sorts.
fn are_alike(sig: &Signature, action: &Action, other: &Action) -> bool
    requires action { IsActionIn sig.now (plain_action action.now) }
    requires other { IsActionIn sig.now (plain_action other.now) }
    ensures { result ≡ bytes_eq (sort_numbers (key_of_action sig.now (plain_action action.now)).sorts) (sort_numbers (key_of_action sig.now (plain_action other.now)).sorts) }
{
    are_same(sorts_of(sig, action), sorts_of(sig, other))
}

/// The first place of an action with arguments of the same sorts, and else the number of actions.
fn class_of(sig: &Signature, actions: &[Action], action: &Action) -> usize
    requires actions { AreActionsIn sig.now (map plain_action actions.now) }
    requires action { IsActionIn sig.now (plain_action action.now) }
    ensures { result ≡ class_of sig.now (map plain_action actions.now) (plain_action action.now) }
{
    for index in 0..actions.len() {
        if are_alike(sig, &actions[index], action) {
            return index;
        }
    }
    actions.len()
}

/// An action of a label, by its place.
fn place_of(sig: &Signature, actions: &[Action], index: usize, action: &Action) -> Place
    requires actions { AreActionsIn sig.now (map plain_action actions.now) }
    requires action { IsActionIn sig.now (plain_action action.now) }
    ensures { result ≡ place_of sig.now (map plain_action actions.now) index (plain_action action.now) }
{
    Place {
        index,
        name: sig.acts()[action.act.0].name,
        class: class_of(sig, actions, action),
    }
}

/// The actions of a label, by their places.
///
/// # Errors
///
/// `NoMemory` where there is none for them.
pub(crate) fn places_of(
    alloc: Global,
    sig: &Signature,
    actions: &[Action],
) -> Result<Vec<Place>, NoMemory>
    requires { AreActionsIn sig.now (map plain_action actions.now) }
    ensures { IfOk result (λ places. places.items ≡ places_of sig.now (map plain_action actions.now)) }
{
    let mut places = Vec::new(alloc);
    for index in 0..actions.len() {
        places.push(place_of(sig, actions, index, &actions[index]))?;
    }
    Ok(places)
}
