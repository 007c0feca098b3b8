//! What is allowed near a name. In a network a name stands in few sets and has few partners, so few sets and rules are gone through, and
//! few names are tried.

ghost use Rattle.std.specs.Prelude.{◌≡◌, ◌||◌, ◌++◌, ◌∷◌, false, List, map, filter, IfOk, OnOk};
ghost use Rattle.std.specs.List.{list_any, Contains};
ghost use Rattle.data_theory.specs.declared.ids.NameId.{NameId};
ghost use Rattle.process_terms.specs.PlainProcesses.{items_of_each, plain_action, plain_label, plain_rule};
ghost use Rattle.action_filters.specs.Filters.{naming, same_name, AreActionsIn, IsActionIn};
ghost use Rattle.action_filters.specs.NameTests.{is_among};
ghost use Rattle.communication.specs.Places.{joining_of};
ghost use Rattle.summand_expander.specs.Nearby.{has_result, is_home, near_rules, stands_in, AreNear};
ghost use Rattle.summand_expander.specs.PlainAllowed.{can_complete_ids, joinings, plain_allowed, PlainAllowed};

use crate::allowing::Allowed;
use crate::completing::{is_completable, is_home, rules_with};
use action_filters::{add_names, is_among, is_in, names_of};
use data_theory::{NameId, NoMemory, Signature};
use indexmap::IndexSet;
use process_terms::{Action, CommRule, CommSet, Label};
use std::alloc::Global;

/// What is allowed near a name, and all names of it.
#[derive(Drop)]
pub(crate) struct Nearby {
    pub allowed: Allowed,
    pub names: IndexSet<NameId>,
}

/// The sets in which a name can stand.
fn homes(
    alloc: Global,
    candidates: &[CommRule],
    name: NameId,
    sets: &[Vec<NameId>],
) -> Result<Vec<Vec<NameId>>, NoMemory>
    ensures { IfOk result (λ found. items_of_each found.items ≡ filter (is_home same_name (joinings (map plain_rule candidates.now)) name) (items_of_each sets.now)) }
{
    let mut found = Vec::new(alloc);
    for set in sets {
        if is_home(candidates, name, set.as_slice()) {
            found.push(set.as_slice().to_vec(alloc)?)?;
        }
    }
    Ok(found)
}

/// Whether one of the sets has the result of a rule.
fn has_result(sets: &[Vec<NameId>], rule: &CommRule) -> bool
    ensures { result ≡ has_result same_name (items_of_each sets.now) (joining_of (plain_rule rule.now)) }
{
    for set in sets {
        if is_among(set.as_slice(), rule.result) {
            return true;
        }
    }
    false
}

/// The rules with results in these sets.
pub(crate) fn near_rules(
    alloc: Global,
    rules: &[CommRule],
    sets: &[Vec<NameId>],
) -> Result<Vec<CommRule>, NoMemory>
    ensures { IfOk result (λ found. joinings (map plain_rule found.items) ≡ near_rules same_name (joinings (map plain_rule rules.now)) (items_of_each sets.now)) }
{
    let mut found = Vec::new(alloc);
    for rule in rules {
        if has_result(sets, rule) {
            found.push(CommRule {
                left: rule.left.to_vec(alloc)?,
                result: rule.result,
            })?;
        }
    }
    Ok(found)
}

/// Adds the names of sets.
fn add_members(sets: &[Vec<NameId>], set: &mut IndexSet<NameId>) -> Result<(), NoMemory>
    ensures { OnOk result ((x : NameId) → is_among same_name set.new.keys x ≡ (is_among same_name set.old.keys x || list_any (λ v. is_among same_name v x) (items_of_each sets.now))) }
{
    for names in sets {
        add_names(names.as_slice(), set)?;
    }
    Ok(())
}

/// Adds the names of left sides.
fn add_left_sides(rules: &[CommRule], set: &mut IndexSet<NameId>) -> Result<(), NoMemory>
    ensures { OnOk result ((x : NameId) → is_among same_name set.new.keys x ≡ (is_among same_name set.old.keys x || list_any (λ c. is_among same_name c.left x) (joinings (map plain_rule rules.now)))) }
{
    for rule in rules {
        add_names(rule.left.as_slice(), set)?;
    }
    Ok(())
}

/// All names of sets and left sides.
pub(crate) fn all_names(
    alloc: Global,
    rules: &[CommRule],
    sets: &[Vec<NameId>],
) -> Result<IndexSet<NameId>, NoMemory>
    ensures { IfOk result (λ set. (x : NameId) → is_among same_name set.keys x ≡ stands_in same_name (joinings (map plain_rule rules.now)) (items_of_each sets.now) x) }
{
    let mut set = IndexSet::new(alloc);
    add_members(sets, &mut set)?;
    add_left_sides(rules, &mut set)?;
    Ok(set)
}

/// What is allowed near a name: the sets in which it can stand, the rules with results in these, and all names of both.
///
/// # Errors
///
/// `NoMemory` where there is none for it.
pub(crate) fn near_to(alloc: Global, allowed: &Allowed, name: NameId) -> Result<Nearby, NoMemory>
    ensures { IfOk result (λ near. (ns : List NameId) → AreNear (plain_allowed allowed.now) (name ∷ ns) (plain_allowed near.allowed) near.names.keys) }
{
    let candidates = rules_with(alloc, allowed.rules.rules.as_slice(), name)?;
    let sets = homes(alloc, candidates.as_slice(), name, allowed.sets.as_slice())?;
    let rules = near_rules(alloc, allowed.rules.rules.as_slice(), sets.as_slice())?;
    let names = all_names(alloc, rules.as_slice(), sets.as_slice())?;
    Ok(Nearby {
        allowed: Allowed {
            sets,
            rules: CommSet { rules },
        },
        names,
    })
}

/// The name of an action.
fn name_of(sig: &Signature, action: &Action) -> NameId
    requires { IsActionIn sig.now (plain_action action.now) }
    ensures { result ≡ (naming sig.now).name (plain_action action.now) }
{
    sig.acts()[action.act.0].name
}

/// Whether all names of a label are among these.
pub(crate) fn are_near(names: &IndexSet<NameId>, sig: &Signature, label: &Label) -> bool
    requires { AreActionsIn sig.now (plain_label label.now) }
    ensures { result ≡ false → (x : NameId) × (Contains (map (naming sig.now).name (plain_label label.now)) x × (is_among same_name names.now.keys x ≡ false)) }
{
    for action in &label.actions {
        if !is_in(names, name_of(sig, action)) {
            return false;
        }
    }
    true
}

/// Whether names can be completed together with those of a label, by what is near them. Those of a label that has others can't.
///
/// # Errors
///
/// `NoMemory` where there is none for the names.
pub(crate) fn stay_near(
    alloc: Global,
    near: &Nearby,
    sig: &Signature,
    names: &[NameId],
    label: &Label,
) -> Result<bool, NoMemory>
    requires { AreActionsIn sig.now (plain_label label.now) }
    ensures { IfOk result (λ can. (a : PlainAllowed) → AreNear a names.now (plain_allowed near.now.allowed) near.now.names.keys → can ≡ can_complete_ids a (names.now ++ map (naming sig.now).name (plain_label label.now))) }
{
    if !are_near(&near.names, sig, label) {
        return Ok(false);
    }
    let others = names_of(alloc, sig, label)?;
    let mut all = names.to_vec(alloc)?;
    all.extend_from_slice(others.as_slice())?;
    let can = is_completable(alloc, &near.allowed, all.as_slice())?;
    Ok(can)
}
