//! The groups that an action of a label begins.

ghost use Rattle.std.specs.Prelude.{◌≡◌, ◌++◌, ◌∷◌, [], false, map, flat_map, IfOk, OnOk};
ghost use Rattle.std.specs.List.{list_any};
ghost use Rattle.process_terms.specs.PlainProcesses.{plain_rule};
ghost use Rattle.action_filters.specs.Filters.{same_name};
ghost use Rattle.communication.specs.declared.places.Place.{Place};
ghost use Rattle.communication.specs.Places.{joining_of, placed, plain_draft, plain_group, plain_start};
ghost use Rattle.communication.specs.Rounds.{drafts, grown, grown_by, if_whole, passing, taking};
ghost use Rattle.communication.specs.Ways.{starts, starts_by};

use crate::places::{Draft, Group, Place, Start};
use crate::rule_tables::RuleTable;
use action_filters::{is_among, take_one};
use data_theory::{NameId, NoMemory};
use process_terms::CommRule;
use std::alloc::Global;

/// Adds the draft with the next action, where it has a name that is wanted and the first one's sorts.
fn add_taking(
    alloc: Global,
    first: Place,
    next: Place,
    draft: &Draft,
    found: &mut Vec<Draft>,
) -> Result<(), NoMemory>
    ensures { OnOk result (map plain_draft found.new.items ≡ map plain_draft found.old.items ++ taking placed first next (plain_draft draft.now)) }
{
    if first.class != next.class {
        return Ok(());
    }
    let mut wanted = draft.wanted.to_vec(alloc)?;
    if !take_one(&mut wanted, next.name) {
        return Ok(());
    }
    let mut chosen = draft.chosen.to_vec(alloc)?;
    chosen.push(next)?;
    found.push(Draft {
        wanted,
        chosen,
        passed: draft.passed.to_vec(alloc)?,
    })?;
    Ok(())
}

/// The draft without the next action.
fn passed_by(alloc: Global, next: Place, draft: &Draft) -> Result<Draft, NoMemory>
    ensures { IfOk result (λ made. plain_draft made ≡ passing next (plain_draft draft.now)) }
{
    let mut passed = draft.passed.to_vec(alloc)?;
    passed.push(next)?;
    Ok(Draft {
        wanted: draft.wanted.to_vec(alloc)?,
        chosen: draft.chosen.to_vec(alloc)?,
        passed,
    })
}

/// The drafts with the next action and without it.
fn grown(alloc: Global, first: Place, next: Place, drafts: &[Draft]) -> Result<Vec<Draft>, NoMemory>
    ensures { IfOk result (λ found. map plain_draft found.items ≡ flat_map (grown placed first next) (map plain_draft drafts.now)) }
{
    let mut found = Vec::new(alloc);
    for draft in drafts {
        add_taking(alloc, first, next, draft, &mut found)?;
        found.push(passed_by(alloc, next, draft)?)?;
    }
    Ok(found)
}

/// The drafts with some of the later actions.
fn grown_by(
    alloc: Global,
    first: Place,
    later: &[Place],
    drafts: Vec<Draft>,
) -> Result<Vec<Draft>, NoMemory>
    ensures { IfOk result (λ found. map plain_draft found.items ≡ grown_by placed first later.now (map plain_draft drafts.items)) }
{
    let mut found = drafts;
    for next in later {
        found = grown(alloc, first, *next, found.as_slice())?;
    }
    Ok(found)
}

/// The drafts for a left side, from its first action on.
fn drafts_of(
    alloc: Global,
    left: &[NameId],
    first: Place,
    later: &[Place],
) -> Result<Vec<Draft>, NoMemory>
    ensures { IfOk result (λ found. map plain_draft found.items ≡ drafts placed left.now first later.now) }
{
    let mut wanted = left.to_vec(alloc)?;
    let mut found = Vec::new(alloc);
    if take_one(&mut wanted, first.name) {
        found.push(Draft {
            wanted,
            chosen: Vec::new(alloc),
            passed: Vec::new(alloc),
        })?;
    }
    grown_by(alloc, first, later, found)
}

/// Adds the start of a complete draft.
fn add_start(
    alloc: Global,
    result_name: NameId,
    first: Place,
    draft: &Draft,
    found: &mut Vec<Start>,
) -> Result<(), NoMemory>
    ensures { OnOk result (map plain_start found.new.items ≡ map plain_start found.old.items ++ if_whole result_name first (plain_draft draft.now)) }
{
    if !draft.wanted.is_empty() {
        return Ok(());
    }
    let group = Group {
        result: result_name,
        first,
        others: draft.chosen.to_vec(alloc)?,
    };
    found.push(Start {
        group,
        behind: draft.passed.to_vec(alloc)?,
    })?;
    Ok(())
}

/// Whether one of these actions has a name.
fn has_name(places: &[Place], name: NameId) -> bool
    ensures { result ≡ list_any (λ (p : Place). same_name p.name name) places.now }
{
    places.iter().any(|place| place.name.0 == name.0)
}

/// Whether the first action or a later one has a name.
fn is_met(first: Place, later: &[Place], name: NameId) -> bool
    ensures { result ≡ list_any (λ (p : Place). same_name p.name name) (first ∷ later.now) }
{
    if first.name.0 == name.0 {
        return true;
    }
    has_name(later, name)
}

/// Whether the left side of a rule has the first action's name, and each of its names is that of the first action or a later one. Where
/// not, no choice has to be made.
fn may_start(rule: &CommRule, first: Place, later: &[Place]) -> bool
    ensures { result ≡ false → starts_by placed first later.now (joining_of (plain_rule rule.now)) ≡ [] }
{
    if !is_among(rule.left.as_slice(), first.name) {
        return false;
    }
    for name in &rule.left {
        if !is_met(first, later, *name) {
            return false;
        }
    }
    true
}

/// Adds the groups of a rule that an action begins.
fn add_starts_by(
    alloc: Global,
    rule: &CommRule,
    first: Place,
    later: &[Place],
    found: &mut Vec<Start>,
) -> Result<(), NoMemory>
    ensures { OnOk result (map plain_start found.new.items ≡ map plain_start found.old.items ++ starts_by placed first later.now (joining_of (plain_rule rule.now))) }
{
    if !may_start(rule, first, later) {
        return Ok(());
    }
    let drafts = drafts_of(alloc, rule.left.as_slice(), first, later)?;
    for draft in &drafts {
        add_start(alloc, rule.result, first, draft, found)?;
    }
    Ok(())
}

/// The groups that an action begins: the rules in their order, and for each the choices of later actions.
pub(crate) fn starts_of(
    alloc: Global,
    rules: &RuleTable,
    first: Place,
    later: &[Place],
) -> Result<Vec<Start>, NoMemory>
    ensures { IfOk result (λ found. map plain_start found.items ≡ starts placed (map joining_of rules.now) first later.now) }
{
    let near = rules.near(first.name);
    let mut found = Vec::new(alloc);
    for rule in near {
        add_starts_by(alloc, rule, first, later, &mut found)?;
    }
    Ok(found)
}
