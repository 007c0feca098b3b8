//! Rules of communication, found by the names on their left sides.

ghost use Rattle.std.specs.Prelude.{◌≡◌, true, take, drop, map, IfOk, IfSome};
ghost use Rattle.process_terms.specs.PlainProcesses.{plain_rule, plain_rules};
ghost use Rattle.communication.specs.RuleTables.{rules_with, AreEntered, IsEntered, KnowsRules};

use data_theory::{NameId, NoMemory};
use indexmap::IndexMap;
use process_terms::{CommRule, CommSet};
use std::alloc::Global;
use std::marker::Model;

/// Rules, with the place of the one that has a name on its left side.
#[derive(Drop)]
pub(crate) struct RuleTable {
    rules: Vec<CommRule>,
    /// There are none where two left sides have a name in common. Those of a text haven't.
    places: Option<IndexMap<NameId, usize>>,
}

impl Model for RuleTable {
    ghost use Rattle.std.specs.Prelude.{map, IfSome, List};
    ghost use Rattle.process_terms.specs.PlainProcesses.{plain_rule, PlainRule};

    ghost Value = { List PlainRule };

    ghost use Rattle.communication.specs.RuleTables.{KnowsRules};

    ghost view = { λ table. map plain_rule table.rules.items };

    ghost invariant = { λ table. IfSome table.places (λ places. KnowsRules (map plain_rule table.rules.items) places.entries) };
}

impl RuleTable {
    ghost use Rattle.std.specs.Prelude.{◌≡◌, map};
    ghost use Rattle.process_terms.specs.PlainProcesses.{plain_rule};
    ghost use Rattle.communication.specs.RuleTables.{rules_with};

    /// Some of the rules, in their order, among them all that have this name on their left sides. Where no two left sides have a name in
    /// common, there is one at most.
    pub(crate) fn near(&self, name: NameId) -> &[CommRule]
        ensures { rules_with name (map plain_rule result.now) ≡ rules_with name self.now }
    {
        match &self.places {
            Some(places) => near_by(self.rules.as_slice(), places, name),
            None => self.rules.as_slice(),
        }
    }
}

/// The rule with this name on its left side, if there is one.
fn near_by<'a>(
    rules: &'a [CommRule],
    places: &IndexMap<NameId, usize>,
    name: NameId,
) -> &'a [CommRule]
    requires { KnowsRules (map plain_rule rules.now) places.now.entries }
    ensures { rules_with name (map plain_rule result.now) ≡ rules_with name (map plain_rule rules.now) }
{
    match places.get(&name) {
        Some(place) => one_of(rules, *place),
        None => &[],
    }
}

/// The rule at a place, if there is one.
fn one_of(rules: &[CommRule], place: usize) -> &[CommRule]
    ensures { result.now ≡ take 1 (drop place rules.now) }
{
    if place >= rules.len() {
        return &[];
    }
    &rules[place..place + 1]
}

/// Enters a name at the place of its rule. Whether it has no other place already.
fn enter_name(
    place: usize,
    name: NameId,
    places: &mut IndexMap<NameId, usize>,
) -> Result<bool, NoMemory>
    ensures { IfOk result (λ fresh. fresh ≡ true → IsEntered name place places.old.entries places.new.entries) }
{
    if let Some(other) = places.get(&name) {
        return Ok(*other == place);
    }
    places.insert(name, place)?;
    Ok(true)
}

/// Enters the names of a left side. Whether none of them has another place already.
fn enter_names(
    place: usize,
    names: &[NameId],
    places: &mut IndexMap<NameId, usize>,
) -> Result<bool, NoMemory>
    ensures { IfOk result (λ fresh. fresh ≡ true → AreEntered names.now place places.old.entries places.new.entries) }
{
    for name in names {
        if !enter_name(place, *name, places)? {
            return Ok(false);
        }
    }
    Ok(true)
}

/// The places of rules by the names of their left sides, where no two of these have one in common.
fn name_places(
    alloc: Global,
    rules: &[CommRule],
) -> Result<Option<IndexMap<NameId, usize>>, NoMemory>
    ensures { IfOk result (λ found. IfSome found (λ places. KnowsRules (map plain_rule rules.now) places.entries)) }
{
    let mut places = IndexMap::new(alloc);
    for place in 0..rules.len() {
        if !enter_names(place, rules[place].left.as_slice(), &mut places)? {
            return Ok(None);
        }
    }
    Ok(Some(places))
}

/// The table of these rules.
///
/// # Errors
///
/// `NoMemory` where there is none for it.
pub(crate) fn table_of(alloc: Global, rules: &CommSet) -> Result<RuleTable, NoMemory>
    ensures { IfOk result (λ table. table ≡ plain_rules rules.now) }
{
    let copy = rules.copy(alloc)?;
    let places = name_places(alloc, copy.rules.as_slice())?;
    Ok(RuleTable {
        rules: copy.rules,
        places,
    })
}
