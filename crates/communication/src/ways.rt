//! The ways to group the actions of a label.

ghost use Rattle.std.specs.Prelude.{◌≡◌, ◌++◌, ◌∷◌, [], map, flat_map, length, IfOk, OnOk};
ghost use Rattle.communication.specs.Places.{joining_of, placed, plain_group, plain_item, plain_start, plain_way};
ghost use Rattle.communication.specs.Rounds.{continued, items_of, with_start};
ghost use Rattle.communication.specs.Ways.{further, rest, stays, ways};

use crate::places::{Group, Item, Place, Start, Way};
use crate::rule_tables::RuleTable;
use crate::starts::starts_of;
use data_theory::NoMemory;
use std::alloc::Global;

fn copy_group(alloc: Global, group: &Group) -> Result<Group, NoMemory>
    ensures { IfOk result (λ copy. plain_group copy ≡ plain_group group.now) }
{
    Ok(Group {
        result: group.result,
        first: group.first,
        others: group.others.to_vec(alloc)?,
    })
}

fn copy_item(alloc: Global, item: &Item) -> Result<Item, NoMemory>
    ensures { IfOk result (λ copy. plain_item copy ≡ plain_item item.now) }
{
    match item {
        Item::Stays(place) => Ok(Item::Stays(*place)),
        Item::Joins(group) => Ok(Item::Joins(copy_group(alloc, group)?)),
    }
}

fn copy_items(alloc: Global, items: &[Item]) -> Result<Vec<Item>, NoMemory>
    ensures { IfOk result (λ made. map plain_item made.items ≡ map plain_item items.now) }
{
    let mut made = Vec::new(alloc);
    for item in items {
        made.push(copy_item(alloc, item)?)?;
    }
    Ok(made)
}

/// The same items with one more behind them.
fn with_item(alloc: Global, items: &[Item], last: Item) -> Result<Vec<Item>, NoMemory>
    ensures { IfOk result (λ made. map plain_item made.items ≡ map plain_item items.now ++ plain_item last ∷ []) }
{
    let mut made = copy_items(alloc, items)?;
    made.push(last)?;
    Ok(made)
}

/// The way with a group at its next place.
fn way_with_start(alloc: Global, way: &Way, start: &Start) -> Result<Way, NoMemory>
    ensures { IfOk result (λ made. plain_way made ≡ with_start (plain_way way.now) (plain_start start.now)) }
{
    let group = copy_group(alloc, &start.group)?;
    Ok(Way {
        items: with_item(alloc, way.items.as_slice(), Item::Joins(group))?,
        waiting: start.behind.to_vec(alloc)?,
    })
}

/// Adds the way with each of these groups at its next place.
fn add_with_starts(
    alloc: Global,
    way: &Way,
    starts: &[Start],
    found: &mut Vec<Way>,
) -> Result<(), NoMemory>
    ensures { OnOk result (map plain_way found.new.items ≡ map plain_way found.old.items ++ map (with_start (plain_way way.now)) (map plain_start starts.now)) }
{
    for start in starts {
        found.push(way_with_start(alloc, way, start)?)?;
    }
    Ok(())
}

/// Adds what a way becomes when its next action begins a group or stays.
fn add_continued(
    alloc: Global,
    rules: &RuleTable,
    way: &Way,
    found: &mut Vec<Way>,
) -> Result<(), NoMemory>
    ensures { OnOk result (map plain_way found.new.items ≡ map plain_way found.old.items ++ continued placed (map joining_of rules.now) (plain_way way.now)) }
{
    let Some((first, later)) = way.waiting.as_slice().split_first() else {
        found.push(Way {
            items: copy_items(alloc, way.items.as_slice())?,
            waiting: Vec::new(alloc),
        })?;
        return Ok(());
    };
    let starts = starts_of(alloc, rules, *first, later)?;
    add_with_starts(alloc, way, starts.as_slice(), found)?;
    found.push(Way {
        items: with_item(alloc, way.items.as_slice(), Item::Stays(*first))?,
        waiting: later.to_vec(alloc)?,
    })?;
    Ok(())
}

/// The ways after one more action.
fn continued_all(alloc: Global, rules: &RuleTable, ways: &[Way]) -> Result<Vec<Way>, NoMemory>
    ensures { IfOk result (λ found. map plain_way found.items ≡ flat_map (continued placed (map joining_of rules.now)) (map plain_way ways.now)) }
{
    let mut found = Vec::new(alloc);
    for way in ways {
        add_continued(alloc, rules, way, &mut found)?;
    }
    Ok(found)
}

/// The ways to group these actions, round by round.
fn rounds_of(alloc: Global, rules: &RuleTable, places: Vec<Place>) -> Result<Vec<Way>, NoMemory>
    ensures { IfOk result (λ found. map items_of (map plain_way found.items) ≡ ways placed (map joining_of rules.now) (length places.items) places.items) }
{
    let count = places.len();
    let mut found = Vec::new(alloc);
    found.push(Way {
        items: Vec::new(alloc),
        waiting: places,
    })?;
    for _round in 0..count {
        found = continued_all(alloc, rules, found.as_slice())?;
    }
    Ok(found)
}

/// The items of the way in which all these actions stay.
fn all_staying(alloc: Global, places: &[Place]) -> Result<Vec<Item>, NoMemory>
    ensures { IfOk result (λ made. map plain_item made.items ≡ map stays places.now) }
{
    let mut made = Vec::new(alloc);
    for place in places {
        made.push(Item::Stays(*place))?;
    }
    Ok(made)
}

/// The way in which all these actions stay, alone.
fn staying_way(alloc: Global, places: &[Place]) -> Result<Vec<Way>, NoMemory>
    ensures { IfOk result (λ found. map items_of (map plain_way found.items) ≡ map stays places.now ∷ []) }
{
    let items = all_staying(alloc, places)?;
    let mut found = Vec::new(alloc);
    found.push(Way {
        items,
        waiting: Vec::new(alloc),
    })?;
    Ok(found)
}

/// The ways to group these actions, in their order (mCRL2 language reference, `comm`). Each is made once. Where no action begins a group, no
/// round is needed.
///
/// # Errors
///
/// `NoMemory` where there is none for them.
pub(crate) fn ways_of(
    alloc: Global,
    rules: &RuleTable,
    places: Vec<Place>,
) -> Result<Vec<Way>, NoMemory>
    ensures { IfOk result (λ found. map items_of (map plain_way found.items) ≡ ways placed (map joining_of rules.now) (length places.items) places.items) }
{
    let groups = further_of(alloc, rules, places.as_slice())?;
    if groups.is_empty() {
        return staying_way(alloc, places.as_slice());
    }
    rounds_of(alloc, rules, places)
}

/// The actions that stay in a way.
pub(crate) fn rest_of(alloc: Global, items: &[Item]) -> Result<Vec<Place>, NoMemory>
    ensures { IfOk result (λ found. found.items ≡ rest (map plain_item items.now)) }
{
    let mut found = Vec::new(alloc);
    for item in items {
        if let Item::Stays(place) = item {
            found.push(*place)?;
        }
    }
    Ok(found)
}

/// Adds the groups of these starts.
fn add_groups(alloc: Global, starts: &[Start], found: &mut Vec<Group>) -> Result<(), NoMemory>
    ensures { OnOk result (map plain_group found.new.items ≡ map plain_group found.old.items ++ map (λ s. s.group) (map plain_start starts.now)) }
{
    for start in starts {
        found.push(copy_group(alloc, &start.group)?)?;
    }
    Ok(())
}

/// The groups that these actions could form.
pub(crate) fn further_of(
    alloc: Global,
    rules: &RuleTable,
    rest: &[Place],
) -> Result<Vec<Group>, NoMemory>
    ensures { IfOk result (λ found. map plain_group found.items ≡ further placed (map joining_of rules.now) rest.now) }
{
    let mut found = Vec::new(alloc);
    for index in 0..rest.len() {
        let starts = starts_of(alloc, rules, rest[index], &rest[index + 1..])?;
        add_groups(alloc, starts.as_slice(), &mut found)?;
    }
    Ok(found)
}
