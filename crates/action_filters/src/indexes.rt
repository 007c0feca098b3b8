//! Indexes of names, in which those of a label are looked up.

ghost use Rattle.std.specs.Prelude.{◌≡◌, ◌||◌, ◌++◌, ◌∷◌, [], List, IfOk, OnOk};
ghost use Rattle.std.specs.List.{list_any};
ghost use Rattle.std.specs.List.Sorted.{IsPermutation};
ghost use Rattle.data_theory.specs.declared.ids.NameId.{NameId};
ghost use Rattle.process_terms.specs.PlainProcesses.{items_of_each};
ghost use Rattle.action_filters.specs.Filters.{same_name};
ghost use Rattle.action_filters.specs.Indexes.{AreFirst, AreInOrder, IsInOrder};
ghost use Rattle.action_filters.specs.NameTests.{is_among, is_permuted};

use data_theory::{NameId, NoMemory};
use indexmap::{IndexMap, IndexSet};
use std::alloc::Global;

/// Whether a name is in a set.
pub fn is_in(set: &IndexSet<NameId>, name: NameId) -> bool
    ensures { result ≡ is_among same_name set.now.keys name }
{
    set.contains(&name)
}

/// Adds names to a set.
///
/// # Errors
///
/// `NoMemory` where there is none for them. Some of them may have been added then.
pub fn add_names(names: &[NameId], set: &mut IndexSet<NameId>) -> Result<(), NoMemory>
    ensures { OnOk result ((x : NameId) → is_among same_name set.new.keys x ≡ (is_among same_name set.old.keys x || is_among same_name names.now x)) }
{
    for name in names {
        set.insert(*name)?;
    }
    Ok(())
}

/// The set of these names.
pub(crate) fn name_set(alloc: Global, names: &[NameId]) -> Result<IndexSet<NameId>, NoMemory>
    ensures { IfOk result (λ set. (x : NameId) → is_among same_name set.keys x ≡ is_among same_name names.now x) }
{
    let mut set = IndexSet::new(alloc);
    add_names(names, &mut set)?;
    Ok(set)
}

/// The names in ascending order.
fn in_order(alloc: Global, names: &[NameId]) -> Result<Vec<NameId>, NoMemory>
    ensures same { IfOk result (λ made. IsPermutation names.now made.items) }
    ensures sorted { IfOk result (λ made. IsInOrder made.items) }
{
    let mut made = names.to_vec(alloc)?;
    made.sort_unstable();
    Ok(made)
}

/// Adds a set of names in ascending order.
fn add_set(alloc: Global, set: &[NameId], found: &mut IndexSet<Vec<NameId>>) -> Result<(), NoMemory>
    ensures sorted { OnOk result (AreInOrder found.old.keys → AreInOrder found.new.keys) }
    ensures same { OnOk result ((ns : List NameId) → list_any (is_permuted same_name ns) (items_of_each found.new.keys) ≡ (list_any (is_permuted same_name ns) (items_of_each found.old.keys) || is_permuted same_name ns set.now)) }
{
    found.insert(in_order(alloc, set)?)?;
    Ok(())
}

/// The sets of names, each in ascending order, so that names that are in order too are those of a set where they are found.
pub(crate) fn sets_in_order(
    alloc: Global,
    sets: &[Vec<NameId>],
) -> Result<IndexSet<Vec<NameId>>, NoMemory>
    ensures sorted { IfOk result (λ found. AreInOrder found.keys) }
    ensures same { IfOk result (λ found. (ns : List NameId) → list_any (is_permuted same_name ns) (items_of_each found.keys) ≡ list_any (is_permuted same_name ns) (items_of_each sets.now)) }
{
    let mut found = IndexSet::new(alloc);
    for set in sets {
        add_set(alloc, set.as_slice(), &mut found)?;
    }
    Ok(found)
}

/// Adds a pair, where its first name has none yet.
fn add_first(from: NameId, to: NameId, found: &mut IndexMap<NameId, NameId>) -> Result<(), NoMemory>
    ensures { OnOk result ((pairs : List (NameId × NameId)) → AreFirst pairs found.old.entries → AreFirst (pairs ++ (from, to) ∷ []) found.new.entries) }
{
    if found.contains_key(&from) {
        return Ok(());
    }
    found.insert(from, to)?;
    Ok(())
}

/// The first pair of each name.
pub(crate) fn first_pairs(
    alloc: Global,
    pairs: &[(NameId, NameId)],
) -> Result<IndexMap<NameId, NameId>, NoMemory>
    ensures { IfOk result (λ found. AreFirst pairs.now found.entries) }
{
    let mut found = IndexMap::new(alloc);
    for (from, to) in pairs {
        add_first(*from, *to, &mut found)?;
    }
    Ok(found)
}
