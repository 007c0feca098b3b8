//! Sorts without aliases, as numbers.

ghost use Rattle.std.specs.Prelude.{◌≡◌, ◌<◌, List, ℕ, length, map, Some, IfOk, OnOk, Contains, slice_get, option_map};
ghost use Rattle.sort_table.specs.Expressions.{Name};
ghost use Rattle.sort_table.specs.BareSorts.{a_name};
ghost use Rattle.sort_table.specs.SortMeanings.{equal_to};
ghost use Rattle.sort_table.specs.IndexedKinds.{kinds_of_index};
ghost use Rattle.sort_table.specs.NamedSorts.{AreSoundKinds};
ghost use Rattle.sort_table.specs.DeclaringSorts.{IsFirst, AreLevels};
ghost use Rattle.sort_table.specs.FlatSorts.{built_in_flat, list_flat, flat_in, flats_in, expression_of, expressions_of, KeepsFlat, OwnAreSettled, AliasIsSettled, IsReadyToSettle, AllAreSettled};

use crate::alias_levels::alias_levels;
use crate::sort_entries::{Definition, SortIndex};
use data_theory::NoMemory;
use mcrl2_syntax::SortTree;
use std::alloc::Global;

/// A sort without aliases: how often `List` stands in front, and what it stands in front of. Bool, Pos, Nat and Int have the
/// kinds 0 to 3 and the place 0. A declared sort has the kind 4 and the first place of its name.
#[derive(Clone, Copy, PartialEq, Eq)]
pub(crate) struct FlatSort {
    pub(crate) depth: usize,
    pub(crate) kind: usize,
    pub(crate) place: usize,
}

/// The declared sort names, each with the sort for which it stands, at its first place.
#[derive(Drop)]
pub(crate) struct FlatTable<'a> {
    pub(crate) index: SortIndex<'a>,
    pub(crate) sorts: Vec<FlatSort>,
}

/// The sorts of all declared names.
///
/// # Errors
///
/// `NoMemory` where there is none for the table.
pub(crate) fn flat_table<'a>(alloc: Global, index: SortIndex<'a>) -> Result<FlatTable<'a>, NoMemory>
    requires { AreSoundKinds (kinds_of_index index) }
    ensures kinds { IfOk result (λ table. kinds_of_index table.index ≡ kinds_of_index index.entry) }
    ensures settled { IfOk result (λ table. AllAreSettled (kinds_of_index index.entry) table.sorts.items) }
{
    let levels = alias_levels(alloc, &index)?;
    let mut sorts = own_sorts(alloc, &index)?;
    settle_levels(&index, &mut sorts, levels.as_slice())?;
    Ok(FlatTable { index, sorts })
}

/// At each place the sort that a name has which is declared there and is no alias.
fn own_sorts(alloc: Global, index: &SortIndex) -> Result<Vec<FlatSort>, NoMemory>
    ensures size { IfOk result (λ sorts. length sorts.items ≡ length (kinds_of_index index.now)) }
    ensures own { IfOk result (λ sorts. OwnAreSettled (kinds_of_index index.now) sorts.items) }
{
    let mut sorts = Vec::new(alloc);
    for place in 0..index.len() {
        sorts.push(FlatSort {
            depth: 0,
            kind: 4,
            place,
        })?;
    }
    Ok(sorts)
}

/// Gives the aliases their sorts, level by level.
fn settle_levels(
    index: &SortIndex,
    sorts: &mut Vec<FlatSort>,
    levels: &[Vec<usize>],
) -> Result<(), NoMemory>
    requires size { length sorts.old.items ≡ length (kinds_of_index index.now) }
    requires own { OwnAreSettled (kinds_of_index index.now) sorts.old.items }
    requires sound { AreSoundKinds (kinds_of_index index.now) }
    requires levels { AreLevels (kinds_of_index index.now) levels.now }
    ensures { OnOk result (AllAreSettled (kinds_of_index index.now) sorts.new.items) }
{
    for level in levels {
        settle_level(index, sorts, level.as_slice())?;
    }
    Ok(())
}

/// Gives the aliases that are declared first at these places their sorts.
fn settle_level(
    index: &SortIndex,
    sorts: &mut Vec<FlatSort>,
    level: &[usize],
) -> Result<(), NoMemory>
    requires within { (place : ℕ) → Contains level.now place → place < length (kinds_of_index index.now) }
    requires size { length sorts.old.items ≡ length (kinds_of_index index.now) }
    requires ready { (place : ℕ) → Contains level.now place → IsReadyToSettle (kinds_of_index index.now) place sorts.old.items }
    ensures keeps { OnOk result (KeepsFlat (kinds_of_index index.now) sorts.old.items sorts.new.items) }
    ensures settled { OnOk result ((place : ℕ) → Contains level.now place → AliasIsSettled (kinds_of_index index.now) place sorts.new.items) }
{
    for place in level {
        settle(index, sorts, *place)?;
    }
    Ok(())
}

/// Gives the alias that is declared first at a place its sort, where there is one.
fn settle(index: &SortIndex, sorts: &mut Vec<FlatSort>, place: usize) -> Result<(), NoMemory>
    requires place { place < length (kinds_of_index index.now) }
    requires size { length sorts.old.items ≡ length (kinds_of_index index.now) }
    requires ready { IsReadyToSettle (kinds_of_index index.now) place sorts.old.items }
    ensures keeps { OnOk result (KeepsFlat (kinds_of_index index.now) sorts.old.items sorts.new.items) }
    ensures settled { OnOk result (AliasIsSettled (kinds_of_index index.now) place sorts.new.items) }
{
    match index.definition_at(place) {
        None | Some(Definition::Alone) | Some(Definition::Struct) => Ok(()),
        Some(Definition::Alias(tree)) => settle_alias(index, sorts, place, tree),
    }
}

/// Gives an alias that is declared first at a place the sort of its expression.
fn settle_alias<'a>(
    index: &SortIndex<'a>,
    sorts: &mut Vec<FlatSort>,
    place: usize,
    tree: &'a SortTree,
) -> Result<(), NoMemory>
    requires place { place < length (kinds_of_index index.now) }
    requires size { length sorts.old.items ≡ length (kinds_of_index index.now) }
    requires alias { (n : Name) × IsFirst (kinds_of_index index.now) place n (equal_to (expression_of tree.now)) }
    requires ready { IsReadyToSettle (kinds_of_index index.now) place sorts.old.items }
    ensures keeps { OnOk result (KeepsFlat (kinds_of_index index.now) sorts.old.items sorts.new.items) }
    ensures settled { OnOk result (AliasIsSettled (kinds_of_index index.now) place sorts.new.items) }
{
    let found = flat_sort(index, sorts.as_slice(), tree)?;
    let Some(sort) = found else {
        unreachable!();
    };
    sorts[place] = sort;
    Ok(())
}

/// The sort of a sort expression, where its name has one.
///
/// # Errors
///
/// `NoMemory` where a number of lists has no place in a `usize`.
pub(crate) fn flat_sort<'a>(
    index: &SortIndex<'a>,
    sorts: &[FlatSort],
    tree: &'a SortTree,
) -> Result<Option<FlatSort>, NoMemory>
    ensures { IfOk result (λ found. found ≡ flat_in (kinds_of_index index.now) sorts.now (expression_of tree.now)) }
{
    match tree {
        SortTree::Bool(_) => Ok(Some(built_in(0))),
        SortTree::Pos(_) => Ok(Some(built_in(1))),
        SortTree::Nat(_) => Ok(Some(built_in(2))),
        SortTree::Int(_) => Ok(Some(built_in(3))),
        SortTree::Name(name) => Ok(flat_named(index, sorts, name.bytes.as_slice())),
        SortTree::Brackets(_, inner) => flat_sort(index, sorts, inner),
        SortTree::List(_, inner) => {
            let element = flat_sort(index, sorts, inner)?;
            list_of(element)
        }
    }
}

/// Bool, Pos, Nat or Int.
pub(crate) fn built_in(kind: usize) -> FlatSort
    ensures { result ≡ built_in_flat kind }
{
    FlatSort {
        depth: 0,
        kind,
        place: 0,
    }
}

/// The lists over a sort.
fn list_of(element: Option<FlatSort>) -> Result<Option<FlatSort>, NoMemory>
    ensures { IfOk result (λ found. found ≡ option_map list_flat element) }
{
    let Some(sort) = element else {
        return Ok(None);
    };
    match sort.depth.checked_add(1) {
        Some(depth) => Ok(Some(FlatSort {
            depth,
            kind: sort.kind,
            place: sort.place,
        })),
        None => Err(NoMemory),
    }
}

/// The sort of a name, where it has one.
pub(crate) fn flat_named<'a>(
    index: &SortIndex<'a>,
    sorts: &[FlatSort],
    name: &'a [u8],
) -> Option<FlatSort>
    ensures { result ≡ flat_in (kinds_of_index index.now) sorts.now (a_name name.now) }
{
    let place = index.find(name)?;
    sorts.get(place).copied()
}

/// The sorts of sort expressions, where the name of each has one.
///
/// # Errors
///
/// `NoMemory` where there is none for the list.
pub(crate) fn flat_sorts<'a>(
    alloc: Global,
    index: &SortIndex<'a>,
    sorts: &[FlatSort],
    trees: &'a [SortTree],
) -> Result<Option<Vec<FlatSort>>, NoMemory>
    ensures { IfOk result (λ found. option_map (λ list. list.items) found ≡ flats_in (kinds_of_index index.now) sorts.now (expressions_of trees.now)) }
{
    let mut list = Vec::new(alloc);
    for tree in trees {
        let Some(sort) = flat_sort(index, sorts, tree)? else {
            return Ok(None);
        };
        list.push(sort)?;
    }
    Ok(Some(list))
}
