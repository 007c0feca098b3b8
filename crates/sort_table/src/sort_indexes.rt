//! The sort names that declarations declare, by an index.

ghost use Rattle.std.specs.Prelude.{◌≡◌, ◌<◌, ◌++◌, ◌∷◌, [], length, map, IfOk, OnOk, OnErr, slice_get, option_map, Some, IfSome};
ghost use Rattle.sort_table.specs.Expressions.{Name};
ghost use Rattle.sort_table.specs.SortMeanings.{Kind, alone, kinds_in, kinds_by};
ghost use Rattle.sort_table.specs.DeclarationTrees.{declarations_under, declaration_of};
ghost use Rattle.sort_table.specs.SortIndexes.{entry_of, kind_of, first_place, place_under, GetsPlace};
ghost use Rattle.sort_table.specs.DeclaringSorts.{IsFirst};
ghost use Rattle.sort_table.specs.IndexedKinds.{kinds_of_index};

use crate::sort_entries::{Definition, SortIndex};
use data_theory::NoMemory;
use mcrl2_syntax::{Decl, Word};
use std::alloc::Global;
use std::collections::BTreeMap;

impl<'a> SortIndex<'a> {
    /// No names.
    pub(crate) fn new(alloc: Global) -> SortIndex<'a>
        ensures { kinds_of_index result ≡ [] }
    {
        SortIndex {
            entries: Vec::new(alloc),
            places: BTreeMap::new(alloc),
        }
    }

    /// How many declarations of names there are.
    pub(crate) fn len(&self) -> usize
        ensures { result ≡ length (kinds_of_index self.now) }
    {
        self.entries.len()
    }

    /// The declaration at a place: a name, and what it is declared as.
    pub(crate) fn get(&self, place: usize) -> (&'a [u8], Definition<'a>)
        requires { place < length (kinds_of_index self.now) }
        ensures { slice_get (kinds_of_index self.now) place ≡ Some (entry_of result) }
    {
        self.entries[place]
    }

    /// The first place of a name.
    pub(crate) fn find(&self, name: &'a [u8]) -> Option<usize>
        ensures { result ≡ first_place name.now (kinds_of_index self.now) }
    {
        match self.places.get(&name) {
            Some(place) => Some(*place),
            None => None,
        }
    }

    /// What is declared at a place, where that is the first place of its name.
    pub(crate) fn definition_at(&self, place: usize) -> Option<Definition<'a>>
        requires { place < length (kinds_of_index self.now) }
        ensures first { (n : Name) (k : Kind) → IsFirst (kinds_of_index self.now) place n k → option_map kind_of result ≡ Some k }
        ensures only { IfSome result (λ definition. (n : Name) × IsFirst (kinds_of_index self.now) place n (kind_of definition)) }
    {
        let (name, definition) = self.get(place);
        let Some(first) = self.find(name) else {
            return None;
        };
        if first != place {
            return None;
        }
        Some(definition)
    }

    /// Adds a declaration of a name behind the others.
    pub(crate) fn push(
        &mut self,
        name: &'a [u8],
        definition: Definition<'a>,
    ) -> Result<(), NoMemory>
        ensures pushed { OnOk result (kinds_of_index self.new ≡ kinds_of_index self.old ++ (name.now, kind_of definition.entry) ∷ []) }
        ensures unchanged { OnErr result (kinds_of_index self.new ≡ kinds_of_index self.old) }
    {
        self.entries.reserve(1)?;
        add_place(&mut self.places, name, self.entries.len())?;
        let _ = self.entries.push((name, definition));
        Ok(())
    }
}

/// Puts a place under a name that has none.
fn add_place<'a>(
    places: &mut BTreeMap<&'a [u8], usize>,
    name: &'a [u8],
    place: usize,
) -> Result<(), NoMemory>
    ensures added { OnOk result (GetsPlace places.old name.now place places.new) }
    ensures unchanged { OnErr result ((n : Name) → place_under places.new n ≡ place_under places.old n) }
{
    if places.get(&name).is_some() {
        return Ok(());
    }
    places.insert(name, place)?;
    Ok(())
}

/// The sort names that these declarations declare.
///
/// # Errors
///
/// `NoMemory` where there is none for the table.
pub(crate) fn sort_index<'a>(
    alloc: Global,
    declarations: &[&'a Decl],
) -> Result<SortIndex<'a>, NoMemory>
    ensures { IfOk result (λ index. kinds_of_index index ≡ kinds_in (declarations_under declarations.now)) }
{
    let mut index = SortIndex::new(alloc);
    for declaration in declarations {
        add_names(&mut index, declaration)?;
    }
    Ok(index)
}

/// Puts what a declaration declares behind the others.
fn add_names<'a>(index: &mut SortIndex<'a>, declaration: &'a Decl) -> Result<(), NoMemory>
    ensures { OnOk result (kinds_of_index index.new ≡ kinds_of_index index.old ++ kinds_by (declaration_of declaration.now)) }
{
    match declaration {
        Decl::Sorts(_, names) => add_sorts(index, names.as_slice()),
        Decl::Alias(_, name, sort) => index.push(name.bytes.as_slice(), Definition::Alias(sort)),
        Decl::Struct(_, name, _) => index.push(name.bytes.as_slice(), Definition::Struct),
        _ => Ok(()),
    }
}

/// Puts names that are declared alone behind the others.
fn add_sorts<'a>(index: &mut SortIndex<'a>, names: &'a [Word]) -> Result<(), NoMemory>
    ensures { OnOk result (kinds_of_index index.new ≡ kinds_of_index index.old ++ map (λ (w : Word). (w.bytes.items, alone)) names.now) }
{
    for name in names {
        index.push(name.bytes.as_slice(), Definition::Alone)?;
    }
    Ok(())
}
