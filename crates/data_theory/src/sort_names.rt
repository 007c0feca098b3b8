//! The names of sorts, with their index.

use crate::ids::{NameId, SortId};
use crate::no_memory::NoMemory;
use indexmap::IndexMap;
use std::alloc::Global;
use std::marker::Model;

/// The names of the declared sorts and their aliases, in the order in which they came. No name stands for two sorts.
#[derive(Drop)]
pub struct SortNames {
    sorts: IndexMap<NameId, SortId>,
}

impl Model for SortNames {
    ghost use Rattle.std.specs.Prelude.{List};
    ghost use Rattle.data_theory.specs.declared.ids.NameId.{NameId};
    ghost use Rattle.data_theory.specs.declared.ids.SortId.{SortId};

    ghost Value = { List (NameId × SortId) };

    ghost view = { λ table. table.sorts.entries };
}

impl SortNames {
    ghost use Rattle.std.specs.Prelude.{◌≡◌, ◌++◌, ◌∷◌, [], length, MatchOption, OnOk, OnErr, take};
    ghost use Rattle.data_theory.specs.SortNames.{IsSortName, IsName};

    /// No names.
    pub fn new(alloc: Global) -> SortNames
        ensures { result ≡ [] }
    {
        SortNames {
            sorts: IndexMap::new(alloc),
        }
    }

    /// How many there are.
    pub fn len(&self) -> usize
        ensures { result ≡ length self.now }
    {
        self.sorts.len()
    }

    /// The sort with a name or alias.
    pub fn find(&self, name: NameId) -> Option<SortId>
        ensures { MatchOption result (¬ (IsName self.now name)) (λ sort. IsSortName self.now name sort) }
    {
        match self.sorts.get(&name) {
            Some(sort) => Some(*sort),
            None => None,
        }
    }

    /// Adds a name behind the others.
    pub fn push(&mut self, name: NameId, sort: SortId) -> Result<(), NoMemory>
        requires { ¬ (IsName self.old name) }
        ensures pushed { OnOk result (self.new ≡ self.old ++ (name, sort) ∷ []) }
        ensures unchanged { OnErr result (self.new ≡ self.old) }
    {
        self.sorts.insert(name, sort)?;
        Ok(())
    }

    /// Keeps the first names alone.
    pub fn truncate(&mut self, length: usize)
        ensures { self.new ≡ take length self.old }
    {
        self.sorts.truncate(length);
    }
}

ghost use Rattle.std.specs.Prelude.{◌≡◌, ◌++◌, ◌∷◌, [], length, IfOk, OnErr};
ghost use Rattle.data_theory.specs.Sorts.{abstract_sort};
ghost use Rattle.data_theory.specs.SortNames.{IsName};

use crate::sort_table::SortTable;

/// Adds a declared sort without constructors, and its name, or neither.
pub fn declare_sort(
    sorts: &mut SortTable,
    names: &mut SortNames,
    name: NameId,
) -> Result<SortId, NoMemory>
    requires { ¬ (IsName names.old name) }
    ensures number { IfOk result (λ sort. sort.0 ≡ length sorts.old) }
    ensures sort { IfOk result (λ _. sorts.new ≡ sorts.old ++ abstract_sort name ∷ []) }
    ensures named { IfOk result (λ sort. names.new ≡ names.old ++ (name, sort) ∷ []) }
    ensures no_sort { OnErr result (sorts.new ≡ sorts.old) }
    ensures no_name { OnErr result (names.new ≡ names.old) }
{
    let sort = SortId(sorts.len());
    let count = names.len();
    names.push(name, sort)?;
    if sorts.push_abstract(name).is_err() {
        names.truncate(count);
        return Err(NoMemory);
    }
    Ok(sort)
}
