//! The index by a name and a list of sorts.

use crate::ids::{NameId, SortId};
use crate::no_memory::NoMemory;
use crate::sort_lists::SortLists;
use indexmap::IndexSet;
use std::alloc::Global;
use std::marker::Model;

/// A name with the place of a list of sorts.
#[derive(Clone, Copy, Debug, PartialEq, Eq, Hash)]
pub struct Place {
    pub name: NameId,
    pub list: usize,
}

/// A table of pairs of a name and a list of sorts, in the order in which they came.
#[derive(Drop)]
pub struct Keys {
    lists: SortLists,
    places: IndexSet<Place>,
}

impl Model for Keys {
    ghost use Rattle.std.specs.Prelude.{List};
    ghost use Rattle.data_theory.specs.Keys.{Key, keys_at, AreKeys};

    ghost Value = { List Key };

    ghost view = { λ table. keys_at table.lists table.places.keys };

    ghost invariant = { λ table. AreKeys table.lists table.places.keys };
}

impl Keys {
    ghost use Rattle.std.specs.Prelude.{◌≡◌, ◌++◌, ◌∷◌, [], MatchOption, OnOk, OnErr, slice_get, Some, take};
    ghost use Rattle.std.specs.List.{Contains};
    ghost use Rattle.data_theory.specs.Keys.{key};

    /// The empty table.
    pub fn new(alloc: Global) -> Keys
        ensures { result ≡ [] }
    {
        Keys {
            lists: SortLists::new(alloc),
            places: IndexSet::new(alloc),
        }
    }

    /// The place of a pair, where the table has it.
    pub fn find(&self, name: NameId, sorts: &[SortId]) -> Option<usize>
        ensures { MatchOption result (¬ (Contains self.now (key name sorts.now))) (λ place. slice_get self.now place ≡ Some (key name sorts.now)) }
    {
        let list = self.lists.find(sorts)?;
        self.places.get_index_of(&Place { name, list })
    }

    /// Adds a pair that isn't there, behind the others.
    pub fn push(&mut self, name: NameId, sorts: &[SortId]) -> Result<(), NoMemory>
        requires { ¬ (Contains self.old (key name sorts.now)) }
        ensures pushed { OnOk result (self.new ≡ self.old ++ key name sorts.now ∷ []) }
        ensures unchanged { OnErr result (self.new ≡ self.old) }
    {
        let list = self.lists.enter(sorts)?;
        self.places.insert(Place { name, list })?;
        Ok(())
    }

    /// Keeps the first pairs alone.
    pub fn truncate(&mut self, length: usize)
        ensures { self.new ≡ take length self.old }
    {
        self.places.truncate(length);
    }
}
