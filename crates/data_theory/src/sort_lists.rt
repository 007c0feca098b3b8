//! The table of lists of sorts.

use crate::ids::SortId;
use crate::no_memory::NoMemory;
use indexmap::IndexSet;
use std::alloc::Global;
use std::marker::Model;

/// A table of different lists of sorts. A list keeps its place, and two places have two lists.
#[derive(Drop)]
pub struct SortLists {
    lists: IndexSet<Vec<SortId>>,
    alloc: Global,
}

impl Model for SortLists {
    ghost use Rattle.std.specs.Prelude.{List};
    ghost use Rattle.data_theory.specs.declared.ids.SortId.{SortId};
    ghost use Rattle.data_theory.specs.Places.{HaveOnePlace, items_of_all};

    ghost Value = { List (List SortId) };

    ghost view = { λ table. items_of_all table.lists.keys };

    ghost invariant = { λ table. HaveOnePlace (items_of_all table.lists.keys) };
}

impl SortLists {
    ghost use Rattle.std.specs.Prelude.{◌≡◌, [], IfOk, MatchOption, OnOk, OnErr, slice_get, Some};
    ghost use Rattle.std.specs.List.{Contains};
    ghost use Rattle.data_theory.specs.Places.{HaveOnePlace, Joins};

    /// The empty table.
    pub fn new(alloc: Global) -> SortLists
        ensures { result ≡ [] }
    {
        SortLists {
            lists: IndexSet::new(alloc),
            alloc,
        }
    }

    /// The place of a list, where the table has it.
    pub fn find(&self, sorts: &[SortId]) -> Option<usize>
        ensures found { MatchOption result (¬ (Contains self.now sorts.now)) (λ place. slice_get self.now place ≡ Some sorts.now) }
        ensures different { HaveOnePlace self.now }
    {
        self.lists.get_index_of(sorts)
    }

    /// The place of a list, which is added behind the others where the table hasn't it.
    pub fn enter(&mut self, sorts: &[SortId]) -> Result<usize, NoMemory>
        ensures entered { OnOk result (Joins self.old sorts.now self.new) }
        ensures place { IfOk result (λ place. slice_get self.new place ≡ Some sorts.now) }
        ensures different { HaveOnePlace self.new }
        ensures unchanged { OnErr result (self.new ≡ self.old) }
    {
        if let Some(place) = self.find(sorts) {
            return Ok(place);
        }
        let (place, _) = self.lists.insert_full(Vec::from_slice(self.alloc, sorts)?)?;
        Ok(place)
    }
}
