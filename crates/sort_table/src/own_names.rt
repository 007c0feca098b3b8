//! The ids of the sort names that are no aliases.

ghost use Rattle.std.specs.Prelude.{◌≡◌, ◌<◌, ◌+◌, List, ℕ, length, take, IfOk, OnOk, slice_get, Some};
ghost use Rattle.sort_table.specs.Expressions.{Name};
ghost use Rattle.sort_table.specs.SortMeanings.{Kind};
ghost use Rattle.sort_table.specs.NamedLists.{first_named};
ghost use Rattle.sort_table.specs.IndexedKinds.{kinds_of_index};
ghost use Rattle.sort_table.specs.NamedSorts.{AreIdsOf};
ghost use Rattle.sort_table.specs.DeclaredNames.{is_own_kind, own_among};

use crate::sort_declaring::SortNames;
use crate::sort_entries::{Definition, SortIndex};
use data_theory::{NameId, NoMemory};
use std::alloc::Global;

/// Whether the name that is declared at a place is no alias, where its first declaration counts.
fn is_own(index: &SortIndex, place: usize) -> bool
    requires { place < length (kinds_of_index index.now) }
    ensures { (n : Name) (k : Kind) → slice_get (kinds_of_index index.now) place ≡ Some (n, k) → result ≡ is_own_kind (first_named n (kinds_of_index index.now)) }
{
    let (name, _) = index.get(place);
    let Some(first) = index.find(name) else {
        unreachable!();
    };
    let (_, definition) = index.get(first);
    match definition {
        Definition::Alone => true,
        Definition::Struct => true,
        Definition::Alias(_) => false,
    }
}

impl<'a> SortNames<'a> {
    /// The ids of the names that are no aliases, in the order of the text.
    ///
    /// # Errors
    ///
    /// `NoMemory` where there is none for the list.
    pub(crate) fn own_ids(&self, alloc: Global) -> Result<Vec<NameId>, NoMemory>
        requires { length self.now.ids.items ≡ length (kinds_of_index self.now.index) }
        ensures { IfOk result (λ own. (texts : List (List ℕ)) → AreIdsOf texts (kinds_of_index self.now.index) self.now.ids.items → AreIdsOf texts (own_among (λ n. first_named n (kinds_of_index self.now.index)) (kinds_of_index self.now.index)) own.items) }
    {
        let mut own = Vec::new(alloc);
        for place in 0..self.index.len() {
            self.push_own(&mut own, place)?;
        }
        Ok(own)
    }

    /// Puts the id of the name that is declared at a place behind the others, where the name is no alias.
    fn push_own(&self, own: &mut Vec<NameId>, place: usize) -> Result<(), NoMemory>
        requires place { place < length (kinds_of_index self.now.index) }
        requires ids { length self.now.ids.items ≡ length (kinds_of_index self.now.index) }
        ensures { OnOk result ((texts : List (List ℕ)) → AreIdsOf texts (kinds_of_index self.now.index) self.now.ids.items
            → AreIdsOf texts (own_among (λ n. first_named n (kinds_of_index self.now.index)) (take place (kinds_of_index self.now.index))) own.old.items
            → AreIdsOf texts (own_among (λ n. first_named n (kinds_of_index self.now.index)) (take (place + 1) (kinds_of_index self.now.index))) own.new.items) }
    {
        if !is_own(&self.index, place) {
            return Ok(());
        }
        own.push(self.ids[place])?;
        Ok(())
    }
}
