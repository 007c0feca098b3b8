//! The sorts of sort expressions that a signature has.

ghost use Rattle.std.specs.Prelude.{◌≡◌, ◌<◌, List, ℕ, length, map, IfOk};
ghost use Rattle.std.specs.List.{AllByRecursion};
ghost use Rattle.mcrl2_syntax.specs.SortTrees.{plain_sort};
ghost use Rattle.data_theory.specs.Terms.{list};
ghost use Rattle.data_theory.specs.declared.ids.SortId.{SortId};
ghost use Rattle.data_theory.specs.IdTerms.{sort_under};
ghost use Rattle.sort_table.specs.BareSorts.{bare_sort};
ghost use Rattle.sort_table.specs.IndexedKinds.{kinds_of_index};
ghost use Rattle.sort_table.specs.NamedSorts.{ReadsSorts};
ghost use Rattle.sort_table.specs.EnteredFunctions.{HasSortOf, HaveSortsOf, IsReadable};

use crate::sort_declaring::{SortNames, built_in};
use data_theory::{NoMemory, Signature, SortId};
use mcrl2_syntax::SortTree;
use std::alloc::Global;

impl<'a> SortNames<'a> {
    /// The sort of a sort expression that has one.
    pub(crate) fn sort_there(&self, signature: &Signature, tree: &'a SortTree) -> SortId
        requires reads { ReadsSorts (kinds_of_index self.now.index) self.now.ids.items signature.now }
        requires there { IsReadable signature.now (bare_sort (plain_sort tree.now)) }
        ensures { HasSortOf signature.now (bare_sort (plain_sort tree.now)) result }
    {
        let _ = signature.names();
        match tree {
            SortTree::Bool(_) => built_in(signature, 0),
            SortTree::Pos(_) => built_in(signature, 1),
            SortTree::Nat(_) => built_in(signature, 2),
            SortTree::Int(_) => built_in(signature, 3),
            SortTree::Name(name) => self.sort_named(signature, name.bytes.as_slice()),
            SortTree::Brackets(_, inner) => self.sort_there(signature, inner),
            SortTree::List(_, inner) => {
                let element = self.sort_there(signature, inner);
                list_there(signature, element)
            }
        }
    }

    /// The sorts of sort expressions that have some.
    ///
    /// # Errors
    ///
    /// `NoMemory` where there is none for the list.
    pub(crate) fn sorts_of_trees(
        &self,
        alloc: Global,
        signature: &Signature,
        trees: &'a [SortTree],
    ) -> Result<Vec<SortId>, NoMemory>
        requires reads { ReadsSorts (kinds_of_index self.now.index) self.now.ids.items signature.now }
        requires there { AllByRecursion (IsReadable signature.now) (map bare_sort (map plain_sort trees.now)) }
        ensures { IfOk result (λ sorts. HaveSortsOf signature.now (map bare_sort (map plain_sort trees.now)) sorts.items) }
    {
        let mut sorts = Vec::new(alloc);
        for tree in trees {
            sorts.push(self.sort_there(signature, tree))?;
        }
        Ok(sorts)
    }
}

/// The list sort over a sort that has one.
fn list_there(signature: &Signature, element: SortId) -> SortId
    requires within { element.0 < length signature.now.sorts }
    requires there { (l : SortId) × (l.0 < length signature.now.sorts) × (sort_under signature.now l ≡ list (sort_under signature.now element)) }
    ensures sort { sort_under signature.now result ≡ list (sort_under signature.now element) }
    ensures within { result.0 < length signature.now.sorts }
{
    let _ = signature.names();
    let Some(sort) = signature.list_of(element) else {
        unreachable!();
    };
    sort
}
