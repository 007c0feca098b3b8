//! The list sorts that a text writes.

ghost use Rattle.std.specs.Prelude.{◌≡◌, Some, OnOk};
ghost use Rattle.std.specs.List.{Contains};
ghost use Rattle.sort_table.specs.Expressions.{Name};
ghost use Rattle.sort_table.specs.BareSorts.{SortExpression};
ghost use Rattle.sort_table.specs.UsedNames.{leaf_of};
ghost use Rattle.sort_table.specs.IndexedKinds.{kinds_of_index};
ghost use Rattle.sort_table.specs.NamedSorts.{IsNamed, ReadsSorts};
ghost use Rattle.sort_table.specs.LentTrees.{expressions_of};
ghost use Rattle.sort_table.specs.WrittenSorts.{AddsWritten};

use crate::sort_declaring::SortNames;
use data_theory::{NoMemory, Signature};
use mcrl2_syntax::SortTree;

impl<'a> SortNames<'a> {
    /// Adds the list sorts that these sort expressions need, and no others. The names in them have sorts.
    ///
    /// # Errors
    ///
    /// `NoMemory` where there is none for a list sort.
    pub(crate) fn add_written(
        &self,
        signature: &mut Signature,
        trees: &[&'a SortTree],
    ) -> Result<(), NoMemory>
        requires reads { ReadsSorts (kinds_of_index self.now.index) self.now.ids.items signature.old }
        requires named { (e : SortExpression) → Contains (expressions_of trees.now) e → (n : Name) → leaf_of e ≡ Some n → IsNamed signature.old n }
        ensures written { OnOk result (AddsWritten (expressions_of trees.now) signature.old signature.new) }
        ensures reads { OnOk result (ReadsSorts (kinds_of_index self.now.index) self.now.ids.items signature.new) }
    {
        let _ = signature.names();
        for tree in trees {
            self.sort_of_tree(signature, tree)?;
        }
        Ok(())
    }
}
