//! The sorts of sort expressions, as typing takes them.

ghost use Rattle.std.specs.Prelude.{◌≡◌, IfOk, IfSome, Some, slice_get, option_map};
ghost use Rattle.std.specs.Str.{IsUtf8};
ghost use Rattle.std.specs.List.{Contains};
ghost use Rattle.mcrl2_syntax.specs.SortTrees.{plain_sort};
ghost use Rattle.mcrl2_syntax.specs.TreeWords.{IsName, IsSortOfWords};
ghost use Rattle.mcrl2_syntax.specs.Words.{word_of};
ghost use Rattle.data_theory.specs.Terms.{list};
ghost use Rattle.data_theory.specs.Signature.{Sig};
ghost use Rattle.sort_table.specs.Expressions.{Name};
ghost use Rattle.sort_table.specs.BareSorts.{bare_sort};
ghost use Rattle.sort_table.specs.NamedLists.{first_named};
ghost use Rattle.sort_table.specs.SignatureVocabularies.{vocabulary_of};
ghost use Rattle.sort_table.specs.Vocabularies.{sort_in};
ghost use Rattle.data_typing.specs.FlatSorts.{flat_sort};
ghost use Rattle.data_typing.specs.Contexts.{AreTablesOf, IsFlatOver};

use crate::word_numbers::text_of;
use data_theory::{NameId, NoMemory, Signature};
use data_typing::flat_sorts::{Base, FlatSort};
use data_typing::sort_tables::SortTables;
use mcrl2_syntax::{SortTree, Word};

/// The number of a name that the table of texts has.
pub(crate) fn name_number(sig: &Signature, name: &[u8]) -> NameId
    requires text { IsUtf8 name.now }
    requires there { Contains sig.now.texts name.now }
    ensures { slice_get sig.now.texts result.0 ≡ Some name.now }
{
    let Some(number) = sig.names().find(text_of(name)) else {
        unreachable!()
    };
    number
}

/// The sort of a name by its number, where it has one.
fn numbered_sort(sig: &Signature, tables: &SortTables, number: NameId) -> Option<FlatSort>
    requires { AreTablesOf sig.now tables.now }
    ensures means { (n : Name) → slice_get sig.now.texts number.0 ≡ Some n → option_map flat_sort result ≡ first_named n (vocabulary_of sig.now).sort_names }
    ensures over { IfSome result (IsFlatOver sig.now) }
{
    let _ = sig.next_sort();
    match sig.sort(number) {
        Some(sort) => Some(tables.flat(sort)),
        None => None,
    }
}

/// The sort of a name, where it has one.
fn named_sort(sig: &Signature, tables: &SortTables, name: &Word) -> Option<FlatSort>
    requires tables { AreTablesOf sig.now tables.now }
    requires name { IsName (word_of name.now) }
    ensures means { option_map flat_sort result ≡ first_named name.now.bytes.items (vocabulary_of sig.now).sort_names }
    ensures over { IfSome result (IsFlatOver sig.now) }
{
    let _ = sig.next_sort();
    let text = text_of(name.bytes.as_slice());
    match sig.names().find(text) {
        Some(number) => numbered_sort(sig, tables, number),
        None => None,
    }
}

/// A sort that is neither declared nor a list.
fn plain(base: Base) -> FlatSort
    ensures { result ≡ record { depth = 0; base = base } }
{
    FlatSort { depth: 0, base }
}

/// The lists over a sort.
fn lists_over(element: Option<FlatSort>) -> Result<Option<FlatSort>, NoMemory>
    ensures means { IfOk result (λ o. option_map flat_sort o ≡ option_map list (option_map flat_sort element)) }
    ensures over { (g : Sig) → IfSome element (IsFlatOver g) → IfOk result (λ o. IfSome o (IsFlatOver g)) }
{
    let Some(element) = element else {
        return Ok(None);
    };
    match element.depth.checked_add(1) {
        Some(depth) => Ok(Some(FlatSort {
            depth,
            base: element.base,
        })),
        None => Err(NoMemory),
    }
}

/// The sort of a sort expression, where its name has one.
///
/// # Errors
///
/// `NoMemory` where a number of lists has no place in a `usize`.
pub(crate) fn sort_of(
    sig: &Signature,
    tables: &SortTables,
    tree: &SortTree,
) -> Result<Option<FlatSort>, NoMemory>
    requires tables { AreTablesOf sig.now tables.now }
    requires words { IsSortOfWords (plain_sort tree.now) }
    ensures means { IfOk result (λ o. option_map flat_sort o ≡ sort_in (vocabulary_of sig.now).sort_names (bare_sort (plain_sort tree.now))) }
    ensures over { IfOk result (λ o. IfSome o (IsFlatOver sig.now)) }
{
    match tree {
        SortTree::Bool(_) => Ok(Some(plain(Base::Bool))),
        SortTree::Pos(_) => Ok(Some(plain(Base::Pos))),
        SortTree::Nat(_) => Ok(Some(plain(Base::Nat))),
        SortTree::Int(_) => Ok(Some(plain(Base::Int))),
        SortTree::Name(name) => Ok(named_sort(sig, tables, name)),
        SortTree::Brackets(_, inner) => sort_of(sig, tables, inner),
        SortTree::List(_, inner) => {
            let element = sort_of(sig, tables, inner)?;
            lists_over(element)
        }
    }
}
