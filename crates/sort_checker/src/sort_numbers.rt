//! The numbers of sort expressions.

ghost use Rattle.std.specs.Prelude.{◌≡◌, ◌<◌, length, Some, IfOk, slice_get};
ghost use Rattle.data_theory.specs.Terms.{Sort};
ghost use Rattle.data_theory.specs.IdTerms.{sort_under};
ghost use Rattle.mcrl2_syntax.specs.SortTrees.{plain_sort};
ghost use Rattle.mcrl2_syntax.specs.TreeWords.{IsSortOfWords};
ghost use Rattle.mcrl2_syntax.specs.Words.{word_of};
ghost use Rattle.mcrl2_syntax.specs.TreeWords.{IsName};
ghost use Rattle.sort_table.specs.BareSorts.{bare_sort};
ghost use Rattle.sort_table.specs.DeclaringSorts.{first_four};
ghost use Rattle.sort_table.specs.NamedLists.{first_named};
ghost use Rattle.sort_table.specs.NamedSorts.{AddsLists, sort_names_of};
ghost use Rattle.sort_table.specs.Vocabularies.{sort_in};

use crate::word_numbers::text_of;
use data_theory::{NoMemory, Signature, SortId};
use data_typing::sort_tables::lists_over_sort;
use mcrl2_syntax::{SortTree, Word};

/// The number of a sort expression that has a sort. List sorts that aren't there are added.
///
/// # Errors
///
/// `NoMemory` where there is none for a list sort.
pub(crate) fn sort_number(sig: &mut Signature, tree: &SortTree) -> Result<SortId, NoMemory>
    requires tree { IsSortOfWords (plain_sort tree.now) }
    requires sort { (s : Sort) × (sort_in (sort_names_of sig.old) (bare_sort (plain_sort tree.now)) ≡ Some s) }
    ensures means { IfOk result (λ sort. sort_in (sort_names_of sig.old) (bare_sort (plain_sort tree.now)) ≡ Some (sort_under sig.new sort)) }
    ensures within { IfOk result (λ sort. sort.0 < length sig.new.sorts) }
    ensures added { AddsLists sig.old sig.new }
{
    let _ = sig.next_sort();
    match tree {
        SortTree::Bool(_) => Ok(built_in_sort(sig, 0)),
        SortTree::Pos(_) => Ok(built_in_sort(sig, 1)),
        SortTree::Nat(_) => Ok(built_in_sort(sig, 2)),
        SortTree::Int(_) => Ok(built_in_sort(sig, 3)),
        SortTree::Name(name) => Ok(named_sort(sig, name)),
        SortTree::Brackets(_, inner) => sort_number(sig, inner),
        SortTree::List(_, inner) => {
            let element = sort_number(sig, inner)?;
            lists_over_sort(sig, element, 1)
        }
    }
}

/// The sort of a name that has one.
fn named_sort(sig: &Signature, name: &Word) -> SortId
    requires name { IsName (word_of name.now) }
    requires sort { (s : Sort) × (first_named name.now.bytes.items (sort_names_of sig.now) ≡ Some s) }
    ensures means { first_named name.now.bytes.items (sort_names_of sig.now) ≡ Some (sort_under sig.now result) }
    ensures within { result.0 < length sig.now.sorts }
{
    let text = text_of(name.bytes.as_slice());
    let _ = sig.next_sort();
    let Some(number) = sig.names().find(text) else {
        unreachable!();
    };
    let Some(sort) = sig.sort(number) else {
        unreachable!();
    };
    sort
}

/// Bool, Pos, Nat or Int.
fn built_in_sort(sig: &Signature, number: usize) -> SortId
    requires { number < 4 }
    ensures sort { Some (sort_under sig.now result) ≡ slice_get first_four number }
    ensures within { result.0 < length sig.now.sorts }
{
    let _ = sig.next_sort();
    SortId(number)
}
