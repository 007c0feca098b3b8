//! The declared sorts in a signature.

ghost use Rattle.std.specs.Prelude.{◌≡◌, ◌<◌, List, ℕ, [], length, map, Some, IfOk, OnOk, OnErr, MatchOption, Contains, slice_get, slice_index};
ghost use Rattle.std.specs.List.{All};
ghost use Rattle.std.specs.Str.{IsUtf8};
ghost use Rattle.graphs.specs.Graphs.{HasEdge};
ghost use Rattle.mcrl2_syntax.specs.SortTrees.{plain_sort};
ghost use Rattle.data_theory.specs.Terms.{Sort, list};
ghost use Rattle.data_theory.specs.Names.{with_text, with_texts};
ghost use Rattle.data_theory.specs.IdTerms.{sort_under};
ghost use Rattle.data_theory.specs.Signature.{Sig};
ghost use Rattle.sort_table.specs.Expressions.{Name};
ghost use Rattle.sort_table.specs.NamedLists.{first_named};
ghost use Rattle.sort_table.specs.BareSorts.{bare_sort};
ghost use Rattle.sort_table.specs.BareDeclarations.{Declaration};
ghost use Rattle.sort_table.specs.SortMeanings.{Kind, equal_to, kinds_in, under_names};
ghost use Rattle.sort_table.specs.Vocabularies.{sort_in};
ghost use Rattle.data_theory.specs.Sorts.{IsAnyListOver};
ghost use Rattle.data_theory.specs.SortNames.{IsName};
ghost use Rattle.sort_table.specs.UsedNames.{leaf_of};
ghost use Rattle.sort_table.specs.IndexedKinds.{kinds_of_index};
ghost use Rattle.sort_table.specs.NamedSorts.{AreIdsOf, AreSoundKinds, HaveSortNames, AddsLists, AddsSorts, IsNamed, IsOwnKind, ReadsSorts, sort_names_of, sort_count};
ghost use Rattle.sort_table.specs.WrittenLists.{NewListsOf, NewListIs};
ghost use Rattle.sort_table.specs.DeclaringSorts.{first_four, IsFirst, IsDeclaring, NewListsOfAliases, GoesOn, OwnIsNamed, AliasIsNamed, IsReady, AreLevels};

use crate::alias_levels::alias_levels;
use crate::sort_entries::{Definition, SortIndex};
use data_theory::{NameId, Names, NoMemory, Signature, SortId};
use mcrl2_syntax::SortTree;
use std::alloc::Global;

/// The sort names that a text declares, with their ids in a table of texts.
#[derive(Drop)]
pub(crate) struct SortNames<'a> {
    /// The names, with what they are declared as.
    pub(crate) index: SortIndex<'a>,
    /// The id of the name of each declaration.
    pub(crate) ids: Vec<NameId>,
}

/// Enters the declared sort names.
///
/// # Errors
///
/// `NoMemory` where there is none for the texts.
pub(crate) fn enter_sort_names<'a>(
    alloc: Global,
    index: SortIndex<'a>,
    names: &mut Names,
) -> Result<SortNames<'a>, NoMemory>
    requires { All (λ r. IsUtf8 r.0) (kinds_of_index index) }
    ensures index { IfOk result (λ sorts. kinds_of_index sorts.index ≡ kinds_of_index index.entry) }
    ensures ids { IfOk result (λ sorts. AreIdsOf names.new (kinds_of_index index.entry) sorts.ids.items) }
    ensures entered { OnOk result (names.new ≡ with_texts names.old (map (λ r. r.0) (kinds_of_index index.entry))) }
{
    let mut ids = Vec::new(alloc);
    for place in 0..index.len() {
        let (name, _) = index.get(place);
        ids.push(enter_bytes(names, name)?)?;
    }
    Ok(SortNames { index, ids })
}

/// Enters a text that is given by its bytes.
pub(crate) fn enter_bytes(names: &mut Names, bytes: &[u8]) -> Result<NameId, NoMemory>
    requires { IsUtf8 bytes.now }
    ensures entered { OnOk result (names.new ≡ with_text names.old bytes.now) }
    ensures place { IfOk result (λ name. slice_get names.new name.0 ≡ Some bytes.now) }
{
    match str::from_utf8(bytes) {
        Ok(text) => names.enter(text),
        Err(_) => unreachable!(),
    }
}

impl<'a> SortNames<'a> {
    /// Adds the declared sorts, and the aliases with the list sorts that they need, to a signature that has none.
    ///
    /// # Errors
    ///
    /// `NoMemory` where there is none for them.
    pub(crate) fn declare(&self, alloc: Global, signature: &mut Signature) -> Result<(), NoMemory>
        requires ids { AreIdsOf signature.old.texts (kinds_of_index self.now.index) self.now.ids.items }
        requires no_names { signature.old.sort_names ≡ [] }
        requires no_sorts { sort_count signature.old ≡ 0 }
        requires sound { AreSoundKinds (kinds_of_index self.now.index) }
        ensures sorts { OnOk result ((ds : List Declaration) → kinds_of_index self.now.index ≡ kinds_in ds → HaveSortNames (under_names ds) (sort_names_of signature.new) (sort_count signature.new)) }
        ensures added { OnOk result (AddsSorts signature.old signature.new) }
        ensures reads { OnOk result (ReadsSorts (kinds_of_index self.now.index) self.now.ids.items signature.new) }
        ensures lists { OnOk result (NewListsOfAliases (kinds_of_index self.now.index) signature.old signature.new) }
    {
        self.add_own_sorts(signature)?;
        let levels = alias_levels(alloc, &self.index)?;
        self.add_levels(signature, levels.as_slice())?;
        Ok(())
    }

    /// Adds the sorts whose names are no aliases, in the order of the text.
    fn add_own_sorts(&self, signature: &mut Signature) -> Result<(), NoMemory>
        requires { IsDeclaring (kinds_of_index self.now.index) self.now.ids.items signature.old }
        ensures goes_on { OnOk result (GoesOn (kinds_of_index self.now.index) self.now.ids.items signature.old signature.new) }
        ensures named { OnOk result ((place : ℕ) → place < length (kinds_of_index self.now.index) → OwnIsNamed (kinds_of_index self.now.index) place signature.new) }
    {
        for place in 0..self.index.len() {
            self.add_own_sort(signature, place)?;
        }
        Ok(())
    }

    /// Adds the sort whose name is declared first at a place, where that is no alias.
    fn add_own_sort(&self, signature: &mut Signature, place: usize) -> Result<(), NoMemory>
        requires place { place < length (kinds_of_index self.now.index) }
        requires state { IsDeclaring (kinds_of_index self.now.index) self.now.ids.items signature.old }
        ensures goes_on { OnOk result (GoesOn (kinds_of_index self.now.index) self.now.ids.items signature.old signature.new) }
        ensures named { OnOk result (OwnIsNamed (kinds_of_index self.now.index) place signature.new) }
    {
        match self.index.definition_at(place) {
            None | Some(Definition::Alias(_)) => Ok(()),
            Some(Definition::Alone) => self.add_missing_sort(signature, place),
            Some(Definition::Struct) => self.add_missing_sort(signature, place),
        }
    }

    /// Adds the sort whose name is declared at a place, where the name has none.
    fn add_missing_sort(&self, signature: &mut Signature, place: usize) -> Result<(), NoMemory>
        requires own { (n : Name) × (k : Kind) × IsFirst (kinds_of_index self.now.index) place n k × IsOwnKind k }
        requires state { IsDeclaring (kinds_of_index self.now.index) self.now.ids.items signature.old }
        ensures goes_on { OnOk result (GoesOn (kinds_of_index self.now.index) self.now.ids.items signature.old signature.new) }
        ensures named { OnOk result (OwnIsNamed (kinds_of_index self.now.index) place signature.new) }
    {
        let _ = signature.names();
        let id = self.ids[place];
        match signature.sort(id) {
            Some(_) => Ok(()),
            None => {
                signature.add_sort(id)?;
                Ok(())
            }
        }
    }

    /// Adds the aliases, level by level.
    fn add_levels(&self, signature: &mut Signature, levels: &[Vec<usize>]) -> Result<(), NoMemory>
        requires state { IsDeclaring (kinds_of_index self.now.index) self.now.ids.items signature.old }
        requires own { (place : ℕ) → place < length (kinds_of_index self.now.index) → OwnIsNamed (kinds_of_index self.now.index) place signature.old }
        requires sound { AreSoundKinds (kinds_of_index self.now.index) }
        requires levels { AreLevels (kinds_of_index self.now.index) levels.now }
        ensures goes_on { OnOk result (GoesOn (kinds_of_index self.now.index) self.now.ids.items signature.old signature.new) }
        ensures named { OnOk result ((place : ℕ) → place < length (kinds_of_index self.now.index) → AliasIsNamed (kinds_of_index self.now.index) place signature.new) }
    {
        for level in levels {
            self.add_level(signature, level.as_slice())?;
        }
        Ok(())
    }

    /// Adds the aliases that are declared first at these places.
    fn add_level(&self, signature: &mut Signature, level: &[usize]) -> Result<(), NoMemory>
        requires within { (place : ℕ) → Contains level.now place → place < length (kinds_of_index self.now.index) }
        requires state { IsDeclaring (kinds_of_index self.now.index) self.now.ids.items signature.old }
        requires ready { (place : ℕ) → Contains level.now place → IsReady (kinds_of_index self.now.index) place signature.old }
        ensures goes_on { OnOk result (GoesOn (kinds_of_index self.now.index) self.now.ids.items signature.old signature.new) }
        ensures named { OnOk result ((place : ℕ) → Contains level.now place → AliasIsNamed (kinds_of_index self.now.index) place signature.new) }
    {
        for place in level {
            self.add_alias(signature, *place)?;
        }
        Ok(())
    }

    /// Adds the alias that is declared first at a place, where there is one.
    fn add_alias(&self, signature: &mut Signature, place: usize) -> Result<(), NoMemory>
        requires place { place < length (kinds_of_index self.now.index) }
        requires state { IsDeclaring (kinds_of_index self.now.index) self.now.ids.items signature.old }
        requires ready { IsReady (kinds_of_index self.now.index) place signature.old }
        ensures goes_on { OnOk result (GoesOn (kinds_of_index self.now.index) self.now.ids.items signature.old signature.new) }
        ensures named { OnOk result (AliasIsNamed (kinds_of_index self.now.index) place signature.new) }
    {
        match self.index.definition_at(place) {
            None | Some(Definition::Alone) | Some(Definition::Struct) => Ok(()),
            Some(Definition::Alias(tree)) => self.add_missing_alias(signature, place, tree),
        }
    }

    /// Adds an alias that is declared at a place, where its name has no sort.
    fn add_missing_alias(
        &self,
        signature: &mut Signature,
        place: usize,
        tree: &'a SortTree,
    ) -> Result<(), NoMemory>
        requires alias { (n : Name) × IsFirst (kinds_of_index self.now.index) place n (equal_to (bare_sort (plain_sort tree.now))) }
        requires state { IsDeclaring (kinds_of_index self.now.index) self.now.ids.items signature.old }
        requires ready { IsReady (kinds_of_index self.now.index) place signature.old }
        ensures goes_on { OnOk result (GoesOn (kinds_of_index self.now.index) self.now.ids.items signature.old signature.new) }
        ensures named { OnOk result (AliasIsNamed (kinds_of_index self.now.index) place signature.new) }
    {
        let _ = signature.names();
        let id = self.ids[place];
        match signature.sort(id) {
            Some(_) => Ok(()),
            None => self.put_alias(signature, id, tree),
        }
    }

    /// Gives a name that has no sort that of an expression.
    fn put_alias(
        &self,
        signature: &mut Signature,
        id: NameId,
        tree: &'a SortTree,
    ) -> Result<(), NoMemory>
        requires state { IsDeclaring (kinds_of_index self.now.index) self.now.ids.items signature.old }
        requires alias { (n : Name) → slice_get signature.old.texts id.0 ≡ Some n → first_named n (kinds_of_index self.now.index) ≡ Some (equal_to (bare_sort (plain_sort tree.now))) }
        requires text { id.0 < length signature.old.texts }
        requires absent { ¬ (IsName signature.old.sort_names id) }
        requires named { (n : Name) → leaf_of (bare_sort (plain_sort tree.now)) ≡ Some n → IsNamed signature.old n }
        ensures goes_on { OnOk result (GoesOn (kinds_of_index self.now.index) self.now.ids.items signature.old signature.new) }
        ensures named { OnOk result ((n : Name) → slice_get signature.old.texts id.0 ≡ Some n → IsNamed signature.new n) }
    {
        let _ = signature.names();
        let sort = self.sort_of_tree(signature, tree)?;
        signature.add_alias(id, sort)
    }

    /// The sort of a sort expression whose name has one. The list sorts that it needs are added.
    ///
    /// # Errors
    ///
    /// `NoMemory` where there is none for a list sort.
    pub(crate) fn sort_of_tree(
        &self,
        signature: &mut Signature,
        tree: &'a SortTree,
    ) -> Result<SortId, NoMemory>
        requires reads { ReadsSorts (kinds_of_index self.now.index) self.now.ids.items signature.old }
        requires named { (n : Name) → leaf_of (bare_sort (plain_sort tree.now)) ≡ Some n → IsNamed signature.old n }
        ensures sort { IfOk result (λ sort. sort_in (sort_names_of signature.new) (bare_sort (plain_sort tree.now)) ≡ Some (sort_under signature.new sort)) }
        ensures within { IfOk result (λ sort. sort.0 < length signature.new.sorts) }
        ensures added { OnOk result (AddsLists signature.old signature.new) }
        ensures names { OnOk result (sort_names_of signature.new ≡ sort_names_of signature.old) }
        ensures reads { OnOk result (ReadsSorts (kinds_of_index self.now.index) self.now.ids.items signature.new) }
        ensures lists { OnOk result (NewListsOf (bare_sort (plain_sort tree.now)) signature.old signature.new) }
    {
        let _ = signature.names();
        match tree {
            SortTree::Bool(_) => Ok(built_in(signature, 0)),
            SortTree::Pos(_) => Ok(built_in(signature, 1)),
            SortTree::Nat(_) => Ok(built_in(signature, 2)),
            SortTree::Int(_) => Ok(built_in(signature, 3)),
            SortTree::Name(name) => Ok(self.sort_named(signature, name.bytes.as_slice())),
            SortTree::Brackets(_, inner) => self.sort_of_tree(signature, inner),
            SortTree::List(_, inner) => {
                let element = self.sort_of_tree(signature, inner)?;
                list_over(signature, element)
            }
        }
    }

    /// The sort of a name that has one.
    pub(crate) fn sort_named(&self, signature: &Signature, name: &'a [u8]) -> SortId
        requires reads { ReadsSorts (kinds_of_index self.now.index) self.now.ids.items signature.now }
        requires named { IsNamed signature.now name.now }
        ensures sort { first_named name.now (sort_names_of signature.now) ≡ Some (sort_under signature.now result) }
        ensures within { result.0 < length signature.now.sorts }
    {
        let _ = signature.names();
        let Some(place) = self.index.find(name) else {
            unreachable!();
        };
        let Some(sort) = signature.sort(self.ids[place]) else {
            unreachable!();
        };
        sort
    }
}

/// Bool, Pos, Nat or Int.
pub(crate) fn built_in(signature: &Signature, number: usize) -> SortId
    requires { number < 4 }
    ensures sort { Some (sort_under signature.now result) ≡ slice_get first_four number }
    ensures within { result.0 < length signature.now.sorts }
{
    let _ = signature.names();
    SortId(number)
}

/// The list sort over a sort.
fn list_over(signature: &mut Signature, element: SortId) -> Result<SortId, NoMemory>
    requires { element.0 < length signature.old.sorts }
    ensures sort { IfOk result (λ sort. sort_under signature.new sort ≡ list (sort_under signature.old element)) }
    ensures within { IfOk result (λ sort. sort.0 < length signature.new.sorts) }
    ensures added { OnOk result (AddsLists signature.old signature.new) }
    ensures names { OnOk result (sort_names_of signature.new ≡ sort_names_of signature.old) }
    ensures lists { IfOk result (λ sort. NewListIs sort signature.old signature.new) }
{
    let _ = signature.names();
    match signature.list_of(element) {
        Some(sort) => Ok(sort),
        None => add_list(signature, element),
    }
}

/// Adds the list sort over a sort that has none.
fn add_list(signature: &mut Signature, element: SortId) -> Result<SortId, NoMemory>
    requires within { element.0 < length signature.old.sorts }
    requires absent { ¬ (IsAnyListOver signature.old.sorts element) }
    ensures sort { IfOk result (λ sort. sort_under signature.new sort ≡ list (sort_under signature.old element)) }
    ensures within { IfOk result (λ sort. sort.0 < length signature.new.sorts) }
    ensures added { OnOk result (AddsLists signature.old signature.new) }
    ensures names { OnOk result (sort_names_of signature.new ≡ sort_names_of signature.old) }
    ensures lists { IfOk result (λ sort. NewListIs sort signature.old signature.new) }
{
    let _ = signature.names();
    let sort = signature.add_list(element)?;
    Ok(sort)
}
