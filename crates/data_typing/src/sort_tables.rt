//! The sorts of a signature without their table.

ghost use Rattle.std.specs.Prelude.{◌≡◌, ◌<◌, ◌++◌, map, length, IfOk, OnOk};
ghost use Rattle.data_theory.specs.Sorts.{kind_of};
ghost use Rattle.data_theory.specs.IdSorts.{construction_of, meant_by, meaning_of};
ghost use Rattle.data_theory.specs.Sorts.{lists_over};
ghost use Rattle.data_typing.specs.FlatSorts.{flat_sort, lists};
ghost use Rattle.data_theory.specs.Terms.{list};
ghost use Rattle.data_theory.specs.Signature.{Sig};
ghost use Rattle.data_theory.specs.IdTerms.{sort_under, IsGrown};
ghost use Rattle.sort_table.specs.NamedSorts.{AddsLists, sort_count};
ghost use Rattle.data_typing.specs.CodeWords.{AreFlat};
ghost use Rattle.data_typing.specs.NamedSorts.{AreNamedSorts, AreFrontOf};
ghost use Rattle.data_typing.specs.Contexts.{AreTablesOf, IsFlatOver};

use crate::flat_sorts::{Base, FlatSort, SortPlace};
use data_theory::{NoMemory, Signature, SortId, SortKind};
use std::alloc::Global;

/// Puts the number of a sort behind others, where it is a declared one.
fn push_declared(named: &mut Vec<SortId>, kind: &SortKind, sort: SortId) -> Result<(), NoMemory>
    ensures { OnOk result (named.new.items ≡ named.old.items ++ map (λ k. sort) (construction_of (kind_of kind.now))) }
{
    match kind {
        SortKind::Abstract | SortKind::Cons(_) | SortKind::Struct(_) => {
            named.push(sort)?;
            Ok(())
        }
        _ => Ok(()),
    }
}

/// The sort over a sort in front.
fn list_over(flats: &[FlatSort], element: SortId) -> Result<FlatSort, NoMemory>
    ensures { IfOk result (λ f. flat_sort f ≡ meaning_of (meant_by (map flat_sort flats.now)) 0 (lists_over element)) }
{
    match flats.get(element.0) {
        Some(element) => element.over(SortPlace::Elements),
        None => Ok(FlatSort {
            depth: 1,
            base: Base::Bool,
        }),
    }
}

/// A sort of this kind behind some sorts, of which so many are declared.
fn flat_of(kind: &SortKind, flats: &[FlatSort], declared: usize) -> Result<FlatSort, NoMemory>
    ensures { IfOk result (λ f. flat_sort f ≡ meaning_of (meant_by (map flat_sort flats.now)) declared (kind_of kind.now)) }
{
    let base = match kind {
        SortKind::Bool => Base::Bool,
        SortKind::Pos => Base::Pos,
        SortKind::Nat => Base::Nat,
        SortKind::Int => Base::Int,
        SortKind::List(element) => return list_over(flats, *element),
        SortKind::Abstract => Base::Named(declared),
        SortKind::Cons(_) => Base::Named(declared),
        SortKind::Struct(_) => Base::Named(declared),
    };
    Ok(FlatSort { depth: 0, base })
}

/// The sorts of a signature as typing takes them: each without its table, by its number, and the numbers of the declared ones.
#[derive(Drop)]
pub struct SortTables {
    pub flats: Vec<FlatSort>,
    pub named: Vec<SortId>,
}

impl SortTables {
    /// The sort with a number.
    pub fn flat(&self, sort: SortId) -> FlatSort
        ensures means { (g : Sig) → AreTablesOf g self.now → sort.0 < length g.sorts → flat_sort result ≡ sort_under g sort }
        ensures within { (g : Sig) → AreTablesOf g self.now → sort.0 < length g.sorts → IsFlatOver g result }
    {
        if sort.0 < self.flats.len() {
            self.flats[sort.0]
        } else {
            FlatSort {
                depth: 0,
                base: Base::Bool,
            }
        }
    }
}

/// What the sorts of a signature are, by their numbers, and the numbers of the declared ones, behind those that are there.
fn add_sorts(
    sig: &Signature,
    flats: &mut Vec<FlatSort>,
    named: &mut Vec<SortId>,
) -> Result<(), NoMemory>
    requires { AreFrontOf sig.now (length flats.old.items) flats.old.items named.old.items }
    ensures flats { OnOk result (AreFlat sig.now flats.new.items) }
    ensures named { OnOk result (AreNamedSorts sig.now named.new.items) }
    ensures all_named { OnOk result (length named.new.items ≡ sort_count sig.now) }
{
    for i in flats.len()..sig.next_sort().0 {
        let kind = sig.kind(SortId(i));
        let flat = flat_of(kind, flats.as_slice(), named.len())?;
        push_declared(named, kind, SortId(i))?;
        flats.push(flat)?;
    }
    Ok(())
}

/// The tables of a signature's sorts.
pub fn sort_tables(alloc: Global, sig: &Signature) -> Result<SortTables, NoMemory>
    ensures { IfOk result (AreTablesOf sig.now) }
{
    let mut flats: Vec<FlatSort> = Vec::new(alloc);
    let mut named: Vec<SortId> = Vec::new(alloc);
    add_sorts(sig, &mut flats, &mut named)?;
    Ok(SortTables { flats, named })
}

/// Goes on with tables where list sorts were added.
pub fn go_on(sig: &Signature, tables: &mut SortTables) -> Result<(), NoMemory>
    requires { (g : Sig) × AreTablesOf g tables.old × AddsLists g sig.now }
    ensures { OnOk result (AreTablesOf sig.now tables.new) }
{
    add_sorts(sig, &mut tables.flats, &mut tables.named)?;
    Ok(())
}

/// The lists, so deep, over a sort of a signature. Those that aren't there are added.
pub fn lists_over_sort(sig: &mut Signature, base: SortId, depth: usize) -> Result<SortId, NoMemory>
    requires { base.0 < length sig.old.sorts }
    ensures meant { IfOk result (λ s. sort_under sig.new s ≡ lists depth (sort_under sig.old base)) }
    ensures within { IfOk result (λ s. s.0 < length sig.new.sorts) }
    ensures grown { IsGrown sig.old sig.new }
    ensures added { AddsLists sig.old sig.new }
{
    let mut sort = base;
    for _step in 0..depth {
        sort = list_over_sort(sig, sort)?;
    }
    Ok(sort)
}

/// The lists over a sort of a signature, which are added where they aren't there.
fn list_over_sort(sig: &mut Signature, element: SortId) -> Result<SortId, NoMemory>
    requires { element.0 < length sig.old.sorts }
    ensures meant { IfOk result (λ s. sort_under sig.new s ≡ list (sort_under sig.old element)) }
    ensures within { IfOk result (λ s. s.0 < length sig.new.sorts) }
    ensures grown { IsGrown sig.old sig.new }
    ensures added { AddsLists sig.old sig.new }
{
    match sig.list_of(element) {
        Some(list) => {
            let _ = sig.next_sort();
            Ok(list)
        }
        None => {
            let list = sig.add_list(element)?;
            let _ = sig.next_sort();
            Ok(list)
        }
    }
}
