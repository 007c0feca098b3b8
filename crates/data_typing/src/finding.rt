//! The sorts and functions of steps in a signature.

ghost use Rattle.std.specs.Prelude.{◌≡◌, ◌<◌, ◌≤◌, length, map, IfOk};
ghost use Rattle.std.specs.List.{All, AllByRecursion};
ghost use Rattle.data_theory.specs.declared.ids.SortId.{SortId};
ghost use Rattle.data_theory.specs.declared.ids.FunId.{FunId};
ghost use Rattle.data_theory.specs.Terms.{Symbol};
ghost use Rattle.data_theory.specs.IdTerms.{sort_under, symbol_under, IsGrown};
ghost use Rattle.data_typing.specs.FlatSorts.{flat_sort, base_sort};
ghost use Rattle.data_typing.specs.NodeTypings.{signature_of};
ghost use Rattle.sort_table.specs.NamedSorts.{AddsLists};
ghost use Rattle.data_typing.specs.Within.{IsBaseWithin, IsFlatWithin, IsOverloadWithin};
ghost use Rattle.data_typing.specs.NamedSorts.{AreNamedSorts};

use crate::flat_sorts::{Base, FlatSort};
use crate::functions::built_in_function;
use crate::nodes::{Callee, Overload};
use crate::sort_tables::lists_over_sort;
use data_theory::{FunId, NoMemory, Signature, SortId};
use std::alloc::Global;

/// The number of a sort that is no list.
pub(crate) fn base_number(sig: &Signature, named: &[SortId], base: Base) -> SortId
    requires named { AreNamedSorts sig.now named.now }
    requires there { IsBaseWithin (length named.now) base }
    ensures means { sort_under sig.now result ≡ base_sort base }
    ensures within { result.0 < length sig.now.sorts }
{
    let _ = sig.next_sort();
    match base {
        Base::Bool => SortId(0),
        Base::Pos => SortId(1),
        Base::Nat => SortId(2),
        Base::Int => SortId(3),
        Base::Named(number) => named[number],
    }
}

/// The number of a sort. List sorts that aren't there are added.
fn sort_number(sig: &mut Signature, named: &[SortId], flat: FlatSort) -> Result<SortId, NoMemory>
    requires named { AreNamedSorts sig.old named.now }
    requires there { IsFlatWithin (length named.now) flat }
    ensures means { IfOk result (λ sort. sort_under sig.new sort ≡ flat_sort flat) }
    ensures within { IfOk result (λ sort. sort.0 < length sig.new.sorts) }
    ensures grown { IsGrown sig.old sig.new }
    ensures added { AddsLists sig.old sig.new }
{
    let base = base_number(sig, named, flat.base);
    let sort = lists_over_sort(sig, base, flat.depth)?;
    Ok(sort)
}

/// The numbers of sorts. List sorts that aren't there are added.
fn sort_numbers(
    alloc: Global,
    sig: &mut Signature,
    named: &[SortId],
    flats: &[FlatSort],
) -> Result<Vec<SortId>, NoMemory>
    requires named { AreNamedSorts sig.old named.now }
    requires there { AllByRecursion (IsFlatWithin (length named.now)) flats.now }
    ensures means { IfOk result (λ sorts. map (sort_under sig.new) sorts.items ≡ map flat_sort flats.now) }
    ensures within { IfOk result (λ sorts. All (λ (sort : SortId). sort.0 < length sig.new.sorts) sorts.items) }
    ensures grown { IsGrown sig.old sig.new }
    ensures added { AddsLists sig.old sig.new }
{
    let mut sorts: Vec<SortId> = Vec::new(alloc);
    for flat in flats {
        let sort = sort_number(sig, named, *flat)?;
        sorts.push(sort)?;
    }
    Ok(sorts)
}

/// The number of a function, whatever the numbers from this count on mean. List sorts that it has and that aren't there are added.
pub fn function_number(
    alloc: Global,
    sig: &mut Signature,
    named: &[SortId],
    count: usize,
    overload: &Overload,
) -> Result<FunId, NoMemory>
    requires named { AreNamedSorts sig.old named.now }
    requires count { count ≤ length sig.old.functions }
    requires there { IsOverloadWithin (length named.now) count overload.now }
    ensures means { IfOk result (λ fun. (y : FunId → Symbol) → ((k : FunId) → k.0 < count → y k ≡ symbol_under sig.old k) → symbol_under sig.new fun ≡ (signature_of y overload.now).symbol) }
    ensures within { IfOk result (λ fun. fun.0 < length sig.new.functions) }
    ensures grown { IsGrown sig.old sig.new }
    ensures added { AddsLists sig.old sig.new }
{
    let word = match overload.callee {
        Callee::Declared(fun) => return Ok(fun),
        Callee::BuiltIn(word) => word,
    };
    let to = sort_number(sig, named, overload.result)?;
    let sorts = sort_numbers(alloc, sig, named, overload.arguments.as_slice())?;
    let _ = sig.next_sort();
    match built_in_function(sig, word, sorts.as_slice(), to) {
        Some(fun) => Ok(fun),
        None => unreachable!(),
    }
}
