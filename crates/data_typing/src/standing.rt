//! Sorts, functions and terms over a signature to which nothing is added.

ghost use Rattle.std.specs.Prelude.{◌≡◌, ◌<◌, Contains, length, map, None, IfOk, IfSome, OnOk};
ghost use Rattle.std.specs.List.{All, AllByRecursion};
ghost use Rattle.data_theory.specs.declared.ids.SortId.{SortId};
ghost use Rattle.data_theory.specs.IdTerms.{sort_under, symbol_under, IsTreeWithin};
ghost use Rattle.data_typing.specs.declared.steps.Step.{Step};
ghost use Rattle.term_pool.specs.HeadTrees.{IsIn};
ghost use Rattle.term_pool.specs.Pools.{Extends};
ghost use Rattle.data_typing.specs.FlatSorts.{flat_sort, lists};
ghost use Rattle.data_typing.specs.NodeTypings.{signature_of};
ghost use Rattle.data_typing.specs.NamedSorts.{AreNamedSorts};
ghost use Rattle.data_typing.specs.Within.{IsFlatWithin, IsOverloadWithin};
ghost use Rattle.data_typing.specs.Typings.{Typing};
ghost use Rattle.data_typing.specs.Making.{wished};
ghost use Rattle.data_typing.specs.CodeSteps.{item_of, items_of, wish_of, IsStepWithin};
ghost use Rattle.data_typing.specs.CodeParts.{part_item, part_items, IsPartWithin};
ghost use Rattle.data_typing.specs.Contexts.{AreTablesOf, IsWantedOver, IsReadOver, IsReadingOf};
ghost use Rattle.data_typing.specs.StandingSorts.{IsSortIn, LacksASort, StepLacksASort, IsFoundIn};

use crate::finding::base_number;
use crate::flat_sorts::FlatSort;
use crate::functions::built_in_function;
use crate::making::{Part, made_term};
use crate::nodes::{Callee, Overload, Reading};
use crate::sort_tables::SortTables;
use crate::steps::{Step, Task, Wanted, steps_of};
use data_theory::{FunId, NoMemory, Signature, SortId, TermId};
use std::alloc::Global;
use term_pool::Pool;

/// The lists, so deep, over a sort of a signature, where they are in it.
fn lists_in(sig: &Signature, base: SortId, depth: usize) -> Option<SortId>
    requires { base.0 < length sig.now.sorts }
    ensures means { IfSome result (λ s. sort_under sig.now s ≡ lists depth (sort_under sig.now base)) }
    ensures within { IfSome result (λ s. s.0 < length sig.now.sorts) }
    ensures absent { result ≡ None → ¬ (IsSortIn sig.now (lists depth (sort_under sig.now base))) }
{
    let _ = sig.next_sort();
    let mut sort = base;
    for _step in 0..depth {
        let Some(list) = sig.list_of(sort) else {
            return None;
        };
        sort = list;
    }
    Some(sort)
}

/// The number of a sort, where it is in the signature.
fn sort_in(sig: &Signature, named: &[SortId], flat: FlatSort) -> Option<SortId>
    requires named { AreNamedSorts sig.now named.now }
    requires there { IsFlatWithin (length named.now) flat }
    ensures means { IfSome result (λ sort. sort_under sig.now sort ≡ flat_sort flat) }
    ensures within { IfSome result (λ sort. sort.0 < length sig.now.sorts) }
    ensures absent { result ≡ None → ¬ (IsSortIn sig.now (flat_sort flat)) }
{
    let base = base_number(sig, named, flat.base);
    lists_in(sig, base, flat.depth)
}

/// The numbers of sorts, where all of them are in the signature.
fn sorts_in(
    alloc: Global,
    sig: &Signature,
    named: &[SortId],
    flats: &[FlatSort],
) -> Result<Option<Vec<SortId>>, NoMemory>
    requires named { AreNamedSorts sig.now named.now }
    requires there { AllByRecursion (IsFlatWithin (length named.now)) flats.now }
    ensures means { IfOk result (λ o. IfSome o (λ sorts. map (sort_under sig.now) sorts.items ≡ map flat_sort flats.now)) }
    ensures within { IfOk result (λ o. IfSome o (λ sorts. All (λ (sort : SortId). sort.0 < length sig.now.sorts) sorts.items)) }
    ensures absent { IfOk result (λ o. o ≡ None → ¬ (AllByRecursion (IsSortIn sig.now) (map flat_sort flats.now))) }
{
    let mut sorts: Vec<SortId> = Vec::new(alloc);
    for flat in flats {
        let Some(sort) = sort_in(sig, named, *flat) else {
            return Ok(None);
        };
        sorts.push(sort)?;
    }
    Ok(Some(sorts))
}

/// The number of a function, where all its sorts are in the signature.
fn function_in(
    alloc: Global,
    sig: &Signature,
    named: &[SortId],
    overload: &Overload,
) -> Result<Option<FunId>, NoMemory>
    requires named { AreNamedSorts sig.now named.now }
    requires there { IsOverloadWithin (length named.now) (length sig.now.functions) overload.now }
    ensures means { IfOk result (λ o. IfSome o (λ fun. symbol_under sig.now fun ≡ (signature_of (symbol_under sig.now) overload.now).symbol)) }
    ensures within { IfOk result (λ o. IfSome o (λ fun. fun.0 < length sig.now.functions)) }
    ensures absent { IfOk result (λ o. o ≡ None → LacksASort sig.now overload.now) }
{
    let word = match overload.callee {
        Callee::Declared(fun) => return Ok(Some(fun)),
        Callee::BuiltIn(word) => word,
    };
    let _ = sig.next_sort();
    let Some(to) = sort_in(sig, named, overload.result) else {
        return Ok(None);
    };
    let Some(sorts) = sorts_in(alloc, sig, named, overload.arguments.as_slice())? else {
        return Ok(None);
    };
    match built_in_function(sig, word, sorts.as_slice(), to) {
        Some(fun) => Ok(Some(fun)),
        None => unreachable!(),
    }
}

/// A step with the number of its function, where all sorts of that are in the signature.
fn part_in(
    alloc: Global,
    sig: &Signature,
    named: &[SortId],
    step: &Step,
) -> Result<Option<Part>, NoMemory>
    requires named { AreNamedSorts sig.now named.now }
    requires there { IsStepWithin (length named.now) (length sig.now.functions) step.now }
    ensures means { IfOk result (λ o. IfSome o (λ part. part_item sig.now part ≡ item_of (symbol_under sig.now) step.now)) }
    ensures within { IfOk result (λ o. IfSome o (IsPartWithin sig.now)) }
    ensures absent { IfOk result (λ o. o ≡ None → StepLacksASort sig.now step.now) }
{
    match step {
        Step::Variable(var) => Ok(Some(Part::Variable(*var))),
        Step::Numeral(value) => Ok(Some(Part::Numeral(*value))),
        Step::Apply(overload, arity) => match function_in(alloc, sig, named, overload)? {
            Some(fun) => Ok(Some(Part::Apply(fun, *arity))),
            None => Ok(None),
        },
    }
}

/// The steps with the numbers of their functions, where all sorts of these are in the signature.
fn parts_in(
    alloc: Global,
    sig: &Signature,
    named: &[SortId],
    steps: &[Step],
) -> Result<Option<Vec<Part>>, NoMemory>
    requires named { AreNamedSorts sig.now named.now }
    requires there { AllByRecursion (IsStepWithin (length named.now) (length sig.now.functions)) steps.now }
    ensures mean { IfOk result (λ o. IfSome o (λ parts. part_items sig.now parts.items ≡ items_of (symbol_under sig.now) steps.now)) }
    ensures within { IfOk result (λ o. IfSome o (λ parts. All (IsPartWithin sig.now) parts.items)) }
    ensures absent { IfOk result (λ o. o ≡ None → (x : Step) × Contains steps.now x × StepLacksASort sig.now x) }
{
    let mut parts: Vec<Part> = Vec::new(alloc);
    for step in steps {
        let Some(part) = part_in(alloc, sig, named, step)? else {
            return Ok(None);
        };
        parts.push(part)?;
    }
    Ok(Some(parts))
}

/// The term of an expression that was read, at the sort that it infers, or at the one that is wanted, over a signature to which nothing is
/// added. There is none where the expression has none there, or where the sort of a subterm isn't in the signature.
pub fn term_over(
    alloc: Global,
    sig: &Signature,
    pool: &mut Pool,
    tables: &SortTables,
    reading: &Reading,
    wanted: Wanted,
) -> Result<Option<TermId>, NoMemory>
    requires tables { AreTablesOf sig.now tables.now }
    requires reading { IsReadOver sig.now reading.now }
    requires wanted { IsWantedOver sig.now wanted }
    requires trees { All (IsTreeWithin sig.now) pool.old.trees }
    ensures means { IfOk result (λ o. (t : Typing) → IsReadingOf sig.now reading.now t → IsFoundIn sig.now pool.new.trees (wished (wish_of wanted) t) o) }
    ensures within { IfOk result (λ o. IfSome o (IsIn pool.new.trees)) }
    ensures trees { OnOk result (All (IsTreeWithin sig.now) pool.new.trees) }
    ensures kept { Extends pool.old.trees pool.new.trees }
    ensures constants { pool.new.constants ≡ pool.old.constants }
{
    let _ = sig.next_sort();
    let task = Task {
        at: reading.at,
        wanted,
    };
    let Some(steps) = steps_of(
        alloc,
        reading.nodes.as_slice(),
        reading.known.as_slice(),
        task,
    )?
    else {
        return Ok(None);
    };
    let Some(parts) = parts_in(alloc, sig, tables.named.as_slice(), steps.as_slice())? else {
        return Ok(None);
    };
    let term = made_term(alloc, sig, pool, parts)?;
    Ok(Some(term))
}
