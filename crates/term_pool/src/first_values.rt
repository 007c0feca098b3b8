//! The first value of each sort.

ghost use Rattle.std.specs.Prelude.{◌≡◌, ◌<◌, ◌≤◌, ◌↔◌, ℕ, length, map, IsTrue, IfOk, IfSome, Some, slice_get};
ghost use Rattle.std.specs.List.{All};
ghost use Rattle.data_theory.specs.declared.ids.FunId.{FunId};
ghost use Rattle.data_theory.specs.declared.ids.SortId.{SortId};
ghost use Rattle.data_theory.specs.Signature.{Sig};
ghost use Rattle.data_theory.specs.WholeSignatures.{IsSignature};
ghost use Rattle.term_pool.specs.ConstructorValues.{HasValue, IsConstructorAt};
ghost use Rattle.term_pool.specs.FirstValues.{AreFirstValues, AreFirstSoFar, IsWeightOver, IsLightestOf, IsCandidateOf, IsNextOf, OpenWeighAtLeast, open_count};

use crate::weight::Weight;
use data_theory::{FunId, NoMemory, Signature, SortId, SortKind};
use std::alloc::Global;

/// What stands at the root of a value: a number, a constructor, or the constant of a sort without constructors.
#[derive(Clone, Copy, Debug)]
pub enum Root {
    Number,
    Constructor(FunId),
    Constant,
}

/// The weight and the root of the first value of a sort.
#[derive(Drop)]
pub struct First {
    pub weight: Weight,
    pub root: Root,
}

/// The first value of each sort, in the order of their numbers. An empty sort has none.
pub fn first_values(alloc: Global, sig: &Signature) -> Result<Vec<Option<First>>, NoMemory>
    ensures stands { IsSignature sig.now }
    ensures entries { IfOk result (λ entries. AreFirstValues sig.now entries.items) }
{
    let mut entries = no_entries(alloc, sig)?;
    // Each turn settles the sorts of one weight.
    while let Some((sort, first)) = next_first(alloc, sig, entries.as_slice())? {
        let weight = first.weight.copy(alloc)?;
        entries[sort.0] = Some(first);
        settle_as_light(alloc, sig, &mut entries, &weight)?;
    }
    Ok(entries)
}

/// Whether a sort has a constructor value, so that it isn't empty. A number that isn't one of the signature's sorts has none.
///
/// Each call makes the table of the first values of all sorts. `NoMemory` comes only where memory runs out.
pub fn has_value(alloc: Global, sig: &Signature, sort: SortId) -> Result<bool, NoMemory>
    ensures { IfOk result (λ found. IsTrue found ↔ HasValue sig.now sort) }
{
    let entries = first_values(alloc, sig)?;
    if sort.0 >= entries.len() {
        return Ok(false);
    }
    Ok(entries[sort.0].is_some())
}

/// No entry for each sort.
fn no_entries(alloc: Global, sig: &Signature) -> Result<Vec<Option<First>>, NoMemory>
    ensures stands { IsSignature sig.now }
    ensures entries { IfOk result (λ entries. AreFirstSoFar sig.now entries.items) }
{
    let mut entries = Vec::new(alloc);
    for _ in 0..sig.next_sort().0 {
        entries.push(None)?;
    }
    Ok(entries)
}

/// Enters the candidates that are as light as all values of the sorts without an entry.
fn settle_as_light(
    alloc: Global,
    sig: &Signature,
    entries: &mut Vec<Option<First>>,
    weight: &Weight,
) -> Result<(), NoMemory>
    requires signature { IsSignature sig.now }
    requires entries { AreFirstSoFar sig.now entries.old.items }
    requires least { OpenWeighAtLeast sig.now entries.old.items weight.now }
    ensures entries { AreFirstSoFar sig.now entries.new.items }
    ensures fewer { open_count entries.new.items ≤ open_count entries.old.items }
{
    for number in 0..entries.len() {
        if entries[number].is_some() {
            continue;
        }
        let Some(first) = candidate(alloc, sig, entries.as_slice(), SortId(number))? else {
            continue;
        };
        if !weight.less(&first.weight) {
            entries[number] = Some(first);
        }
    }
    Ok(())
}

/// The lightest of the candidates of the sorts without an entry.
fn next_first(
    alloc: Global,
    sig: &Signature,
    entries: &[Option<First>],
) -> Result<Option<(SortId, First)>, NoMemory>
    requires { AreFirstSoFar sig.now entries.now }
    ensures { IfOk result (IsNextOf sig.now entries.now (length entries.now)) }
{
    let mut next: Option<(SortId, First)> = None;
    for number in 0..entries.len() {
        if entries[number].is_some() {
            continue;
        }
        let sort = SortId(number);
        let Some(first) = candidate(alloc, sig, entries, sort)? else {
            continue;
        };
        let lighter = match &next {
            Some((_, least)) => first.weight.less(&least.weight),
            None => true,
        };
        if lighter {
            next = Some((sort, first));
        }
    }
    Ok(next)
}

/// The first of the values of a sort that stand over sorts with an entry.
fn candidate(
    alloc: Global,
    sig: &Signature,
    entries: &[Option<First>],
    sort: SortId,
) -> Result<Option<First>, NoMemory>
    requires entries { AreFirstSoFar sig.now entries.now }
    requires sort { sort.0 < length sig.now.sorts }
    ensures { IfOk result (IsCandidateOf sig.now entries.now sort) }
{
    match sig.kind(sort) {
        SortKind::Pos | SortKind::Nat | SortKind::Int => {
            let weight = Weight::one(alloc)?;
            let root = Root::Number;
            Ok(Some(First { weight, root }))
        }
        SortKind::Abstract => {
            let weight = Weight::one(alloc)?;
            let root = Root::Constant;
            Ok(Some(First { weight, root }))
        }
        _ => {
            let places = constructors(alloc, sig, sort)?;
            lightest(alloc, sig, entries, places.as_slice())
        }
    }
}

/// The constructors of a sort, by their places.
fn constructors(
    alloc: Global,
    sig: &Signature,
    sort: SortId,
) -> Result<Vec<Option<FunId>>, NoMemory>
    requires { sort.0 < length sig.now.sorts }
    ensures { IfOk result (λ places. (k : ℕ) (f : FunId) → (slice_get places.items k ≡ Some (Some f)) ↔ IsConstructorAt sig.now sort k f) }
{
    match sig.kind(sort) {
        SortKind::Bool => {
            let (first, second) = (sig.fun("true", &[]), sig.fun("false", &[]));
            Ok(Vec::from_array(alloc, [first, second])?)
        }
        SortKind::List(element) => {
            let (first, second) = (sig.fun("[]", &[sort]), sig.fun("|>", &[*element, sort]));
            Ok(Vec::from_array(alloc, [first, second])?)
        }
        SortKind::Cons(funs) => all_places(alloc, funs.as_slice()),
        SortKind::Struct(funs) => all_places(alloc, funs.as_slice()),
        _ => Ok(Vec::new(alloc)),
    }
}

/// A place for each of these constructors.
fn all_places(alloc: Global, funs: &[FunId]) -> Result<Vec<Option<FunId>>, NoMemory>
    ensures { IfOk result (λ places. places.items ≡ map Some funs.now) }
{
    Ok(funs.iter().map(|fun| Some(*fun)).collect(alloc)?)
}

/// The first constructor whose first arguments weigh least.
fn lightest(
    alloc: Global,
    sig: &Signature,
    entries: &[Option<First>],
    places: &[Option<FunId>],
) -> Result<Option<First>, NoMemory>
    requires signature { IsSignature sig.now }
    requires entries { AreFirstSoFar sig.now entries.now }
    requires places { All (λ place. IfSome place (λ f. f.0 < length sig.now.functions)) places.now }
    ensures { IfOk result (IsLightestOf sig.now entries.now places.now (length places.now)) }
{
    let mut lightest: Option<First> = None;
    for place in places {
        let Some(fun) = *place else { continue };
        let Some(weight) = weight_over(alloc, entries, sig.args_of(fun))? else {
            continue;
        };
        let lighter = match &lightest {
            Some(least) => weight.less(&least.weight),
            None => true,
        };
        if lighter {
            let root = Root::Constructor(fun);
            lightest = Some(First { weight, root });
        }
    }
    Ok(lightest)
}

/// 1 and the weights of the first values of these sorts.
fn weight_over(
    alloc: Global,
    entries: &[Option<First>],
    sorts: &[SortId],
) -> Result<Option<Weight>, NoMemory>
    requires { All (λ sort. sort.0 < length entries.now) sorts.now }
    ensures { IfOk result (λ weight. (g : Sig) → AreFirstSoFar g entries.now → IsWeightOver g entries.now sorts.now weight) }
{
    let mut weight = Weight::one(alloc)?;
    for sort in sorts {
        let Some(first) = &entries[sort.0] else {
            return Ok(None);
        };
        weight = weight.plus(alloc, &first.weight)?;
    }
    Ok(Some(weight))
}
