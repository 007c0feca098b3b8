//! The first values of a sort.

ghost use Rattle.std.specs.Prelude.{◌≡◌, ◌<◌, ◌↔◌, ◌&&◌, not, ℕ, length, get_or, IfOk, IsTrue};
ghost use Rattle.std.specs.List.{Contains};
ghost use Rattle.data_theory.specs.declared.ids.SortId.{SortId};
ghost use Rattle.data_theory.specs.Sorts.{IsBare};
ghost use Rattle.data_theory.specs.WholeSignatures.{IsSignature};
ghost use Rattle.term_pool.specs.Pools.{Extends};
ghost use Rattle.value_enum.specs.Values.{AreListed};
ghost use Rattle.value_enum.specs.Shapes.{AreShapes};
ghost use Rattle.value_enum.specs.Listing.{AreAllOrFirst, AreNoted};

use crate::exhausting::is_exhausted;
use crate::levels::{Levels, add_level, first_levels, values_of_weight};
use crate::listed::Values;
use crate::shapes::{Shapes, shapes_of, sorts_under};
use data_theory::{NoMemory, Signature, SortId, SortKind, TermId};
use indexmap::IndexSet;
use std::alloc::Global;
use term_pool::Pool;

/// The first constructor values of a sort, as many as the bound, or all where there are fewer.
///
/// Values are ordered by weight, then by the places of their constructors, then by their arguments from the left. A constructor weighs 1 more
/// than its arguments, Pos n weighs n, Nat n weighs n + 1, and Int goes 0, 1, -1, 2, -2 .. `whole` says that the sort has no
/// other values, and that neither it nor a sort to which its constructors lead is without constructors.
///
/// The values of each weight are made of lighter ones, and of no sort, weight or list of arguments are more than the bound and 1 made. After
/// `NoMemory` the pool may have got some of them.
pub fn values(
    alloc: Global,
    sig: &Signature,
    pool: &mut Pool,
    sort: SortId,
    bound: u64,
) -> Result<Values, NoMemory>
    requires { sort.0 < length sig.now.sorts }
    ensures listed { IfOk result (AreListed sig.now sort bound pool.new.trees) }
    ensures kept { Extends pool.old.trees pool.new.trees }
    ensures constants { pool.new.constants ≡ pool.old.constants }
{
    let sorts = sorts_under(alloc, sig, sort)?;
    let bare = has_bare(sig, &sorts);
    let shapes = shapes_of(alloc, sig, sorts)?;
    let (list, all) = first_values(alloc, sig, pool, &shapes, sort, bound as usize)?;
    let whole = is_whole(all, bare);
    Ok(Values { list, whole })
}

/// Whether values are whole: they are all, and the sort leads to none without constructors.
fn is_whole(all: bool, bare: bool) -> bool
    ensures { result ≡ (all && not bare) }
{
    all && !bare
}

/// Whether one of these sorts has no constructors.
fn has_bare(sig: &Signature, sorts: &IndexSet<SortId>) -> bool
    requires { (sort : SortId) → Contains sorts.now.keys sort → sort.0 < length sig.now.sorts }
    ensures { IsTrue result ↔ ((sort : SortId) × Contains sorts.now.keys sort × IsBare sig.now.sorts sort) }
{
    for number in 0..sorts.len() {
        let sort = sorts[number];
        if is_bare(sig, sort) {
            return true;
        }
    }
    false
}

/// Whether a sort has no constructors.
fn is_bare(sig: &Signature, sort: SortId) -> bool
    requires { sort.0 < length sig.now.sorts }
    ensures { IsTrue result ↔ IsBare sig.now.sorts sort }
{
    matches!(sig.kind(sort), SortKind::Abstract)
}

/// The first values of a sort, and whether they are all.
fn first_values(
    alloc: Global,
    sig: &Signature,
    pool: &mut Pool,
    shapes: &Shapes,
    sort: SortId,
    bound: usize,
) -> Result<(Vec<TermId>, bool), NoMemory>
    requires stands { IsSignature sig.now }
    requires shapes { AreShapes sig.now shapes.now }
    requires sort { Contains shapes.now.sorts.keys sort }
    ensures first { IfOk result (λ found. AreAllOrFirst sig.now sort bound pool.new.trees found.0.items found.1) }
    ensures kept { Extends pool.old.trees pool.new.trees }
    ensures constants { pool.new.constants ≡ pool.old.constants }
{
    let mut list = Vec::new(alloc);
    let mut heaviest = no_weights(alloc, shapes.constructors.len())?;
    let mut levels = first_levels(alloc, shapes)?;
    for lighter in 0..usize::MAX - 1 {
        let weight = lighter + 1;
        add_level(alloc, sig, pool, shapes, &mut levels, bound)?;
        let values = values_of_weight(levels.values.as_slice(), weight, sort);
        list.extend_from_slice(values)?;
        if list.len() > bound {
            list.truncate(bound);
            return Ok((list, false));
        }
        note_weights(&levels, &mut heaviest, weight);
        if is_exhausted(alloc, sig, shapes, heaviest.as_slice(), sort, weight)? {
            return Ok((list, true));
        }
    }
    Err(NoMemory)
}

/// No weight for each sort.
fn no_weights(alloc: Global, count: usize) -> Result<Vec<usize>, NoMemory>
    ensures count { IfOk result (λ weights. length weights.items ≡ count) }
    ensures none { IfOk result (λ weights. (k : ℕ) → get_or weights.items k 0 ≡ 0) }
{
    let mut weights = Vec::new(alloc);
    for _ in 0..count {
        weights.push(0)?;
    }
    Ok(weights)
}

/// Enters a weight for each sort that has a value of it.
fn note_weights(levels: &Levels, heaviest: &mut Vec<usize>, weight: usize)
    ensures { AreNoted levels.now.values.items weight heaviest.old.items heaviest.new.items }
{
    for number in 0..heaviest.len() {
        let values = values_of_weight(levels.values.as_slice(), weight, SortId(number));
        if values.is_empty() {
            continue;
        }
        heaviest[number] = weight;
    }
}
