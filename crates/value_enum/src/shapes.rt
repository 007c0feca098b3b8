//! What the values of sorts are built of.

ghost use Rattle.std.specs.Prelude.{◌≡◌, ◌<◌, ◌++◌, ◌∷◌, [], length, map, IfOk, OnOk, Some, None};
ghost use Rattle.std.specs.List.{All, Contains};
ghost use Rattle.data_theory.specs.declared.ids.SortId.{SortId};
ghost use Rattle.data_theory.specs.WholeSignatures.{IsSignature};
ghost use Rattle.value_enum.specs.Shapes.{list_at, AddsArguments, AddsShape, AddsSorts, AreClosed, AreShapes, AreUnder};

use crate::constructors::constructors_of;
use data_theory::{FunId, NoMemory, Signature, SortId};
use indexmap::IndexSet;
use std::alloc::Global;

/// A constructor, and the place of its first argument's sort among those of all constructors.
#[derive(Clone, Copy, Debug)]
pub struct Constructor {
    pub fun: FunId,
    pub first: usize,
}

/// What the values of a sort are built of.
#[derive(Drop)]
pub struct Shapes {
    /// The sort, and those to which its constructors lead.
    pub sorts: IndexSet<SortId>,
    /// The constructors of each sort, in the order of the sorts' numbers. Only the sorts in hand have theirs.
    pub constructors: Vec<Vec<Constructor>>,
    /// The sorts of the arguments of one constructor after the other. `None` stands behind the last argument of each.
    pub arguments: Vec<Option<SortId>>,
}

/// The constructors of a sort.
pub fn constructors_at(shapes: &Shapes, sort: usize) -> &[Constructor]
    ensures { result.now ≡ list_at shapes.now.constructors.items sort }
{
    let Some(constructors) = shapes.constructors.get(sort) else {
        return &[];
    };
    constructors.as_slice()
}

/// A sort, and the sorts to which constructors lead from it.
pub fn sorts_under(
    alloc: Global,
    sig: &Signature,
    top: SortId,
) -> Result<IndexSet<SortId>, NoMemory>
    requires { top.0 < length sig.now.sorts }
    ensures { IfOk result (λ sorts. AreUnder sig.now top sorts.keys) }
{
    let mut sorts = IndexSet::new(alloc);
    sorts.insert(top)?;
    let mut next = 0;
    while next < sorts.len() {
        let sort = sorts[next];
        let funs = constructors_of(alloc, sig, sort)?;
        insert_arguments(sig, funs.as_slice(), &mut sorts)?;
        next += 1;
    }
    Ok(sorts)
}

/// Adds the sorts of the arguments of functions to a set.
fn insert_arguments(
    sig: &Signature,
    funs: &[FunId],
    sorts: &mut IndexSet<SortId>,
) -> Result<(), NoMemory>
    requires { All (λ fun. fun.0 < length sig.now.functions) funs.now }
    ensures { OnOk result (AddsArguments sig.now funs.now sorts.old.keys sorts.new.keys) }
{
    for fun in funs {
        let arguments = sig.args_of(*fun);
        insert_all(sorts, arguments)?;
    }
    Ok(())
}

/// Adds sorts to a set.
fn insert_all(sorts: &mut IndexSet<SortId>, added: &[SortId]) -> Result<(), NoMemory>
    ensures { OnOk result (AddsSorts added.now sorts.old.keys sorts.new.keys) }
{
    for sort in added {
        sorts.insert(*sort)?;
    }
    Ok(())
}

/// The shapes of the values of these sorts.
pub fn shapes_of(
    alloc: Global,
    sig: &Signature,
    sorts: IndexSet<SortId>,
) -> Result<Shapes, NoMemory>
    requires closed { AreClosed sig.now sorts.keys }
    requires within { (sort : SortId) → Contains sorts.keys sort → sort.0 < length sig.now.sorts }
    ensures stands { IsSignature sig.now }
    ensures shapes { IfOk result (λ shapes. AreShapes sig.now shapes) }
    ensures sorts { IfOk result (λ shapes. shapes.sorts.keys ≡ sorts.keys) }
{
    let mut constructors = Vec::new(alloc);
    let mut arguments = Vec::new(alloc);
    for number in 0..sig.next_sort().0 {
        let sort = SortId(number);
        if !sorts.contains(&sort) {
            constructors.push(Vec::new(alloc))?;
            continue;
        }
        let shape = sort_shape(alloc, sig, sort, &mut arguments)?;
        constructors.push(shape)?;
    }
    Ok(Shapes {
        sorts,
        constructors,
        arguments,
    })
}

/// The constructors of a sort, the sorts of whose arguments come behind those that are there.
fn sort_shape(
    alloc: Global,
    sig: &Signature,
    sort: SortId,
    arguments: &mut Vec<Option<SortId>>,
) -> Result<Vec<Constructor>, NoMemory>
    requires { sort.0 < length sig.now.sorts }
    ensures { IfOk result (λ constructors. AddsShape sig.now sort arguments.old.items arguments.new.items constructors.items) }
{
    let funs = constructors_of(alloc, sig, sort)?;
    let mut constructors = Vec::new(alloc);
    for fun in &funs {
        let first = arguments.len();
        let sorts = sig.args_of(*fun);
        push_arguments(arguments, sorts)?;
        constructors.push(Constructor { fun: *fun, first })?;
    }
    Ok(constructors)
}

/// Puts these sorts behind the others, and an end behind them.
fn push_arguments(arguments: &mut Vec<Option<SortId>>, sorts: &[SortId]) -> Result<(), NoMemory>
    ensures { OnOk result (arguments.new.items ≡ arguments.old.items ++ (map Some sorts.now ++ None ∷ [])) }
{
    for sort in sorts {
        arguments.push(Some(*sort))?;
    }
    arguments.push(None)?;
    Ok(())
}
