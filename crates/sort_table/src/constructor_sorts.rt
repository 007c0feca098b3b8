//! The constructors that `cons` declares, as those of their sorts.

ghost use Rattle.std.specs.Prelude.{◌≡◌, ◌<◌, ◌+◌, ◌++◌, ◌∷◌, [], ℕ, List, length, Some, IfOk, IfSome, OnOk, slice_get};
ghost use Rattle.std.specs.List.{All};
ghost use Rattle.graphs.specs.Graphs.{successors};
ghost use Rattle.data_theory.specs.declared.ids.SortId.{SortId};
ghost use Rattle.data_theory.specs.declared.ids.FunId.{FunId};
ghost use Rattle.data_theory.specs.Places.{HaveOnePlace};
ghost use Rattle.data_theory.specs.IdRoles.{HasNoRole};
ghost use Rattle.sort_table.specs.Vocabularies.{EachPair};
ghost use Rattle.sort_table.specs.ConstructorMarks.{is_bare_kind, IsConsAt, ArePlaces, IsPlainAt, GivesOne, GivesConstructors};

use crate::sort_cycles::no_edges;
use data_theory::{FunId, NoMemory, Signature, SortId, SortKind};
use std::alloc::Global;

/// Gives each sort that has no constructors those that `cons` declares into it, by marks of the declared functions.
///
/// # Errors
///
/// `NoMemory` where there is none for the lists.
pub(crate) fn give_constructors(
    alloc: Global,
    signature: &mut Signature,
    marks: &[bool],
) -> Result<(), NoMemory>
    requires marks { length marks.now ≡ length signature.old.declared }
    requires free { (s : SortId) (p : ℕ) (i : FunId) → IsConsAt signature.old marks.now s p i → HasNoRole signature.old i }
    ensures { OnOk result (GivesConstructors marks.now signature.old signature.new) }
{
    let places = constructor_places(alloc, signature, marks)?;
    for number in 0..signature.next_sort().0 {
        give_one(alloc, signature, SortId(number), places[number].as_slice())?;
    }
    Ok(())
}

/// For each sort the places of the marked functions into it among the declared ones.
fn constructor_places(
    alloc: Global,
    signature: &Signature,
    marks: &[bool],
) -> Result<Vec<Vec<usize>>, NoMemory>
    requires { length marks.now ≡ length signature.now.declared }
    ensures { IfOk result (λ places. ArePlaces signature.now marks.now (length marks.now) places.items) }
{
    let mut places = no_edges(alloc, signature.next_sort().0)?;
    for place in 0..marks.len() {
        put_function(&mut places, signature, marks, place)?;
    }
    Ok(places)
}

/// Puts the place of the next declared function into the row of its sort, where it is marked.
fn put_function(
    places: &mut Vec<Vec<usize>>,
    signature: &Signature,
    marks: &[bool],
    place: usize,
) -> Result<(), NoMemory>
    requires within { place < length marks.now }
    requires marks { length marks.now ≡ length signature.now.declared }
    requires so_far { ArePlaces signature.now marks.now place places.old.items }
    ensures { OnOk result (ArePlaces signature.now marks.now (place + 1) places.new.items) }
{
    let _ = signature.names();
    if !marks[place] {
        return Ok(());
    }
    let fun = signature.funs()[place];
    let sort = signature.sort_of(fun);
    put_place(places, sort.0, place)
}

/// Puts a place behind the others in a row.
fn put_place(places: &mut Vec<Vec<usize>>, row: usize, place: usize) -> Result<(), NoMemory>
    requires { row < length places.old.items }
    ensures size { OnOk result (length places.new.items ≡ length places.old.items) }
    ensures here { OnOk result (successors places.new.items row ≡ successors places.old.items row ++ place ∷ []) }
    ensures others { OnOk result ((r : ℕ) → ¬ (r ≡ row) → successors places.new.items r ≡ successors places.old.items r) }
{
    places[row].push(place)?;
    Ok(())
}

/// Gives a sort without constructors the functions at these places.
fn give_one(
    alloc: Global,
    signature: &mut Signature,
    sort: SortId,
    places: &[usize],
) -> Result<(), NoMemory>
    requires within { sort.0 < length signature.old.sorts }
    requires places { All (IsPlainAt signature.old sort) places.now }
    requires different { HaveOnePlace places.now }
    ensures { OnOk result (GivesOne sort places.now signature.old signature.new) }
{
    let _ = signature.names();
    if places.is_empty() {
        return Ok(());
    }
    if !is_bare(signature, sort) {
        return Ok(());
    }
    let cons = functions_at(alloc, signature.funs(), places)?;
    signature.set_cons(sort, cons);
    Ok(())
}

/// Whether a sort is declared and has no constructors.
fn is_bare(signature: &Signature, sort: SortId) -> bool
    requires { sort.0 < length signature.now.sorts }
    ensures { IfSome (slice_get signature.now.sorts sort.0) (λ s. result ≡ is_bare_kind s.kind) }
{
    match signature.kind(sort) {
        SortKind::Abstract => true,
        SortKind::Bool => false,
        SortKind::Pos => false,
        SortKind::Nat => false,
        SortKind::Int => false,
        SortKind::List(_) => false,
        SortKind::Cons(_) => false,
        SortKind::Struct(_) => false,
    }
}

/// The functions at these places.
fn functions_at(alloc: Global, funs: &[FunId], places: &[usize]) -> Result<Vec<FunId>, NoMemory>
    requires { All (λ place. place < length funs.now) places.now }
    ensures { IfOk result (λ found. EachPair (λ place fun. slice_get funs.now place ≡ Some fun) places.now found.items) }
{
    let mut found = Vec::new(alloc);
    for place in places {
        found.push(funs[*place])?;
    }
    Ok(found)
}
