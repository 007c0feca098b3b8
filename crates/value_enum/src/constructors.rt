//! The constructors of a sort.

ghost use Rattle.std.specs.Prelude.{◌≡◌, ◌<◌, ◌↔◌, ℕ, length, map, IfOk, Some, slice_get};
ghost use Rattle.data_theory.specs.declared.ids.FunId.{FunId};
ghost use Rattle.data_theory.specs.WholeSignatures.{IsSignature};
ghost use Rattle.term_pool.specs.ConstructorValues.{IsConstructorAt};
ghost use Rattle.value_enum.specs.Shapes.{AreConstructors};

use data_theory::{FunId, NoMemory, Signature, SortId, SortKind};
use std::alloc::Global;

/// The constructors of a sort, each once, in the order of their first places.
pub fn constructors_of(alloc: Global, sig: &Signature, sort: SortId) -> Result<Vec<FunId>, NoMemory>
    requires { sort.0 < length sig.now.sorts }
    ensures stands { IsSignature sig.now }
    ensures constructors { IfOk result (λ funs. AreConstructors sig.now sort funs.items) }
{
    let places = constructor_places(alloc, sig, sort)?;
    let mut funs = Vec::new(alloc);
    for place in &places {
        let Some(fun) = *place else { continue };
        if funs.contains(&fun) {
            continue;
        }
        funs.push(fun)?;
    }
    Ok(funs)
}

/// The constructors of a sort, by their places.
fn constructor_places(
    alloc: Global,
    sig: &Signature,
    sort: SortId,
) -> Result<Vec<Option<FunId>>, NoMemory>
    requires { sort.0 < length sig.now.sorts }
    ensures stands { IsSignature sig.now }
    ensures places { IfOk result (λ places. (k : ℕ) (f : FunId) → (slice_get places.items k ≡ Some (Some f)) ↔ IsConstructorAt sig.now sort k f) }
{
    match sig.kind(sort) {
        SortKind::Bool => {
            let (first, second) = (sig.fun("true", &[]), sig.fun("false", &[]));
            Ok(Vec::from_array(alloc, [first, second])?)
        }
        SortKind::List(element) => {
            let (first, second) = (sig.fun("[]", &[sort]), sig.fun("|>", &[*element, sort]));
            Ok(Vec::from_array(alloc, [first, second])?)
        }
        SortKind::Cons(funs) => all_places(alloc, funs.as_slice()),
        SortKind::Struct(funs) => all_places(alloc, funs.as_slice()),
        _ => Ok(Vec::new(alloc)),
    }
}

/// A place for each of these constructors.
fn all_places(alloc: Global, funs: &[FunId]) -> Result<Vec<Option<FunId>>, NoMemory>
    ensures { IfOk result (λ places. places.items ≡ map Some funs.now) }
{
    Ok(funs.iter().map(|fun| Some(*fun)).collect(alloc)?)
}
