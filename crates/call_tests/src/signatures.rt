//! A `struct` that is added to a signature whole, or not at all.
//!
//! The test gives the names of its signature up at its end: to prove that a whole signature is dropped takes half a minute.
ghost use Rattle.std.specs.Prelude.{◌<◌, ℕ, length, IsTrue};
ghost use Rattle.data_theory.specs.Keys.{key};
ghost use Rattle.data_theory.specs.Functions.{HasKey};

use data_theory::{ConDecl, FunId, NameId, Names, NoMemory, Signature, SortId, SortKind};
use std::alloc::Global;
use std::process::Abort;
use std::test::Fail;

/// The name of a text that is there.
fn name_of(rt: &impl Abort, signature: &Signature, text: &str) -> NameId
    ensures { result.0 < length signature.now.texts }
{
    let Some(name) = signature.names().find(text) else {
        panic!(rt; "the text isn't there");
    };
    name
}

/// Whether no function has a name and sorts.
fn is_absent(signature: &Signature, name: NameId, sorts: &[SortId]) -> bool
    requires { name.0 < length signature.now.texts }
    ensures { IsTrue result → (k : ℕ) → HasKey signature.now.functions (key name sorts.now) k → ⊥ }
{
    match signature.fun(signature.names().text(name), sorts) {
        Some(_) => false,
        None => true,
    }
}

/// Whether the function with a name and sorts has argument sorts and a result sort, and tells its name.
fn is_function(
    signature: &Signature,
    name: &str,
    sorts: &[SortId],
    arguments: &[SortId],
    to: SortId,
) -> bool {
    let Some(fun) = signature.fun(name, sorts) else {
        return false;
    };
    signature.args_of(fun) == arguments
        && signature.sort_of(fun) == to
        && signature.fun_name(fun) == name
}

/// Adds `sort D = struct d | c(D)`.
fn add_recursive(
    rt: &impl Abort,
    alloc: Global,
    signature: &mut Signature,
) -> Result<SortId, NoMemory> {
    let name = name_of(rt, signature, "D");
    let d = name_of(rt, signature, "d");
    let c = name_of(rt, signature, "c");
    let sort = signature.next_sort();
    assert!(rt; is_absent(signature, d, &[]));
    assert!(rt; is_absent(signature, c, &[sort]));
    let None = signature.sort(name) else {
        panic!(rt; "a sort has this name");
    };
    let fields = Vec::from_array(alloc, [(None, sort)])?;
    let first = ConDecl {
        name: d,
        fields: Vec::new(alloc),
        test: None,
    };
    let second = ConDecl {
        name: c,
        fields,
        test: None,
    };
    signature.add_struct(name, Vec::from_array(alloc, [first, second])?)
}

/// Nothing of that `struct` is in a signature of built-in functions.
fn nothing_is_added(rt: &impl Abort, signature: &Signature) {
    let name = name_of(rt, signature, "D");
    assert_eq!(rt; signature.next_sort(), SortId(4));
    assert_eq!(rt; signature.funs().len(), 0);
    assert_eq!(rt; signature.sort(name), None);
    assert_eq!(rt; signature.fun("==", &[SortId(4), SortId(4)]), None);
    assert_eq!(rt; signature.fun("d", &[]), None);
    for text in ["D", "d", "c"] {
        assert!(rt; !signature.is_taken(text));
    }
}

/// That `struct` is the fifth sort, and its constructors come behind the functions over it.
fn recursive_stands(rt: &impl Abort, signature: &Signature, sort: SortId) {
    let name = name_of(rt, signature, "D");
    assert_eq!(rt; sort, SortId(4));
    assert_eq!(rt; signature.next_sort(), SortId(5));
    assert_eq!(rt; signature.sort(name), Some(sort));
    assert!(rt; sort.0 < signature.next_sort().0);
    let SortKind::Struct(constructors) = signature.kind(sort) else {
        panic!(rt; "no struct");
    };
    assert_eq!(rt; constructors.as_slice(), [FunId(73), FunId(74)].as_slice());
    assert_eq!(rt; signature.funs(), [FunId(73), FunId(74)].as_slice());
    assert_eq!(rt; signature.fun("==", &[sort, sort]), Some(FunId(70)));
    assert_eq!(rt; signature.fun("d", &[]), Some(FunId(73)));
    assert_eq!(rt; signature.fun("c", &[sort]), Some(FunId(74)));
    assert!(rt; is_function(signature, "d", &[], &[], sort));
    assert!(rt; is_function(signature, "c", &[sort], &[sort], sort));
    for text in ["D", "d", "c"] {
        assert!(rt; signature.is_taken(text));
    }
}

/// A `struct` with its own sort in a field is added whole, or not at all where no memory is left.
fn recursive_is_added(
    rt: &impl Abort,
    alloc: Global,
    signature: &mut Signature,
) -> Result<(), Fail> {
    nothing_is_added(rt, signature);
    let added = add_recursive(rt, alloc, signature);
    if added.is_err() {
        nothing_is_added(rt, signature);
    }
    recursive_stands(rt, signature, added?);
    Ok(())
}

#[test]
fn a_recursive_struct_is_added(rt: HostRuntime) -> Result<(), Fail> {
    let mut texts = Names::new(rt.alloc());
    for text in ["D", "d", "c"] {
        texts.enter(text)?;
    }
    let mut signature = Signature::new(rt.alloc(), texts)?;
    let outcome = recursive_is_added(&rt, rt.alloc(), &mut signature);
    let _names = signature.into_names();
    outcome
}
