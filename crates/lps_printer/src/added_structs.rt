//! The structs that are added, and the constants.

ghost use Rattle.std.specs.Prelude.{◌≡◌, ◌<◌, ◌++◌, ◌∷◌, [], cond, length, map, nat_eq, slice_get, IfOk, IfSome, OnOk};
ghost use Rattle.std.specs.List.{flat_map, list_any, All};
ghost use Rattle.data_theory.specs.Sorts.{SortInfo};
ghost use Rattle.data_theory.specs.IdSorts.{IsDeclaredKind};
ghost use Rattle.data_theory.specs.declared.ids.FunId.{FunId};
ghost use Rattle.lps_printer.specs.Adding.{Adds};
ghost use Rattle.lps_printer.specs.AddedDeclarations.{constants_among, constructor_with, constructors_in, is_constant, kind_at, print_further_constructors, print_struct, struct_begun, struct_sections};
ghost use Rattle.lps_printer.specs.AddingSections.{AddsSections};
ghost use Rattle.lps_printer.specs.TextWordings.{sort_place, NamesSorts};
ghost use Rattle.lps_printer.specs.WrittenProcesses.{TextNames};

use crate::added_sections::push_constructor;
use crate::sorts::push_sort_name;
use crate::tokens::push_token;
use data_theory::{FunId, NoMemory, Signature, SortId, SortKind};
use std::alloc::Global;

/// Further constructors, each behind a bar.
fn push_further_constructors(
    sig: &Signature,
    constructors: &[FunId],
    out: &mut Vec<u8>,
) -> Result<(), NoMemory>
    requires { All (λ (f : FunId). f.0 < length sig.now.functions) constructors.now }
    ensures { OnOk result ((n : TextNames) → NamesSorts sig.now n → Adds out.old.items out.new.items (λ rest. print_further_constructors (map (constructor_with sig.now n) constructors.now) rest)) }
{
    for cons in constructors {
        push_token(out, b" ", b"|")?;
        push_constructor(sig, *cons, out)?;
    }
    Ok(())
}

/// `S = struct c | d`, behind a space.
fn push_struct(
    sig: &Signature,
    sort: SortId,
    constructors: &[FunId],
    out: &mut Vec<u8>,
) -> Result<(), NoMemory>
    requires within { sort.0 < length sig.now.sorts }
    requires declared { IfSome (slice_get sig.now.sorts sort.0) (λ (i : SortInfo). IsDeclaredKind i.kind) }
    requires some { 0 < length constructors.now }
    requires constructors { All (λ (f : FunId). f.0 < length sig.now.functions) constructors.now }
    ensures { OnOk result ((n : TextNames) → NamesSorts sig.now n → Adds out.old.items out.new.items (λ rest. print_struct (n.sort (sort_place sig.now sort)) (map (constructor_with sig.now n) constructors.now) rest)) }
{
    push_sort_name(sig, sort, b" ", out)?;
    push_token(out, b" ", b"=")?;
    push_token(out, b" ", b"struct")?;
    push_constructor(sig, constructors[0], out)?;
    push_further_constructors(sig, &constructors[1..], out)
}

/// The constructors of the struct of which a function is the first one.
fn struct_begun(sig: &Signature, fun: FunId) -> &[FunId]
    requires { fun.0 < length sig.now.functions }
    ensures { result.now ≡ struct_begun sig.now fun }
{
    let _ = sig.names();
    let SortKind::Struct(constructors) = sig.kind(sig.sort_of(fun)) else {
        return &[];
    };
    if constructors.is_empty() {
        return &[];
    }
    if constructors[0].0 != fun.0 {
        return &[];
    }
    constructors.as_slice()
}

/// The section of the struct of which a function is the first constructor, if it is one, and the white space in front of what
/// comes behind it.
fn push_struct_section(
    sig: &Signature,
    fun: FunId,
    gap: &'static [u8],
    out: &mut Vec<u8>,
) -> Result<&'static [u8], NoMemory>
    requires { fun.0 < length sig.now.functions }
    ensures { IfOk result (λ next. (n : TextNames) → NamesSorts sig.now n → AddsSections out.old.items out.new.items gap.now next.now (struct_sections sig.now n fun)) }
{
    let _ = sig.names();
    let constructors = struct_begun(sig, fun);
    if constructors.is_empty() {
        return Ok(gap);
    }
    push_token(out, gap, b"sort")?;
    push_struct(sig, sig.sort_of(fun), constructors, out)?;
    push_token(out, b"", b";")?;
    Ok(b"\n")
}

/// The sections of the structs whose first constructors are among these functions, and the white space in front of what comes
/// behind them.
pub(crate) fn push_structs(
    sig: &Signature,
    added: &[FunId],
    gap: &'static [u8],
    out: &mut Vec<u8>,
) -> Result<&'static [u8], NoMemory>
    requires { All (λ (f : FunId). f.0 < length sig.now.functions) added.now }
    ensures { IfOk result (λ next. (n : TextNames) → NamesSorts sig.now n → AddsSections out.old.items out.new.items gap.now next.now (flat_map (struct_sections sig.now n) added.now)) }
{
    let mut next = gap;
    for fun in added {
        next = push_struct_section(sig, *fun, next, out)?;
    }
    Ok(next)
}

/// The constructors of a struct; another sort has none.
fn struct_constructors(sig: &Signature, sort: SortId) -> &[FunId]
    requires { sort.0 < length sig.now.sorts }
    ensures { result.now ≡ constructors_in (kind_at sig.now sort) }
{
    match sig.kind(sort) {
        SortKind::Struct(constructors) => constructors.as_slice(),
        _ => &[],
    }
}

/// Whether a function is one of these.
fn is_among(funs: &[FunId], fun: FunId) -> bool
    ensures { result ≡ list_any (λ (c : FunId). nat_eq c.0 fun.0) funs.now }
{
    funs.iter().any(|other| other.0 == fun.0)
}

/// Whether a function takes nothing and is no constructor of a struct.
fn is_constant(sig: &Signature, fun: FunId) -> bool
    requires { fun.0 < length sig.now.functions }
    ensures { result ≡ is_constant sig.now fun }
{
    let _ = sig.names();
    if !sig.args_of(fun).is_empty() {
        return false;
    }
    !is_among(struct_constructors(sig, sig.sort_of(fun)), fun)
}

/// Puts a function last, if it is a constant.
fn keep_constant(sig: &Signature, fun: FunId, list: &mut Vec<FunId>) -> Result<(), NoMemory>
    requires { fun.0 < length sig.now.functions }
    ensures { OnOk result (list.new.items ≡ list.old.items ++ cond (is_constant sig.now fun) (fun ∷ []) []) }
{
    if !is_constant(sig, fun) {
        return Ok(());
    }
    list.push(fun)?;
    Ok(())
}

/// The constants among these functions, in their order.
pub(crate) fn constants(
    alloc: Global,
    sig: &Signature,
    added: &[FunId],
) -> Result<Vec<FunId>, NoMemory>
    requires { All (λ (f : FunId). f.0 < length sig.now.functions) added.now }
    ensures { IfOk result (λ list. list.items ≡ constants_among sig.now added.now) }
{
    let mut list = Vec::new(alloc);
    for fun in added {
        keep_constant(sig, *fun, &mut list)?;
    }
    Ok(list)
}
