//! Sorts and variables.

ghost use Rattle.std.specs.Prelude.{◌<◌, length, map, slice_get, IfSome, OnOk};
ghost use Rattle.std.specs.List.{All};
ghost use Rattle.data_theory.specs.Sorts.{SortInfo};
ghost use Rattle.data_theory.specs.IdSorts.{IsDeclaredKind};
ghost use Rattle.data_theory.specs.IdTerms.{sort_under};
ghost use Rattle.lps_core.specs.Fitting.{IsVariable};
ghost use Rattle.lps_printer.specs.Adding.{Adds};
ghost use Rattle.lps_printer.specs.SummandLayout.{print_sort, print_variable, print_variables};
ghost use Rattle.lps_printer.specs.WrittenProcesses.{sort_written, TextNames};
ghost use Rattle.lps_printer.specs.TextWordings.{sort_place, variable_by, NamesSorts, NamesVariables};
ghost use Rattle.sort_table.specs.BareSorts.{a_name};

use crate::tokens::push_token;
use data_theory::{NoMemory, Signature, SortId, SortKind, VarId};

/// The name of a declared sort, behind white space.
pub(crate) fn push_sort_name(
    sig: &Signature,
    sort: SortId,
    gap: &[u8],
    out: &mut Vec<u8>,
) -> Result<(), NoMemory>
    requires within { sort.0 < length sig.now.sorts }
    requires declared { IfSome (slice_get sig.now.sorts sort.0) (λ (i : SortInfo). IsDeclaredKind i.kind) }
    ensures { OnOk result ((n : TextNames) → NamesSorts sig.now n → Adds out.old.items out.new.items (λ rest. print_sort (a_name (n.sort (sort_place sig.now sort))) gap.now rest)) }
{
    let names = sig.names();
    push_token(out, gap, names.text(sig.sort_name(sort)).as_bytes())
}

/// A sort, behind white space: its word, its declared name, or `List(..)`.
pub(crate) fn push_sort(
    sig: &Signature,
    sort: SortId,
    gap: &[u8],
    out: &mut Vec<u8>,
) -> Result<(), NoMemory>
    requires { sort.0 < length sig.now.sorts }
    ensures { OnOk result ((n : TextNames) → NamesSorts sig.now n → Adds out.old.items out.new.items (λ rest. print_sort (sort_written n (sort_under sig.now sort)) gap.now rest)) }
{
    match sig.kind(sort) {
        SortKind::Bool => push_token(out, gap, b"Bool"),
        SortKind::Pos => push_token(out, gap, b"Pos"),
        SortKind::Nat => push_token(out, gap, b"Nat"),
        SortKind::Int => push_token(out, gap, b"Int"),
        SortKind::List(element) => {
            push_token(out, gap, b"List")?;
            push_token(out, b"", b"(")?;
            push_sort(sig, *element, b"", out)?;
            push_token(out, b"", b")")
        }
        SortKind::Abstract => push_sort_name(sig, sort, gap, out),
        SortKind::Cons(_) => push_sort_name(sig, sort, gap, out),
        SortKind::Struct(_) => push_sort_name(sig, sort, gap, out),
    }
}

/// `x: S`, behind white space.
fn push_variable(sig: &Signature, var: VarId, gap: &[u8], out: &mut Vec<u8>) -> Result<(), NoMemory>
    requires { IsVariable sig.now var }
    ensures { OnOk result ((n : TextNames) → NamesSorts sig.now n → NamesVariables sig.now n → Adds out.old.items out.new.items (λ rest. print_variable (variable_by sig.now n var) gap.now rest)) }
{
    let names = sig.names();
    push_token(out, gap, names.text(sig.var_name(var)).as_bytes())?;
    push_token(out, b"", b":")?;
    push_sort(sig, sig.var_sort(var), b" ", out)
}

/// Variables, each behind a comma.
fn push_further_variables(
    sig: &Signature,
    vars: &[VarId],
    out: &mut Vec<u8>,
) -> Result<(), NoMemory>
    requires { All (IsVariable sig.now) vars.now }
    ensures { OnOk result ((n : TextNames) → NamesSorts sig.now n → NamesVariables sig.now n → Adds out.old.items out.new.items (λ rest. print_variables (map (variable_by sig.now n) vars.now) rest)) }
{
    for var in vars {
        push_token(out, b"", b",")?;
        push_variable(sig, *var, b" ", out)?;
    }
    Ok(())
}

/// `x: S, y: T`, behind white space.
pub(crate) fn push_variables(
    sig: &Signature,
    first: VarId,
    others: &[VarId],
    gap: &[u8],
    out: &mut Vec<u8>,
) -> Result<(), NoMemory>
    requires first { IsVariable sig.now first }
    requires others { All (IsVariable sig.now) others.now }
    ensures { OnOk result ((n : TextNames) → NamesSorts sig.now n → NamesVariables sig.now n → Adds out.old.items out.new.items (λ rest. print_variable (variable_by sig.now n first) gap.now (print_variables (map (variable_by sig.now n) others.now) rest))) }
{
    push_variable(sig, first, gap, out)?;
    push_further_variables(sig, others, out)
}
