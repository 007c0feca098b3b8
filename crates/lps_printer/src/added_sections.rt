//! The added sections.

ghost use Rattle.std.specs.Prelude.{◌≡◌, ◌<◌, ◌∷◌, ◌++◌, [], codes, drop, get_or, length, map, None, IfOk, IfSome, OnOk};
ghost use Rattle.std.specs.List.{All};
ghost use Rattle.data_theory.specs.declared.ids.FunId.{FunId};
ghost use Rattle.data_theory.specs.declared.ids.SortId.{SortId};
ghost use Rattle.mcrl2_lexer.specs.declared.kind.Kind.{Kind};
ghost use Rattle.mcrl2_lexer.specs.declared.kind.Kind.TheVariants.{Semicolon};
ghost use Rattle.lps_printer.specs.Adding.{Adds};
ghost use Rattle.lps_printer.specs.AddedDeclarations.{constant_with, constructor_with, field_with, fields_with, line_sections, line_word, lines_with, name_at, print_constructor, print_equation, print_field, print_fields, print_further_fields, print_line, print_recogniser, some_name};
ghost use Rattle.lps_printer.specs.AddingSections.{AddsSections};
ghost use Rattle.lps_printer.specs.DataLayout.{piece, space};
ghost use Rattle.lps_printer.specs.SummandLayout.{print_variable};
ghost use Rattle.lps_printer.specs.TextSections.{print_declarations, section_text};
ghost use Rattle.lps_printer.specs.TextWordings.{NamesSorts};
ghost use Rattle.lps_printer.specs.WrittenProcesses.{TextNames};

use crate::sorts::push_sort;
use crate::tokens::push_token;
use data_theory::{FunId, NoMemory, Signature, SortId};

/// What is said of a constant.
#[derive(Clone, Copy, Debug)]
pub(crate) enum Line {
    /// Its sort.
    Constant,
    /// That it is the empty list.
    EmptyList,
}

impl Line {
    /// The word of the section of such lines.
    fn word(self) -> &'static [u8]
        ensures { result.now ≡ section_text (line_word self) }
    {
        match self {
            Line::Constant => b"map",
            Line::EmptyList => b"eqn",
        }
    }
}

/// The name of a function, behind white space.
fn push_name(sig: &Signature, fun: FunId, gap: &[u8], out: &mut Vec<u8>) -> Result<(), NoMemory>
    requires { fun.0 < length sig.now.functions }
    ensures { OnOk result ((kind : Kind) → Adds out.old.items out.new.items (λ rest. piece gap.now kind (name_at sig.now fun) ∷ rest)) }
{
    push_token(out, gap, sig.fun_name(fun).as_bytes())
}

/// `n: S`, behind white space.
fn push_constant(sig: &Signature, fun: FunId, gap: &[u8], out: &mut Vec<u8>) -> Result<(), NoMemory>
    requires { fun.0 < length sig.now.functions }
    ensures { OnOk result ((n : TextNames) → NamesSorts sig.now n → Adds out.old.items out.new.items (λ rest. print_variable (constant_with sig.now n fun) gap.now rest)) }
{
    let _ = sig.names();
    push_name(sig, fun, gap, out)?;
    push_token(out, b"", b":")?;
    push_sort(sig, sig.sort_of(fun), b" ", out)
}

/// `n = []`, behind white space.
fn push_equation(sig: &Signature, fun: FunId, gap: &[u8], out: &mut Vec<u8>) -> Result<(), NoMemory>
    requires { fun.0 < length sig.now.functions }
    ensures { OnOk result (Adds out.old.items out.new.items (λ rest. print_equation (name_at sig.now fun) gap.now rest)) }
{
    push_name(sig, fun, gap, out)?;
    push_token(out, b" ", b"=")?;
    push_token(out, b" ", b"[")?;
    push_token(out, b"", b"]")
}

/// What is said of a constant, behind white space.
fn push_said(
    sig: &Signature,
    line: Line,
    fun: FunId,
    gap: &[u8],
    out: &mut Vec<u8>,
) -> Result<(), NoMemory>
    requires { fun.0 < length sig.now.functions }
    ensures { OnOk result ((n : TextNames) → NamesSorts sig.now n → Adds out.old.items out.new.items (λ rest. print_line sig.now n line fun gap.now rest)) }
{
    match line {
        Line::Constant => push_constant(sig, fun, gap, out),
        Line::EmptyList => push_equation(sig, fun, gap, out),
    }
}

/// What is said of a constant, and a semicolon.
fn push_line(
    sig: &Signature,
    line: Line,
    fun: FunId,
    gap: &[u8],
    out: &mut Vec<u8>,
) -> Result<(), NoMemory>
    requires { fun.0 < length sig.now.functions }
    ensures { OnOk result ((n : TextNames) → NamesSorts sig.now n → Adds out.old.items out.new.items (λ rest. print_line sig.now n line fun gap.now [] ++ piece [] Semicolon (codes ";") ∷ rest)) }
{
    push_said(sig, line, fun, gap, out)?;
    push_token(out, b"", b";")
}

/// Lines, the first one on the line of the section's word, each further one on a line of its own.
fn push_lines(
    sig: &Signature,
    line: Line,
    funs: &[FunId],
    out: &mut Vec<u8>,
) -> Result<(), NoMemory>
    requires { All (λ (f : FunId). f.0 < length sig.now.functions) funs.now }
    ensures { OnOk result ((n : TextNames) → NamesSorts sig.now n → Adds out.old.items out.new.items (λ rest. print_declarations (lines_with (print_line sig.now n line) space funs.now) rest)) }
{
    let mut gap: &'static [u8] = b" ";
    for fun in funs {
        push_line(sig, line, *fun, gap, out)?;
        gap = b"\n  ";
    }
    Ok(())
}

/// A section of such lines, where there are any, and the white space in front of what comes behind it.
pub(crate) fn push_line_section(
    sig: &Signature,
    line: Line,
    funs: &[FunId],
    gap: &'static [u8],
    out: &mut Vec<u8>,
) -> Result<&'static [u8], NoMemory>
    requires { All (λ (f : FunId). f.0 < length sig.now.functions) funs.now }
    ensures { IfOk result (λ next. (n : TextNames) → NamesSorts sig.now n → AddsSections out.old.items out.new.items gap.now next.now (line_sections sig.now n line funs.now)) }
{
    if funs.is_empty() {
        return Ok(gap);
    }
    push_token(out, gap, line.word())?;
    push_lines(sig, line, funs, out)?;
    Ok(b"\n")
}

/// A field of a constructor: `p: S`, or `S` where it has no projection.
fn push_field(
    sig: &Signature,
    projection: Option<FunId>,
    sort: SortId,
    gap: &[u8],
    out: &mut Vec<u8>,
) -> Result<(), NoMemory>
    requires projection { IfSome projection (λ (f : FunId). f.0 < length sig.now.functions) }
    requires sort { sort.0 < length sig.now.sorts }
    ensures { OnOk result ((n : TextNames) → NamesSorts sig.now n → Adds out.old.items out.new.items (λ rest. print_field (field_with sig.now n projection sort) gap.now rest)) }
{
    match projection {
        None => push_sort(sig, sort, gap, out),
        Some(fun) => {
            push_name(sig, fun, gap, out)?;
            push_token(out, b"", b":")?;
            push_sort(sig, sort, b" ", out)
        }
    }
}

/// The projection of a field.
fn projection_at(projections: &[Option<FunId>], place: usize) -> Option<FunId>
    ensures { result ≡ get_or projections.now place None }
{
    match projections.get(place) {
        Some(projection) => *projection,
        None => None,
    }
}

/// The fields behind the first one, each behind a comma.
fn push_further_fields(
    sig: &Signature,
    projections: &[Option<FunId>],
    sorts: &[SortId],
    out: &mut Vec<u8>,
) -> Result<(), NoMemory>
    requires projections { All (λ p. IfSome p (λ (f : FunId). f.0 < length sig.now.functions)) projections.now }
    requires sorts { All (λ (s : SortId). s.0 < length sig.now.sorts) sorts.now }
    ensures { OnOk result ((n : TextNames) → NamesSorts sig.now n → Adds out.old.items out.new.items (λ rest. print_further_fields (fields_with sig.now n (drop 1 projections.now) (drop 1 sorts.now)) rest)) }
{
    for place in 1..sorts.len() {
        push_token(out, b"", b",")?;
        push_field(
            sig,
            projection_at(projections, place),
            sorts[place],
            b" ",
            out,
        )?;
    }
    Ok(())
}

/// The fields of a constructor in brackets, where there are any.
fn push_fields(
    sig: &Signature,
    projections: &[Option<FunId>],
    sorts: &[SortId],
    out: &mut Vec<u8>,
) -> Result<(), NoMemory>
    requires projections { All (λ p. IfSome p (λ (f : FunId). f.0 < length sig.now.functions)) projections.now }
    requires sorts { All (λ (s : SortId). s.0 < length sig.now.sorts) sorts.now }
    ensures { OnOk result ((n : TextNames) → NamesSorts sig.now n → Adds out.old.items out.new.items (λ rest. print_fields (fields_with sig.now n projections.now sorts.now) rest)) }
{
    if sorts.is_empty() {
        return Ok(());
    }
    push_token(out, b"", b"(")?;
    push_field(sig, projection_at(projections, 0), sorts[0], b"", out)?;
    push_further_fields(sig, projections, sorts, out)?;
    push_token(out, b"", b")")
}

/// `?r`, or nothing where there is no recogniser.
fn push_recogniser(sig: &Signature, test: Option<FunId>, out: &mut Vec<u8>) -> Result<(), NoMemory>
    requires { IfSome test (λ (f : FunId). f.0 < length sig.now.functions) }
    ensures { OnOk result (Adds out.old.items out.new.items (λ rest. print_recogniser (some_name sig.now test) rest)) }
{
    match test {
        Some(fun) => {
            push_token(out, b"", b"?")?;
            push_name(sig, fun, b"", out)
        }
        None => Ok(()),
    }
}

/// `c(p: S)?r`, behind a space.
pub(crate) fn push_constructor(
    sig: &Signature,
    cons: FunId,
    out: &mut Vec<u8>,
) -> Result<(), NoMemory>
    requires { cons.0 < length sig.now.functions }
    ensures { OnOk result ((n : TextNames) → NamesSorts sig.now n → Adds out.old.items out.new.items (λ rest. print_constructor (constructor_with sig.now n cons) rest)) }
{
    let _ = sig.names();
    push_name(sig, cons, b" ", out)?;
    push_fields(sig, sig.projections(cons), sig.args_of(cons), out)?;
    push_recogniser(sig, sig.test(cons), out)
}
