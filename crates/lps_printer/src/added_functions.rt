//! The functions of a signature that a text doesn't declare.

ghost use Rattle.std.specs.Prelude.{◌≡◌, drop, map};
ghost use Rattle.mcrl2_syntax.specs.Declarations.{constructor_of, field_of, plain_decl, section_of, some_word, spec_of};
ghost use Rattle.lps_printer.specs.AddedDeclarations.{added_functions, behind_all, behind_constructor, behind_declaration, behind_field, behind_name, behind_section};

use data_theory::{FunId, Signature};
use mcrl2_syntax::{Constructor, Decl, Field, Section, Spec, Word};

/// The functions behind so many.
fn behind(funs: &[FunId], count: usize) -> &[FunId]
    ensures { result.now ≡ drop count funs.now }
{
    if count < funs.len() {
        &funs[count..]
    } else {
        &[]
    }
}

/// The functions behind the one that a name declares, where there is one.
fn behind_name<'a>(funs: &'a [FunId], name: &Option<Word>) -> &'a [FunId]
    ensures { result.now ≡ behind_name (some_word name.now) funs.now }
{
    match name {
        Some(_) => behind(funs, 1),
        None => funs,
    }
}

/// The functions behind the projections of these fields.
fn behind_fields<'a>(funs: &'a [FunId], fields: &[Field]) -> &'a [FunId]
    ensures { result.now ≡ behind_all behind_field (map field_of fields.now) funs.now }
{
    let mut rest = funs;
    for field in fields {
        rest = behind_name(rest, &field.name);
    }
    rest
}

/// The functions behind a constructor, its projections and its recogniser.
fn behind_constructor<'a>(funs: &'a [FunId], constructor: &Constructor) -> &'a [FunId]
    ensures { result.now ≡ behind_constructor (constructor_of constructor.now) funs.now }
{
    let rest = behind_fields(behind(funs, 1), constructor.fields.as_slice());
    behind_name(rest, &constructor.recogniser)
}

/// The functions behind these constructors, their projections and their recognisers.
fn behind_constructors<'a>(funs: &'a [FunId], constructors: &[Constructor]) -> &'a [FunId]
    ensures { result.now ≡ behind_all behind_constructor (map constructor_of constructors.now) funs.now }
{
    let mut rest = funs;
    for constructor in constructors {
        rest = behind_constructor(rest, constructor);
    }
    rest
}

/// The functions behind those of a declaration.
fn behind_declaration<'a>(funs: &'a [FunId], decl: &Decl) -> &'a [FunId]
    ensures { result.now ≡ behind_declaration (plain_decl decl.now) funs.now }
{
    match decl {
        Decl::Struct(_, _, constructors) => behind_constructors(funs, constructors.as_slice()),
        Decl::Cons(_, names, _, _) => behind(funs, names.as_slice().len()),
        Decl::Map(_, names, _, _) => behind(funs, names.as_slice().len()),
        _ => funs,
    }
}

/// The functions behind those of these declarations.
fn behind_declarations<'a>(funs: &'a [FunId], decls: &[Decl]) -> &'a [FunId]
    ensures { result.now ≡ behind_all behind_declaration (map plain_decl decls.now) funs.now }
{
    let mut rest = funs;
    for decl in decls {
        rest = behind_declaration(rest, decl);
    }
    rest
}

/// The functions behind those of these sections.
fn behind_sections<'a>(funs: &'a [FunId], sections: &[Section]) -> &'a [FunId]
    ensures { result.now ≡ behind_all behind_section (map section_of sections.now) funs.now }
{
    let mut rest = funs;
    for section in sections {
        rest = behind_declarations(rest, section.declarations.as_slice());
    }
    rest
}

/// The functions of a signature that a specification doesn't declare, in their order: those behind as many as it declares.
pub(crate) fn added_functions<'a>(spec: &Spec, sig: &'a Signature) -> &'a [FunId]
    ensures { result.now ≡ added_functions (spec_of spec.now) sig.now }
{
    behind_sections(sig.funs(), spec.sections.as_slice())
}
