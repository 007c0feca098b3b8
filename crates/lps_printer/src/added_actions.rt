//! The actions of a signature that a text doesn't declare.

ghost use Rattle.std.specs.Prelude.{◌≡◌, ◌<◌, ◌∷◌, ◌++◌, [], codes, drop, length, map, IfOk, OnOk};
ghost use Rattle.std.specs.List.{All};
ghost use Rattle.mcrl2_lexer.specs.declared.kind.Kind.{Kind};
ghost use Rattle.mcrl2_lexer.specs.declared.kind.Kind.TheVariants.{Semicolon};
ghost use Rattle.mcrl2_syntax.specs.Declarations.{plain_decl, section_of, spec_of};
ghost use Rattle.data_theory.specs.declared.actions.ActEntry.{ActEntry};
ghost use Rattle.data_theory.specs.declared.ids.NameId.{NameId};
ghost use Rattle.sort_table.specs.SignatureVocabularies.{text_under};
ghost use Rattle.lps_printer.specs.Adding.{Adds};
ghost use Rattle.lps_printer.specs.AddedDeclarations.{action_sections, added_actions_of, behind_acts, behind_acts_of, behind_all, lines_with, print_name};
ghost use Rattle.lps_printer.specs.AddingSections.{AddsSections};
ghost use Rattle.lps_printer.specs.DataLayout.{piece, space};
ghost use Rattle.lps_printer.specs.TextSections.{print_declarations};

use crate::tokens::push_token;
use data_theory::{ActEntry, NameId, NoMemory, Signature};
use mcrl2_syntax::{Decl, Section, Spec};

/// The actions behind so many.
fn behind(acts: &[ActEntry], count: usize) -> &[ActEntry]
    ensures { result.now ≡ drop count acts.now }
{
    if count < acts.len() {
        &acts[count..]
    } else {
        &[]
    }
}

/// The actions behind those of a declaration.
fn behind_declaration<'a>(acts: &'a [ActEntry], decl: &Decl) -> &'a [ActEntry]
    ensures { result.now ≡ behind_acts (plain_decl decl.now) acts.now }
{
    match decl {
        Decl::Act(_, names, _) => behind(acts, names.as_slice().len()),
        _ => acts,
    }
}

/// The actions behind those of these declarations.
fn behind_declarations<'a>(acts: &'a [ActEntry], decls: &[Decl]) -> &'a [ActEntry]
    ensures { result.now ≡ behind_all behind_acts (map plain_decl decls.now) acts.now }
{
    let mut rest = acts;
    for decl in decls {
        rest = behind_declaration(rest, decl);
    }
    rest
}

/// The actions behind those of these sections.
fn behind_sections<'a>(acts: &'a [ActEntry], sections: &[Section]) -> &'a [ActEntry]
    ensures { result.now ≡ behind_all behind_acts_of (map section_of sections.now) acts.now }
{
    let mut rest = acts;
    for section in sections {
        rest = behind_declarations(rest, section.declarations.as_slice());
    }
    rest
}

/// The actions of a signature that a specification doesn't declare, in their order: those behind as many as it declares.
fn added_actions<'a>(spec: &Spec, sig: &'a Signature) -> &'a [ActEntry]
    ensures names { map (λ (e : ActEntry). e.name) result.now ≡ added_actions_of (spec_of spec.now) sig.now }
    ensures within { All (λ (e : ActEntry). e.name.0 < length sig.now.texts) result.now }
{
    let _ = sig.names();
    behind_sections(sig.acts(), spec.sections.as_slice())
}

/// The name of an action and a semicolon, behind white space.
fn push_line(sig: &Signature, name: NameId, gap: &[u8], out: &mut Vec<u8>) -> Result<(), NoMemory>
    requires { name.0 < length sig.now.texts }
    ensures { OnOk result (Adds out.old.items out.new.items (λ rest. print_name sig.now name gap.now [] ++ piece [] Semicolon (codes ";") ∷ rest)) }
{
    push_token(out, gap, sig.names().text(name).as_bytes())?;
    push_token(out, b"", b";")
}

/// The names of actions, the first one on the line of the section's word, each further one on a line of its own.
fn push_lines(sig: &Signature, acts: &[ActEntry], out: &mut Vec<u8>) -> Result<(), NoMemory>
    requires { All (λ (e : ActEntry). e.name.0 < length sig.now.texts) acts.now }
    ensures { OnOk result (Adds out.old.items out.new.items (λ rest. print_declarations (lines_with (λ (e : ActEntry). print_name sig.now e.name) space acts.now) rest)) }
{
    let mut gap: &'static [u8] = b" ";
    for act in acts {
        push_line(sig, act.name, gap, out)?;
        gap = b"\n  ";
    }
    Ok(())
}

/// The section of the actions that a text doesn't declare, where there are any, and the white space in front of what comes behind it.
pub(crate) fn push_actions(
    spec: &Spec,
    sig: &Signature,
    gap: &'static [u8],
    out: &mut Vec<u8>,
) -> Result<&'static [u8], NoMemory>
    ensures { IfOk result (λ next. AddsSections out.old.items out.new.items gap.now next.now (action_sections sig.now (added_actions_of (spec_of spec.now) sig.now))) }
{
    let acts = added_actions(spec, sig);
    if acts.is_empty() {
        return Ok(gap);
    }
    push_token(out, gap, b"act")?;
    push_lines(sig, acts, out)?;
    Ok(b"\n")
}
