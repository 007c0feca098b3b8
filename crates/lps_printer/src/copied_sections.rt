//! The copied sections of a specification.

ghost use Rattle.std.specs.Prelude.{◌≡◌, ◌∷◌, ◌++◌, [], codes, map, IfOk, OnOk};
ghost use Rattle.mcrl2_lexer.specs.declared.kind.Kind.TheVariants.{Semicolon};
ghost use Rattle.mcrl2_syntax.specs.Declarations.{plain_decl, section_of, spec_of};
ghost use Rattle.lps_printer.specs.Adding.{Adds};
ghost use Rattle.lps_printer.specs.AddingSections.{AddsSections};
ghost use Rattle.lps_printer.specs.CopiedPlaces.{copied_at};
ghost use Rattle.lps_printer.specs.CopiedSections.{copied_declarations, copied_first, copied_section, copied_sections};
ghost use Rattle.lps_printer.specs.DataLayout.{piece};
ghost use Rattle.lps_printer.specs.TextSections.{print_declarations, section_text};
ghost use Rattle.lps_printer.specs.TreeTokens.{declaration_tokens};

use crate::copied_tokens::{CopiedText, Place};
use crate::tokens::push_token;
use data_theory::NoMemory;
use mcrl2_syntax::{Decl, Section, SectionWord, Spec, is_first_copied};
use std::alloc::Global;

/// The word of a section.
fn section_text(word: SectionWord) -> &'static [u8]
    ensures { result.now ≡ section_text word }
{
    match word {
        SectionWord::Sort => b"sort",
        SectionWord::Cons => b"cons",
        SectionWord::Map => b"map",
        SectionWord::Var => b"var",
        SectionWord::Eqn => b"eqn",
        SectionWord::Act => b"act",
        SectionWord::Proc => b"proc",
        SectionWord::Init => b"init",
    }
}

impl CopiedText {
    /// A declaration at this place, and its semicolon.
    fn line(&mut self, place: Place, decl: &Decl) -> Result<(), NoMemory>
        ensures { OnOk result (Adds self.old.bytes.items self.new.bytes.items (λ rest. copied_at place (declaration_tokens (plain_decl decl.now) []) ++ piece [] Semicolon (codes ";") ∷ rest)) }
    {
        self.place = place;
        self.declaration(decl)?;
        push_token(&mut self.bytes, b"", b";")
    }

    /// Declarations, the first one on the line of the section's word, each further one on a line of its own.
    fn lines(&mut self, decls: &[Decl]) -> Result<(), NoMemory>
        ensures { OnOk result (Adds self.old.bytes.items self.new.bytes.items (λ rest. print_declarations (copied_declarations (map plain_decl decls.now)) rest)) }
    {
        let mut place = Place::First;
        for decl in decls {
            self.line(place, decl)?;
            place = Place::Further;
        }
        Ok(())
    }

    /// A section under its word, behind white space.
    fn section(&mut self, section: &Section, gap: &[u8]) -> Result<(), NoMemory>
        ensures { OnOk result (AddsSections self.old.bytes.items self.new.bytes.items gap.now (codes "\n") (copied_section (section_of section.now) ∷ [])) }
    {
        push_token(&mut self.bytes, gap, section_text(section.word))?;
        self.lines(section.declarations.as_slice())
    }

    /// The first of these sections, where it is copied, and the white space in front of what comes behind it.
    fn first(&mut self, sections: &[Section], gap: &'static [u8]) -> Result<&'static [u8], NoMemory>
        ensures { IfOk result (λ next. AddsSections self.old.bytes.items self.new.bytes.items gap.now next.now (copied_first (map section_of sections.now))) }
    {
        if !is_first_copied(sections) {
            return Ok(gap);
        }
        self.section(&sections[0], gap)?;
        Ok(b"\n")
    }
}

/// The copied sections, the first one at the beginning of the text, and the white space in front of what comes behind them.
///
/// # Errors
///
/// `NoMemory` only.
pub(crate) fn copied_text(alloc: Global, spec: &Spec) -> Result<(Vec<u8>, &'static [u8]), NoMemory>
    ensures { IfOk result (λ p. AddsSections [] p.0.items [] p.1.now (copied_sections (spec_of spec.now).sections)) }
{
    let mut text = CopiedText {
        bytes: Vec::new(alloc),
        place: Place::First,
    };
    let sections = spec.sections.as_slice();
    let mut gap: &'static [u8] = b"";
    for place in 0..sections.len() {
        gap = text.first(&sections[place..], gap)?;
    }
    let CopiedText { bytes, place: _ } = text;
    Ok((bytes, gap))
}
