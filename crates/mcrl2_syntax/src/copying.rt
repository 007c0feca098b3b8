//! Which sections of a specification go on into the text of its linear process.

ghost use Rattle.std.specs.Prelude.{◌≡◌, ◌∷◌, [], MatchOption, map};
ghost use Rattle.mcrl2_syntax.specs.Declarations.{section_of};
ghost use Rattle.mcrl2_syntax.specs.Copied.{has_declarations, gives_scope, is_copied};

use crate::declaration::{Section, SectionWord};

// The first section, and the rest.
fn first_section(sections: &[Section]) -> Option<(&Section, &[Section])>
    ensures { MatchOption result (sections.now ≡ []) (λ x. sections.now ≡ x.0.now ∷ x.1.now) }
{
    match sections {
        [] => None,
        [first, rest @ ..] => Some((first, rest)),
    }
}

fn has_declarations(section: &Section) -> bool
    ensures { result ≡ has_declarations (section_of section.now) }
{
    !section.declarations.is_empty()
}

// Whether variables that stand before these sections have a scope that is copied.
fn gives_scope(sections: &[Section]) -> bool
    ensures { result ≡ gives_scope (map section_of sections.now) }
{
    match first_section(sections) {
        None => false,
        Some((next, _)) => matches!(next.word, SectionWord::Eqn) && has_declarations(next),
    }
}

fn is_copied_before(section: &Section, behind: &[Section]) -> bool
    ensures { result ≡ is_copied (section_of section.now ∷ map section_of behind.now) }
{
    match section.word {
        SectionWord::Proc | SectionWord::Init => false,
        SectionWord::Var => has_declarations(section) && gives_scope(behind),
        _ => has_declarations(section),
    }
}

/// Whether the first of these sections is copied: it declares sorts, functions, equations, actions, or variables of a section
/// of equations that is copied. Sections without declarations aren't copied, and those of processes neither.
pub fn is_first_copied(sections: &[Section]) -> bool
    ensures { result ≡ is_copied (map section_of sections.now) }
{
    match first_section(sections) {
        None => false,
        Some((first, behind)) => is_copied_before(first, behind),
    }
}
