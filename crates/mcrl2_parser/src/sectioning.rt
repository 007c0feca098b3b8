//! The sections of a specification, from their words and the trees of their declarations.
ghost use Rattle.std.specs.Prelude.{◌≡◌, ◌++◌, ◌∷◌, [], OnOk, map};
ghost use Rattle.mcrl2_syntax.specs.Declarations.{plain_decl, section_of};
ghost use Rattle.mcrl2_parser.specs.Sections.{having, with_last};

use crate::lists::push_sparing;
use mcrl2_lexer::Token;
use mcrl2_syntax::{Decl, Section, SectionWord, token_span};
use std::alloc::{AllocError, Global};

/// Puts a tree behind those of the last section, if there is one.
///
/// # Errors
///
/// `AllocError` where no memory is left.
pub(crate) fn put_last(sections: &mut Vec<Section>, tree: Decl) -> Result<(), AllocError>
    ensures { OnOk result (map section_of sections.new.items ≡ with_last (plain_decl tree) (map section_of sections.old.items)) }
{
    if let Some(last) = sections.last_mut() {
        push_sparing(&mut last.declarations, tree)?;
    }
    Ok(())
}

/// Begins the section of a word, behind the others.
///
/// # Errors
///
/// `AllocError` where no memory is left.
pub(crate) fn begin(
    alloc: Global,
    sections: &mut Vec<Section>,
    token: &Token,
    word: SectionWord,
) -> Result<(), AllocError>
    ensures { OnOk result (map section_of sections.new.items ≡ map section_of sections.old.items ++ having token.now word [] ∷ []) }
{
    let span = token_span(token, token);
    sections.push(Section::new(span, word, Vec::new(alloc)))?;
    Ok(())
}
