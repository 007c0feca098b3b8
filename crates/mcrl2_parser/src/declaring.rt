//! The declarations of a list of tokens.
ghost use Rattle.std.specs.Prelude.{◌≡◌, ◌<◌, None, All, IfOk, length};
ghost use Rattle.mcrl2_parser.specs.Declarations.{listed, left_over, ended_at, section_past, start_past, declarations_of, IsWithin};

use crate::sections::is_semicolon;
use mcrl2_lexer::Token;
use mcrl2_syntax::{SectionWord, section_of_kind};
use std::alloc::{AllocError, Global};

/// A declaration of a list of tokens: the tokens from one place up to another.
///
/// Declarations are numbered from 1 by their order in the list of all declarations of the text, whatever section they are in.
#[derive(Clone, Copy, Debug, PartialEq, Eq)]
pub struct Declaration {
    /// The place of its first token in the list, counted from 0. The section's word is none of its tokens.
    pub start: u32,
    /// The place behind its last token. Its `;` is none of its tokens.
    pub end: u32,
    /// The section that it is in. There is none for tokens in front of the first word of a section.
    pub section: Option<SectionWord>,
    /// Whether a `;` ends it. Where none does, the tokens spell no declaration.
    pub is_ended: bool,
}

/// How many tokens a list may have: places in it are numbers of 32 bits.
pub(crate) const MAX_LEN: usize = 4_294_967_295;

/// Where the declaration begins that stands behind the last one that has ended.
#[derive(Clone, Copy, Debug, PartialEq, Eq)]
pub(crate) struct Cut {
    /// The section that it is in, and none in front of the first word of a section.
    pub section: Option<SectionWord>,
    /// The place of its first token in the list.
    pub start: u32,
}

impl Cut {
    /// In front of all tokens.
    pub(crate) fn new() -> Cut
        ensures { result ≡ record { section = None; start = 0 } }
    {
        Cut {
            section: None,
            start: 0,
        }
    }

    /// The declaration that no `;` ends in front of that place, if tokens of one stand there.
    pub(crate) fn left_over(self, end: u32) -> Option<Declaration>
        ensures { listed result ≡ left_over self.section self.start end }
    {
        if self.start >= end {
            return None;
        }
        Some(Declaration {
            section: self.section,
            start: self.start,
            end,
            is_ended: false,
        })
    }

    /// Goes past the token at that place, which may be a section's word or a `;`, and gives the declaration that it ends, if any.
    pub(crate) fn pass(
        &mut self,
        at: u32,
        word: Option<SectionWord>,
        is_end: bool,
    ) -> Option<Declaration>
        requires { at < 4294967295 }
        ensures ended { listed result ≡ ended_at word is_end self.old.section self.old.start at }
        ensures section { self.new.section ≡ section_past word self.old.section }
        ensures start { self.new.start ≡ start_past word is_end self.old.section self.old.start at }
    {
        if word.is_some() {
            let left = self.left_over(at);
            self.section = word;
            self.start = at + 1;
            return left;
        }
        if !is_end || self.section.is_none() {
            return None;
        }
        let ended = Declaration {
            section: self.section,
            start: self.start,
            end: at,
            is_ended: true,
        };
        self.start = at + 1;
        Some(ended)
    }
}

/// The declarations of a list of tokens, in its order.
///
/// As in the mCRL2 language reference, a word such as `act` begins a section, and in a section each declaration ends at its
/// `;`. Tokens behind the last `;` of a section, and tokens in front of the first word of a section, make a declaration that
/// no `;` ends. A section may be empty.
///
/// # Errors
///
/// `AllocError` where no memory is left, and for 2^32 tokens or more.
pub fn declarations(alloc: Global, tokens: &[Token]) -> Result<Vec<Declaration>, AllocError>
    ensures declarations { IfOk result (λ list. list.items ≡ declarations_of tokens.now) }
    ensures within { IfOk result (λ list. All (IsWithin (length tokens.now)) list.items) }
{
    if tokens.len() > MAX_LEN {
        return Err(AllocError);
    }
    let mut list = Vec::new(alloc);
    let mut cut = Cut::new();
    for (at, token) in tokens.iter().enumerate() {
        let word = section_of_kind(token.kind);
        if let Some(declaration) = cut.pass(at as u32, word, is_semicolon(token.kind)) {
            list.push(declaration)?;
        }
    }
    if let Some(left) = cut.left_over(tokens.len() as u32) {
        list.push(left)?;
    }
    Ok(list)
}
