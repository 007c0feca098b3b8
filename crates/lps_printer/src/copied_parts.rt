//! Lists of what declarations are made of.

ghost use Rattle.std.specs.Prelude.{List, OnOk};
ghost use Rattle.lps_printer.specs.CopiedTokens.{Copied};
ghost use Rattle.lps_printer.specs.CopiedPlaces.{AddsCopied};
ghost use Rattle.lps_printer.specs.TreeTokens.{listed_tokens, separator_tokens, token};

use crate::copied_tokens::CopiedText;
use data_theory::NoMemory;
use mcrl2_lexer::Kind;

/// What stands in lists of declarations.
pub(crate) trait Part {
    /// Its tokens, in front of others.
    ghost tokens: { Self → List Copied → List Copied };

    /// Puts its tokens last.
    fn add(&self, text: &mut CopiedText) -> Result<(), NoMemory>
        ensures { OnOk result (AddsCopied text.old text.new (tokens self.now)) };
}

impl CopiedText {
    /// A separator, but not in front of the first item.
    pub(crate) fn separator(
        &mut self,
        is_first: bool,
        kind: Kind,
        separator: &[u8],
    ) -> Result<(), NoMemory>
        ensures { OnOk result (AddsCopied self.old self.new (separator_tokens is_first (token kind separator.now))) }
    {
        if is_first {
            return Ok(());
        }
        self.token(kind, separator)
    }

    /// Parts with a separator between them.
    pub(crate) fn parts<T: Part>(
        &mut self,
        kind: Kind,
        separator: &[u8],
        parts: &[T],
    ) -> Result<(), NoMemory>
        ensures { OnOk result (AddsCopied self.old self.new (listed_tokens T.tokens (token kind separator.now) parts.now)) }
    {
        let mut is_first = true;
        for part in parts {
            self.separator(is_first, kind, separator)?;
            part.add(self)?;
            is_first = false;
        }
        Ok(())
    }
}
