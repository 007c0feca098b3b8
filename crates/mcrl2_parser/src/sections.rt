//! The end of a declaration.
ghost use Rattle.std.specs.Prelude.{◌≡◌};
ghost use Rattle.mcrl2_parser.specs.Sections.{is_semicolon};

use mcrl2_lexer::Kind;

/// Whether a token of this kind is a `;`.
pub(crate) fn is_semicolon(kind: Kind) -> bool
    ensures { result ≡ is_semicolon kind }
{
    match kind {
        Kind::Semicolon => true,
        _ => false,
    }
}
