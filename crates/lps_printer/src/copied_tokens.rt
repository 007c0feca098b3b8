//! Copied tokens in their layout.

ghost use Rattle.std.specs.Prelude.{◌≡◌, ◌∷◌, OnOk};
ghost use Rattle.lps_printer.specs.CopiedTokens.{is_tight, is_opening, is_callable, is_paren, gap_between};
ghost use Rattle.lps_printer.specs.CopiedPlaces.{gap_at, AddsCopied};
ghost use Rattle.lps_printer.specs.TreeTokens.{token};

use crate::tokens::push_token;
use data_theory::NoMemory;
use mcrl2_lexer::Kind;

/// Where a copied token stands.
#[derive(Clone, Copy, Debug)]
pub(crate) enum Place {
    /// At the beginning of a section's first declaration.
    First,
    /// At the beginning of a further declaration.
    Further,
    /// Behind a token of this kind.
    Behind(Kind),
}

/// A text to which copied tokens are added, and where the next one stands.
#[derive(Drop)]
pub(crate) struct CopiedText {
    pub(crate) bytes: Vec<u8>,
    pub(crate) place: Place,
}

/// Whether no space stands before such a token.
fn is_tight(kind: Kind) -> bool
    ensures { result ≡ is_tight kind }
{
    match kind {
        Kind::Comma => true,
        Kind::Semicolon => true,
        Kind::Colon => true,
        Kind::RightParen => true,
        Kind::RightBracket => true,
        Kind::Question => true,
        _ => false,
    }
}

/// Whether no space stands behind such a token.
fn is_opening(kind: Kind) -> bool
    ensures { result ≡ is_opening kind }
{
    match kind {
        Kind::LeftParen => true,
        Kind::LeftBracket => true,
        Kind::Question => true,
        _ => false,
    }
}

/// Whether no space stands between such a token and `(`.
fn is_callable(kind: Kind) -> bool
    ensures { result ≡ is_callable kind }
{
    match kind {
        Kind::Identifier => true,
        Kind::ListWord => true,
        _ => false,
    }
}

/// Whether a token is `(`.
fn is_paren(kind: Kind) -> bool
    ensures { result ≡ is_paren kind }
{
    match kind {
        Kind::LeftParen => true,
        _ => false,
    }
}

/// The white space between two tokens.
fn gap_between(kind: Kind, next: Kind) -> &'static [u8]
    ensures { result.now ≡ gap_between kind next }
{
    if is_tight(next) || is_opening(kind) || (is_callable(kind) && is_paren(next)) {
        b""
    } else {
        b" "
    }
}

impl Place {
    /// The white space in front of such a token.
    fn gap(self, kind: Kind) -> &'static [u8]
        ensures { result.now ≡ gap_at self kind }
    {
        match self {
            Place::First => b" ",
            Place::Further => b"\n  ",
            Place::Behind(last) => gap_between(last, kind),
        }
    }
}

impl CopiedText {
    /// Puts a token last.
    pub(crate) fn token(&mut self, kind: Kind, bytes: &[u8]) -> Result<(), NoMemory>
        ensures { OnOk result (AddsCopied self.old self.new (λ rest. token kind bytes.now ∷ rest)) }
    {
        push_token(&mut self.bytes, self.place.gap(kind), bytes)?;
        self.place = Place::Behind(kind);
        Ok(())
    }
}
