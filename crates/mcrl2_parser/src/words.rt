//! What each reader stands on: the next token, and the word that it is.

ghost use Rattle.std.specs.Prelude.{◌≡◌, ◌∷◌, [], List, None, IfOk, IfSome, OnOk, IsErr, IsErrOf};
ghost use Rattle.mcrl2_lexer.specs.declared.token.Token.{Token};
ghost use Rattle.mcrl2_syntax.specs.Words.{word_of, Begins};
ghost use Rattle.mcrl2_syntax.specs.SpelledWords.{token_word};
ghost use Rattle.mcrl2_lexer.specs.Tokens.{slice_of};
ghost use Rattle.mcrl2_parser.specs.DeclarationParts.{BeginsNamed};

use mcrl2_lexer::{Kind, Token};
use mcrl2_syntax::{Word, WordBytes, token_span};
use std::alloc::{AllocError, AllocFailed, Global};

/// Why no tree was read.
#[derive(Clone, Copy, Debug, PartialEq, Eq)]
pub enum Fault {
    /// No front of the tokens spells one.
    Syntax,
    /// No memory was left.
    NoMemory,
}

impl From<AllocError> for Fault {
    ghost use Rattle.mcrl2_parser.specs.declared.words.Fault.TheVariants.{NoMemory};

    ghost from_gives = { λ _ fault. fault ≡ NoMemory };

    fn from(_: AllocError) -> Self {
        Fault::NoMemory
    }
}

impl<T: Drop> From<AllocFailed<T>> for Fault {
    ghost use Rattle.mcrl2_parser.specs.declared.words.Fault.TheVariants.{NoMemory};

    ghost from_gives = { λ _ fault. fault ≡ NoMemory };

    fn from(_: AllocFailed<T>) -> Self {
        Fault::NoMemory
    }
}

/// The first token, and the rest.
pub fn next(tokens: &[Token]) -> Result<(&Token, &[Token]), Fault>
    ensures found { IfOk result (λ x. tokens.now ≡ x.0.now ∷ x.1.now) }
    ensures none { IsErr result → tokens.now ≡ [] }
    ensures syntax { IsErrOf result Fault.NoMemory → ⊥ }
{
    match tokens {
        [] => Err(Fault::Syntax),
        [first, rest @ ..] => Ok((first, rest)),
    }
}

/// The first token where it is of a kind, and the rest.
pub fn expect(tokens: &[Token], kind: Kind) -> Result<(&Token, &[Token]), Fault>
    ensures found { IfOk result (λ x. (tokens.now ≡ x.0.now ∷ x.1.now) × (x.0.now.kind ≡ kind)) }
    ensures none { IsErr result → Begins kind tokens.now → ⊥ }
    ensures syntax { IsErrOf result Fault.NoMemory → ⊥ }
{
    match tokens {
        [] => Err(Fault::Syntax),
        [first, rest @ ..] => {
            if first.kind == kind {
                Ok((first, rest))
            } else {
                Err(Fault::Syntax)
            }
        }
    }
}

/// Passes where no token is left.
pub fn end(tokens: &[Token]) -> Result<(), Fault>
    ensures found { OnOk result (tokens.now ≡ []) }
    ensures none { IsErr result → tokens.now ≡ [] → ⊥ }
    ensures syntax { IsErrOf result Fault.NoMemory → ⊥ }
{
    match tokens {
        [] => Ok(()),
        [_, ..] => Err(Fault::Syntax),
    }
}

/// The name that a sign of a kind stands behind, and the rest behind the sign.
pub fn name_before(tokens: &[Token], sign: Kind) -> Option<(&Token, &[Token])>
    ensures found { IfSome result (λ x. BeginsNamed sign x.0.now tokens.now x.1.now) }
    ensures none { result ≡ None → (name : Token) (r : List Token) → BeginsNamed sign name tokens.now r → ⊥ }
{
    let Ok((name, rest)) = expect(tokens, Kind::Identifier) else {
        return None;
    };
    let Ok((_, rest)) = expect(rest, sign) else {
        return None;
    };
    Some((name, rest))
}

// The bytes of a token, as far as the text has them.
fn token_bytes<'a>(text: &'a [u8], token: &Token) -> &'a [u8]
    ensures { result.now ≡ slice_of text.now token.now }
{
    let start = (token.start as usize).min(text.len());
    let behind = &text[start..];
    let size = token.end.saturating_sub(token.start) as usize;
    let size = size.min(behind.len());
    &behind[..size]
}

/// The word that a token of the text is.
pub fn word(alloc: Global, text: &[u8], token: &Token) -> Result<Word, Fault>
    ensures found { IfOk result (λ w. word_of w ≡ token_word text.now token.now) }
    ensures err { IsErrOf result Fault.Syntax → ⊥ }
{
    let bytes = WordBytes::new(alloc, token_bytes(text, token))?;
    Ok(Word::new(token_span(token, token), bytes))
}
