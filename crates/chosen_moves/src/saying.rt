//! What a line chooses.

ghost use Rattle.std.specs.Prelude.{◌≡◌, ◌≢◌, [], ◌∷◌, length, All, IfOk};
ghost use Rattle.mcrl2_lexer.specs.Lexing.{HasTokens, IsInside};
ghost use Rattle.mcrl2_lexer.specs.Tokens.{IsToken, slice_of};
ghost use Rattle.chosen_moves.specs.Choices.{Says};

use data_theory::NoMemory;
use mcrl2_lexer::{Kind, LexFault, Token, lex, numeral_value};
use std::alloc::Global;

/// What a line says.
#[derive(Clone, Copy, Debug, PartialEq, Eq)]
pub(crate) enum Said {
    /// Nothing: white space and a comment are all that stands in it.
    Nothing,
    /// This number.
    Number(u128),
    /// Something else.
    Other,
}

/// What a line says that has this one token.
fn said_by_token(text: &[u8], token: Token) -> Said
    requires tokens { HasTokens text.now (token ∷ []) }
    requires slice { IsToken (slice_of text.now token) token.kind }
    requires inside { IsInside token (length text.now) }
    ensures { Says text.now result }
{
    let Kind::Numeral = token.kind else {
        return Said::Other;
    };
    match numeral_value(&text[token.start as usize..token.end as usize]) {
        Some(number) => Said::Number(number),
        None => unreachable!(),
    }
}

/// What a line says that has these tokens.
fn said_by_tokens(text: &[u8], list: &[Token]) -> Said
    requires tokens { HasTokens text.now list.now }
    requires slices { All (λ token. IsToken (slice_of text.now token) token.kind) list.now }
    requires inside { All (λ token. IsInside token (length text.now)) list.now }
    ensures { Says text.now result }
{
    match list {
        [] => Said::Nothing,
        [token] => said_by_token(text, *token),
        _ => Said::Other,
    }
}

/// What a line without tokens says.
fn faulty(fault: LexFault) -> Result<Said, NoMemory>
    ensures { IfOk result (λ said. (said ≡ Said.Other) × (fault ≢ LexFault.NoMemory)) }
{
    match fault {
        LexFault::NoMemory => Err(NoMemory),
        LexFault::BadByte(_) => Ok(Said::Other),
        LexFault::NumeralTooLarge(_) => Ok(Said::Other),
        LexFault::OutOfProfile(_) => Ok(Said::Other),
    }
}

/// What a line says: nothing, a number, or something else.
pub(crate) fn said_by(alloc: Global, line: &[u8]) -> Result<Said, NoMemory>
    ensures { IfOk result (Says line.now) }
{
    match lex(alloc, line) {
        Ok(tokens) => Ok(said_by_tokens(tokens.text(), tokens.list())),
        Err(fault) => faulty(fault),
    }
}
