//! Tokens, and texts that are cut into them.
ghost use Rattle.std.specs.Prelude.{◌≡◌, All, length};
ghost use Rattle.mcrl2_lexer.specs.Lexed.{Lexed};
ghost use Rattle.mcrl2_lexer.specs.Lexing.{HasTokens, IsInside};

use crate::kind::Kind;
use std::alloc::{AllocError, AllocFailed};
use std::marker::Model;

/// A token of a text: its kind, and the bytes that it spans. A place takes 32 bits, since there is a token for every few bytes.
#[derive(Clone, Copy, Debug, PartialEq, Eq)]
pub struct Token {
    /// What the token is.
    pub kind: Kind,
    /// The place of its first byte, counted from 0.
    pub start: u32,
    /// The place behind its last byte.
    pub end: u32,
}

/// A text and its tokens, in the order of the text.
#[derive(Drop)]
pub struct Tokens {
    text: Vec<u8>,
    list: Vec<Token>,
}

impl Model for Tokens {
    ghost Value = { Lexed };

    ghost view = { λ tokens. record { text = tokens.text.items; list = tokens.list.items } };

    ghost invariant = { λ tokens. HasTokens tokens.text.items tokens.list.items };
}

impl Tokens {
    /// A text and the tokens that it has.
    pub(crate) fn new(text: Vec<u8>, list: Vec<Token>) -> Tokens
        requires { HasTokens text.items list.items }
        ensures text { result.text ≡ text.items }
        ensures list { result.list ≡ list.items }
    {
        Tokens { text, list }
    }

    /// The text. It takes no memory.
    pub fn text(&self) -> &[u8]
        ensures { result.now ≡ self.now.text }
    {
        &self.text
    }

    /// The tokens of the text, in its order. It takes no memory.
    pub fn list(&self) -> &[Token]
        ensures list { result.now ≡ self.now.list }
        ensures of_text { HasTokens self.now.text self.now.list }
        ensures inside { All (λ token. IsInside token (length self.now.text)) self.now.list }
    {
        &self.list
    }
}

/// Why a text has no tokens.
#[derive(Clone, Copy, Debug, PartialEq, Eq)]
pub enum LexFault {
    /// At this place, counted from 0, stands a byte that begins no token.
    BadByte(usize),
    /// At this place a numeral begins that is greater than 2^128 - 1.
    NumeralTooLarge(usize),
    /// At this place a word or a sign begins that the language has and that isn't accepted.
    OutOfProfile(usize),
    /// No memory was left.
    NoMemory,
}

impl From<AllocError> for LexFault {
    ghost use Rattle.mcrl2_lexer.specs.declared.token.LexFault.TheVariants.{NoMemory};

    ghost from_gives = { λ _ fault. fault ≡ NoMemory };

    fn from(_: AllocError) -> Self {
        LexFault::NoMemory
    }
}

impl<T: Drop> From<AllocFailed<T>> for LexFault {
    ghost use Rattle.mcrl2_lexer.specs.declared.token.LexFault.TheVariants.{NoMemory};

    ghost from_gives = { λ _ fault. fault ≡ NoMemory };

    fn from(_: AllocFailed<T>) -> Self {
        LexFault::NoMemory
    }
}
