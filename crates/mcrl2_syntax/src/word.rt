//! Stretches of a text, and the words that stand there.

ghost use Rattle.std.specs.Prelude.{◌≡◌};
ghost use Rattle.mcrl2_syntax.specs.Words.{joined, span_of, word_of};

use crate::word_bytes::WordBytes;
use mcrl2_lexer::Token;

/// A stretch of a text.
#[derive(Clone, Copy, Debug, PartialEq, Eq)]
pub struct Span {
    /// The place of its first byte, counted from 0.
    pub start: u32,
    /// The place behind its last byte.
    pub end: u32,
}

/// An identifier or a numeral.
#[derive(Debug, Drop)]
pub struct Word {
    /// Where it stands.
    pub span: Span,
    /// Its bytes.
    pub bytes: WordBytes,
}

impl Word {
    /// A word of these bytes.
    pub fn new(span: Span, bytes: WordBytes) -> Word
        ensures { word_of result ≡ record { span = span; bytes = bytes.items } }
    {
        Word { span, bytes }
    }
}

/// From the first byte of one token to the last byte of another.
pub fn token_span(first: &Token, last: &Token) -> Span
    ensures { result ≡ span_of first.now last.now }
{
    Span {
        start: first.start,
        end: last.end,
    }
}

/// From the first byte of one stretch to the last byte of another.
pub fn joined_spans(first: Span, last: Span) -> Span
    ensures { result ≡ joined first last }
{
    Span {
        start: first.start,
        end: last.end,
    }
}
