//! The tokens of a text.
ghost use Rattle.std.specs.Prelude.{◌≡◌, ◌≢◌, ◌<◌, ◌≤◌, ◌^◌, length, IfOk, IfErr, true, false, All};
ghost use Rattle.mcrl2_lexer.specs.Lexing.{HasTokens, HasFault, IsFaultAt, IsNextToken, SpansRise};
ghost use Rattle.mcrl2_lexer.specs.Tokens.{IsToken, slice_of};
ghost use Rattle.mcrl2_lexer.specs.Words.{decimal};

use crate::kind::Kind;
use crate::numerals::numeral_value;
use crate::scanning::{comment_len, token_at};
use crate::token::{LexFault, Token, Tokens};
use crate::words::{is_left_out, is_space};
use std::alloc::Global;

/// How many bytes a text may have: places in it are numbers of 32 bits.
const MAX_LEN: usize = 4_294_967_295;

/// Whether a token is no numeral above 2^128 - 1.
fn fits(kind: Kind, bytes: &[u8]) -> bool
    requires { IsToken bytes.now kind }
    ensures fits { result ≡ true → kind ≡ Kind.Numeral → decimal bytes.now < 2 ^ 128 }
    ensures numeral { result ≡ false → kind ≡ Kind.Numeral }
    ensures large { result ≡ false → 2 ^ 128 ≤ decimal bytes.now }
{
    match kind {
        Kind::Numeral => numeral_value(bytes).is_some(),
        _ => true,
    }
}

/// The token that begins at a place, if there is one and it is accepted.
fn next_token(text: &[u8], at: usize) -> Result<Token, LexFault>
    requires inside { at < length text.now }
    requires small { length text.now < 2 ^ 32 }
    ensures found { IfOk result (λ token. IsNextToken text.now at token) }
    ensures fault { IfErr result (λ fault. IsFaultAt text.now at fault) }
{
    let Some((kind, n)) = token_at(&text[at..]) else {
        return Err(LexFault::BadByte(at));
    };
    let end = at + n;
    if is_left_out(kind) {
        return Err(LexFault::OutOfProfile(at));
    }
    if !fits(kind, &text[at..end]) {
        return Err(LexFault::NumeralTooLarge(at));
    }
    Ok(Token {
        kind,
        start: at as u32,
        end: end as u32,
    })
}

/// Cuts a text into its tokens, of which each is the longest one at its place, by the rules of the mCRL2 language
/// reference.
///
/// Spaces, tabs, line feeds and carriage returns part tokens and belong to none. So does a comment: a `%` and all bytes
/// behind it, whatever they are, up to a line feed or the end of the text.
///
/// # Errors
///
/// `BadByte` where a byte begins no token, `NumeralTooLarge` where a numeral is greater than 2^128 - 1, and `OutOfProfile`
/// where a token is a word or a sign of the language that isn't accepted, each with the place where it happens first.
/// `NoMemory` comes where no memory is left, and for a text of 4 GiB or more.
pub fn lex(alloc: Global, text: &[u8]) -> Result<Tokens, LexFault>
    ensures text { IfOk result (λ tokens. tokens.text ≡ text.now) }
    ensures tokens { IfOk result (λ tokens. HasTokens text.now tokens.list) }
    ensures spans { IfOk result (λ tokens. SpansRise 0 tokens.list (length text.now)) }
    ensures slices { IfOk result (λ tokens. All (λ token. IsToken (slice_of text.now token) token.kind) tokens.list) }
    ensures fault { IfErr result (λ fault. fault ≢ LexFault.NoMemory → HasFault text.now fault) }
{
    if text.len() > MAX_LEN {
        return Err(LexFault::NoMemory);
    }
    let mut list = Vec::new(alloc);
    let mut at = 0;
    while at < text.len() {
        let byte = text[at];
        if is_space(byte) {
            at += 1;
        } else if byte == b'%' {
            at += comment_len(&text[at..]);
        } else {
            let token = next_token(text, at)?;
            list.push(token)?;
            at = token.end as usize;
        }
    }
    Ok(Tokens::new(Vec::from_slice(alloc, text)?, list))
}
