//! The token or the comment at the front of a text.
ghost use Rattle.std.specs.Prelude.{◌≡◌, ◌≢◌, ◌<◌, ◌≤◌, ◌∷◌, [], ℕ, length, take, slice_index, All, IfSome, IfNone, false};
ghost use Rattle.mcrl2_lexer.specs.Words.{is_name_byte, is_digit, is_letter};
ghost use Rattle.mcrl2_lexer.specs.Tokens.{AreNameBytes, AreDigits, BeginsNoToken, CommentAt, TokenAt};

use crate::kind::Kind;
use crate::words::{
    is_digit, is_letter, is_name_byte, sign_of_one, sign_of_three, sign_of_two, word_kind,
};

/// How many bytes at the front are name bytes.
fn name_len(text: &[u8]) -> usize
    ensures within { result ≤ length text.now }
    ensures all { AreNameBytes (take result text.now) }
    ensures stops { result < length text.now → is_name_byte (slice_index text.now result) ≡ false }
{
    let mut n = 0;
    while n < text.len() && is_name_byte(text[n]) {
        n += 1;
    }
    n
}

/// How many bytes at the front are digits.
fn digit_len(text: &[u8]) -> usize
    ensures within { result ≤ length text.now }
    ensures all { AreDigits (take result text.now) }
    ensures stops { result < length text.now → is_digit (slice_index text.now result) ≡ false }
{
    let mut n = 0;
    while n < text.len() && is_digit(text[n]) {
        n += 1;
    }
    n
}

/// How many bytes stand in front of the first line feed.
fn line_len(text: &[u8]) -> usize
    ensures within { result ≤ length text.now }
    ensures all { All (λ b. b ≢ 10) (take result text.now) }
    ensures stops { result < length text.now → slice_index text.now result ≡ 10 }
{
    let mut n = 0;
    while n < text.len() && text[n] != b'\n' {
        n += 1;
    }
    n
}

/// The first byte, and the bytes behind it.
fn first_of(text: &[u8]) -> Option<(u8, &[u8])>
    ensures found { IfSome result (λ x. text.now ≡ x.0 ∷ x.1.now) }
    ensures none { IfNone result (text.now ≡ []) }
{
    match text {
        [] => None,
        [first, rest @ ..] => Some((*first, rest)),
    }
}

/// The byte at a place, and 0 past the end, which is part of no sign.
fn byte_at(text: &[u8], at: usize) -> u8
    ensures { result ≡ slice_index text.now at }
{
    if at < text.len() { text[at] } else { 0 }
}

/// The length of the comment at the front.
pub(crate) fn comment_len(text: &[u8]) -> usize
    requires some { 0 < length text.now }
    requires percent { slice_index text.now 0 ≡ 37 }
    ensures { CommentAt text.now result }
{
    line_len(text)
}

/// The longest sign at the front, and its length.
fn sign_at(text: &[u8]) -> Option<(Kind, usize)>
    requires no_letter { is_letter (slice_index text.now 0) ≡ false }
    requires no_digit { is_digit (slice_index text.now 0) ≡ false }
    ensures found { IfSome result (λ x. TokenAt text.now x.1 x.0) }
    ensures none { IfNone result (BeginsNoToken text.now) }
{
    let first = byte_at(text, 0);
    let second = byte_at(text, 1);
    let third = byte_at(text, 2);
    if let Some(kind) = sign_of_three(first, second, third) {
        return Some((kind, 3));
    }
    if let Some(kind) = sign_of_two(first, second) {
        return Some((kind, 2));
    }
    let kind = sign_of_one(first)?;
    Some((kind, 1))
}

/// The longest token at the front, and its length.
pub(crate) fn token_at(text: &[u8]) -> Option<(Kind, usize)>
    ensures found { IfSome result (λ x. TokenAt text.now x.1 x.0) }
    ensures none { IfNone result (BeginsNoToken text.now) }
{
    let (first, rest) = first_of(text)?;
    if is_letter(first) {
        let n = 1 + name_len(rest);
        return Some((word_kind(&text[..n]), n));
    }
    if first == b'0' {
        return Some((Kind::Numeral, 1));
    }
    if is_digit(first) {
        return Some((Kind::Numeral, 1 + digit_len(rest)));
    }
    sign_at(text)
}
