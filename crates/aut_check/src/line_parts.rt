//! The parts of the lines that tell edges and states.

ghost use Rattle.std.specs.Prelude.{◌≡◌, ◌≤◌, ◌↔◌, List, [], ◌∷◌, codes, false, length, All, IsTrue, MatchOption, ℕ};
ghost use Rattle.std.specs.List.{prefix_len};
ghost use Rattle.mcrl2_lexer.specs.Tokens.{AreDigits};
ghost use Rattle.mcrl2_lexer.specs.Words.{is_digit, is_space};
ghost use Rattle.aut_check.specs.LineParts.{BeginsWithoutWhite, counts_of, is_of, IsLabelThen, IsNumberThen, IsNumeral};
ghost use Rattle.aut_check.specs.SystemTexts as texts;
ghost use Rattle.aut_check.specs.SystemTexts.{IsEdgeText, IsEndLine, IsFirstPart, IsHeaderLine, IsNumber, IsPlain, IsWhite};

use mcrl2_lexer::numeral_value;

/// A kind of bytes.
#[derive(Clone, Copy, Debug, PartialEq, Eq)]
enum ByteKind {
    /// White space.
    White,
    /// 0 to 9.
    Digit,
    /// All but the quotation mark and `%`.
    Plain,
}

/// What a header tells: the number of the first state, and how many edges and states there are.
#[derive(Clone, Copy, Debug, PartialEq, Eq)]
pub(crate) struct Counts {
    pub first: usize,
    pub edges: usize,
    pub states: usize,
}

/// Whether a byte is of a kind.
fn is_of(kind: ByteKind, byte: u8) -> bool
    ensures { result ≡ is_of kind byte }
{
    match kind {
        ByteKind::White => matches!(byte, b' ' | b'\n' | b'\t' | b'\r'),
        ByteKind::Digit => matches!(byte, b'0'..=b'9'),
        ByteKind::Plain => byte != b'"' && byte != b'%',
    }
}

/// How many bytes of a kind stand in front.
fn front_len(text: &[u8], kind: ByteKind) -> usize
    ensures size { result ≡ prefix_len (is_of kind) text.now }
    ensures within { result ≤ length text.now }
{
    for (place, byte) in text.iter().enumerate() {
        if !is_of(kind, *byte) {
            return place;
        }
    }
    text.len()
}

/// Whether white space is all that stands in a text.
pub(crate) fn is_white(text: &[u8]) -> bool
    ensures { IsTrue result ↔ IsWhite text.now }
{
    front_len(text, ByteKind::White) == text.len()
}

/// Whether a text has neither a quotation mark nor a comment.
pub(crate) fn is_plain(text: &[u8]) -> bool
    ensures { IsTrue result ↔ IsPlain text.now }
{
    front_len(text, ByteKind::Plain) == text.len()
}

/// What stands behind a word, where the text begins with it. White space may stand in front of it.
fn behind_word<'a>(text: &'a [u8], word: &[u8]) -> Option<&'a [u8]>
    requires { BeginsWithoutWhite word.now }
    ensures { MatchOption result ((rest : List ℕ) → ¬ (IsFirstPart text.now word.now rest)) (λ rest. IsFirstPart text.now word.now rest.now) }
{
    let len = front_len(text, ByteKind::White);
    text[len..].strip_prefix(word)
}

/// Whether digits are a numeral: at least one, and no further zero in front.
fn is_numeral(digits: &[u8]) -> bool
    ensures { IsTrue result ↔ IsNumeral digits.now }
{
    match digits {
        [b'0', others @ ..] => others.is_empty(),
        _ => !digits.is_empty(),
    }
}

/// The number below 2^64 that digits are, without further zeros in front.
fn number_of(digits: &[u8]) -> Option<usize>
    requires { AreDigits digits.now }
    ensures { MatchOption result ((n : ℕ) → ¬ (IsNumber digits.now n)) (IsNumber digits.now) }
{
    if !is_numeral(digits) {
        return None;
    }
    let value = numeral_value(digits)?;
    usize::try_from(value).ok()
}

/// The number in front of a sign with which a text begins, and what stands behind the sign.
fn number_before(text: &[u8], sign: u8) -> Option<(usize, &[u8])>
    requires not_white { is_space sign ≡ false }
    requires no_digit { is_digit sign ≡ false }
    ensures { MatchOption result ((n : ℕ) (rest : List ℕ) → ¬ (IsNumberThen text.now sign n rest)) (λ found. IsNumberThen text.now sign found.0 found.1.now) }
{
    let text = &text[front_len(text, ByteKind::White)..];
    let (digits, behind) = text.split_at(front_len(text, ByteKind::Digit));
    let number = number_of(digits)?;
    let rest = behind_word(behind, &[sign])?;
    Some((number, rest))
}

/// The label between quotation marks with which a text begins, and what stands behind the comma after it.
fn label_before(text: &[u8]) -> Option<(&[u8], &[u8])>
    ensures { MatchOption result ((label rest : List ℕ) → ¬ (IsLabelThen text.now label rest)) (λ found. IsLabelThen text.now found.0.now found.1.now) }
{
    let text = behind_word(text, b"\"")?;
    let (label, behind) = text.split_at(front_len(text, ByteKind::Plain));
    let behind = behind.strip_prefix(b"\"")?;
    let rest = behind_word(behind, b",")?;
    Some((label, rest))
}

/// What a header `des (F,T,N)` tells, where the line is one.
pub(crate) fn header_of(line: &[u8]) -> Option<Counts>
    ensures { MatchOption result ((c : texts.Counts) → ¬ (IsHeaderLine line.now c)) (λ counts. IsHeaderLine line.now (counts_of counts)) }
{
    let rest = behind_word(line, b"des")?;
    let rest = behind_word(rest, b"(")?;
    let (first, rest) = number_before(rest, b',')?;
    let (edges, rest) = number_before(rest, b',')?;
    let (states, rest) = number_before(rest, b')')?;
    if first < states && is_white(rest) {
        return Some(Counts {
            first,
            edges,
            states,
        });
    }
    None
}

/// The numbers of the states and the text of the label of a line `(I,"LABEL",J)`, where the line is one.
pub(crate) fn edge_text(line: &[u8]) -> Option<(usize, &[u8], usize)>
    ensures { MatchOption result ((label : List ℕ) (i j : ℕ) → ¬ (IsEdgeText line.now label i j)) (λ found. IsEdgeText line.now found.1.now found.0 found.2) }
{
    let rest = behind_word(line, b"(")?;
    let (from, rest) = number_before(rest, b',')?;
    let (label, rest) = label_before(rest)?;
    let (to, rest) = number_before(rest, b')')?;
    if is_white(rest) {
        return Some((from, label, to));
    }
    None
}

/// Whether a line is that of the state after termination.
pub(crate) fn is_end(line: &[u8]) -> bool
    ensures { IsTrue result ↔ IsEndLine line.now }
{
    match behind_word(line, b"-") {
        Some(rest) => is_white(rest),
        None => false,
    }
}
