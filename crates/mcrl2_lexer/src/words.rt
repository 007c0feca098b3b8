//! Which words and signs there are.
ghost use Rattle.std.specs.Prelude.{◌≡◌, [], ◌∷◌};
ghost use Rattle.mcrl2_lexer.specs.Words.{word_kind, word_of_two, word_of_three, word_of_four, word_of_five, word_of_six, sign_kind, is_letter, is_digit, is_name_byte, is_space, is_left_out};

use crate::kind::Kind;

/// What a letter or `_` with name bytes behind it is.
pub(crate) fn word_kind(word: &[u8]) -> Kind
    ensures { result ≡ word_kind word.now }
{
    match word.len() {
        2 => word_of_two(word),
        3 => word_of_three(word),
        4 => word_of_four(word),
        5 => word_of_five(word),
        6 => word_of_six(word),
        _ => Kind::Identifier,
    }
}

/// The word of two bytes, or an identifier.
fn word_of_two(word: &[u8]) -> Kind
    ensures { result ≡ word_of_two word.now }
{
    match word {
        b"in" => Kind::In,
        _ => Kind::Identifier,
    }
}

/// The word of three bytes, or an identifier.
fn word_of_three(word: &[u8]) -> Kind
    ensures { result ≡ word_of_three word.now }
{
    match word {
        b"map" => Kind::Map,
        b"var" => Kind::Var,
        b"eqn" => Kind::Eqn,
        b"act" => Kind::Act,
        b"Pos" => Kind::PosWord,
        b"Nat" => Kind::NatWord,
        b"Int" => Kind::IntWord,
        b"div" => Kind::Div,
        b"mod" => Kind::Mod,
        b"tau" => Kind::Tau,
        b"sum" => Kind::Sum,
        b"Set" => Kind::SetWord,
        b"Bag" => Kind::BagWord,
        b"whr" => Kind::Whr,
        b"end" => Kind::End,
        _ => Kind::Identifier,
    }
}

/// The word of four bytes, or an identifier.
fn word_of_four(word: &[u8]) -> Kind
    ensures { result ≡ word_of_four word.now }
{
    match word {
        b"sort" => Kind::Sort,
        b"cons" => Kind::Cons,
        b"proc" => Kind::Proc,
        b"init" => Kind::Init,
        b"Bool" => Kind::BoolWord,
        b"List" => Kind::ListWord,
        b"true" => Kind::TrueWord,
        b"hide" => Kind::Hide,
        b"comm" => Kind::Comm,
        b"dist" => Kind::Dist,
        b"glob" => Kind::Glob,
        b"Real" => Kind::RealWord,
        b"FSet" => Kind::FSetWord,
        b"FBag" => Kind::FBagWord,
        _ => Kind::Identifier,
    }
}

/// The word of five bytes, or an identifier.
fn word_of_five(word: &[u8]) -> Kind
    ensures { result ≡ word_of_five word.now }
{
    match word {
        b"delta" => Kind::Delta,
        b"allow" => Kind::Allow,
        b"block" => Kind::Block,
        b"false" => Kind::FalseWord,
        _ => Kind::Identifier,
    }
}

/// The word of six bytes, or an identifier.
fn word_of_six(word: &[u8]) -> Kind
    ensures { result ≡ word_of_six word.now }
{
    match word {
        b"struct" => Kind::Struct,
        b"rename" => Kind::Rename,
        b"lambda" => Kind::Lambda,
        b"forall" => Kind::Forall,
        b"exists" => Kind::Exists,
        _ => Kind::Identifier,
    }
}

/// The sign of that one byte.
pub(crate) fn sign_of_one(byte: u8) -> Option<Kind>
    ensures { result ≡ sign_kind (byte ∷ []) }
{
    let kind = match byte {
        b'(' => Kind::LeftParen,
        b')' => Kind::RightParen,
        b'[' => Kind::LeftBracket,
        b']' => Kind::RightBracket,
        b'{' => Kind::LeftBrace,
        b'}' => Kind::RightBrace,
        b',' => Kind::Comma,
        b';' => Kind::Semicolon,
        b':' => Kind::Colon,
        b'=' => Kind::Equals,
        b'?' => Kind::Question,
        b'#' => Kind::Hash,
        b'!' => Kind::Exclamation,
        b'.' => Kind::Dot,
        b'+' => Kind::Plus,
        b'-' => Kind::Minus,
        b'*' => Kind::Star,
        b'|' => Kind::Bar,
        b'<' => Kind::Less,
        b'>' => Kind::Greater,
        b'@' => Kind::At,
        b'/' => Kind::Slash,
        _ => return None,
    };
    Some(kind)
}

/// The sign of those two bytes.
pub(crate) fn sign_of_two(first: u8, second: u8) -> Option<Kind>
    ensures { result ≡ sign_kind (first ∷ second ∷ []) }
{
    let kind = match (first, second) {
        (b'|', b'|') => Kind::BarBar,
        (b'&', b'&') => Kind::AndAnd,
        (b'=', b'>') => Kind::Implies,
        (b'=', b'=') => Kind::EqualsEquals,
        (b'!', b'=') => Kind::NotEquals,
        (b'<', b'=') => Kind::LessEquals,
        (b'>', b'=') => Kind::GreaterEquals,
        (b'|', b'>') => Kind::Prepend,
        (b'<', b'|') => Kind::Append,
        (b'+', b'+') => Kind::Concat,
        (b'-', b'>') => Kind::Arrow,
        (b'<', b'>') => Kind::Else,
        (b'<', b'<') => Kind::Before,
        _ => return None,
    };
    Some(kind)
}

/// The sign of those three bytes.
pub(crate) fn sign_of_three(first: u8, second: u8, third: u8) -> Option<Kind>
    ensures { result ≡ sign_kind (first ∷ second ∷ third ∷ []) }
{
    match (first, second, third) {
        (b'|', b'|', b'_') => Some(Kind::LeftMerge),
        _ => None,
    }
}

/// Whether a byte is a letter or `_`.
pub(crate) fn is_letter(byte: u8) -> bool
    ensures { result ≡ is_letter byte }
{
    byte.is_ascii_alphabetic() || byte == b'_'
}

/// Whether a byte is a digit.
pub(crate) fn is_digit(byte: u8) -> bool
    ensures { result ≡ is_digit byte }
{
    byte.is_ascii_digit()
}

/// Whether a byte may stand in an identifier behind its first byte.
pub(crate) fn is_name_byte(byte: u8) -> bool
    ensures { result ≡ is_name_byte byte }
{
    is_letter(byte) || is_digit(byte) || byte == b'\''
}

/// Whether a byte is white space.
pub(crate) fn is_space(byte: u8) -> bool
    ensures { result ≡ is_space byte }
{
    matches!(byte, b' ' | b'\n' | b'\t' | b'\r')
}

/// Whether tokens of that kind are words or signs of the language that aren't accepted.
pub(crate) fn is_left_out(kind: Kind) -> bool
    ensures { result ≡ is_left_out kind }
{
    matches!(
        kind,
        Kind::Dist
            | Kind::Glob
            | Kind::RealWord
            | Kind::SetWord
            | Kind::BagWord
            | Kind::FSetWord
            | Kind::FBagWord
            | Kind::Lambda
            | Kind::Forall
            | Kind::Exists
            | Kind::Whr
            | Kind::End
            | Kind::At
            | Kind::Before
            | Kind::Slash
    )
}
