//! Which tokens are signs and the words of sections.

ghost use Rattle.std.specs.Prelude.{◌≡◌};
ghost use Rattle.mcrl2_syntax.specs.InfixSigns.{prefix_of, infix_of, level_of};
ghost use Rattle.mcrl2_syntax.specs.SpelledDeclarations.{section_word};

use crate::data_tree::{InfixSign, PrefixSign};
use crate::declaration::SectionWord;
use mcrl2_lexer::Kind;

/// The sign that such a token is before an expression.
pub fn prefix_sign(kind: Kind) -> Option<PrefixSign>
    ensures { result ≡ prefix_of kind }
{
    match kind {
        Kind::Exclamation => Some(PrefixSign::Not),
        Kind::Minus => Some(PrefixSign::Negate),
        Kind::Hash => Some(PrefixSign::Size),
        _ => None,
    }
}

/// The sign that such a token is between two expressions.
pub fn infix_sign(kind: Kind) -> Option<InfixSign>
    ensures { result ≡ infix_of kind }
{
    match kind {
        Kind::Implies => Some(InfixSign::Implies),
        Kind::BarBar => Some(InfixSign::Or),
        Kind::AndAnd => Some(InfixSign::And),
        Kind::EqualsEquals => Some(InfixSign::Equal),
        Kind::NotEquals => Some(InfixSign::NotEqual),
        Kind::Less => Some(InfixSign::Less),
        Kind::LessEquals => Some(InfixSign::LessEqual),
        Kind::Greater => Some(InfixSign::Greater),
        Kind::GreaterEquals => Some(InfixSign::GreaterEqual),
        Kind::In => Some(InfixSign::In),
        Kind::Prepend => Some(InfixSign::Prepend),
        Kind::Append => Some(InfixSign::Append),
        Kind::Concat => Some(InfixSign::Concat),
        Kind::Plus => Some(InfixSign::Add),
        Kind::Minus => Some(InfixSign::Subtract),
        Kind::Div => Some(InfixSign::Div),
        Kind::Mod => Some(InfixSign::Mod),
        Kind::Star => Some(InfixSign::Multiply),
        Kind::Dot => Some(InfixSign::At),
        _ => None,
    }
}

/// The level of a sign: 1 binds most tightly, 11 least.
pub fn sign_level(sign: InfixSign) -> u8
    ensures { result ≡ level_of sign }
{
    match sign {
        InfixSign::Implies => 11,
        InfixSign::Or => 10,
        InfixSign::And => 9,
        InfixSign::Equal | InfixSign::NotEqual => 8,
        InfixSign::Less
        | InfixSign::LessEqual
        | InfixSign::Greater
        | InfixSign::GreaterEqual
        | InfixSign::In => 7,
        InfixSign::Prepend => 6,
        InfixSign::Append => 5,
        InfixSign::Concat => 4,
        InfixSign::Add | InfixSign::Subtract => 3,
        InfixSign::Div | InfixSign::Mod => 2,
        InfixSign::Multiply | InfixSign::At => 1,
    }
}

/// The section that such a token begins.
pub fn section_of_kind(kind: Kind) -> Option<SectionWord>
    ensures { result ≡ section_word kind }
{
    match kind {
        Kind::Sort => Some(SectionWord::Sort),
        Kind::Cons => Some(SectionWord::Cons),
        Kind::Map => Some(SectionWord::Map),
        Kind::Var => Some(SectionWord::Var),
        Kind::Eqn => Some(SectionWord::Eqn),
        Kind::Act => Some(SectionWord::Act),
        Kind::Proc => Some(SectionWord::Proc),
        Kind::Init => Some(SectionWord::Init),
        _ => None,
    }
}
