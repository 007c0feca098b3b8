//! Lists of parts: with a separator between them, and in braces.

ghost use Rattle.std.specs.Prelude.{◌≡◌, ◌<◌, ◌++◌, ◌∷◌, [], ℕ, List, IfOk, OnOk, MatchResult, length, map};
ghost use Rattle.mcrl2_lexer.specs.declared.token.Token.{Token};
ghost use Rattle.mcrl2_syntax.specs.Words.{Begins};
ghost use Rattle.mcrl2_syntax.specs.SpelledWords.{SpellsList, SpellsBraces};
ghost use Rattle.mcrl2_parser.specs.Lists.{StopsAt, NeverBegins};

use crate::words::{Fault, expect};
use mcrl2_lexer::{Kind, Token};
use std::alloc::{AllocError, Global};

/// A part of the grammar that stands in lists.
pub trait Part: Drop {
    /// Parts as plain data.
    ghost Plain: { Type 0 };

    /// A part without where it lies in memory.
    ghost plain: { Self → Plain };

    /// Which tokens spell a part.
    ghost spells: { List ℕ → Plain → List Token → List Token → Type 0 };

    /// That these tokens don't go on with a part in front of them.
    ghost stops: { List Token → Type 0 };

    /// The part that a front of the tokens spells, and the rest.
    ///
    /// # Errors
    ///
    /// `Syntax` where no front of them spells one.
    fn read<'a>(
        alloc: Global,
        text: &[u8],
        tokens: &'a [Token],
    ) -> Result<(Self, &'a [Token]), Fault>
        ensures shorter { IfOk result (λ x. length x.1.now < length tokens.now) }
        ensures found { IfOk result (λ x. spells text.now (plain x.0) tokens.now x.1.now) }
        ensures only { (part : Plain) (r : List Token) → spells text.now part tokens.now r → stops r
            → MatchResult result (λ x. (plain x.0 ≡ part) × (x.1.now ≡ r)) (λ e. e ≡ Fault.NoMemory) };
}

/// Puts an item behind the others. The first one gets room for itself alone, since many lists have one item.
pub fn push_sparing<T: Drop>(list: &mut Vec<T>, item: T) -> Result<(), AllocError>
    ensures { OnOk result (list.new.items ≡ list.old.items ++ item ∷ []) }
{
    if list.is_empty() {
        list.reserve_exact(1)?;
    }
    list.push(item)?;
    Ok(())
}

/// The parts with that separator between them that a front of the tokens spells, and the rest.
///
/// # Errors
///
/// `Syntax` where no front of them spells any.
pub fn list<'a, T: Part>(
    alloc: Global,
    text: &[u8],
    tokens: &'a [Token],
    separator: Kind,
) -> Result<(Vec<T>, &'a [Token]), Fault>
    requires { StopsAt T.stops separator }
    ensures shorter { IfOk result (λ x. length x.1.now < length tokens.now) }
    ensures found { IfOk result (λ x. SpellsList (T.spells text.now) separator (map T.plain x.0.items) tokens.now x.1.now) }
    ensures only { (parts : List T.Plain) (r : List Token) → SpellsList (T.spells text.now) separator parts tokens.now r → T.stops r → (Begins separator r → ⊥)
        → MatchResult result (λ x. (map T.plain x.0.items ≡ parts) × (x.1.now ≡ r)) (λ e. e ≡ Fault.NoMemory) }
{
    let mut parts = Vec::new(alloc);
    let mut rest = tokens;
    'parts: loop {
        let (part, behind) = T::read(alloc, text, rest)?;
        push_sparing(&mut parts, part)?;
        let Ok((_, next)) = expect(behind, separator) else {
            parts.shrink_to_fit();
            return Ok((parts, behind));
        };
        rest = next;
    }
}

/// The parts in braces, with commas between them, that a front of the tokens spells, and the rest.
///
/// # Errors
///
/// `Syntax` where no front of them is parts in braces. The braces may be empty.
pub fn braces<'a, T: Part>(
    alloc: Global,
    text: &[u8],
    tokens: &'a [Token],
) -> Result<(Vec<T>, &'a [Token]), Fault>
    requires comma { StopsAt T.stops Kind.Comma }
    requires brace { StopsAt T.stops Kind.RightBrace }
    requires begins { NeverBegins (T.spells text.now) Kind.RightBrace }
    ensures shorter { IfOk result (λ x. length x.1.now < length tokens.now) }
    ensures found { IfOk result (λ x. SpellsBraces (T.spells text.now) (map T.plain x.0.items) tokens.now x.1.now) }
    ensures only { (parts : List T.Plain) (r : List Token) → SpellsBraces (T.spells text.now) parts tokens.now r
        → MatchResult result (λ x. (map T.plain x.0.items ≡ parts) × (x.1.now ≡ r)) (λ e. e ≡ Fault.NoMemory) }
{
    let (_, inner) = expect(tokens, Kind::LeftBrace)?;
    if let Ok((_, rest)) = expect(inner, Kind::RightBrace) {
        return Ok((Vec::new(alloc), rest));
    }
    let (parts, behind) = list::<T>(alloc, text, inner, Kind::Comma)?;
    let (_, rest) = expect(behind, Kind::RightBrace)?;
    Ok((parts, rest))
}
