//! The readers of the constructors of a structured sort.

ghost use Rattle.std.specs.Prelude.{◌≡◌, ◌≤◌, List, Option, IfOk, MatchResult, length, map};
ghost use Rattle.mcrl2_lexer.specs.declared.kind.Kind.TheVariants.{Colon, LeftParen, Question};
ghost use Rattle.mcrl2_lexer.specs.declared.token.Token.{Token};
ghost use Rattle.mcrl2_syntax.specs.Words.{PlainWord, Begins};
ghost use Rattle.mcrl2_syntax.specs.Declarations.{PlainField, PlainConstructor, some_word, field_of, constructor_of};
ghost use Rattle.mcrl2_syntax.specs.SpelledDeclarations.{SpellsField, SpellsFields, SpellsRecogniser, SpellsConstructor};

use crate::lists::{Part, list};
use crate::words::{Fault, expect, name_before, word};
use mcrl2_lexer::{Kind, Token};
use mcrl2_syntax::{Constructor, Field, SortTree, Word, joined_spans, token_span};
use std::alloc::Global;

/// `S` or `p: S`
impl Part for Field {
    ghost Plain = { PlainField };

    ghost plain = { field_of };

    ghost spells = { SpellsField };

    ghost stops = { λ r. Begins Colon r → ⊥ };

    fn read<'a>(
        alloc: Global,
        text: &[u8],
        tokens: &'a [Token],
    ) -> Result<(Field, &'a [Token]), Fault> {
        let Some((token, rest)) = name_before(tokens, Kind::Colon) else {
            let (sort, rest) = SortTree::read(alloc, text, tokens)?;
            return Ok((Field::new(sort.span(), None, sort), rest));
        };
        let name = word(alloc, text, token)?;
        let (sort, rest) = SortTree::read(alloc, text, rest)?;
        let span = joined_spans(name.span, sort.span());
        Ok((Field::new(span, Some(name), sort), rest))
    }
}

// The arguments in their brackets, if any stand at the front, the last token that was read, and the rest.
fn arguments<'a>(
    alloc: Global,
    text: &[u8],
    name: &'a Token,
    tokens: &'a [Token],
) -> Result<(Vec<Field>, &'a Token, &'a [Token]), Fault>
    ensures within { IfOk result (λ x. length x.2.now ≤ length tokens.now) }
    ensures found { IfOk result (λ x. SpellsFields text.now name.now (map field_of x.0.items) x.1.now tokens.now x.2.now) }
    ensures only { (fs : List PlainField) (v : Token) (r : List Token) → SpellsFields text.now name.now fs v tokens.now r
        → (Begins Kind.LeftParen r → ⊥)
        → MatchResult result (λ x. (map field_of x.0.items ≡ fs) × (x.1.now ≡ v) × (x.2.now ≡ r)) (λ e. e ≡ Fault.NoMemory) }
{
    let Ok((_, rest)) = expect(tokens, Kind::LeftParen) else {
        return Ok((Vec::new(alloc), name, tokens));
    };
    let (fields, rest) = list::<Field>(alloc, text, rest, Kind::Comma)?;
    let (close, rest) = expect(rest, Kind::RightParen)?;
    Ok((fields, close, rest))
}

// The recogniser, if one stands at the front, the last token that was read, and the rest.
fn recogniser<'a>(
    alloc: Global,
    text: &[u8],
    last: &'a Token,
    tokens: &'a [Token],
) -> Result<(Option<Word>, &'a Token, &'a [Token]), Fault>
    ensures within { IfOk result (λ x. length x.2.now ≤ length tokens.now) }
    ensures found { IfOk result (λ x. SpellsRecogniser text.now last.now (some_word x.0) x.1.now tokens.now x.2.now) }
    ensures only { (o : Option PlainWord) (v : Token) (r : List Token) → SpellsRecogniser text.now last.now o v tokens.now r
        → (Begins Kind.Question r → ⊥)
        → MatchResult result (λ x. (some_word x.0 ≡ o) × (x.1.now ≡ v) × (x.2.now ≡ r)) (λ e. e ≡ Fault.NoMemory) }
{
    let Ok((_, rest)) = expect(tokens, Kind::Question) else {
        return Ok((None, last, tokens));
    };
    let (name, rest) = expect(rest, Kind::Identifier)?;
    Ok((Some(word(alloc, text, name)?), name, rest))
}

/// `c(p: S)?r`
impl Part for Constructor {
    ghost Plain = { PlainConstructor };

    ghost plain = { constructor_of };

    ghost spells = { SpellsConstructor };

    ghost stops = { λ r. (Begins LeftParen r → ⊥) × (Begins Question r → ⊥) };

    fn read<'a>(
        alloc: Global,
        text: &[u8],
        tokens: &'a [Token],
    ) -> Result<(Constructor, &'a [Token]), Fault> {
        let (first, rest) = expect(tokens, Kind::Identifier)?;
        let name = word(alloc, text, first)?;
        let (fields, last, rest) = arguments(alloc, text, first, rest)?;
        let (recogniser, last, rest) = recogniser(alloc, text, last, rest)?;
        let span = token_span(first, last);
        Ok((Constructor::new(span, name, fields, recogniser), rest))
    }
}
