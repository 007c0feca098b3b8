//! The readers of operators.

ghost use Rattle.std.specs.Prelude.{◌≡◌, ◌<◌, List, IfOk, MatchResult, length, map};
ghost use Rattle.mcrl2_lexer.specs.declared.kind.Kind.TheVariants.{Bar};
ghost use Rattle.mcrl2_lexer.specs.declared.token.Token.{Token};
ghost use Rattle.mcrl2_syntax.specs.Words.{Begins};
ghost use Rattle.mcrl2_syntax.specs.ProcessParts.{PlainNameSet, PlainRenaming, PlainCommRule, name_set_of, renaming_of, comm_rule_of};
ghost use Rattle.mcrl2_syntax.specs.SpelledLabels.{SpellsNameSet, SpellsRenaming, SpellsCommRule, Operation, SpellsOperation};
ghost use Rattle.mcrl2_parser.specs.Lists.{StopsAt, NeverBegins, SpellsOpened};
ghost use Rattle.mcrl2_parser.specs.Operators.{operation_of};

use crate::lists::{Part, braces};
use crate::operators::Operator;
use crate::part_spans::names_span;
use crate::parts::names;
use crate::words::{Fault, expect, next, word};
use mcrl2_lexer::{Kind, Token};
use mcrl2_syntax::{CommRule, NameSet, Renaming, Word, joined_spans, token_span};
use std::alloc::Global;

/// `a|b`
impl Part for NameSet {
    ghost Plain = { PlainNameSet };

    ghost plain = { name_set_of };

    ghost spells = { SpellsNameSet };

    ghost stops = { λ r. Begins Bar r → ⊥ };

    fn read<'a>(
        alloc: Global,
        text: &[u8],
        tokens: &'a [Token],
    ) -> Result<(NameSet, &'a [Token]), Fault> {
        let (names, rest) = names(alloc, text, tokens, Kind::Bar)?;
        Ok((NameSet::new(names_span(names.as_slice()), names), rest))
    }
}

/// `a -> b`
impl Part for Renaming {
    ghost Plain = { PlainRenaming };

    ghost plain = { renaming_of };

    ghost spells = { SpellsRenaming };

    ghost stops = { λ _. Unit {0} };

    fn read<'a>(
        alloc: Global,
        text: &[u8],
        tokens: &'a [Token],
    ) -> Result<(Renaming, &'a [Token]), Fault> {
        let (old, behind) = expect(tokens, Kind::Identifier)?;
        let (_, behind) = expect(behind, Kind::Arrow)?;
        let (renamed, rest) = expect(behind, Kind::Identifier)?;
        let span = token_span(old, renamed);
        let old = word(alloc, text, old)?;
        let renamed = word(alloc, text, renamed)?;
        Ok((Renaming::new(span, old, renamed), rest))
    }
}

/// `a|b -> c`, with two names or more before the arrow
impl Part for CommRule {
    ghost Plain = { PlainCommRule };

    ghost plain = { comm_rule_of };

    ghost spells = { SpellsCommRule };

    ghost stops = { λ _. Unit {0} };

    fn read<'a>(
        alloc: Global,
        text: &[u8],
        tokens: &'a [Token],
    ) -> Result<(CommRule, &'a [Token]), Fault> {
        let (names, behind) = names(alloc, text, tokens, Kind::Bar)?;
        if names.as_slice().len() < 2 {
            return Err(Fault::Syntax);
        }
        let (_, behind) = expect(behind, Kind::Arrow)?;
        let (outcome, rest) = expect(behind, Kind::Identifier)?;
        let outcome = word(alloc, text, outcome)?;
        let span = joined_spans(names_span(names.as_slice()), outcome.span);
        Ok((CommRule::new(span, names, outcome), rest))
    }
}

// The parts of an operator, with the bracket and the brace in front of them, and the brace and the comma behind them.
fn opened<'a, T: Part>(
    alloc: Global,
    text: &[u8],
    tokens: &'a [Token],
) -> Result<(Vec<T>, &'a [Token]), Fault>
    requires comma { StopsAt T.stops Kind.Comma }
    requires brace { StopsAt T.stops Kind.RightBrace }
    requires begins { NeverBegins (T.spells text.now) Kind.RightBrace }
    ensures shorter { IfOk result (λ x. length x.1.now < length tokens.now) }
    ensures found { IfOk result (λ x. SpellsOpened (T.spells text.now) (map T.plain x.0.items) tokens.now x.1.now) }
    ensures only { (parts : List T.Plain) (r : List Token) → SpellsOpened (T.spells text.now) parts tokens.now r
        → MatchResult result (λ x. (map T.plain x.0.items ≡ parts) × (x.1.now ≡ r)) (λ e. e ≡ Fault.NoMemory) }
{
    let (_, inner) = expect(tokens, Kind::LeftParen)?;
    let (parts, behind) = braces::<T>(alloc, text, inner)?;
    let (_, rest) = expect(behind, Kind::Comma)?;
    Ok((parts, rest))
}

/// The operator, up to the comma in front of its process term, that a front of the tokens spells, and the rest.
///
/// # Errors
///
/// `Syntax` where no front of them spells one.
#[inline(never)]
pub fn operator<'a>(
    alloc: Global,
    text: &[u8],
    tokens: &'a [Token],
) -> Result<(Operator, &'a [Token]), Fault>
    ensures shorter { IfOk result (λ x. length x.1.now < length tokens.now) }
    ensures found { IfOk result (λ x. SpellsOperation text.now (operation_of x.0) tokens.now x.1.now) }
    ensures only { (o : Operation) (r : List Token) → SpellsOperation text.now o tokens.now r
        → MatchResult result (λ x. (operation_of x.0 ≡ o) × (x.1.now ≡ r)) (λ e. e ≡ Fault.NoMemory) }
{
    let (token, behind) = next(tokens)?;
    match token.kind {
        Kind::Allow => {
            let (sets, rest) = opened::<NameSet>(alloc, text, behind)?;
            Ok((Operator::Allow(sets), rest))
        }
        Kind::Block => {
            let (names, rest) = opened::<Word>(alloc, text, behind)?;
            Ok((Operator::Block(names), rest))
        }
        Kind::Hide => {
            let (names, rest) = opened::<Word>(alloc, text, behind)?;
            Ok((Operator::Hide(names), rest))
        }
        Kind::Rename => {
            let (renamings, rest) = opened::<Renaming>(alloc, text, behind)?;
            Ok((Operator::Rename(renamings), rest))
        }
        Kind::Comm => {
            let (rules, rest) = opened::<CommRule>(alloc, text, behind)?;
            Ok((Operator::Comm(rules), rest))
        }
        _ => Err(Fault::Syntax),
    }
}
