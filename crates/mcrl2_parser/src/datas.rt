//! The readers of data expressions.
//!
//! A reader fails with [`Fault::Syntax`] only where no front of the tokens spells what it reads and ends before what can't
//! follow it; else for want of memory alone. Forms and signs are those of the mCRL2 language reference. What stands between
//! infix signs is read in one row and joined level by level afterwards, so that a bracket takes few frames of the stack.

ghost use Rattle.std.specs.Prelude.{◌≡◌, ◌<◌, ◌≤◌, ◌∷◌, List, Some, IfOk, IfSome, IsNone, MatchResult, length, map};
ghost use Rattle.mcrl2_lexer.specs.declared.kind.Kind.TheVariants.{Identifier, LeftParen, LeftBracket};
ghost use Rattle.mcrl2_lexer.specs.declared.token.Token.{Token};
ghost use Rattle.mcrl2_syntax.specs.DataTrees.{PlainData, Operand, plain_data, plain_operands};
ghost use Rattle.mcrl2_syntax.specs.declared.data_tree.InfixSign.{InfixSign};
ghost use Rattle.mcrl2_syntax.specs.InfixSigns.{prefix_of};
ghost use Rattle.mcrl2_syntax.specs.Follow.{Stops, Closed};
ghost use Rattle.mcrl2_syntax.specs.SpelledData.{SpellsUnit, SpellsItems, SpellsData};
ghost use Rattle.mcrl2_parser.specs.Operands.{SpellsSign, SpellsOperands};

use crate::joining::joined;
use crate::lists::push_sparing;
use crate::words::{Fault, expect, next, word};
use mcrl2_lexer::{Kind, Token};
use mcrl2_syntax::{
    DataTree, InfixSign, PrefixSign, infix_sign, joined_spans, prefix_sign, token_span,
};
use std::alloc::Global;

/// The expression without infix signs that a front of the tokens spells, and the rest.
#[cycle(datas)]
pub fn unit<'a>(
    alloc: Global,
    text: &[u8],
    tokens: &'a [Token],
) -> Result<(DataTree, &'a [Token]), Fault>
    ensures shorter { IfOk result (λ x. length x.1.now < length tokens.now) }
    ensures found { IfOk result (λ x. SpellsUnit text.now (plain_data x.0) tokens.now x.1.now) }
    ensures only { (d : PlainData) (r : List Token) → SpellsUnit text.now d tokens.now r → Stops 0 r
        → MatchResult result (λ x. (plain_data x.0 ≡ d) × (x.1.now ≡ r)) (λ e. e ≡ Fault.NoMemory) }
{
    let (token, rest) = next(tokens)?;
    if let Some(sign) = prefix_sign(token.kind) {
        return prefixed(alloc, text, token, sign, rest);
    }
    match token.kind {
        Kind::Identifier => named(alloc, text, token, rest),
        Kind::Numeral => Ok((DataTree::numeral_at(word(alloc, text, token)?), rest)),
        Kind::TrueWord => Ok((DataTree::true_at(token_span(token, token)), rest)),
        Kind::FalseWord => Ok((DataTree::false_at(token_span(token, token)), rest)),
        Kind::LeftBracket => listed(alloc, text, token, rest),
        Kind::LeftParen => bracketed(alloc, text, token, rest),
        _ => Err(Fault::Syntax),
    }
}

// The expression that a prefix sign begins, and the rest.
#[cycle(datas)]
#[inline(never)]
fn prefixed<'a>(
    alloc: Global,
    text: &[u8],
    token: &Token,
    sign: PrefixSign,
    tokens: &'a [Token],
) -> Result<(DataTree, &'a [Token]), Fault>
    requires { prefix_of token.now.kind ≡ Some sign }
    ensures shorter { IfOk result (λ x. length x.1.now < length tokens.now) }
    ensures found { IfOk result (λ x. SpellsUnit text.now (plain_data x.0) (token.now ∷ tokens.now) x.1.now) }
    ensures only { (d : PlainData) (r : List Token) → SpellsUnit text.now d (token.now ∷ tokens.now) r → Stops 0 r
        → MatchResult result (λ x. (plain_data x.0 ≡ d) × (x.1.now ≡ r)) (λ e. e ≡ Fault.NoMemory) }
{
    let (inner, rest) = unit(alloc, text, tokens)?;
    let span = joined_spans(token_span(token, token), inner.span());
    let tree = DataTree::prefix_at(alloc, span, sign, inner)?;
    Ok((tree, rest))
}

// The name, with arguments where a bracket stands behind it, and the rest.
#[cycle(datas)]
#[inline(never)]
fn named<'a>(
    alloc: Global,
    text: &[u8],
    name: &Token,
    tokens: &'a [Token],
) -> Result<(DataTree, &'a [Token]), Fault>
    requires { name.now.kind ≡ Identifier }
    ensures shorter { IfOk result (λ x. length x.1.now ≤ length tokens.now) }
    ensures found { IfOk result (λ x. SpellsUnit text.now (plain_data x.0) (name.now ∷ tokens.now) x.1.now) }
    ensures only { (d : PlainData) (r : List Token) → SpellsUnit text.now d (name.now ∷ tokens.now) r → Stops 0 r
        → MatchResult result (λ x. (plain_data x.0 ≡ d) × (x.1.now ≡ r)) (λ e. e ≡ Fault.NoMemory) }
{
    let name_word = word(alloc, text, name)?;
    let Ok((_, inner)) = expect(tokens, Kind::LeftParen) else {
        return Ok((DataTree::name_at(name_word), tokens));
    };
    let (arguments, rest) = items(alloc, text, inner)?;
    let (close, rest) = expect(rest, Kind::RightParen)?;
    let span = token_span(name, close);
    let tree = DataTree::apply_at(alloc, span, name_word, arguments)?;
    Ok((tree, rest))
}

// The list that an opening bracket begins, and the rest.
#[cycle(datas)]
#[inline(never)]
fn listed<'a>(
    alloc: Global,
    text: &[u8],
    opening: &Token,
    tokens: &'a [Token],
) -> Result<(DataTree, &'a [Token]), Fault>
    requires { opening.now.kind ≡ LeftBracket }
    ensures shorter { IfOk result (λ x. length x.1.now < length tokens.now) }
    ensures found { IfOk result (λ x. SpellsUnit text.now (plain_data x.0) (opening.now ∷ tokens.now) x.1.now) }
    ensures only { (d : PlainData) (r : List Token) → SpellsUnit text.now d (opening.now ∷ tokens.now) r
        → MatchResult result (λ x. (plain_data x.0 ≡ d) × (x.1.now ≡ r)) (λ e. e ≡ Fault.NoMemory) }
{
    if let Ok((close, rest)) = expect(tokens, Kind::RightBracket) {
        let span = token_span(opening, close);
        let tree = DataTree::list_at(alloc, span, Vec::new(alloc))?;
        return Ok((tree, rest));
    }
    let (elements, rest) = items(alloc, text, tokens)?;
    let (close, rest) = expect(rest, Kind::RightBracket)?;
    let tree = DataTree::list_at(alloc, token_span(opening, close), elements)?;
    Ok((tree, rest))
}

// The expression in brackets that an opening bracket begins, and the rest.
#[cycle(datas)]
#[inline(never)]
fn bracketed<'a>(
    alloc: Global,
    text: &[u8],
    opening: &Token,
    tokens: &'a [Token],
) -> Result<(DataTree, &'a [Token]), Fault>
    requires { opening.now.kind ≡ LeftParen }
    ensures shorter { IfOk result (λ x. length x.1.now < length tokens.now) }
    ensures found { IfOk result (λ x. SpellsUnit text.now (plain_data x.0) (opening.now ∷ tokens.now) x.1.now) }
    ensures only { (d : PlainData) (r : List Token) → SpellsUnit text.now d (opening.now ∷ tokens.now) r
        → MatchResult result (λ x. (plain_data x.0 ≡ d) × (x.1.now ≡ r)) (λ e. e ≡ Fault.NoMemory) }
{
    let (inner, rest) = data(alloc, text, tokens)?;
    let (close, rest) = expect(rest, Kind::RightParen)?;
    let tree = DataTree::brackets_at(alloc, token_span(opening, close), inner)?;
    Ok((tree, rest))
}

/// The expressions with commas between them that a front of the tokens spells, and the rest.
#[cycle(datas)]
pub fn items<'a>(
    alloc: Global,
    text: &[u8],
    tokens: &'a [Token],
) -> Result<(Vec<DataTree>, &'a [Token]), Fault>
    ensures shorter { IfOk result (λ x. length x.1.now < length tokens.now) }
    ensures found { IfOk result (λ x. SpellsItems text.now (map plain_data x.0.items) tokens.now x.1.now) }
    ensures only { (ds : List PlainData) (r : List Token) → SpellsItems text.now ds tokens.now r → Closed r
        → MatchResult result (λ x. (map plain_data x.0.items ≡ ds) × (x.1.now ≡ r)) (λ e. e ≡ Fault.NoMemory) }
{
    let mut list = Vec::new(alloc);
    let mut rest = tokens;
    loop {
        let (item, behind) = data(alloc, text, rest)?;
        push_sparing(&mut list, item)?;
        let Ok((_, after)) = expect(behind, Kind::Comma) else {
            list.shrink_to_fit();
            return Ok((list, behind));
        };
        rest = after;
    }
}

/// The data expression that a front of the tokens spells, and the rest.
#[cycle(datas)]
pub fn data<'a>(
    alloc: Global,
    text: &[u8],
    tokens: &'a [Token],
) -> Result<(DataTree, &'a [Token]), Fault>
    ensures shorter { IfOk result (λ x. length x.1.now < length tokens.now) }
    ensures found { IfOk result (λ x. SpellsData text.now (plain_data x.0) tokens.now x.1.now) }
    ensures only { (d : PlainData) (r : List Token) → SpellsData text.now d tokens.now r → Stops 11 r
        → MatchResult result (λ x. (plain_data x.0 ≡ d) × (x.1.now ≡ r)) (λ e. e ≡ Fault.NoMemory) }
{
    let (first, rest) = unit(alloc, text, tokens)?;
    if sign(rest).is_none() {
        return Ok((first, rest));
    }
    let (operands, rest) = operands(alloc, text, rest)?;
    let tree = joined(alloc, first, operands)?;
    Ok((tree, rest))
}

// The expressions without infix signs, each behind a sign, that a front of the tokens spells, and the rest.
#[cycle(datas)]
#[inline(never)]
fn operands<'a>(
    alloc: Global,
    text: &[u8],
    tokens: &'a [Token],
) -> Result<(Vec<(InfixSign, DataTree)>, &'a [Token]), Fault>
    ensures shorter { IfOk result (λ x. length x.1.now ≤ length tokens.now) }
    ensures found { IfOk result (λ x. SpellsOperands text.now (plain_operands x.0.items) tokens.now x.1.now) }
    ensures only { (os : List Operand) (r : List Token) → SpellsOperands text.now os tokens.now r → Stops 11 r
        → MatchResult result (λ x. (plain_operands x.0.items ≡ os) × (x.1.now ≡ r)) (λ e. e ≡ Fault.NoMemory) }
{
    let mut operands = Vec::new(alloc);
    let mut rest = tokens;
    while let Some((sign, behind)) = sign(rest) {
        let (operand, after) = unit(alloc, text, behind)?;
        operands.push((sign, operand))?;
        rest = after;
    }
    Ok((operands, rest))
}

// The infix sign that the tokens begin with, and the rest.
fn sign(tokens: &[Token]) -> Option<(InfixSign, &[Token])>
    ensures shorter { IfSome result (λ x. length x.1.now < length tokens.now) }
    ensures some { IfSome result (λ x. SpellsSign x.0 tokens.now x.1.now) }
    ensures none { IsNone result → (sign : InfixSign) (r : List Token) → SpellsSign sign tokens.now r → ⊥ }
{
    let Ok((token, rest)) = next(tokens) else {
        return None;
    };
    let sign = infix_sign(token.kind)?;
    Some((sign, rest))
}
