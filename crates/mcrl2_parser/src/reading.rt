//! The readers.

ghost use Rattle.std.specs.Prelude.{◌≡◌, List, IfOk, IsErrOf, MatchResult};
ghost use Rattle.mcrl2_lexer.specs.declared.token.Token.{Token};
ghost use Rattle.mcrl2_parser.specs.declared.words.Fault.TheVariants.{NoMemory};
ghost use Rattle.mcrl2_syntax.specs.SortTrees.{PlainSort, plain_sort};
ghost use Rattle.mcrl2_syntax.specs.SpelledSorts.{SpellsSort};

use crate::words::{Fault, expect, next, word};
use mcrl2_lexer::{Kind, Token};
use mcrl2_syntax::{SortTree, token_span};
use std::alloc::Global;

// The sort expression that a front of the tokens spells, and the rest.
#[tactic(auto, using(crate::proofs::Sorts::exits))]
fn sort_front<'a>(
    alloc: Global,
    text: &[u8],
    tokens: &'a [Token],
) -> Result<(SortTree, &'a [Token]), Fault>
    ensures found { IfOk result (λ x. SpellsSort text.now (plain_sort x.0) tokens.now x.1.now) }
    ensures none { IsErrOf result Fault.Syntax → (s : PlainSort) (rest : List Token) → SpellsSort text.now s tokens.now rest → ⊥ }
{
    let (token, rest) = next(tokens)?;
    match token.kind {
        Kind::BoolWord => Ok((SortTree::bool_at(token_span(token, token)), rest)),
        Kind::PosWord => Ok((SortTree::pos_at(token_span(token, token)), rest)),
        Kind::NatWord => Ok((SortTree::nat_at(token_span(token, token)), rest)),
        Kind::IntWord => Ok((SortTree::int_at(token_span(token, token)), rest)),
        Kind::Identifier => Ok((SortTree::name_at(word(alloc, text, token)?), rest)),
        Kind::ListWord => {
            let (_, rest) = expect(rest, Kind::LeftParen)?;
            let (element, rest) = sort_front(alloc, text, rest)?;
            let (close, rest) = expect(rest, Kind::RightParen)?;
            let tree = SortTree::list_at(alloc, token_span(token, close), element)?;
            Ok((tree, rest))
        }
        Kind::LeftParen => {
            let (inner, rest) = sort_front(alloc, text, rest)?;
            let (close, rest) = expect(rest, Kind::RightParen)?;
            let tree = SortTree::brackets_at(alloc, token_span(token, close), inner)?;
            Ok((tree, rest))
        }
        _ => Err(Fault::Syntax),
    }
}

/// The sort expression that a front of the tokens spells, and the rest.
pub fn sort<'a>(
    alloc: Global,
    text: &[u8],
    tokens: &'a [Token],
) -> Result<(SortTree, &'a [Token]), Fault>
    ensures found { IfOk result (λ x. SpellsSort text.now (plain_sort x.0) tokens.now x.1.now) }
    ensures only { (s : PlainSort) (r : List Token) → SpellsSort text.now s tokens.now r
        → MatchResult result (λ x. (plain_sort x.0 ≡ s) × (x.1.now ≡ r)) (λ e. e ≡ Fault.NoMemory) }
{
    sort_front(alloc, text, tokens)
}
