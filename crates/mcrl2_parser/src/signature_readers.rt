//! The readers of what names are declared with.

ghost use Rattle.std.specs.Prelude.{◌≡◌, ◌∷◌, [], List, IfOk, IsErr, IsErrOf, MatchResult, map};
ghost use Rattle.mcrl2_lexer.specs.declared.token.Token.{Token};
ghost use Rattle.mcrl2_syntax.specs.Words.{PlainWord, word_of, Begins};
ghost use Rattle.mcrl2_syntax.specs.SortTrees.{PlainSort, plain_sort};
ghost use Rattle.mcrl2_syntax.specs.ProcessParts.{PlainVarGroup, var_group_of};
ghost use Rattle.mcrl2_syntax.specs.SpelledSorts.{SpellsSort};
ghost use Rattle.mcrl2_syntax.specs.SpelledDeclarations.{SpellsDomain, SpellsSignature};
ghost use Rattle.mcrl2_parser.specs.DeclarationParts.{SpellsParameters};

use crate::lists::{Part, list};
use crate::parts::{names, vars};
use crate::reading::sort;
use crate::words::{Fault, end, expect};
use mcrl2_lexer::{Kind, Token};
use mcrl2_syntax::{SortTree, VarGroup, WordList};
use std::alloc::Global;

/// A sort expression.
impl Part for SortTree {
    ghost Plain = { PlainSort };

    ghost plain = { plain_sort };

    ghost spells = { SpellsSort };

    ghost stops = { λ _. Unit {0} };

    fn read<'a>(
        alloc: Global,
        text: &[u8],
        tokens: &'a [Token],
    ) -> Result<(SortTree, &'a [Token]), Fault> {
        sort(alloc, text, tokens)
    }
}

/// The sort expression that all the tokens spell.
pub fn whole_sort(alloc: Global, text: &[u8], tokens: &[Token]) -> Result<SortTree, Fault>
    ensures found { IfOk result (λ x. SpellsSort text.now (plain_sort x) tokens.now []) }
    ensures only { (s : PlainSort) → SpellsSort text.now s tokens.now []
        → MatchResult result (λ x. plain_sort x ≡ s) (λ e. e ≡ Fault.NoMemory) }
{
    let (sort, rest) = sort(alloc, text, tokens)?;
    end(rest)?;
    Ok(sort)
}

/// The sorts with `#` between them that a front of the tokens spells, and the rest.
pub fn domain<'a>(
    alloc: Global,
    text: &[u8],
    tokens: &'a [Token],
) -> Result<(Vec<SortTree>, &'a [Token]), Fault>
    ensures found { IfOk result (λ x. SpellsDomain text.now (map plain_sort x.0.items) tokens.now x.1.now) }
    ensures only { (ss : List PlainSort) (r : List Token) → SpellsDomain text.now ss tokens.now r → (Begins Kind.Hash r → ⊥)
        → MatchResult result (λ x. (map plain_sort x.0.items ≡ ss) × (x.1.now ≡ r)) (λ e. e ≡ Fault.NoMemory) }
{
    list::<SortTree>(alloc, text, tokens, Kind::Hash)
}

// The only one of some sorts.
fn only_sort(sorts: Vec<SortTree>) -> Result<SortTree, Fault>
    ensures found { IfOk result (λ x. map plain_sort sorts.items ≡ plain_sort x ∷ []) }
    ensures none { IsErr result → (s : PlainSort) → map plain_sort sorts.items ≡ s ∷ [] → ⊥ }
    ensures syntax { IsErrOf result Fault.NoMemory → ⊥ }
{
    let mut sorts = sorts;
    let Some(last) = sorts.pop() else {
        return Err(Fault::Syntax);
    };
    if sorts.is_empty() {
        Ok(last)
    } else {
        Err(Fault::Syntax)
    }
}

/// The names, the domain and the sort that all the tokens spell, as `f, g: S # T -> U` or `c, d: U`.
pub fn signature(
    alloc: Global,
    text: &[u8],
    tokens: &[Token],
) -> Result<(WordList, Vec<SortTree>, SortTree), Fault>
    ensures found { IfOk result (λ x. SpellsSignature text.now (map word_of x.0.items) (map plain_sort x.1.items) (plain_sort x.2) tokens.now) }
    ensures only { (ws : List PlainWord) (ss : List PlainSort) (s : PlainSort) → SpellsSignature text.now ws ss s tokens.now
        → MatchResult result (λ x. (map word_of x.0.items ≡ ws) × (map plain_sort x.1.items ≡ ss) × (plain_sort x.2 ≡ s)) (λ e. e ≡ Fault.NoMemory) }
{
    let (names, rest) = names(alloc, text, tokens, Kind::Comma)?;
    let (_, rest) = expect(rest, Kind::Colon)?;
    let (sorts, rest) = domain(alloc, text, rest)?;
    let Ok((_, rest)) = expect(rest, Kind::Arrow) else {
        end(rest)?;
        let sort = only_sort(sorts)?;
        return Ok((names, Vec::new(alloc), sort));
    };
    let sort = whole_sort(alloc, text, rest)?;
    Ok((names, sorts, sort))
}

/// The parameters of a process in their brackets, if any stand at the front, and the rest.
pub fn parameters<'a>(
    alloc: Global,
    text: &[u8],
    tokens: &'a [Token],
) -> Result<(Vec<VarGroup>, &'a [Token]), Fault>
    ensures found { IfOk result (λ x. SpellsParameters text.now (map var_group_of x.0.items) tokens.now x.1.now) }
    ensures only { (gs : List PlainVarGroup) (r : List Token) → SpellsParameters text.now gs tokens.now r → (Begins Kind.LeftParen r → ⊥)
        → MatchResult result (λ x. (map var_group_of x.0.items ≡ gs) × (x.1.now ≡ r)) (λ e. e ≡ Fault.NoMemory) }
{
    let Ok((_, rest)) = expect(tokens, Kind::LeftParen) else {
        return Ok((Vec::new(alloc), tokens));
    };
    let (groups, rest) = vars(alloc, text, rest)?;
    let (_, rest) = expect(rest, Kind::RightParen)?;
    Ok((groups, rest))
}
