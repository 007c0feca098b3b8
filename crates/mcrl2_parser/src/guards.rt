//! What stands in front of the other parts of a process term: the name of a call, and the guard of a condition.

ghost use Rattle.std.specs.Prelude.{◌≡◌, ◌<◌, List, IfOk, IsTrue, IsFalse, MatchResult, length};
ghost use Rattle.mcrl2_lexer.specs.declared.token.Token.{Token};
ghost use Rattle.mcrl2_syntax.specs.DataTrees.{PlainData, plain_data};
ghost use Rattle.mcrl2_parser.specs.ProcessReading.{BeginsCall, SpellsGuard};

use crate::boxes::boxed_data;
use crate::datas::unit;
use crate::words::{Fault, expect};
use mcrl2_lexer::{Kind, Token};
use mcrl2_syntax::DataTree;
use std::alloc::Global;

/// Whether a call with assignments begins there, which no action does: `P()` or `P(x = d)`.
pub fn begins_call(tokens: &[Token]) -> bool
    ensures call { IsTrue result → BeginsCall tokens.now }
    ensures other { IsFalse result → BeginsCall tokens.now → ⊥ }
{
    let Ok((_, rest)) = expect(tokens, Kind::Identifier) else {
        return false;
    };
    let Ok((_, rest)) = expect(rest, Kind::LeftParen) else {
        return false;
    };
    match expect(rest, Kind::Identifier) {
        Ok((_, rest)) => expect(rest, Kind::Equals).is_ok(),
        Err(_) => expect(rest, Kind::RightParen).is_ok(),
    }
}

/// The guard of a condition at the front of the tokens, and the rest behind its arrow.
///
/// # Errors
///
/// `Syntax` where no condition begins there.
#[inline(never)]
pub fn guard<'a>(
    alloc: Global,
    text: &[u8],
    tokens: &'a [Token],
) -> Result<(Box<DataTree>, &'a [Token]), Fault>
    ensures shorter { IfOk result (λ x. length x.1.now < length tokens.now) }
    ensures found { IfOk result (λ x. SpellsGuard text.now (plain_data x.0.value) tokens.now x.1.now) }
    ensures only { (c : PlainData) (r : List Token) → SpellsGuard text.now c tokens.now r
        → MatchResult result (λ x. (plain_data x.0.value ≡ c) × (x.1.now ≡ r)) (λ e. e ≡ Fault.NoMemory) }
{
    let (tree, rest) = unit(alloc, text, tokens)?;
    let (_, rest) = expect(rest, Kind::Arrow)?;
    let tree = boxed_data(alloc, tree)?;
    Ok((tree, rest))
}
