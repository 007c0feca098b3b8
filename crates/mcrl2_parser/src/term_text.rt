//! The data expressions that a text is.

ghost use Rattle.std.specs.Prelude.{◌≡◌, ◌<◌, List, IfOk, IsErrOf, MatchResult, length, map};
ghost use Rattle.mcrl2_lexer.specs.declared.token.Token.{Token};
ghost use Rattle.mcrl2_syntax.specs.DataTrees.{PlainData, plain_data};
ghost use Rattle.mcrl2_parser.specs.TermTexts.{IsDataText, IsTupleLine, SpellsTuple, of_reading};

use crate::datas::{data, items};
use crate::readable::readable_tokens;
use crate::words::{Fault, end, expect};
use mcrl2_lexer::{Kind, Token};
use mcrl2_syntax::DataTree;
use std::alloc::Global;

/// Why a text gives no data expressions.
#[derive(Clone, Copy, Debug, PartialEq, Eq)]
pub enum TermFault {
    /// The text isn't that of a data expression, or of a tuple of them.
    NotATerm,
    /// No memory was left.
    NoMemory,
}

impl From<Fault> for TermFault {
    ghost from_gives = { λ fault given. given ≡ of_reading fault };

    fn from(fault: Fault) -> Self {
        match fault {
            Fault::NoMemory => TermFault::NoMemory,
            Fault::Syntax => TermFault::NotATerm,
        }
    }
}

/// The data expression that a text spells, as `x + 1`. White space and comments may stand around its tokens.
///
/// # Errors
///
/// `NotATerm` where the text has no tokens, where their level passes [`MAX_LEVEL`](crate::MAX_LEVEL), and where they spell no
/// data expression. `NoMemory` where no memory is left.
pub fn parse_data(alloc: Global, text: &[u8]) -> Result<DataTree, TermFault>
    ensures found { IfOk result (λ tree. IsDataText text.now (plain_data tree)) }
    ensures single { IfOk result (λ tree. (d : PlainData) → IsDataText text.now d → plain_data tree ≡ d) }
    ensures not_a_term { IsErrOf result TermFault.NotATerm → (d : PlainData) → IsDataText text.now d → ⊥ }
{
    let tokens = readable_tokens(alloc, text)?;
    let (tree, rest) = data(alloc, text, tokens.list())?;
    end(rest)?;
    Ok(tree)
}

// The data expressions in brackets that a front of the tokens spells, and the rest.
fn tuple<'a>(
    alloc: Global,
    text: &[u8],
    tokens: &'a [Token],
) -> Result<(Vec<DataTree>, &'a [Token]), Fault>
    ensures found { IfOk result (λ x. SpellsTuple text.now (map plain_data x.0.items) tokens.now x.1.now) }
    ensures only { (ds : List PlainData) (r : List Token) → SpellsTuple text.now ds tokens.now r
        → MatchResult result (λ x. (map plain_data x.0.items ≡ ds) × (x.1.now ≡ r)) (λ e. e ≡ Fault.NoMemory) }
{
    let (_, inner) = expect(tokens, Kind::LeftParen)?;
    if let Ok((_, rest)) = expect(inner, Kind::RightParen) {
        return Ok((Vec::new(alloc), rest));
    }
    let (trees, behind) = items(alloc, text, inner)?;
    let (_, rest) = expect(behind, Kind::RightParen)?;
    Ok((trees, rest))
}

/// The data expressions that a line spells, in brackets and with commas between them, as `(x, y + 1)` or `()`. White space and
/// comments may stand around its tokens.
///
/// # Errors
///
/// `NotATerm` where the line has no tokens, where their level passes [`MAX_LEVEL`](crate::MAX_LEVEL), and where they spell no
/// data expressions in brackets. `NoMemory` where no memory is left.
pub fn parse_tuple(alloc: Global, line: &[u8]) -> Result<Vec<DataTree>, TermFault>
    ensures found { IfOk result (λ trees. IsTupleLine line.now (map plain_data trees.items)) }
    ensures single { IfOk result (λ trees. (ds : List PlainData) → IsTupleLine line.now ds → map plain_data trees.items ≡ ds) }
    ensures not_a_term { IsErrOf result TermFault.NotATerm → (ds : List PlainData) → IsTupleLine line.now ds → ⊥ }
{
    let tokens = readable_tokens(alloc, line)?;
    let (trees, rest) = tuple(alloc, line, tokens.list())?;
    end(rest)?;
    Ok(trees)
}
