//! How deep tokens nest.
ghost use Rattle.std.specs.Prelude.{◌≡◌, ◌≤◌, ◌<◌, ◌+◌, ◌^◌, true, false, min, IfOk, reverse};
ghost use Rattle.mcrl2_parser.specs.Levels.{effect_of, after, level_of};

use mcrl2_lexer::{Kind, Token};
use std::alloc::{AllocError, Global};

/// The greatest level that a declaration may have.
pub const MAX_LEVEL: usize = 1_000;

/// What a token does to the level.
#[derive(Clone, Copy, Debug, PartialEq, Eq)]
pub(crate) enum Effect {
    /// It opens a bracket.
    Opens,
    /// It closes the innermost open bracket, if there is one.
    Closes,
    /// It counts one, in the innermost open bracket or outside.
    Counts,
    /// It stops all that counts in the innermost open bracket, or outside.
    Stops,
    /// It does nothing.
    Stays,
}

/// What a token of this kind does to the level.
pub(crate) fn effect_of(kind: Kind) -> Effect
    ensures { result ≡ effect_of kind }
{
    match kind {
        Kind::LeftParen | Kind::LeftBracket | Kind::LeftBrace => Effect::Opens,
        Kind::RightParen | Kind::RightBracket | Kind::RightBrace => Effect::Closes,
        Kind::Exclamation | Kind::Hash | Kind::Minus => Effect::Counts,
        Kind::Implies | Kind::Prepend | Kind::Append | Kind::Concat => Effect::Counts,
        Kind::Star | Kind::Div | Kind::Mod | Kind::In => Effect::Counts,
        Kind::EqualsEquals | Kind::NotEquals => Effect::Counts,
        Kind::Less | Kind::LessEquals | Kind::Greater | Kind::GreaterEquals => Effect::Counts,
        Kind::Arrow | Kind::Else | Kind::Sum | Kind::LeftMerge => Effect::Counts,
        Kind::Comma | Kind::Plus | Kind::BarBar | Kind::AndAnd => Effect::Stops,
        _ => Effect::Stays,
    }
}

/// What counts inside the innermost open bracket after a token, itself included, or outside where none is open.
///
/// What counts in each place around that stands in `outer`, the innermost last.
fn step(outer: &mut Vec<usize>, inner: usize, effect: Effect) -> Result<usize, AllocError>
    requires { inner < 2 ^ 62 }
    ensures inner { IfOk result (λ count. count ≡ (after effect inner (reverse outer.old.items)).inner) }
    ensures outer { IfOk result (λ count. reverse outer.new.items ≡ (after effect inner (reverse outer.old.items)).outer) }
{
    match effect {
        Effect::Opens => {
            outer.push(inner)?;
            Ok(1)
        }
        Effect::Closes => match outer.pop() {
            Some(count) => Ok(count),
            None => Ok(inner),
        },
        Effect::Counts => Ok(inner + 1),
        Effect::Stops => { if outer.is_empty() { Ok(0) } else { Ok(1) } }
        Effect::Stays => Ok(inner),
    }
}

/// The level of a declaration's tokens: the greatest level at one of them, or `MAX_LEVEL + 1` where that is greater.
///
/// At each token count: the brackets that are open there, and the signs and words that nest what follows them and that no
/// sign between has stopped. These are the prefix signs, the infix signs of data but `+`, `.`, `&&` and `||`, and `->`, `<>`,
/// `sum` and `||_`. A `,`, `+`, `||` or `&&` stops those of its own bracket, or of the outside, and a closing bracket those in it.
/// The levels are no notion of the mCRL2 language reference: they bound how deep a reader of its grammar has to nest.
///
/// # Errors
///
/// `AllocError` where no memory is left. What is kept is one number for each open bracket, `MAX_LEVEL + 1` at most.
pub fn level(alloc: Global, tokens: &[Token]) -> Result<usize, AllocError>
    ensures { IfOk result (λ level. level ≡ min (level_of tokens.now) (MAX_LEVEL + 1)) }
{
    let mut outer: Vec<usize> = Vec::new(alloc);
    let mut inner = 0;
    let mut total = 0;
    let mut most = 0;
    for token in tokens {
        let effect = effect_of(token.kind);
        let before = inner;
        let closes = effect == Effect::Closes && !outer.is_empty();
        inner = step(&mut outer, inner, effect)?;
        total = match effect {
            Effect::Opens => total + 1,
            Effect::Closes => { if closes { total - before } else { total } }
            _ => total - before + inner,
        };
        if total > MAX_LEVEL {
            return Ok(MAX_LEVEL + 1);
        }
        most = most.max(total);
    }
    Ok(most)
}

/// Whether the level of a declaration's tokens passes [`MAX_LEVEL`]. Few tokens don't nest deeper than there are of them.
///
/// # Errors
///
/// `AllocError` where no memory is left.
pub fn is_too_deep(alloc: Global, tokens: &[Token]) -> Result<bool, AllocError>
    ensures deep { IfOk result (λ deep. deep ≡ true → MAX_LEVEL < level_of tokens.now) }
    ensures fine { IfOk result (λ deep. deep ≡ false → level_of tokens.now ≤ MAX_LEVEL) }
{
    if tokens.len() <= MAX_LEVEL {
        return Ok(false);
    }
    Ok(level(alloc, tokens)? > MAX_LEVEL)
}
