//! Which brackets end in front of an arrow, as the guard of a condition does: one pass over the tokens of a process term tells
//! it for all of them, so that no bracket is read on trial.

ghost use Rattle.std.specs.Prelude.{◌≡◌, IfOk, OnOk, reverse};
ghost use Rattle.mcrl2_parser.specs.Levels.{effect_of};
ghost use Rattle.mcrl2_parser.specs.Arrows.{is_arrow, begins_arrow, with_closer, first_end, closes_at_arrow, ends_at_arrow, HasArrows, names_guard, begins_guard};

use crate::levels::{Effect, effect_of};
use crate::words::next;
use mcrl2_lexer::{Kind, Token};
use std::alloc::{AllocError, Global};

fn is_arrow(kind: Kind) -> bool
    ensures { result ≡ is_arrow kind }
{
    match kind {
        Kind::Arrow => true,
        _ => false,
    }
}

// Takes a token in front of others, into the ends of the brackets that those close, the innermost last.
fn take(ends: &mut Vec<bool>, kind: Kind, arrow: bool) -> Result<(), AllocError>
    ensures { OnOk result (reverse ends.new.items ≡ with_closer (effect_of kind) arrow (reverse ends.old.items)) }
{
    match effect_of(kind) {
        Effect::Opens => {
            let _closed = ends.pop();
        }
        Effect::Closes => ends.push(arrow)?,
        _ => {}
    }
    Ok(())
}

// The last of them, and no where there is none.
fn innermost(ends: &[bool]) -> bool
    ensures { result ≡ first_end (reverse ends.now) }
{
    match ends.last() {
        Some(arrow) => *arrow,
        None => false,
    }
}

// Whether a bracket ends in front of an arrow.
fn closes_at_arrow(tokens: &[Token]) -> bool
    ensures { result ≡ closes_at_arrow tokens.now }
{
    let mut closes = false;
    for token in tokens {
        if closes && is_arrow(token.kind) {
            return true;
        }
        closes = effect_of(token.kind) == Effect::Closes;
    }
    false
}

// For each rest of the tokens, from the empty one on: whether the innermost bracket that is open there ends in front of an
// arrow.
fn table_of(alloc: Global, tokens: &[Token]) -> Result<Vec<bool>, AllocError>
    ensures { IfOk result (λ arrows. HasArrows arrows.items tokens.now) }
{
    let mut arrows = Vec::new(alloc);
    arrows.push(false)?;
    let mut ends = Vec::new(alloc);
    let mut arrow = false;
    let mut at = tokens.len();
    'tokens: while at > 0 {
        at -= 1;
        let kind = tokens[at].kind;
        take(&mut ends, kind, arrow)?;
        arrows.push(innermost(&ends))?;
        arrow = is_arrow(kind);
    }
    Ok(arrows)
}

/// The table of the tokens: for each rest of them, at its length, whether the innermost bracket that is open there ends in front
/// of an arrow. Where no bracket does, the table is empty.
///
/// # Errors
///
/// `AllocError` where no memory is left.
pub fn arrows_of(alloc: Global, tokens: &[Token]) -> Result<Vec<bool>, AllocError>
    ensures { IfOk result (λ arrows. HasArrows arrows.items tokens.now) }
{
    if closes_at_arrow(tokens) {
        table_of(alloc, tokens)
    } else {
        Ok(Vec::new(alloc))
    }
}

// Whether the innermost bracket that is open in front of the tokens ends in front of an arrow, by the table.
fn ends_at_arrow(arrows: &[bool], tokens: &[Token]) -> bool
    requires { HasArrows arrows.now tokens.now }
    ensures { result ≡ ends_at_arrow tokens.now }
{
    let at = tokens.len();
    if at < arrows.len() { arrows[at] } else { false }
}

// Whether a condition begins there, behind a name.
fn names_guard(arrows: &[bool], tokens: &[Token]) -> bool
    requires { HasArrows arrows.now tokens.now }
    ensures { result ≡ names_guard tokens.now }
{
    let Ok((first, rest)) = next(tokens) else {
        return false;
    };
    match first.kind {
        Kind::LeftParen => ends_at_arrow(arrows, rest),
        Kind::Arrow => true,
        _ => false,
    }
}

/// Whether a condition begins there, if a part of a sequence does that is no sum.
pub fn begins_guard(arrows: &[bool], tokens: &[Token]) -> bool
    requires { HasArrows arrows.now tokens.now }
    ensures { result ≡ begins_guard tokens.now }
{
    let Ok((first, rest)) = next(tokens) else {
        return false;
    };
    match first.kind {
        Kind::LeftParen => ends_at_arrow(arrows, rest),
        Kind::Identifier => names_guard(arrows, rest),
        Kind::Delta | Kind::Tau => false,
        Kind::Allow | Kind::Block | Kind::Hide | Kind::Rename | Kind::Comm => false,
        _ => true,
    }
}
