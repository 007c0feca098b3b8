//! The readers of process terms.
//!
//! Each reads as far as it can. So an operand in front of `||` or `||_` never ends in a sum, nor one in front of `<>` in a
//! condition without an else part: such a sum or condition would have read on. Whether a condition begins somewhere, a table tells
//! (`arrows.rt`), so that nothing is read twice.

ghost use Rattle.std.specs.Prelude.{◌≡◌, ◌<◌, Bool, true, List, IfOk, MatchResult, length};
ghost use Rattle.mcrl2_lexer.specs.declared.token.Token.{Token};
ghost use Rattle.mcrl2_syntax.specs.Words.{Begins};
ghost use Rattle.mcrl2_syntax.specs.DataTrees.{plain_data};
ghost use Rattle.mcrl2_syntax.specs.ProcessTrees.{PlainProcess, plain_process};
ghost use Rattle.mcrl2_syntax.specs.Follow.{NoAction, Follows, Stays, Ends};
ghost use Rattle.mcrl2_syntax.specs.SpelledProcesses.{together, merged, SpellsAtom, SpellsMulti, SpellsOperand, SpellsSum, SpellsCond, SpellsLeft, SpellsMerge, SpellsProcess};
ghost use Rattle.mcrl2_parser.specs.Arrows.{HasArrows};
ghost use Rattle.mcrl2_parser.specs.ProcessReading.{SpellsStep, SpellsGuard, SpellsLast, FindsLast, FindsMulti, FindsPart, FindsOperand, FindsLeft, FindsMerge};

use crate::arrows::begins_guard;
use crate::boxes::{
    boxed_brackets, boxed_choice, boxed_delta, boxed_either, boxed_left_merge, boxed_operator,
    boxed_parallel, boxed_sequence, boxed_sum, boxed_together, boxed_when, push_part,
};
use crate::guards::{begins_call, guard};
use crate::operator_parts::operator;
use crate::parts::{action, call, vars};
use crate::words::{Fault, expect, next};
use mcrl2_lexer::{Kind, Token};
use mcrl2_syntax::{DataTree, ProcTree};
use std::alloc::Global;

/// The process term that a front of the tokens spells, and the rest.
///
/// The rules are those of the mCRL2 language reference: `+` binds least, then `sum`, then `||`, then `||_`, then `->` with its
/// `<>`, then `.`, and `|` most. The table tells of each rest of the tokens where the innermost open bracket ends.
///
/// # Errors
///
/// `Syntax` only where no front of the tokens spells a term with none of `.`, `->`, `(`, `|`, `+`, `||`, `||_` and `<>` behind it,
/// `NoMemory` where no memory is left.
#[cycle(process)]
pub fn process<'a>(
    alloc: Global,
    text: &[u8],
    arrows: &[bool],
    tokens: &'a [Token],
) -> Result<(Box<ProcTree>, &'a [Token]), Fault>
    requires { HasArrows arrows.now tokens.now }
    ensures shorter { IfOk result (λ x. length x.1.now < length tokens.now) }
    ensures found { IfOk result (λ x. SpellsProcess text.now (plain_process x.0.value) tokens.now x.1.now) }
    ensures only { (p : PlainProcess) (r : List Token) → SpellsProcess text.now p tokens.now r → Ends r
        → MatchResult result (λ x. (plain_process x.0.value ≡ p) × (x.1.now ≡ r)) (λ e. e ≡ Fault.NoMemory) }
{
    let (first, end) = merge(alloc, text, arrows, tokens)?;
    let Ok((_, after)) = expect(end, Kind::Plus) else {
        return Ok((first, end));
    };
    let mut parts = Vec::new(alloc);
    push_part(&mut parts, first)?;
    let mut rest = after;
    'parts: loop {
        let (part, end) = merge(alloc, text, arrows, rest)?;
        push_part(&mut parts, part)?;
        let Ok((_, after)) = expect(end, Kind::Plus) else {
            let tree = boxed_choice(alloc, parts)?;
            return Ok((tree, end));
        };
        rest = after;
    }
}

// The terms with `||` between them that a front of the tokens spells, and the rest.
#[cycle(process)]
fn merge<'a>(
    alloc: Global,
    text: &[u8],
    arrows: &[bool],
    tokens: &'a [Token],
) -> Result<(Box<ProcTree>, &'a [Token]), Fault>
    requires { HasArrows arrows.now tokens.now }
    ensures shorter { IfOk result (λ x. length x.1.now < length tokens.now) }
    ensures found { IfOk result (λ x. FindsMerge text.now (plain_process x.0.value) tokens.now x.1.now) }
    ensures only { (o : Bool) (ps : List PlainProcess) (r : List Token) → SpellsMerge text.now o ps tokens.now r → Follows r → Stays true o r
        → MatchResult result (λ x. (plain_process x.0.value ≡ merged ps) × (x.1.now ≡ r)) (λ e. e ≡ Fault.NoMemory) }
{
    let (first, end) = left(alloc, text, arrows, tokens)?;
    let Ok((_, after)) = expect(end, Kind::BarBar) else {
        return Ok((first, end));
    };
    let mut parts = Vec::new(alloc);
    push_part(&mut parts, first)?;
    let mut rest = after;
    'parts: loop {
        let (part, end) = left(alloc, text, arrows, rest)?;
        push_part(&mut parts, part)?;
        let Ok((_, after)) = expect(end, Kind::BarBar) else {
            let tree = boxed_parallel(alloc, parts)?;
            return Ok((tree, end));
        };
        rest = after;
    }
}

// The operands with `||_` between them that a front of the tokens spells, and the rest.
#[cycle(process)]
fn left<'a>(
    alloc: Global,
    text: &[u8],
    arrows: &[bool],
    tokens: &'a [Token],
) -> Result<(Box<ProcTree>, &'a [Token]), Fault>
    requires { HasArrows arrows.now tokens.now }
    ensures shorter { IfOk result (λ x. length x.1.now < length tokens.now) }
    ensures found { IfOk result (λ x. FindsLeft text.now (plain_process x.0.value) tokens.now x.1.now) }
    ensures only { (s o : Bool) (p : PlainProcess) (r : List Token) → SpellsLeft text.now s o p tokens.now r → Follows r → Stays s o r → (Begins Kind.LeftMerge r → ⊥)
        → MatchResult result (λ x. (plain_process x.0.value ≡ p) × (x.1.now ≡ r)) (λ e. e ≡ Fault.NoMemory) }
{
    let (first, end) = operand(alloc, text, arrows, tokens)?;
    let Ok((_, after)) = expect(end, Kind::LeftMerge) else {
        return Ok((first, end));
    };
    let (second, rest) = left(alloc, text, arrows, after)?;
    let tree = boxed_left_merge(alloc, first, second)?;
    Ok((tree, rest))
}

// The operand of `||` or `||_` that a front of the tokens spells, and the rest.
#[cycle(process)]
fn operand<'a>(
    alloc: Global,
    text: &[u8],
    arrows: &[bool],
    tokens: &'a [Token],
) -> Result<(Box<ProcTree>, &'a [Token]), Fault>
    requires { HasArrows arrows.now tokens.now }
    ensures shorter { IfOk result (λ x. length x.1.now < length tokens.now) }
    ensures found { IfOk result (λ x. FindsOperand text.now (plain_process x.0.value) tokens.now x.1.now) }
    ensures only { (s o : Bool) (p : PlainProcess) (r : List Token) → SpellsOperand text.now s o p tokens.now r → Follows r → Stays s o r
        → MatchResult result (λ x. (plain_process x.0.value ≡ p) × (x.1.now ≡ r)) (λ e. e ≡ Fault.NoMemory) }
{
    let (first, end) = part(alloc, text, arrows, tokens)?;
    let Ok((_, after)) = expect(end, Kind::Dot) else {
        return Ok((first, end));
    };
    let mut parts = Vec::new(alloc);
    push_part(&mut parts, first)?;
    let mut rest = after;
    'parts: loop {
        let (part, end) = part(alloc, text, arrows, rest)?;
        push_part(&mut parts, part)?;
        let Ok((_, after)) = expect(end, Kind::Dot) else {
            let tree = boxed_sequence(alloc, parts)?;
            return Ok((tree, end));
        };
        rest = after;
    }
}

// The part of a sequence that a front of the tokens spells, and the rest.
#[cycle(process)]
#[inline(never)]
fn part<'a>(
    alloc: Global,
    text: &[u8],
    arrows: &[bool],
    tokens: &'a [Token],
) -> Result<(Box<ProcTree>, &'a [Token]), Fault>
    requires { HasArrows arrows.now tokens.now }
    ensures shorter { IfOk result (λ x. length x.1.now < length tokens.now) }
    ensures found { IfOk result (λ x. FindsPart text.now (plain_process x.0.value) tokens.now x.1.now) }
    ensures last { (s o : Bool) (p : PlainProcess) (r : List Token) → SpellsLast text.now s o p tokens.now r → Follows r → Stays s o r
        → MatchResult result (λ x. (plain_process x.0.value ≡ p) × (x.1.now ≡ r)) (λ e. e ≡ Fault.NoMemory) }
    ensures multi { (ps : List PlainProcess) (r : List Token) → SpellsMulti text.now ps tokens.now r → NoAction r → (Begins Kind.Arrow r → ⊥)
        → MatchResult result (λ x. (plain_process x.0.value ≡ together ps) × (x.1.now ≡ r)) (λ e. e ≡ Fault.NoMemory) }
{
    if expect(tokens, Kind::Sum).is_ok() {
        return sum(alloc, text, arrows, tokens);
    }
    if begins_guard(arrows, tokens) {
        let (guard, rest) = guard(alloc, text, tokens)?;
        return condition(alloc, text, arrows, guard, rest);
    }
    multi(alloc, text, arrows, tokens)
}

// The atoms with `|` between them that a front of the tokens spells, and the rest.
#[cycle(process)]
fn multi<'a>(
    alloc: Global,
    text: &[u8],
    arrows: &[bool],
    tokens: &'a [Token],
) -> Result<(Box<ProcTree>, &'a [Token]), Fault>
    requires { HasArrows arrows.now tokens.now }
    ensures shorter { IfOk result (λ x. length x.1.now < length tokens.now) }
    ensures found { IfOk result (λ x. FindsMulti text.now (plain_process x.0.value) tokens.now x.1.now) }
    ensures only { (ps : List PlainProcess) (r : List Token) → SpellsMulti text.now ps tokens.now r → NoAction r
        → MatchResult result (λ x. (plain_process x.0.value ≡ together ps) × (x.1.now ≡ r)) (λ e. e ≡ Fault.NoMemory) }
{
    let (first, end) = atom(alloc, text, arrows, tokens)?;
    let Ok((_, after)) = expect(end, Kind::Bar) else {
        return Ok((first, end));
    };
    let mut parts = Vec::new(alloc);
    push_part(&mut parts, first)?;
    let mut rest = after;
    'parts: loop {
        let (part, end) = atom(alloc, text, arrows, rest)?;
        push_part(&mut parts, part)?;
        let Ok((_, after)) = expect(end, Kind::Bar) else {
            let tree = boxed_together(alloc, parts)?;
            return Ok((tree, end));
        };
        rest = after;
    }
}

// The call or the action that a front of the tokens spells, and the rest.
fn step<'a>(
    alloc: Global,
    text: &[u8],
    tokens: &'a [Token],
) -> Result<(ProcTree, &'a [Token]), Fault>
    ensures shorter { IfOk result (λ x. length x.1.now < length tokens.now) }
    ensures found { IfOk result (λ x. SpellsStep text.now (plain_process x.0) tokens.now x.1.now) }
    ensures only { (p : PlainProcess) (r : List Token) → SpellsStep text.now p tokens.now r → (Begins Kind.LeftParen r → ⊥)
        → MatchResult result (λ x. (plain_process x.0 ≡ p) × (x.1.now ≡ r)) (λ e. e ≡ Fault.NoMemory) }
{
    if begins_call(tokens) {
        return call(alloc, text, tokens);
    }
    let (action, rest) = action(alloc, text, tokens)?;
    Ok((ProcTree::action_at(action), rest))
}

// The same in a box.
#[inline(never)]
fn boxed_step<'a>(
    alloc: Global,
    text: &[u8],
    tokens: &'a [Token],
) -> Result<(Box<ProcTree>, &'a [Token]), Fault>
    ensures shorter { IfOk result (λ x. length x.1.now < length tokens.now) }
    ensures found { IfOk result (λ x. SpellsStep text.now (plain_process x.0.value) tokens.now x.1.now) }
    ensures only { (p : PlainProcess) (r : List Token) → SpellsStep text.now p tokens.now r → (Begins Kind.LeftParen r → ⊥)
        → MatchResult result (λ x. (plain_process x.0.value ≡ p) × (x.1.now ≡ r)) (λ e. e ≡ Fault.NoMemory) }
{
    let (tree, rest) = step(alloc, text, tokens)?;
    let tree = Box::new(alloc, tree)?;
    Ok((tree, rest))
}

// The sum that a front of the tokens spells, and the rest.
#[cycle(process)]
#[inline(never)]
fn sum<'a>(
    alloc: Global,
    text: &[u8],
    arrows: &[bool],
    tokens: &'a [Token],
) -> Result<(Box<ProcTree>, &'a [Token]), Fault>
    requires { HasArrows arrows.now tokens.now }
    ensures shorter { IfOk result (λ x. length x.1.now < length tokens.now) }
    ensures found { IfOk result (λ x. FindsLast text.now (plain_process x.0.value) tokens.now x.1.now) }
    ensures only { (o : Bool) (p : PlainProcess) (r : List Token) → SpellsSum text.now o p tokens.now r → Follows r → Stays true o r
        → MatchResult result (λ x. (plain_process x.0.value ≡ p) × (x.1.now ≡ r)) (λ e. e ≡ Fault.NoMemory) }
{
    let (word, rest) = expect(tokens, Kind::Sum)?;
    let (variables, rest) = vars(alloc, text, rest)?;
    let (_, rest) = expect(rest, Kind::Dot)?;
    let (inner, rest) = merge(alloc, text, arrows, rest)?;
    let tree = boxed_sum(alloc, word, variables, inner)?;
    Ok((tree, rest))
}

// The condition with that guard in front of the tokens, and the rest.
#[cycle(process)]
#[inline(never)]
fn condition<'a>(
    alloc: Global,
    text: &[u8],
    arrows: &[bool],
    guard: Box<DataTree>,
    tokens: &'a [Token],
) -> Result<(Box<ProcTree>, &'a [Token]), Fault>
    requires { HasArrows arrows.now tokens.now }
    ensures shorter { IfOk result (λ x. length x.1.now < length tokens.now) }
    ensures found { IfOk result (λ x. (ts : List Token) → SpellsGuard text.now (plain_data guard.value) ts tokens.now → FindsLast text.now (plain_process x.0.value) ts x.1.now) }
    ensures only { (ts : List Token) (s o : Bool) (p : PlainProcess) (r : List Token) → SpellsGuard text.now (plain_data guard.value) ts tokens.now → SpellsCond text.now s o p ts r → Follows r
        → Stays s o r → MatchResult result (λ x. (plain_process x.0.value ≡ p) × (x.1.now ≡ r)) (λ e. e ≡ Fault.NoMemory) }
{
    let (then, rest) = operand(alloc, text, arrows, tokens)?;
    match expect(rest, Kind::Else) {
        Ok((_, after)) => {
            let (other, rest) = operand(alloc, text, arrows, after)?;
            let tree = boxed_either(alloc, guard, then, other)?;
            Ok((tree, rest))
        }
        Err(_) => {
            let tree = boxed_when(alloc, guard, then)?;
            Ok((tree, rest))
        }
    }
}

// The term without `+`, `||`, `||_`, `.`, `|`, `sum` and `->` outside brackets that a front of the tokens spells, and the rest.
#[cycle(process)]
#[inline(never)]
fn atom<'a>(
    alloc: Global,
    text: &[u8],
    arrows: &[bool],
    tokens: &'a [Token],
) -> Result<(Box<ProcTree>, &'a [Token]), Fault>
    requires { HasArrows arrows.now tokens.now }
    ensures shorter { IfOk result (λ x. length x.1.now < length tokens.now) }
    ensures found { IfOk result (λ x. SpellsAtom text.now (plain_process x.0.value) tokens.now x.1.now) }
    ensures only { (p : PlainProcess) (r : List Token) → SpellsAtom text.now p tokens.now r → (Begins Kind.LeftParen r → ⊥)
        → MatchResult result (λ x. (plain_process x.0.value ≡ p) × (x.1.now ≡ r)) (λ e. e ≡ Fault.NoMemory) }
{
    let (first, rest) = next(tokens)?;
    match first.kind {
        Kind::Delta => {
            let tree = boxed_delta(alloc, first)?;
            Ok((tree, rest))
        }
        Kind::LeftParen => {
            let (inner, rest) = process(alloc, text, arrows, rest)?;
            let (close, rest) = expect(rest, Kind::RightParen)?;
            let tree = boxed_brackets(alloc, first, close, inner)?;
            Ok((tree, rest))
        }
        Kind::Allow | Kind::Block | Kind::Hide | Kind::Rename | Kind::Comm => {
            let (operator, rest) = operator(alloc, text, tokens)?;
            let (inner, rest) = process(alloc, text, arrows, rest)?;
            let (close, rest) = expect(rest, Kind::RightParen)?;
            let tree = boxed_operator(alloc, first, close, operator, inner)?;
            Ok((tree, rest))
        }
        _ => boxed_step(alloc, text, tokens),
    }
}
