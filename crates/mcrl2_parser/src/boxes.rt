//! Process terms in boxes. A reader that goes down holds boxes alone, so that a level takes little of the stack: what moves whole
//! trees stands here, in functions that go down no further.

ghost use Rattle.std.specs.Prelude.{◌≡◌, ◌++◌, ◌∷◌, [], IfErr, IfOk, OnOk, map};
ghost use Rattle.mcrl2_syntax.specs.Words.{span_of, joined};
ghost use Rattle.mcrl2_syntax.specs.DataTrees.{plain_data, data_span};
ghost use Rattle.mcrl2_syntax.specs.ProcessParts.{var_group_of};
ghost use Rattle.mcrl2_syntax.specs.ProcessTrees.{plain_process, process_span, delta, within, sum, when, either, left_merge};
ghost use Rattle.mcrl2_syntax.specs.SpelledLabels.{operated};
ghost use Rattle.mcrl2_syntax.specs.SpelledProcesses.{together, sequenced, merged, chosen};
ghost use Rattle.mcrl2_parser.specs.Operators.{operation_of};

use crate::chains::{in_choice, in_parallel, in_sequence};
use crate::operators::Operator;
use crate::together::at_once;
use crate::words::Fault;
use mcrl2_lexer::Token;
use mcrl2_syntax::{DataTree, ProcTree, VarGroup, joined_spans, token_span};
use std::alloc::Global;

/// A data expression.
#[inline(never)]
pub fn boxed_data(alloc: Global, tree: DataTree) -> Result<Box<DataTree>, Fault>
    ensures tree { IfOk result (λ boxed. plain_data boxed.value ≡ plain_data tree) }
    ensures no_memory { IfErr result (λ e. e ≡ Fault.NoMemory) }
{
    Ok(Box::new(alloc, tree)?)
}

/// Puts a part behind the others.
#[inline(never)]
pub fn push_part(parts: &mut Vec<ProcTree>, part: Box<ProcTree>) -> Result<(), Fault>
    ensures pushed { OnOk result (map plain_process parts.new.items ≡ map plain_process parts.old.items ++ plain_process part.value ∷ []) }
    ensures no_memory { IfErr result (λ e. e ≡ Fault.NoMemory) }
{
    parts.push(Box::into_inner(part))?;
    Ok(())
}

/// Operands of `|` in one tree.
#[inline(never)]
pub fn boxed_together(alloc: Global, parts: Vec<ProcTree>) -> Result<Box<ProcTree>, Fault>
    ensures tree { IfOk result (λ tree. plain_process tree.value ≡ together (map plain_process parts.items)) }
    ensures no_memory { IfErr result (λ e. e ≡ Fault.NoMemory) }
{
    let tree = at_once(alloc, parts)?;
    Ok(Box::new(alloc, tree)?)
}

/// Parts of a sequence in one tree.
#[inline(never)]
pub fn boxed_sequence(alloc: Global, parts: Vec<ProcTree>) -> Result<Box<ProcTree>, Fault>
    ensures tree { IfOk result (λ tree. plain_process tree.value ≡ sequenced (map plain_process parts.items)) }
    ensures no_memory { IfErr result (λ e. e ≡ Fault.NoMemory) }
{
    Ok(Box::new(alloc, in_sequence(parts))?)
}

/// A process that goes first, side by side with another one.
#[inline(never)]
pub fn boxed_left_merge(
    alloc: Global,
    first: Box<ProcTree>,
    second: Box<ProcTree>,
) -> Result<Box<ProcTree>, Fault>
    ensures tree { IfOk result (λ tree. plain_process tree.value
        ≡ left_merge (joined (process_span (plain_process first.value)) (process_span (plain_process second.value))) (plain_process first.value) (plain_process second.value)) }
    ensures no_memory { IfErr result (λ e. e ≡ Fault.NoMemory) }
{
    let span = joined_spans(first.span(), second.span());
    let tree = ProcTree::left_merge_at(span, first, second);
    Ok(Box::new(alloc, tree)?)
}

/// Operands of `||` in one tree.
#[inline(never)]
pub fn boxed_parallel(alloc: Global, parts: Vec<ProcTree>) -> Result<Box<ProcTree>, Fault>
    ensures tree { IfOk result (λ tree. plain_process tree.value ≡ merged (map plain_process parts.items)) }
    ensures no_memory { IfErr result (λ e. e ≡ Fault.NoMemory) }
{
    Ok(Box::new(alloc, in_parallel(parts))?)
}

/// Operands of `+` in one tree.
#[inline(never)]
pub fn boxed_choice(alloc: Global, parts: Vec<ProcTree>) -> Result<Box<ProcTree>, Fault>
    ensures tree { IfOk result (λ tree. plain_process tree.value ≡ chosen (map plain_process parts.items)) }
    ensures no_memory { IfErr result (λ e. e ≡ Fault.NoMemory) }
{
    Ok(Box::new(alloc, in_choice(parts))?)
}

/// The process that does nothing, at its word.
#[inline(never)]
pub fn boxed_delta(alloc: Global, word: &Token) -> Result<Box<ProcTree>, Fault>
    ensures tree { IfOk result (λ tree. plain_process tree.value ≡ delta (span_of word.now word.now)) }
    ensures no_memory { IfErr result (λ e. e ≡ Fault.NoMemory) }
{
    Ok(Box::new(alloc, ProcTree::delta_at(token_span(word, word)))?)
}

/// A process in these brackets.
#[inline(never)]
pub fn boxed_brackets(
    alloc: Global,
    opening: &Token,
    close: &Token,
    inner: Box<ProcTree>,
) -> Result<Box<ProcTree>, Fault>
    ensures tree { IfOk result (λ tree. plain_process tree.value ≡ within (span_of opening.now close.now) (plain_process inner.value)) }
    ensures no_memory { IfErr result (λ e. e ≡ Fault.NoMemory) }
{
    let tree = ProcTree::brackets_at(token_span(opening, close), inner);
    Ok(Box::new(alloc, tree)?)
}

/// A process under an operator, from the operator's word to the closing bracket.
#[inline(never)]
pub fn boxed_operator(
    alloc: Global,
    word: &Token,
    close: &Token,
    operator: Operator,
    inner: Box<ProcTree>,
) -> Result<Box<ProcTree>, Fault>
    ensures tree { IfOk result (λ tree. plain_process tree.value ≡ operated (span_of word.now close.now) (operation_of operator) (plain_process inner.value)) }
    ensures no_memory { IfErr result (λ e. e ≡ Fault.NoMemory) }
{
    let tree = operator.around(token_span(word, close), inner);
    Ok(Box::new(alloc, tree)?)
}

/// A process for each value of the variables, from the word `sum` on.
#[inline(never)]
pub fn boxed_sum(
    alloc: Global,
    word: &Token,
    variables: Vec<VarGroup>,
    inner: Box<ProcTree>,
) -> Result<Box<ProcTree>, Fault>
    ensures tree { IfOk result (λ tree. plain_process tree.value
        ≡ sum (joined (span_of word.now word.now) (process_span (plain_process inner.value))) (map var_group_of variables.items) (plain_process inner.value)) }
    ensures no_memory { IfErr result (λ e. e ≡ Fault.NoMemory) }
{
    let span = joined_spans(token_span(word, word), inner.span());
    let tree = ProcTree::sum_at(span, variables, inner);
    Ok(Box::new(alloc, tree)?)
}

/// A process under a condition.
#[inline(never)]
pub fn boxed_when(
    alloc: Global,
    condition: Box<DataTree>,
    then: Box<ProcTree>,
) -> Result<Box<ProcTree>, Fault>
    ensures tree { IfOk result (λ tree. plain_process tree.value
        ≡ when (joined (data_span (plain_data condition.value)) (process_span (plain_process then.value))) (plain_data condition.value) (plain_process then.value)) }
    ensures no_memory { IfErr result (λ e. e ≡ Fault.NoMemory) }
{
    let span = joined_spans(condition.span(), then.span());
    let tree = ProcTree::when_at(span, condition, then);
    Ok(Box::new(alloc, tree)?)
}

/// A process under a condition, and another one where it doesn't hold.
#[inline(never)]
pub fn boxed_either(
    alloc: Global,
    condition: Box<DataTree>,
    then: Box<ProcTree>,
    other: Box<ProcTree>,
) -> Result<Box<ProcTree>, Fault>
    ensures tree { IfOk result (λ tree. plain_process tree.value
        ≡ either (joined (data_span (plain_data condition.value)) (process_span (plain_process other.value))) (plain_data condition.value) (plain_process then.value) (plain_process other.value)) }
    ensures no_memory { IfErr result (λ e. e ≡ Fault.NoMemory) }
{
    let span = joined_spans(condition.span(), other.span());
    let tree = ProcTree::either_at(span, condition, then, other);
    Ok(Box::new(alloc, tree)?)
}
