//! The operands of a level in one tree.

ghost use Rattle.std.specs.Prelude.{◌≡◌, ◌∷◌, IfErr, IfOk, MatchOption, map};
ghost use Rattle.mcrl2_syntax.specs.DataTrees.{PlainData, plain_data, plain_operands, data_span, operands_of, datas_of};
ghost use Rattle.mcrl2_syntax.specs.InfixSigns.{joined_by, to_left, to_right, to_sum, to_product, to_and, to_or, last_span, chain_span, grouped};

use crate::words::Fault;
use mcrl2_syntax::{DataTree, InfixSign, Span, joined_spans};
use std::alloc::Global;

// A sign between two expressions.
fn joined_by(
    alloc: Global,
    sign: InfixSign,
    left: DataTree,
    right: DataTree,
) -> Result<DataTree, Fault>
    ensures tree { IfOk result (λ tree. plain_data tree ≡ joined_by sign (plain_data left) (plain_data right)) }
    ensures no_memory { IfErr result (λ e. e ≡ Fault.NoMemory) }
{
    let span = joined_spans(left.span(), right.span());
    let tree = DataTree::infix_at(alloc, span, sign, left, right)?;
    Ok(tree)
}

// The operands of a level that groups to the left.
fn grouped_left(
    alloc: Global,
    first: DataTree,
    operands: Vec<(InfixSign, DataTree)>,
) -> Result<DataTree, Fault>
    ensures tree { IfOk result (λ tree. plain_data tree ≡ to_left (plain_data first) (plain_operands operands.items)) }
    ensures no_memory { IfErr result (λ e. e ≡ Fault.NoMemory) }
{
    let mut tree = first;
    for (sign, operand) in operands {
        tree = joined_by(alloc, sign, tree, operand)?;
    }
    Ok(tree)
}

// The operands of a level that groups to the right.
fn grouped_right(
    alloc: Global,
    first: DataTree,
    operands: Vec<(InfixSign, DataTree)>,
) -> Result<DataTree, Fault>
    ensures tree { IfOk result (λ tree. plain_data tree ≡ to_right (plain_data first) (plain_operands operands.items)) }
    ensures no_memory { IfErr result (λ e. e ≡ Fault.NoMemory) }
{
    match joined_right(alloc, operands)? {
        None => Ok(first),
        Some((sign, right)) => joined_by(alloc, sign, first, right),
    }
}

// The first sign, and all that stands behind it.
fn joined_right(
    alloc: Global,
    operands: Vec<(InfixSign, DataTree)>,
) -> Result<Option<(InfixSign, DataTree)>, Fault>
    ensures joined { IfOk result (λ o. MatchOption o ((d : PlainData) → to_right d (plain_operands operands.items) ≡ d)
        (λ x. (d : PlainData) → to_right d (plain_operands operands.items) ≡ joined_by x.0 d (plain_data x.1))) }
    ensures no_memory { IfErr result (λ e. e ≡ Fault.NoMemory) }
{
    let mut operands = operands;
    let Some((sign, last)) = operands.pop() else {
        return Ok(None);
    };
    let mut sign = sign;
    let mut tree = last;
    while let Some((before, operand)) = operands.pop() {
        tree = joined_by(alloc, sign, operand, tree)?;
        sign = before;
    }
    Ok(Some((sign, tree)))
}

// Where the last operand stands.
fn last_span(span: Span, operands: &[(InfixSign, DataTree)]) -> Span
    ensures { result ≡ last_span span (plain_operands operands.now) }
{
    let mut end = span;
    for operand in operands {
        end = operand.1.span();
    }
    end
}

// From the first byte of the first operand to the last byte of the last one.
fn operands_span(first: &DataTree, operands: &[(InfixSign, DataTree)]) -> Span
    ensures { result ≡ chain_span (plain_data first.now) (plain_operands operands.now) }
{
    joined_spans(first.span(), last_span(first.span(), operands))
}

// All operands of a level, without their signs.
fn operand_trees(
    alloc: Global,
    first: DataTree,
    operands: Vec<(InfixSign, DataTree)>,
) -> Result<Vec<DataTree>, Fault>
    ensures trees { IfOk result (λ trees. map plain_data trees.items ≡ plain_data first ∷ map (λ x. x.1) (plain_operands operands.items)) }
    ensures no_memory { IfErr result (λ e. e ≡ Fault.NoMemory) }
{
    let mut trees = Vec::new(alloc);
    trees.push(first)?;
    for (_, operand) in operands {
        trees.push(operand)?;
    }
    trees.shrink_to_fit();
    Ok(trees)
}

// The operands of `+` and `-` as one chain, where there are further ones.
fn sum_of(
    alloc: Global,
    first: DataTree,
    operands: Vec<(InfixSign, DataTree)>,
) -> Result<DataTree, Fault>
    ensures tree { IfOk result (λ tree. plain_data tree ≡ to_sum (plain_data first) (plain_operands operands.items)) }
    ensures no_memory { IfErr result (λ e. e ≡ Fault.NoMemory) }
{
    if operands.is_empty() {
        return Ok(first);
    }
    let mut operands = operands;
    operands.shrink_to_fit();
    let span = operands_span(&first, &operands);
    let tree = DataTree::sum_at(alloc, span, first, operands)?;
    Ok(tree)
}

// The operands of `*` and `.` as one chain, where there are further ones.
fn product_of(
    alloc: Global,
    first: DataTree,
    operands: Vec<(InfixSign, DataTree)>,
) -> Result<DataTree, Fault>
    ensures tree { IfOk result (λ tree. plain_data tree ≡ to_product (plain_data first) (plain_operands operands.items)) }
    ensures no_memory { IfErr result (λ e. e ≡ Fault.NoMemory) }
{
    if operands.is_empty() {
        return Ok(first);
    }
    let mut operands = operands;
    operands.shrink_to_fit();
    let span = operands_span(&first, &operands);
    let tree = DataTree::product_at(alloc, span, first, operands)?;
    Ok(tree)
}

// The operands of `&&` as one chain, where there are further ones.
fn and_of(
    alloc: Global,
    first: DataTree,
    operands: Vec<(InfixSign, DataTree)>,
) -> Result<DataTree, Fault>
    ensures tree { IfOk result (λ tree. plain_data tree ≡ to_and (plain_data first) (plain_operands operands.items)) }
    ensures no_memory { IfErr result (λ e. e ≡ Fault.NoMemory) }
{
    if operands.is_empty() {
        return Ok(first);
    }
    let span = operands_span(&first, &operands);
    let trees = operand_trees(alloc, first, operands)?;
    let tree = DataTree::and_at(alloc, span, trees)?;
    Ok(tree)
}

// The operands of `||` as one chain, where there are further ones.
fn or_of(
    alloc: Global,
    first: DataTree,
    operands: Vec<(InfixSign, DataTree)>,
) -> Result<DataTree, Fault>
    ensures tree { IfOk result (λ tree. plain_data tree ≡ to_or (plain_data first) (plain_operands operands.items)) }
    ensures no_memory { IfErr result (λ e. e ≡ Fault.NoMemory) }
{
    if operands.is_empty() {
        return Ok(first);
    }
    let span = operands_span(&first, &operands);
    let trees = operand_trees(alloc, first, operands)?;
    let tree = DataTree::or_at(alloc, span, trees)?;
    Ok(tree)
}

/// The first operand of a level and the further ones in one tree, as the level groups.
#[inline(never)]
pub fn grouped(
    alloc: Global,
    level: u8,
    first: DataTree,
    operands: Vec<(InfixSign, DataTree)>,
) -> Result<DataTree, Fault>
    ensures tree { IfOk result (λ tree. plain_data tree ≡ grouped level (plain_data first) (plain_operands operands.items)) }
    ensures no_memory { IfErr result (λ e. e ≡ Fault.NoMemory) }
{
    match level {
        1 => product_of(alloc, first, operands),
        3 => sum_of(alloc, first, operands),
        9 => and_of(alloc, first, operands),
        10 => or_of(alloc, first, operands),
        6 | 11 => grouped_right(alloc, first, operands),
        _ => grouped_left(alloc, first, operands),
    }
}
