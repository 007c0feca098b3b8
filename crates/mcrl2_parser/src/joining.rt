//! The operands of all levels in one tree.

ghost use Rattle.std.specs.Prelude.{◌≡◌, IfErr, IfOk, min, nat_eq};
ghost use Rattle.std.specs.List.{list_all};
ghost use Rattle.mcrl2_syntax.specs.DataTrees.{plain_data, plain_operands};
ghost use Rattle.mcrl2_syntax.specs.InfixSigns.{level_of};
ghost use Rattle.mcrl2_parser.specs.Operands.{parted, joined_at, joined_up_to, tightest};

use crate::grouping::grouped;
use crate::words::Fault;
use mcrl2_syntax::{DataTree, InfixSign, sign_level};
use std::alloc::Global;

// Whether all signs between operands are of the level.
fn is_level(level: u8, operands: &[(InfixSign, DataTree)]) -> bool
    ensures { result ≡ list_all (λ operand. nat_eq (level_of operand.0) level) operands.now }
{
    operands
        .iter()
        .all(|operand| sign_level(operand.0) == level)
}

// The operands that signs of the level join to what stands in front of them all, and the others, each with those that such
// signs join to it.
fn parted(
    alloc: Global,
    level: u8,
    operands: Vec<(InfixSign, DataTree)>,
) -> Result<(Vec<(InfixSign, DataTree)>, Vec<(InfixSign, DataTree)>), Fault>
    ensures parted { IfOk result (λ x. (plain_operands x.0.items, plain_operands x.1.items) ≡ parted level (plain_operands operands.items)) }
    ensures no_memory { IfErr result (λ e. e ≡ Fault.NoMemory) }
{
    if is_level(level, &operands) {
        return Ok((operands, Vec::new(alloc)));
    }
    let mut operands = operands;
    let mut run = Vec::new(alloc);
    let mut others = Vec::new(alloc);
    while let Some((sign, operand)) = operands.pop() {
        if sign_level(sign) == level {
            run.push((sign, operand))?;
            continue;
        }
        run.reverse();
        let tree = grouped(alloc, level, operand, run)?;
        others.push((sign, tree))?;
        run = Vec::new(alloc);
    }
    run.reverse();
    others.reverse();
    Ok((run, others))
}

// The one of two levels that binds more tightly.
fn tighter(first: u8, second: u8) -> u8
    ensures { result ≡ min first second }
{
    if first < second { first } else { second }
}

// The tightest level of a sign between operands, and 12 where there is no sign.
fn tightest(operands: &[(InfixSign, DataTree)]) -> u8
    ensures { result ≡ tightest (plain_operands operands.now) }
{
    let mut level = 12;
    for operand in operands {
        level = tighter(level, sign_level(operand.0));
    }
    level
}

// The first operand and the further ones, where the signs of the level have joined theirs.
fn joined_at(
    alloc: Global,
    level: u8,
    first: DataTree,
    operands: Vec<(InfixSign, DataTree)>,
) -> Result<(DataTree, Vec<(InfixSign, DataTree)>), Fault>
    ensures joined { IfOk result (λ x. (plain_data x.0, plain_operands x.1.items) ≡ joined_at level (plain_data first, plain_operands operands.items)) }
    ensures no_memory { IfErr result (λ e. e ≡ Fault.NoMemory) }
{
    let (run, others) = parted(alloc, level, operands)?;
    let tree = grouped(alloc, level, first, run)?;
    Ok((tree, others))
}

/// The first operand and the further ones in one tree, joined from the tightest level on. A level without signs takes no time.
#[inline(never)]
pub fn joined(
    alloc: Global,
    first: DataTree,
    operands: Vec<(InfixSign, DataTree)>,
) -> Result<DataTree, Fault>
    ensures tree { IfOk result (λ tree. plain_data tree ≡ (joined_up_to 11 (plain_data first, plain_operands operands.items)).0) }
    ensures no_memory { IfErr result (λ e. e ≡ Fault.NoMemory) }
{
    if operands.is_empty() {
        return Ok(first);
    }
    let mut tree = first;
    let mut level = tightest(&operands);
    let mut further = operands;
    for below in 0..11 {
        if level != below + 1 {
            continue;
        }
        let (joined, others) = joined_at(alloc, level, tree, further)?;
        tree = joined;
        level = tightest(&others);
        further = others;
    }
    Ok(tree)
}
