//! The calls of mappings in terms.

ghost use Rattle.std.specs.Prelude.{◌≡◌, IfOk, IfSome};
ghost use Rattle.term_pool.specs.HeadTrees.{tree_at};
ghost use Rattle.eqn_check.specs.Judged.{IsEquationOver, IsTerm};
ghost use Rattle.std.specs.List.{All};
ghost use Rattle.eqn_check.specs.CallTrees.{IsMappingAt, ListsCalls};
ghost use Rattle.eqn_check.specs.CallTables.{ListAllCalls, ListsEquationCalls};
ghost use Rattle.std.specs.Bool.{Decides};

use crate::linear::push_all;
use crate::patterns::is_mapping;
use data_theory::{NoMemory, Signature, TermId};
use std::alloc::Global;
use term_pool::{Equation, Head, Pool, Theory};

/// The calls of mappings in an equation.
#[derive(Drop)]
pub struct EquationCalls {
    /// Those in its condition.
    pub condition: Vec<TermId>,
    /// Those in its right side.
    pub right: Vec<TermId>,
}

/// Whether a term is a mapping, applied.
fn is_call(sig: &Signature, pool: &Pool, term: TermId) -> bool
    requires { IsTerm sig.now pool.now.trees term }
    ensures { Decides result (IsMappingAt sig.now (tree_at pool.now.trees term)) }
{
    let Head::Fun(fun) = pool.node(term).head else {
        return false;
    };
    is_mapping(sig, fun)
}

/// The calls of mappings in a term.
fn calls_in(
    alloc: Global,
    sig: &Signature,
    pool: &Pool,
    term: TermId,
) -> Result<Vec<TermId>, NoMemory>
    requires { IsTerm sig.now pool.now.trees term }
    ensures { IfOk result (λ calls. ListsCalls sig.now pool.now.trees
        (tree_at pool.now.trees term) calls.items) }
{
    let mut waiting = Vec::new(alloc);
    let mut calls = Vec::new(alloc);
    waiting.push(term)?;
    for _ in 0..u64::MAX {
        let Some(next) = waiting.pop() else {
            return Ok(calls);
        };
        push_all(&mut waiting, pool.node(next).args.as_slice())?;
        if !is_call(sig, pool, next) {
            continue;
        }
        calls.push(next)?;
    }
    Err(NoMemory)
}

/// The calls of mappings in an equation.
fn equation_calls(
    alloc: Global,
    sig: &Signature,
    pool: &Pool,
    equation: &Equation,
) -> Result<EquationCalls, NoMemory>
    requires { IsEquationOver sig.now pool.now.trees equation.now }
    ensures { IfOk result (λ found. ListsEquationCalls sig.now pool.now.trees equation.now found) }
{
    let condition = calls_in(alloc, sig, pool, equation.cond)?;
    let right = calls_in(alloc, sig, pool, equation.right)?;
    Ok(EquationCalls { condition, right })
}

/// The calls of mappings in each equation.
pub fn list_calls(
    alloc: Global,
    sig: &Signature,
    theory: &Theory,
    pool: &Pool,
) -> Result<Vec<EquationCalls>, NoMemory>
    requires { All (IsEquationOver sig.now pool.now.trees) theory.now.equations.items }
    ensures { IfOk result (λ lists. ListAllCalls sig.now pool.now.trees theory.now.equations.items
        lists.items) }
{
    let mut lists = Vec::new(alloc);
    for number in 0..theory.equations.len() {
        lists.push(equation_calls(alloc, sig, pool, &theory.equations[number])?)?;
    }
    Ok(lists)
}
