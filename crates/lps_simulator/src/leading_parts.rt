//! The leading parts of conditions, and how many sums they need.

ghost use Rattle.std.specs.Prelude.{◌≡◌, ◌≤◌, List, drop, IfOk, IfSome};
ghost use Rattle.std.specs.List.{Contains};
ghost use Rattle.data_theory.specs.declared.ids.VarId.{VarId};
ghost use Rattle.term_pool.specs.declared.terms.Head.TheVariants.{Var};
ghost use Rattle.term_pool.specs.HeadTrees.{tree_at, trees_at, AreIn, IsIn};
ghost use Rattle.lps_core.specs.TreeConditions.{conjunction_tree, AreSides};
ghost use Rattle.lps_simulator.specs.LeadingParts.{OccursIn};

use data_theory::{FunId, NoMemory, TermId, VarId};
use std::alloc::Global;
use term_pool::{Head, Pool};

/// `&&`
const AND: FunId = FunId(9);

/// So many terms are read for what they need. Where there are more, all sums count as needed.
const READ: usize = 4096;

/// The sides of a `&&`.
fn sides(pool: &Pool, cond: TermId) -> Option<(TermId, TermId)>
    requires { IsIn pool.now.trees cond }
    ensures { IfSome result (λ p. AreSides pool.now.trees cond p.0 p.1) }
{
    let node = pool.node(cond);
    let Head::Fun(fun) = node.head else {
        return None;
    };
    if fun.0 != AND.0 {
        return None;
    }
    match node.args.as_slice() {
        [left, right] => Some((*left, *right)),
        _ => None,
    }
}

/// The parts of which a condition is the chain, from the left on.
///
/// # Errors
///
/// `NoMemory` where there is none for them.
pub fn leading_parts(alloc: Global, pool: &Pool, cond: TermId) -> Result<Vec<TermId>, NoMemory>
    requires { IsIn pool.now.trees cond }
    ensures chain { IfOk result (λ parts. tree_at pool.now.trees cond ≡ conjunction_tree (trees_at pool.now.trees parts.items)) }
    ensures within { IfOk result (λ parts. AreIn pool.now.trees parts.items) }
{
    let mut parts = Vec::new(alloc);
    let mut rest = cond;
    while let Some((left, right)) = sides(pool, rest) {
        parts.push(left)?;
        rest = right;
    }
    parts.push(rest)?;
    Ok(parts)
}

/// How many variables there are up to the last place of one, and 0 where it isn't there.
fn up_to_last(vars: &[VarId], var: VarId) -> usize
    ensures { Contains (drop result vars.now) var → ⊥ }
{
    let mut count = vars.len();
    while count > 0 {
        if vars[count - 1].0 == var.0 {
            return count;
        }
        count -= 1;
    }
    0
}

/// How many of the sums are needed up to the one that a head is.
fn level_of_head(head: Head, sums: &[VarId]) -> usize
    ensures { (v : VarId) → head ≡ Var v → Contains (drop result sums.now) v → ⊥ }
{
    match head {
        Head::Var(var) => up_to_last(sums, var),
        _ => 0,
    }
}

/// The greater of two numbers.
fn greatest(a: usize, b: usize) -> usize
    ensures first { a ≤ result }
    ensures second { b ≤ result }
{
    if a < b {
        return b;
    }
    a
}

/// How many of the sums, from the left, some terms need: none of the others stands in them.
///
/// # Errors
///
/// `NoMemory` where there is none for the terms that are still to be read.
pub fn level_of(
    alloc: Global,
    pool: &Pool,
    terms: &[TermId],
    sums: &[VarId],
) -> Result<usize, NoMemory>
    requires { AreIn pool.now.trees terms.now }
    ensures { IfOk result (λ level. (v : VarId) → Contains (drop level sums.now) v → OccursIn v (trees_at pool.now.trees terms.now) → ⊥) }
{
    let mut waiting = Vec::from_slice(alloc, terms)?;
    let mut level = 0;
    for _ in 0..READ {
        let Some(next) = waiting.pop() else {
            return Ok(level);
        };
        let node = pool.node(next);
        level = greatest(level, level_of_head(node.head, sums));
        waiting.extend_from_slice(node.args.as_slice())?;
    }
    Ok(sums.len())
}
