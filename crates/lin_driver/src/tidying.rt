//! Conditions without needless parts `true`.

ghost use Rattle.std.specs.Prelude.{◌≡◌, IfOk, map};
ghost use Rattle.std.specs.List.{All, AllZip};
ghost use Rattle.term_pool.specs.HeadTrees.{tree_at, trees_at, AreIn, IsIn};
ghost use Rattle.term_pool.specs.Pools.{Extends};
ghost use Rattle.lps_core.specs.PlainLinears.{plain_linear, plain_summand, PlainSummand};
ghost use Rattle.lin_driver.specs.NeededParts.{is_and_tree, needed_trees, tidied_tree, IsTidied, TidiesConditions};

use data_theory::{FunId, NoMemory, TermId};
use lps_core::{Linear, Summand, conjoined, parts_of};
use std::alloc::Global;
use term_pool::{Head, Pool};

/// `&&`
const AND: FunId = FunId(9);

/// Whether a term is a `&&`.
fn is_conjunction(pool: &Pool, id: TermId) -> bool
    requires { IsIn pool.now.trees id }
    ensures { result ≡ is_and_tree (tree_at pool.now.trees id) }
{
    let node = pool.node(id);
    let Head::Fun(fun) = node.head else {
        return false;
    };
    if fun.0 != AND.0 {
        return false;
    }
    match node.args.as_slice() {
        [_, _] => true,
        _ => false,
    }
}

/// The parts that a condition needs. What stands last is taken apart, without its parts `true`, until it is no `&&`.
fn needed_parts(alloc: Global, pool: &Pool, cond: TermId) -> Result<Vec<TermId>, NoMemory>
    requires { IsIn pool.now.trees cond }
    ensures parts { IfOk result (λ parts. trees_at pool.now.trees parts.items ≡ needed_trees (tree_at pool.now.trees cond)) }
    ensures within { IfOk result (λ parts. AreIn pool.now.trees parts.items) }
{
    let mut parts = Vec::new(alloc);
    parts_of(pool, cond, &mut parts)?;
    while let Some(last) = parts.pop() {
        if !is_conjunction(pool, last) {
            parts.push(last)?;
            return Ok(parts);
        }
        parts_of(pool, last, &mut parts)?;
    }
    Ok(parts)
}

/// What is left of a condition.
fn tidied(alloc: Global, cond: TermId, pool: &mut Pool) -> Result<TermId, NoMemory>
    requires { IsIn pool.old.trees cond }
    ensures kept { Extends pool.old.trees pool.new.trees }
    ensures constants { pool.new.constants ≡ pool.old.constants }
    ensures within { IfOk result (λ id. IsIn pool.new.trees id) }
    ensures tree { IfOk result (λ id. tree_at pool.new.trees id ≡ tidied_tree (tree_at pool.old.trees cond)) }
{
    let parts = needed_parts(alloc, pool, cond)?;
    conjoined(pool, parts)
}

/// The summand with what is left of its condition.
fn tidy_summand(alloc: Global, summand: &Summand, pool: &mut Pool) -> Result<Summand, NoMemory>
    requires { IsIn pool.old.trees (plain_summand summand.now).condition }
    ensures kept { Extends pool.old.trees pool.new.trees }
    ensures constants { pool.new.constants ≡ pool.old.constants }
    ensures tidied { IfOk result (λ made. IsTidied pool.old.trees pool.new.trees (plain_summand summand.now) (plain_summand made)) }
{
    let cond = tidied(alloc, summand.cond, pool)?;
    let mut made = summand.copy(alloc)?;
    made.cond = cond;
    Ok(made)
}

/// The summands with what is left of their conditions, in their order.
fn tidy_summands(
    alloc: Global,
    summands: &[Summand],
    pool: &mut Pool,
) -> Result<Vec<Summand>, NoMemory>
    requires { All (λ (s : PlainSummand). IsIn pool.old.trees s.condition) (map plain_summand summands.now) }
    ensures kept { Extends pool.old.trees pool.new.trees }
    ensures constants { pool.new.constants ≡ pool.old.constants }
    ensures tidied { IfOk result (λ made. AllZip (IsTidied pool.old.trees pool.new.trees) (map plain_summand summands.now) (map plain_summand made.items)) }
{
    let mut made = Vec::new(alloc);
    for summand in summands {
        made.push(tidy_summand(alloc, summand, pool)?)?;
    }
    Ok(made)
}

/// The linear process with what is left of its conditions as needless parts `true` go: no condition of two or more parts then has the part
/// `true`. Nothing else changes.
///
/// After `NoMemory` the pool may have got some of this. What was there stays, then too.
pub(crate) fn tidy_conditions(
    alloc: Global,
    lin: Linear,
    pool: &mut Pool,
) -> Result<Linear, NoMemory>
    requires { All (λ (s : PlainSummand). IsIn pool.old.trees s.condition) (plain_linear lin).summands }
    ensures kept { Extends pool.old.trees pool.new.trees }
    ensures constants { pool.new.constants ≡ pool.old.constants }
    ensures tidied { IfOk result (λ made. TidiesConditions pool.old.trees pool.new.trees (plain_linear lin) (plain_linear made)) }
{
    let summands = tidy_summands(alloc, lin.summands.as_slice(), pool)?;
    let Linear { params, init, .. } = lin;
    Ok(Linear {
        params,
        init,
        summands,
    })
}
