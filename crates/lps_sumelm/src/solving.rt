//! One step for a solvable part, and the sums that occur.

ghost use Rattle.std.specs.Prelude.{◌≡◌, ◌==◌, not, IfOk};
ghost use Rattle.std.specs.List.{Contains};
ghost use Rattle.data_theory.specs.declared.ids.VarId.{VarId as MeantVariable};
ghost use Rattle.data_theory.specs.Signature.{Sig};
ghost use Rattle.term_pool.specs.HeadTrees.{tree_at, trees_at, AreIn, IsIn};
ghost use Rattle.term_pool.specs.Pools.{Extends};
ghost use Rattle.lps_core.specs.PlainLinears.{plain_summand};
ghost use Rattle.lps_core.specs.TreeConditions.{conjunction_tree, tree_parts, trees_without_true};
ghost use Rattle.lps_core.specs.TreeSummands.{trees_of_summand, IsSummandIn};
ghost use Rattle.lps_sumelm.specs.Solving.{without_unused};
ghost use Rattle.lps_sumelm.specs.SummandsInCode.{parts_of_each, solved_trees, summand_at, sums_but, sums_in};

use crate::solutions::Solution;
use crate::variables::{has_variable, summand_variables};
use data_theory::{NoMemory, TermId, VarId};
use indexmap::IndexSet;
use lps_core::{Summand, conjoined, parts_of, put_all, put_label, put_next};
use std::alloc::Global;
use term_pool::Pool;

/// One chain of the parts of these conditions, without `true`.
fn joined(alloc: Global, pool: &mut Pool, conds: &[TermId]) -> Result<TermId, NoMemory>
    requires { AreIn pool.old.trees conds.now }
    ensures kept { Extends pool.old.trees pool.new.trees }
    ensures constants { pool.new.constants ≡ pool.old.constants }
    ensures within { IfOk result (λ id. IsIn pool.new.trees id) }
    ensures tree { IfOk result (λ id. tree_at pool.new.trees id ≡ conjunction_tree (parts_of_each (trees_at pool.old.trees conds.now))) }
{
    let mut parts = Vec::new(alloc);
    for cond in conds {
        parts_of(pool, *cond, &mut parts)?;
    }
    conjoined(pool, parts)
}

/// Whether two variables differ.
fn is_other(one: VarId, other: VarId) -> bool
    ensures { result ≡ not (one.0 == other.0) }
{
    one.0 != other.0
}

/// The variables but for this one.
fn sums_but(alloc: Global, sums: &[VarId], var: VarId) -> Result<Vec<VarId>, NoMemory>
    ensures { IfOk result (λ left. left.items ≡ sums_but var sums.now) }
{
    let mut left = Vec::new(alloc);
    for sum in sums {
        if is_other(*sum, var) {
            left.push(*sum)?;
        }
    }
    Ok(left)
}

/// The summand with a term put in for one of its sums, which is a sum no more. The parts of its condition that stay are joined.
///
/// # Errors
///
/// `NoMemory` where there is none for the summand or its terms.
pub(crate) fn solve(
    alloc: Global,
    pool: &mut Pool,
    summand: &Summand,
    rest: &[TermId],
    solution: Solution,
) -> Result<Summand, NoMemory>
    requires summand { IsSummandIn pool.old.trees (plain_summand summand.now) }
    requires rest { AreIn pool.old.trees rest.now }
    requires term { IsIn pool.old.trees solution.term }
    ensures kept { Extends pool.old.trees pool.new.trees }
    ensures constants { pool.new.constants ≡ pool.old.constants }
    ensures within { IfOk result (λ made. IsSummandIn pool.new.trees (plain_summand made)) }
    ensures sums { IfOk result (λ made. made.sums.items ≡ sums_but solution.var summand.now.sums.items) }
    ensures trees { IfOk result (λ made. trees_of_summand pool.new.trees (plain_summand made) ≡ solved_trees pool.old.trees solution (trees_at pool.old.trees rest.now) (trees_of_summand pool.old.trees (plain_summand summand.now))) }
{
    let by = [(solution.var, solution.term)];
    let put = put_all(alloc, pool, rest, &by)?;
    let cond = joined(alloc, pool, put.as_slice())?;
    let label = put_label(alloc, pool, &summand.label, &by)?;
    let next = put_next(alloc, pool, &summand.next, &by)?;
    Ok(Summand {
        sums: sums_but(alloc, summand.sums.as_slice(), solution.var)?,
        cond,
        label,
        next,
    })
}

/// Those of the variables that are in a set.
fn sums_in(alloc: Global, sums: &[VarId], set: &IndexSet<VarId>) -> Result<Vec<VarId>, NoMemory>
    ensures { IfOk result (λ found. found.items ≡ sums_in set.now.keys sums.now) }
{
    let mut found = Vec::new(alloc);
    for sum in sums {
        if has_variable(set, *sum) {
            found.push(*sum)?;
        }
    }
    Ok(found)
}

/// The summand without the sums that don't occur in it.
///
/// # Errors
///
/// `NoMemory` where there is none for the sums.
pub(crate) fn without_unused(
    alloc: Global,
    pool: &Pool,
    summand: Summand,
) -> Result<Summand, NoMemory>
    requires { IsSummandIn pool.now.trees (plain_summand summand) }
    ensures terms { IfOk result (λ made. plain_summand made ≡ record (plain_summand summand) { sums = made.sums.items }) }
    ensures used { IfOk result (λ made. (g : Sig) → summand_at g pool.now.trees (plain_summand made) ≡ without_unused (summand_at g pool.now.trees (plain_summand summand))) }
    ensures among { IfOk result (λ made. (v : MeantVariable) → Contains made.sums.items v → Contains summand.sums.items v) }
{
    let set = summand_variables(alloc, pool, &summand)?;
    let Summand {
        sums,
        cond,
        label,
        next,
    } = summand;
    let sums = sums_in(alloc, sums.as_slice(), &set)?;
    Ok(Summand {
        sums,
        cond,
        label,
        next,
    })
}
