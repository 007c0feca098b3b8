//! A linear process with new variables in the place of old ones.

ghost use Rattle.std.specs.Prelude.{◌≡◌, length, map, IfOk};
ghost use Rattle.std.specs.List.{All};
ghost use Rattle.term_pool.specs.Pools.{Extends};
ghost use Rattle.lps_core.specs.PlainLinears.{plain_linear, plain_summand};
ghost use Rattle.lps_core.specs.TreeSummands.{IsSummandIn};
ghost use Rattle.summand_expander.specs.Renewals.{renewed_variable, renewed_variables, AreListed, AreRenewedSummands, IsRenewedLinear, IsRenewedSummand};

use crate::sides::Renewal;
use data_theory::{NoMemory, TermId, VarId};
use lps_core::{Linear, Summand, put_label, put_next, renaming};
use std::alloc::Global;
use term_pool::Pool;

/// The new variable in the place of an old one. Others stay.
fn renewed_variable(var: VarId, old: &[VarId], new: &[VarId]) -> VarId
    requires { length new.now ≡ length old.now }
    ensures { result ≡ renewed_variable old.now new.now var }
{
    for number in 0..old.len() {
        if old[number].0 == var.0 {
            return new[number];
        }
    }
    var
}

/// The same for variables in their order.
fn renewed_variables(
    alloc: Global,
    vars: &[VarId],
    old: &[VarId],
    new: &[VarId],
) -> Result<Vec<VarId>, NoMemory>
    requires { length new.now ≡ length old.now }
    ensures { IfOk result (λ made. made.items ≡ renewed_variables old.now new.now vars.now) }
{
    let mut made = Vec::new(alloc);
    for var in vars {
        made.push(renewed_variable(*var, old, new))?;
    }
    Ok(made)
}

/// A summand with the new variables, which are listed as terms too.
fn renewed_summand(
    alloc: Global,
    pool: &mut Pool,
    summand: &Summand,
    old: &[VarId],
    new: &[VarId],
    by: &[(VarId, TermId)],
) -> Result<Summand, NoMemory>
    requires within { IsSummandIn pool.old.trees (plain_summand summand.now) }
    requires long { length new.now ≡ length old.now }
    requires listed { AreListed pool.old.trees old.now new.now by.now }
    ensures kept { Extends pool.old.trees pool.new.trees }
    ensures constants { pool.new.constants ≡ pool.old.constants }
    ensures within { IfOk result (λ made. IsSummandIn pool.new.trees (plain_summand made)) }
    ensures renewed { IfOk result (λ made. IsRenewedSummand pool.old.trees pool.new.trees old.now new.now (plain_summand summand.now) (plain_summand made)) }
{
    let sums = renewed_variables(alloc, summand.sums.as_slice(), old, new)?;
    let cond = pool.subst(summand.cond, by)?;
    let label = put_label(alloc, pool, &summand.label, by)?;
    let next = put_next(alloc, pool, &summand.next, by)?;
    Ok(Summand {
        sums,
        cond,
        label,
        next,
    })
}

/// Summands with the new variables.
fn renewed_summands(
    alloc: Global,
    pool: &mut Pool,
    summands: &[Summand],
    old: &[VarId],
    new: &[VarId],
    by: &[(VarId, TermId)],
) -> Result<Vec<Summand>, NoMemory>
    requires within { All (IsSummandIn pool.old.trees) (map plain_summand summands.now) }
    requires long { length new.now ≡ length old.now }
    requires listed { AreListed pool.old.trees old.now new.now by.now }
    ensures kept { Extends pool.old.trees pool.new.trees }
    ensures constants { pool.new.constants ≡ pool.old.constants }
    ensures renewed { IfOk result (λ made. AreRenewedSummands pool.old.trees pool.new.trees old.now new.now (map plain_summand summands.now) (map plain_summand made.items)) }
{
    let mut made = Vec::new(alloc);
    for summand in summands {
        made.push(renewed_summand(alloc, pool, summand, old, new, by)?)?;
    }
    Ok(made)
}

/// The linear process with the new variables.
pub fn renewed(
    alloc: Global,
    pool: &mut Pool,
    lin: &Linear,
    renewal: &Renewal,
) -> Result<Linear, NoMemory>
    requires within { All (IsSummandIn pool.old.trees) (map plain_summand lin.now.summands.items) }
    requires long { length renewal.now.to.items ≡ length renewal.now.from.keys }
    ensures kept { Extends pool.old.trees pool.new.trees }
    ensures constants { pool.new.constants ≡ pool.old.constants }
    ensures renewed { IfOk result (λ made. IsRenewedLinear pool.old.trees pool.new.trees renewal.now.from.keys renewal.now.to.items (plain_linear lin.now) (plain_linear made)) }
{
    let (old, new) = (renewal.from.as_slice(), renewal.to.as_slice());
    let by = renaming(alloc, pool, old, new)?;
    let summands = renewed_summands(
        alloc,
        pool,
        lin.summands.as_slice(),
        old,
        new,
        by.as_slice(),
    )?;
    Ok(Linear {
        params: renewed_variables(alloc, lin.params.as_slice(), old, new)?,
        init: lin.init.to_vec(alloc)?,
        summands,
    })
}
