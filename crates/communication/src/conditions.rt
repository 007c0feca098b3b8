//! The conditions of ways.

ghost use Rattle.std.specs.Prelude.{◌≡◌, ◌++◌, List, map, IfOk, OnOk};
ghost use Rattle.std.specs.List.{All, AllZip};
ghost use Rattle.data_theory.specs.Table.{bool_sort};
ghost use Rattle.data_theory.specs.Terms.{Term};
ghost use Rattle.data_theory.specs.IdTerms.{term_under};
ghost use Rattle.term_pool.specs.HeadTrees.{tree_at};
ghost use Rattle.term_pool.specs.Pools.{Extends};
ghost use Rattle.lps_core.specs.Fitting.{IsTermOf};
ghost use Rattle.communication.specs.PlanMeanings.{against, equality_of, planned_condition, AreFitting, EqualityFits, IsPart, PlanFits};
ghost use Rattle.communication.specs.Plans.{equalities_of_each, plain_plan};

use crate::plans::{Equality, Plan, signature_stands};
use data_theory::{FunId, NoMemory, Signature, TermId};
use lps_core::{conjoined, parts_of};
use std::alloc::Global;
use term_pool::{Head, Pool};

/// `true`
const TRUE: FunId = FunId(6);

/// `!`
const NOT: FunId = FunId(8);

/// The term of an equality.
fn equality(sig: &Signature, pool: &mut Pool, asked: &Equality) -> Result<TermId, NoMemory>
    requires { EqualityFits sig.now pool.old.trees asked.now }
    ensures kept { Extends pool.old.trees pool.new.trees }
    ensures constants { pool.new.constants ≡ pool.old.constants }
    ensures means { IfOk result (λ id. IsPart sig.now pool.new.trees id (equality_of sig.now pool.old.trees asked.now)) }
{
    signature_stands(sig);
    let Some(fun) = sig.fun("==", &[asked.sort, asked.sort]) else {
        return pool.intern(Head::Fun(TRUE), &[]);
    };
    pool.intern(Head::Fun(fun), &[asked.left, asked.right])
}

/// Adds the terms of equalities to the parts of a condition.
fn add_equalities(
    sig: &Signature,
    pool: &mut Pool,
    asked: &[Equality],
    parts: &mut Vec<TermId>,
) -> Result<(), NoMemory>
    requires { AreFitting sig.now pool.old.trees asked.now }
    ensures kept { Extends pool.old.trees pool.new.trees }
    ensures constants { pool.new.constants ≡ pool.old.constants }
    ensures parts { OnOk result ((cs : List Term) → AllZip (IsPart sig.now pool.old.trees) parts.old.items cs → AllZip (IsPart sig.now pool.new.trees) parts.new.items (cs ++ map (equality_of sig.now pool.old.trees) asked.now)) }
{
    for one in asked {
        parts.push(equality(sig, pool, one)?)?;
    }
    Ok(())
}

/// The negated conjunction of equalities.
fn against(
    alloc: Global,
    sig: &Signature,
    pool: &mut Pool,
    asked: &[Equality],
) -> Result<TermId, NoMemory>
    requires { AreFitting sig.now pool.old.trees asked.now }
    ensures kept { Extends pool.old.trees pool.new.trees }
    ensures constants { pool.new.constants ≡ pool.old.constants }
    ensures means { IfOk result (λ id. IsPart sig.now pool.new.trees id (against sig.now pool.old.trees asked.now)) }
{
    signature_stands(sig);
    let mut parts = Vec::new(alloc);
    add_equalities(sig, pool, asked, &mut parts)?;
    let all = conjoined(pool, parts)?;
    pool.intern(Head::Fun(NOT), &[all])
}

/// Adds the negated conjunction of each of these lists.
fn add_against(
    alloc: Global,
    sig: &Signature,
    pool: &mut Pool,
    groups: &[Vec<Equality>],
    parts: &mut Vec<TermId>,
) -> Result<(), NoMemory>
    requires { All (AreFitting sig.now pool.old.trees) (equalities_of_each groups.now) }
    ensures kept { Extends pool.old.trees pool.new.trees }
    ensures constants { pool.new.constants ≡ pool.old.constants }
    ensures parts { OnOk result ((cs : List Term) → AllZip (IsPart sig.now pool.old.trees) parts.old.items cs → AllZip (IsPart sig.now pool.new.trees) parts.new.items (cs ++ map (against sig.now pool.old.trees) (equalities_of_each groups.now))) }
{
    for group in groups {
        parts.push(against(alloc, sig, pool, group.as_slice())?)?;
    }
    Ok(())
}

/// A condition, with what a plan asks behind it.
///
/// # Errors
///
/// `NoMemory` where there is none for it.
pub(crate) fn condition_of(
    alloc: Global,
    sig: &Signature,
    pool: &mut Pool,
    cond: TermId,
    plan: &Plan,
) -> Result<TermId, NoMemory>
    requires cond { IsTermOf sig.now pool.old.trees bool_sort cond }
    requires plan { PlanFits sig.now pool.old.trees (plain_plan plan.now) }
    ensures kept { Extends pool.old.trees pool.new.trees }
    ensures constants { pool.new.constants ≡ pool.old.constants }
    ensures means { IfOk result (λ id. IsPart sig.now pool.new.trees id (planned_condition sig.now pool.old.trees (term_under sig.now (tree_at pool.old.trees cond)) (plain_plan plan.now))) }
{
    signature_stands(sig);
    let mut parts = Vec::new(alloc);
    parts_of(pool, cond, &mut parts)?;
    add_equalities(sig, pool, plan.equal.as_slice(), &mut parts)?;
    add_against(alloc, sig, pool, plan.further.as_slice(), &mut parts)?;
    conjoined(pool, parts)
}
