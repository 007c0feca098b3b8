//! Terms put in for the variables of process terms.

ghost use Rattle.std.specs.Prelude.{◌≡◌, map, IfOk};
ghost use Rattle.term_pool.specs.HeadTrees.{AreIn};
ghost use Rattle.term_pool.specs.Pools.{Extends};
ghost use Rattle.term_pool.specs.Bindings.{listed_terms};
ghost use Rattle.process_terms.specs.PlainProcesses.{plain_process, processes_of, items_of_each, around};
ghost use Rattle.proc_unfold.specs.Networks.{plain_operator};
ghost use Rattle.proc_unfold.specs.PutTerms.{IsProcessIn, AreProcessesIn, is_among, without, PutsIn, PutsAllIn};

use crate::networks::NetOp;
use data_theory::{NameId, NoMemory, TermId, VarId};
use lps_core::{put_all, put_label};
use process_terms::Proc;
use std::alloc::Global;
use term_pool::Pool;

pub fn copy_sets(alloc: Global, sets: &[Vec<NameId>]) -> Result<Vec<Vec<NameId>>, NoMemory>
    ensures { IfOk result (λ copies. items_of_each copies.items ≡ items_of_each sets.now) }
{
    let mut copies = Vec::new(alloc);
    for set in sets {
        copies.push(set.to_vec(alloc)?)?;
    }
    Ok(copies)
}

/// Whether the variable is one of these.
fn is_bound(vars: &[VarId], var: VarId) -> bool
    ensures { result ≡ is_among vars.now var }
{
    vars.iter().any(|bound| *bound == var)
}

/// The bindings of other variables than these.
fn unbound(
    alloc: Global,
    by: &[(VarId, TermId)],
    vars: &[VarId],
) -> Result<Vec<(VarId, TermId)>, NoMemory>
    ensures { IfOk result (λ left. left.items ≡ without vars.now by.now) }
{
    Ok(
        by.iter()
            .copied()
            .filter(|binding| !is_bound(vars, binding.0))
            .collect(alloc)?,
    )
}

/// The operator around a process term.
fn around(op: NetOp, part: Box<Proc>) -> Proc
    ensures { plain_process result ≡ around (plain_operator op) (plain_process part.value) }
{
    match op {
        NetOp::Allow(sets) => Proc::Allow(sets, part),
        NetOp::Block(names) => Proc::Block(names, part),
        NetOp::Hide(names) => Proc::Hide(names, part),
        NetOp::Rename(renamings) => Proc::Rename(renamings, part),
        NetOp::Comm(set) => Proc::Comm(set, part),
    }
}

/// The process terms with the listed terms put in, one by one.
#[cycle(put)]
fn put_in_all(
    alloc: Global,
    pool: &mut Pool,
    parts: &[Proc],
    by: &[(VarId, TermId)],
) -> Result<Vec<Proc>, NoMemory>
    requires within { AreProcessesIn pool.old.trees (processes_of (map plain_process parts.now)) }
    requires listed { AreIn pool.old.trees (listed_terms by.now) }
    ensures kept { Extends pool.old.trees pool.new.trees }
    ensures constants { pool.new.constants ≡ pool.old.constants }
    ensures put { IfOk result (λ made. PutsAllIn pool.new.trees by.now (processes_of (map plain_process parts.now)) (processes_of (map plain_process made.items))) }
{
    let mut made = Vec::new(alloc);
    for part in parts {
        made.push(put_in(alloc, pool, part, by)?)?;
    }
    Ok(made)
}

#[cycle(put)]
fn put_boxed(
    alloc: Global,
    pool: &mut Pool,
    part: &Proc,
    by: &[(VarId, TermId)],
) -> Result<Box<Proc>, NoMemory>
    requires within { IsProcessIn pool.old.trees (plain_process part.now) }
    requires listed { AreIn pool.old.trees (listed_terms by.now) }
    ensures kept { Extends pool.old.trees pool.new.trees }
    ensures constants { pool.new.constants ≡ pool.old.constants }
    ensures put { IfOk result (λ made. PutsIn pool.new.trees by.now (plain_process part.now) (plain_process made.value)) }
{
    Ok(Box::new(alloc, put_in(alloc, pool, part, by)?)?)
}

#[cycle(put)]
fn put_under(
    alloc: Global,
    pool: &mut Pool,
    part: &Proc,
    op: NetOp,
    by: &[(VarId, TermId)],
) -> Result<Proc, NoMemory>
    requires within { IsProcessIn pool.old.trees (plain_process part.now) }
    requires listed { AreIn pool.old.trees (listed_terms by.now) }
    ensures kept { Extends pool.old.trees pool.new.trees }
    ensures constants { pool.new.constants ≡ pool.old.constants }
    ensures put { IfOk result (λ made. PutsIn pool.new.trees by.now (around (plain_operator op) (plain_process part.now)) (plain_process made)) }
{
    Ok(around(op, put_boxed(alloc, pool, part, by)?))
}

/// The process term with the listed terms in place of its free variables, all at once. A variable that a sum binds again stays
/// under that sum. The listed terms have no variables, so that no sum can bind one of theirs.
#[cycle(put)]
pub fn put_in(
    alloc: Global,
    pool: &mut Pool,
    process: &Proc,
    by: &[(VarId, TermId)],
) -> Result<Proc, NoMemory>
    requires within { IsProcessIn pool.old.trees (plain_process process.now) }
    requires listed { AreIn pool.old.trees (listed_terms by.now) }
    ensures kept { Extends pool.old.trees pool.new.trees }
    ensures constants { pool.new.constants ≡ pool.old.constants }
    ensures put { IfOk result (λ made. PutsIn pool.new.trees by.now (plain_process process.now) (plain_process made)) }
{
    match process {
        Proc::Delta => Ok(Proc::Delta),
        Proc::Act(label) => Ok(Proc::Act(put_label(alloc, pool, label, by)?)),
        Proc::Call(callee, args) => Ok(Proc::Call(*callee, put_all(alloc, pool, args, by)?)),
        Proc::Choice(parts) => Ok(Proc::Choice(put_in_all(alloc, pool, parts, by)?)),
        Proc::Seq(parts) => Ok(Proc::Seq(put_in_all(alloc, pool, parts, by)?)),
        Proc::Cond(condition, then, other) => Ok(Proc::Cond(
            pool.subst(*condition, by)?,
            put_boxed(alloc, pool, then, by)?,
            put_boxed(alloc, pool, other, by)?,
        )),
        Proc::Sum(vars, part) => {
            let left = unbound(alloc, by, vars)?;
            let part = put_boxed(alloc, pool, part, left.as_slice())?;
            Ok(Proc::Sum(vars.to_vec(alloc)?, part))
        }
        Proc::Merge(parts) => Ok(Proc::Merge(put_in_all(alloc, pool, parts, by)?)),
        Proc::Allow(sets, part) => {
            put_under(alloc, pool, part, NetOp::Allow(copy_sets(alloc, sets)?), by)
        }
        Proc::Block(names, part) => {
            put_under(alloc, pool, part, NetOp::Block(names.to_vec(alloc)?), by)
        }
        Proc::Hide(names, part) => {
            put_under(alloc, pool, part, NetOp::Hide(names.to_vec(alloc)?), by)
        }
        Proc::Rename(renamings, part) => {
            put_under(
                alloc,
                pool,
                part,
                NetOp::Rename(renamings.to_vec(alloc)?),
                by,
            )
        }
        Proc::Comm(set, part) => { put_under(alloc, pool, part, NetOp::Comm(set.copy(alloc)?), by) }
        Proc::LeftMerge(first, second) => Ok(Proc::LeftMerge(
            put_boxed(alloc, pool, first, by)?,
            put_boxed(alloc, pool, second, by)?,
        )),
        Proc::Sync(parts) => Ok(Proc::Sync(put_in_all(alloc, pool, parts, by)?)),
    }
}
