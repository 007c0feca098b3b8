//! Process terms in code.

ghost use Rattle.std.specs.Prelude.{◌≡◌, IfOk, map};
ghost use Rattle.process_terms.specs.PlainProcesses.{items_of_each, plain_process};

use crate::comm_rules::CommSet;
use crate::labels::Label;
use data_theory::{NameId, NoMemory, ProcId, TermId, VarId};
use std::alloc::Global;

/// A process term. Terms of data are numbers in the pool; names, variables and processes are numbers too. A chain of one
/// operator is a list of its operands.
#[derive(Debug, Drop)]
pub enum Proc {
    /// `delta`
    Delta,
    /// `a(d)|b(e)`, or `tau`
    Act(Label),
    /// `P(d, e)`, with an argument for each parameter
    Call(ProcId, Vec<TermId>),
    /// `p + q + r`
    Choice(Vec<Proc>),
    /// `p . q . r`
    Seq(Vec<Proc>),
    /// `c -> p <> q`; where the text has no `<>`, q is `delta`
    Cond(TermId, Box<Proc>, Box<Proc>),
    /// `sum x: S, y: T . p`
    Sum(Vec<VarId>, Box<Proc>),
    /// `p || q || r`, which means `(p || q) || r`
    Merge(Vec<Proc>),
    /// `p ||_ q`
    LeftMerge(Box<Proc>, Box<Proc>),
    /// `p | q | r` where it isn't one label, which means `(p | q) | r`
    Sync(Vec<Proc>),
    /// `allow({a, b|c}, p)`
    Allow(Vec<Vec<NameId>>, Box<Proc>),
    /// `block({a, b}, p)`
    Block(Vec<NameId>, Box<Proc>),
    /// `hide({a, b}, p)`
    Hide(Vec<NameId>, Box<Proc>),
    /// `rename({a -> b, c -> d}, p)`, as pairs of the old name and the new one
    Rename(Vec<(NameId, NameId)>, Box<Proc>),
    /// `comm({a|b -> c}, p)`
    Comm(CommSet, Box<Proc>),
}

fn copy_sets(alloc: Global, sets: &[Vec<NameId>]) -> Result<Vec<Vec<NameId>>, NoMemory>
    ensures { IfOk result (λ copies. items_of_each copies.items ≡ items_of_each sets.now) }
{
    let mut copies = Vec::new(alloc);
    for set in sets {
        copies.push(set.to_vec(alloc)?)?;
    }
    Ok(copies)
}

#[cycle(copy)]
fn copy_all(alloc: Global, parts: &[Proc]) -> Result<Vec<Proc>, NoMemory>
    ensures { IfOk result (λ copies. map plain_process copies.items ≡ map plain_process parts.now) }
{
    let mut copies = Vec::new(alloc);
    for part in parts {
        copies.push(part.copy(alloc)?)?;
    }
    Ok(copies)
}

#[cycle(copy)]
fn copy_boxed(alloc: Global, part: &Proc) -> Result<Box<Proc>, NoMemory>
    ensures { IfOk result (λ copy. plain_process copy.value ≡ plain_process part.now) }
{
    Ok(Box::new(alloc, part.copy(alloc)?)?)
}

impl Proc {
    /// The same process term.
    ///
    /// # Errors
    ///
    /// `NoMemory` where there is none for the copy.
    #[cycle(copy)]
    pub fn copy(&self, alloc: Global) -> Result<Self, NoMemory>
        ensures { IfOk result (λ process. plain_process process ≡ plain_process self.now) }
    {
        match self {
            Proc::Delta => Ok(Proc::Delta),
            Proc::Act(label) => Ok(Proc::Act(label.copy(alloc)?)),
            Proc::Call(process, args) => Ok(Proc::Call(*process, args.to_vec(alloc)?)),
            Proc::Choice(parts) => Ok(Proc::Choice(copy_all(alloc, parts)?)),
            Proc::Seq(parts) => Ok(Proc::Seq(copy_all(alloc, parts)?)),
            Proc::Cond(condition, then, other) => Ok(Proc::Cond(
                *condition,
                copy_boxed(alloc, then)?,
                copy_boxed(alloc, other)?,
            )),
            Proc::Sum(variables, part) => Ok(Proc::Sum(
                variables.to_vec(alloc)?,
                copy_boxed(alloc, part)?,
            )),
            Proc::Merge(parts) => Ok(Proc::Merge(copy_all(alloc, parts)?)),
            Proc::LeftMerge(first, second) => Ok(Proc::LeftMerge(
                copy_boxed(alloc, first)?,
                copy_boxed(alloc, second)?,
            )),
            Proc::Sync(parts) => Ok(Proc::Sync(copy_all(alloc, parts)?)),
            Proc::Allow(sets, part) => Ok(Proc::Allow(
                copy_sets(alloc, sets)?,
                copy_boxed(alloc, part)?,
            )),
            Proc::Block(names, part) => Ok(Proc::Block(
                names.to_vec(alloc)?,
                copy_boxed(alloc, part)?,
            )),
            Proc::Hide(names, part) => Ok(Proc::Hide(
                names.to_vec(alloc)?,
                copy_boxed(alloc, part)?,
            )),
            Proc::Rename(renamings, part) => Ok(Proc::Rename(
                renamings.to_vec(alloc)?,
                copy_boxed(alloc, part)?,
            )),
            Proc::Comm(set, part) => Ok(Proc::Comm(set.copy(alloc)?, copy_boxed(alloc, part)?)),
        }
    }
}
