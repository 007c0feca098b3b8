//! Calls of parallel processes opened.

ghost use Rattle.std.specs.Prelude.{◌≡◌, ◌∷◌, [], true, false, map, IfOk};
ghost use Rattle.std.specs.List.{zip};
ghost use Rattle.term_pool.specs.HeadTrees.{AreIn};
ghost use Rattle.term_pool.specs.Pools.{Extends};
ghost use Rattle.term_pool.specs.Bindings.{listed_terms};
ghost use Rattle.process_terms.specs.PlainProcesses.{plain_model, plain_process, processes_of, call, around};
ghost use Rattle.guard_check.specs.declared.calls.Extent.TheVariants.{Everywhere};
ghost use Rattle.guard_check.specs.CallGraphs.{plain_calls, all_calls};
ghost use Rattle.proc_unfold.specs.ParallelTests.{is_sequential, is_outside, all_outside};
ghost use Rattle.proc_unfold.specs.Networks.{plain_operator};
ghost use Rattle.proc_unfold.specs.PutTerms.{IsProcessIn, AreProcessesIn};
ghost use Rattle.proc_unfold.specs.Opening.{OpensTo, AllOpenTo, AreReached, AreBelow, HasReadyBodies, EntersOnce, EntersFully, is_parallel_call};

use crate::networks::{NetOp, Network};
use crate::outside::Parallelism;
use crate::putting::{copy_sets, put_in};
use data_theory::{NoMemory, ProcId, TermId, VarId};
use lps_core::put_all;
use process_terms::{Component, Model, Proc};
use std::alloc::Global;
use term_pool::Pool;

/// A parallel process whose body stands for a call of it, with what is put in for its parameters.
#[derive(Drop)]
pub struct Entered {
    pub process: ProcId,
    pub by: Vec<(VarId, TermId)>,
}

/// A specification, and what is parallel in it.
#[derive(Drop)]
pub struct Opening<'a> {
    pub model: &'a Model,
    pub found: &'a Parallelism,
}

/// The arguments for the parameters.
fn bind(alloc: Global, params: &[VarId], args: &[TermId]) -> Result<Vec<(VarId, TermId)>, NoMemory>
    ensures { IfOk result (λ bound. bound.items ≡ zip params.now args.now) }
{
    Ok(
        params
            .iter()
            .copied()
            .zip(args.iter().copied())
            .collect(alloc)?,
    )
}

impl Opening<'_> {
    /// The process that a call enters where it is parallel.
    fn entered_call(
        &self,
        alloc: Global,
        pool: &mut Pool,
        callee: ProcId,
        args: &[TermId],
        by: &[(VarId, TermId)],
    ) -> Result<Option<Entered>, NoMemory>
        requires bodies { HasReadyBodies (plain_model self.now.model.now) self.now.found.now pool.old.trees }
        requires listed { AreIn pool.old.trees (listed_terms by.now) }
        requires within { AreIn pool.old.trees args.now }
        requires reached { AreReached (plain_model self.now.model.now) self.now.found.now (callee.0 ∷ []) }
        ensures kept { Extends pool.old.trees pool.new.trees }
        ensures constants { pool.new.constants ≡ pool.old.constants }
        ensures enters { IfOk result (EntersOnce (plain_model self.now.model.now) self.now.found.now pool.new.trees by.now (call callee args.now)) }
    {
        if !self.found.parallel[callee.0] {
            return Ok(None);
        }
        let args = put_all(alloc, pool, args, by)?;
        let params = &self.model.procs[callee.0].params;
        let by = bind(alloc, params, args.as_slice())?;
        Ok(Some(Entered {
            process: callee,
            by,
        }))
    }

    /// The process that is entered where the process term is a call of a parallel process.
    fn entered_once(
        &self,
        alloc: Global,
        pool: &mut Pool,
        process: &Proc,
        by: &[(VarId, TermId)],
    ) -> Result<Option<Entered>, NoMemory>
        requires bodies { HasReadyBodies (plain_model self.now.model.now) self.now.found.now pool.old.trees }
        requires listed { AreIn pool.old.trees (listed_terms by.now) }
        requires within { IsProcessIn pool.old.trees (plain_process process.now) }
        requires reached { AreReached (plain_model self.now.model.now) self.now.found.now (plain_calls Everywhere (plain_process process.now)) }
        ensures kept { Extends pool.old.trees pool.new.trees }
        ensures constants { pool.new.constants ≡ pool.old.constants }
        ensures enters { IfOk result (EntersOnce (plain_model self.now.model.now) self.now.found.now pool.new.trees by.now (plain_process process.now)) }
    {
        match process {
            Proc::Call(callee, args) => self.entered_call(alloc, pool, *callee, args, by),
            Proc::Delta
            | Proc::Act(_)
            | Proc::Choice(_)
            | Proc::Seq(_)
            | Proc::Cond(..)
            | Proc::Sum(..)
            | Proc::Merge(_)
            | Proc::LeftMerge(..)
            | Proc::Sync(_)
            | Proc::Allow(..)
            | Proc::Block(..)
            | Proc::Hide(..)
            | Proc::Rename(..)
            | Proc::Comm(..) => Ok(None),
        }
    }

    /// The last process that is entered, where a body may be a call of a parallel process again.
    fn entered(
        &self,
        alloc: Global,
        pool: &mut Pool,
        process: &Proc,
        by: &[(VarId, TermId)],
    ) -> Result<Option<Entered>, NoMemory>
        requires bodies { HasReadyBodies (plain_model self.now.model.now) self.now.found.now pool.old.trees }
        requires listed { AreIn pool.old.trees (listed_terms by.now) }
        requires within { IsProcessIn pool.old.trees (plain_process process.now) }
        requires reached { AreReached (plain_model self.now.model.now) self.now.found.now (plain_calls Everywhere (plain_process process.now)) }
        ensures kept { Extends pool.old.trees pool.new.trees }
        ensures constants { pool.new.constants ≡ pool.old.constants }
        ensures enters { IfOk result (EntersFully (plain_model self.now.model.now) self.now.found.now pool.new.trees by.now (plain_process process.now)) }
    {
        let Some(mut entered) = self.entered_once(alloc, pool, process, by)? else {
            return Ok(None);
        };
        loop {
            let body = &self.model.procs[entered.process.0].body;
            let Some(next) = self.entered_once(alloc, pool, body, entered.by.as_slice())? else {
                return Ok(Some(entered));
            };
            entered = next;
        }
    }

    #[cycle(open)]
    fn open_all(
        &self,
        alloc: Global,
        pool: &mut Pool,
        parts: &[Proc],
        rank: usize,
        by: &[(VarId, TermId)],
    ) -> Result<Vec<Network>, NoMemory>
        requires bodies { HasReadyBodies (plain_model self.now.model.now) self.now.found.now pool.old.trees }
        requires listed { AreIn pool.old.trees (listed_terms by.now) }
        requires within { AreProcessesIn pool.old.trees (processes_of (map plain_process parts.now)) }
        requires outside { all_outside self.now.found.now.parallel.items (processes_of (map plain_process parts.now)) ≡ true }
        requires reached { AreReached (plain_model self.now.model.now) self.now.found.now (all_calls Everywhere (processes_of (map plain_process parts.now))) }
        requires below { AreBelow self.now.found.now rank (all_calls Everywhere (processes_of (map plain_process parts.now))) }
        ensures kept { Extends pool.old.trees pool.new.trees }
        ensures constants { pool.new.constants ≡ pool.old.constants }
        ensures opens { IfOk result (AllOpenTo (plain_model self.now.model.now) self.now.found.now pool.new.trees by.now (processes_of (map plain_process parts.now))) }
    {
        let mut networks = Vec::new(alloc);
        for part in parts {
            networks.push(self.open(alloc, pool, part, rank, by)?)?;
        }
        Ok(networks)
    }

    #[cycle(open)]
    fn open_under(
        &self,
        alloc: Global,
        pool: &mut Pool,
        part: &Proc,
        op: NetOp,
        rank: usize,
        by: &[(VarId, TermId)],
    ) -> Result<Network, NoMemory>
        requires bodies { HasReadyBodies (plain_model self.now.model.now) self.now.found.now pool.old.trees }
        requires listed { AreIn pool.old.trees (listed_terms by.now) }
        requires within { IsProcessIn pool.old.trees (plain_process part.now) }
        requires outside { is_outside self.now.found.now.parallel.items (plain_process part.now) ≡ true }
        requires reached { AreReached (plain_model self.now.model.now) self.now.found.now (plain_calls Everywhere (plain_process part.now)) }
        requires below { AreBelow self.now.found.now rank (plain_calls Everywhere (plain_process part.now)) }
        ensures kept { Extends pool.old.trees pool.new.trees }
        ensures constants { pool.new.constants ≡ pool.old.constants }
        ensures opens { IfOk result (OpensTo (plain_model self.now.model.now) self.now.found.now pool.new.trees by.now (around (plain_operator op) (plain_process part.now))) }
    {
        let network = self.open(alloc, pool, part, rank, by)?;
        Ok(Network::Op(op, Box::new(alloc, network)?))
    }

    #[cycle(open)]
    fn open_boxed(
        &self,
        alloc: Global,
        pool: &mut Pool,
        part: &Proc,
        rank: usize,
        by: &[(VarId, TermId)],
    ) -> Result<Box<Network>, NoMemory>
        requires bodies { HasReadyBodies (plain_model self.now.model.now) self.now.found.now pool.old.trees }
        requires listed { AreIn pool.old.trees (listed_terms by.now) }
        requires within { IsProcessIn pool.old.trees (plain_process part.now) }
        requires outside { is_outside self.now.found.now.parallel.items (plain_process part.now) ≡ true }
        requires reached { AreReached (plain_model self.now.model.now) self.now.found.now (plain_calls Everywhere (plain_process part.now)) }
        requires below { AreBelow self.now.found.now rank (plain_calls Everywhere (plain_process part.now)) }
        ensures kept { Extends pool.old.trees pool.new.trees }
        ensures constants { pool.new.constants ≡ pool.old.constants }
        ensures opens { IfOk result (λ made. OpensTo (plain_model self.now.model.now) self.now.found.now pool.new.trees by.now (plain_process part.now) made.value) }
    {
        let network = self.open(alloc, pool, part, rank, by)?;
        Ok(Box::new(alloc, network)?)
    }

    /// The component that is a process term without parallelism.
    fn kept(
        &self,
        alloc: Global,
        pool: &mut Pool,
        process: &Proc,
        by: &[(VarId, TermId)],
    ) -> Result<Network, NoMemory>
        requires listed { AreIn pool.old.trees (listed_terms by.now) }
        requires within { IsProcessIn pool.old.trees (plain_process process.now) }
        requires sequential { is_sequential self.now.found.now.parallel.items (plain_process process.now) ≡ true }
        ensures kept { Extends pool.old.trees pool.new.trees }
        ensures constants { pool.new.constants ≡ pool.old.constants }
        ensures opens { IfOk result (OpensTo (plain_model self.now.model.now) self.now.found.now pool.new.trees by.now (plain_process process.now)) }
    {
        Ok(Network::Leaf(Component::Term(put_in(alloc, pool, process, by)?)))
    }

    /// The network of a process term that isn't a call of a parallel process.
    #[cycle(open)]
    fn open_settled(
        &self,
        alloc: Global,
        pool: &mut Pool,
        process: &Proc,
        rank: usize,
        by: &[(VarId, TermId)],
    ) -> Result<Network, NoMemory>
        requires bodies { HasReadyBodies (plain_model self.now.model.now) self.now.found.now pool.old.trees }
        requires listed { AreIn pool.old.trees (listed_terms by.now) }
        requires within { IsProcessIn pool.old.trees (plain_process process.now) }
        requires outside { is_outside self.now.found.now.parallel.items (plain_process process.now) ≡ true }
        requires reached { AreReached (plain_model self.now.model.now) self.now.found.now (plain_calls Everywhere (plain_process process.now)) }
        requires below { AreBelow self.now.found.now rank (plain_calls Everywhere (plain_process process.now)) }
        requires settled { is_parallel_call self.now.found.now.parallel.items (plain_process process.now) ≡ false }
        ensures kept { Extends pool.old.trees pool.new.trees }
        ensures constants { pool.new.constants ≡ pool.old.constants }
        ensures opens { IfOk result (OpensTo (plain_model self.now.model.now) self.now.found.now pool.new.trees by.now (plain_process process.now)) }
    {
        match process {
            Proc::Delta | Proc::Act(_) => self.kept(alloc, pool, process, by),
            Proc::Call(callee, args) => {
                let args = put_all(alloc, pool, args, by)?;
                Ok(Network::Leaf(Component::Call(*callee, args)))
            }
            Proc::Choice(choices) => {
                if choices.len() == 1 {
                    let networks = self.open_all(alloc, pool, choices, rank, by)?;
                    Ok(Network::Merge(networks))
                } else {
                    self.kept(alloc, pool, process, by)
                }
            }
            Proc::Seq(steps) => {
                if steps.len() == 1 {
                    let networks = self.open_all(alloc, pool, steps, rank, by)?;
                    Ok(Network::Merge(networks))
                } else {
                    self.kept(alloc, pool, process, by)
                }
            }
            Proc::Cond(..) => self.kept(alloc, pool, process, by),
            Proc::Sum(vars, part) => {
                if vars.is_empty() {
                    self.open(alloc, pool, part, rank, by)
                } else {
                    self.kept(alloc, pool, process, by)
                }
            }
            Proc::Merge(parts) => Ok(Network::Merge(self.open_all(alloc, pool, parts, rank, by)?)),
            Proc::Allow(sets, part) => {
                let op = NetOp::Allow(copy_sets(alloc, sets)?);
                self.open_under(alloc, pool, part, op, rank, by)
            }
            Proc::Block(names, part) => {
                let op = NetOp::Block(names.to_vec(alloc)?);
                self.open_under(alloc, pool, part, op, rank, by)
            }
            Proc::Hide(names, part) => {
                let op = NetOp::Hide(names.to_vec(alloc)?);
                self.open_under(alloc, pool, part, op, rank, by)
            }
            Proc::Rename(renamings, part) => {
                let op = NetOp::Rename(renamings.to_vec(alloc)?);
                self.open_under(alloc, pool, part, op, rank, by)
            }
            Proc::Comm(set, part) => {
                let op = NetOp::Comm(set.copy(alloc)?);
                self.open_under(alloc, pool, part, op, rank, by)
            }
            Proc::LeftMerge(first, second) => Ok(Network::LeftMerge(
                self.open_boxed(alloc, pool, first, rank, by)?,
                self.open_boxed(alloc, pool, second, rank, by)?,
            )),
            Proc::Sync(parts) => Ok(Network::Sync(self.open_all(alloc, pool, parts, rank, by)?)),
        }
    }

    /// The network of a process term, with the listed terms in place of its variables. The ranks of the parallel processes that
    /// it calls are below `rank`, by which this ends.
    #[cycle(open)]
    pub fn open(
        &self,
        alloc: Global,
        pool: &mut Pool,
        process: &Proc,
        rank: usize,
        by: &[(VarId, TermId)],
    ) -> Result<Network, NoMemory>
        requires bodies { HasReadyBodies (plain_model self.now.model.now) self.now.found.now pool.old.trees }
        requires listed { AreIn pool.old.trees (listed_terms by.now) }
        requires within { IsProcessIn pool.old.trees (plain_process process.now) }
        requires outside { is_outside self.now.found.now.parallel.items (plain_process process.now) ≡ true }
        requires reached { AreReached (plain_model self.now.model.now) self.now.found.now (plain_calls Everywhere (plain_process process.now)) }
        requires below { AreBelow self.now.found.now rank (plain_calls Everywhere (plain_process process.now)) }
        ensures kept { Extends pool.old.trees pool.new.trees }
        ensures constants { pool.new.constants ≡ pool.old.constants }
        ensures opens { IfOk result (OpensTo (plain_model self.now.model.now) self.now.found.now pool.new.trees by.now (plain_process process.now)) }
    {
        let Some(entered) = self.entered(alloc, pool, process, by)? else {
            return self.open_settled(alloc, pool, process, rank, by);
        };
        let place = entered.process.0;
        let body = &self.model.procs[place].body;
        self.open_settled(
            alloc,
            pool,
            body,
            self.found.ranks[place],
            entered.by.as_slice(),
        )
    }
}
