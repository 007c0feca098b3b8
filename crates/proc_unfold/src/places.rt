//! Where parallelism stands in process terms.

ghost use Rattle.std.specs.Prelude.{◌≡◌, false, map, slice_index_or, IfOk};
ghost use Rattle.process_terms.specs.PlainProcesses.{plain_process, processes_of};
ghost use Rattle.proc_unfold.specs.ParallelTests.{has_parallel, any_parallel, none_marked, is_sequential, is_outside, all_outside};

use data_theory::NoMemory;
use guard_check::{Extent, calls_of_term};
use process_terms::Proc;
use std::alloc::Global;

/// Whether a parallel operator stands in the process term.
#[cycle(parallel)]
pub fn has_parallel(process: &Proc) -> bool
    ensures { result ≡ has_parallel (plain_process process.now) }
{
    match process {
        Proc::Delta | Proc::Act(_) | Proc::Call(..) => false,
        Proc::Choice(parts) | Proc::Seq(parts) => any_parallel(parts),
        Proc::Cond(_, then, other) => has_parallel(then) || has_parallel(other),
        Proc::Sum(_, part) => has_parallel(part),
        Proc::Merge(parts) => parts.len() >= 2 || any_parallel(parts),
        Proc::Sync(parts) => parts.len() >= 2 || any_parallel(parts),
        Proc::LeftMerge(..) => true,
        Proc::Allow(..) | Proc::Block(..) | Proc::Hide(..) | Proc::Rename(..) | Proc::Comm(..) =>
            true,
    }
}

/// Whether a parallel operator stands in one of these.
#[cycle(parallel)]
fn any_parallel(parts: &[Proc]) -> bool
    ensures { result ≡ any_parallel (processes_of (map plain_process parts.now)) }
{
    for part in parts {
        if has_parallel(part) {
            return true;
        }
    }
    false
}

/// Whether no marked name is among these.
fn none_marked(marks: &[bool], names: &[usize]) -> bool
    ensures { result ≡ none_marked marks.now names.now }
{
    names.iter().all(|name| !is_marked(marks, *name))
}

/// Whether the name is marked.
fn is_marked(marks: &[bool], name: usize) -> bool
    ensures { result ≡ slice_index_or marks.now name false }
{
    marks.get(name).copied().unwrap_or(false)
}

/// Whether neither a parallel operator nor a call of a marked name stands in the process term.
fn is_sequential(alloc: Global, process: &Proc, marks: &[bool]) -> Result<bool, NoMemory>
    ensures { IfOk result (λ sequential. sequential ≡ is_sequential marks.now (plain_process process.now)) }
{
    let names = calls_of_term(alloc, Extent::Everywhere, process)?;
    Ok(!has_parallel(process) && none_marked(marks, names.as_slice()))
}

/// Whether neither a parallel operator nor a call of a marked name stands under `+`, `.`, `sum` or `->`.
#[cycle(outside)]
pub fn is_outside(alloc: Global, process: &Proc, marks: &[bool]) -> Result<bool, NoMemory>
    ensures { IfOk result (λ outside. outside ≡ is_outside marks.now (plain_process process.now)) }
{
    match process {
        Proc::Delta | Proc::Act(_) | Proc::Call(..) => Ok(true),
        Proc::Choice(choices) => {
            if choices.len() == 1 {
                all_outside(alloc, choices, marks)
            } else {
                is_sequential(alloc, process, marks)
            }
        }
        Proc::Seq(steps) => {
            if steps.len() == 1 {
                all_outside(alloc, steps, marks)
            } else {
                is_sequential(alloc, process, marks)
            }
        }
        Proc::Cond(..) => is_sequential(alloc, process, marks),
        Proc::Sum(variables, part) => {
            if variables.is_empty() {
                is_outside(alloc, part, marks)
            } else {
                is_sequential(alloc, process, marks)
            }
        }
        Proc::Merge(parts) => all_outside(alloc, parts, marks),
        Proc::Sync(parts) => all_outside(alloc, parts, marks),
        Proc::LeftMerge(first, second) => {
            if is_outside(alloc, first, marks)? {
                is_outside(alloc, second, marks)
            } else {
                Ok(false)
            }
        }
        Proc::Allow(_, part)
        | Proc::Block(_, part)
        | Proc::Hide(_, part)
        | Proc::Rename(_, part)
        | Proc::Comm(_, part) => is_outside(alloc, part, marks),
    }
}

/// Whether that is so in each of these.
#[cycle(outside)]
fn all_outside(alloc: Global, parts: &[Proc], marks: &[bool]) -> Result<bool, NoMemory>
    ensures { IfOk result (λ outside. outside ≡ all_outside marks.now (processes_of (map plain_process parts.now))) }
{
    for part in parts {
        if !is_outside(alloc, part, marks)? {
            return Ok(false);
        }
    }
    Ok(true)
}
