//! Which processes are parallel, and whether parallelism stands outside recursion.

ghost use Rattle.std.specs.Prelude.{◌≡◌, ◌≤◌, ◌&&◌, ◌↔◌, ◌⊎◌, ℕ, length, map, IfOk, IfErr, MatchOption, Contains};
ghost use Rattle.graphs.specs.Graphs.{IsMarked, HasEdgeAmong, HasCycle};
ghost use Rattle.process_terms.specs.PlainProcesses.{plain_model, plain_process};
ghost use Rattle.guard_check.specs.declared.calls.Extent.TheVariants.{Everywhere};
ghost use Rattle.guard_check.specs.Guards.{HasDeclaredCalls};
ghost use Rattle.guard_check.specs.CallGraphs.{IsCallGraph};
ghost use Rattle.proc_unfold.specs.ParallelTests.{has_parallel};
ghost use Rattle.proc_unfold.specs.Parallelism.{IsNetFaultOf, IsParallelismOf, StandsOutsideRecursion};
ghost use Rattle.proc_unfold.specs.ParallelMarks.{AreParallelNames, MarksBoth, IsLeastWithin};

use crate::faults::NetFault;
use crate::places::{has_parallel, is_outside};
use data_theory::NoMemory;
use graphs::{first_cycle, ranks, reachable, reversed};
use guard_check::{CallGraph, Extent, call_graph, names_of_cycle};
use process_terms::{Model, ProcDef};
use std::alloc::Global;

/// Which processes `init` reaches, which are parallel, and ranks along calls among these.
#[derive(Drop)]
pub struct Parallelism {
    /// Whether `init` reaches each process.
    pub reached: Vec<bool>,
    /// Whether each process has or reaches a parallel operator.
    pub parallel: Vec<bool>,
    /// A number for each process, below that of the processes: a reached parallel one calls only parallel ones with smaller numbers.
    pub ranks: Vec<usize>,
}

/// What is parallel in a specification whose parallelism stands outside recursion. Linear in its size.
///
/// # Errors
///
/// `ParallelRecursion` exactly where a process that `init` reaches has or reaches a parallel operator and reaches itself,
/// with the names of the first such cycle: it begins at the first definition that lies on one, is a shortest one from
/// there, and of these the one whose next definitions come first. Where there is none, `ParallelUnderSequential` exactly
/// where a parallel operator, or a call of a process that has or reaches one, stands under `+`, `.`, `sum` or `->` in
/// `init` or in a definition that it reaches, with the first number of such a declaration. `NoMemory` where there is none.
pub fn outside_recursion(alloc: Global, model: &Model) -> Result<Parallelism, NetFault>
    requires { HasDeclaredCalls (plain_model model.now) }
    ensures found { IfOk result (λ found. IsParallelismOf (plain_model model.now) found.reached.items found.parallel.items found.ranks.items) }
    ensures outside { IfOk result (λ _. StandsOutsideRecursion (plain_model model.now)) }
    ensures refused { IfErr result (IsNetFaultOf (plain_model model.now)) }
{
    let calls = call_graph(alloc, Extent::Everywhere, model)?;
    let parallel = parallel_names(alloc, model, &calls)?;
    let among = in_both(alloc, calls.reached.as_slice(), parallel.as_slice())?;
    let Some(ranks) = ranks(alloc, calls.edges.as_slice(), among.as_slice())? else {
        return Err(parallel_recursion(alloc, model, &calls, &parallel, &among)?);
    };
    if let Some(declaration) = first_within(alloc, model, &calls, &parallel)? {
        return Err(NetFault::ParallelUnderSequential(declaration));
    }
    Ok(Parallelism {
        reached: calls.reached,
        parallel,
        ranks,
    })
}

/// Marks exactly the processes that have or reach a parallel operator.
fn parallel_names(alloc: Global, model: &Model, calls: &CallGraph) -> Result<Vec<bool>, NoMemory>
    requires { IsCallGraph Everywhere (plain_model model.now) calls.now.edges.items calls.now.reached.items }
    ensures { IfOk result (λ parallel. AreParallelNames (plain_model model.now) parallel.items) }
{
    let bodies = parallel_bodies(alloc, model.procs.as_slice())?;
    let starts = marked(alloc, bodies.as_slice())?;
    let callers = reversed(alloc, calls.edges.as_slice())?;
    Ok(reachable(alloc, callers.as_slice(), starts.as_slice())?)
}

/// Whether each definition has a parallel operator.
fn parallel_bodies(alloc: Global, definitions: &[ProcDef]) -> Result<Vec<bool>, NoMemory>
    ensures { IfOk result (λ marks. marks.items ≡ map (λ definition. has_parallel (plain_process definition.body)) definitions.now) }
{
    let mut marks = Vec::new(alloc);
    for definition in definitions {
        marks.push(has_parallel(&definition.body))?;
    }
    Ok(marks)
}

/// The places of the marks that are set.
fn marked(alloc: Global, marks: &[bool]) -> Result<Vec<usize>, NoMemory>
    ensures { IfOk result (λ places. (x : ℕ) → Contains places.items x ↔ IsMarked marks.now x) }
{
    let mut places = Vec::new(alloc);
    for place in 0..marks.len() {
        if !marks[place] {
            continue;
        }
        places.push(place)?;
    }
    Ok(places)
}

/// Marks what is marked in both.
fn in_both(alloc: Global, left: &[bool], right: &[bool]) -> Result<Vec<bool>, NoMemory>
    requires { length right.now ≡ length left.now }
    ensures { IfOk result (λ both. MarksBoth left.now right.now (length left.now) both.items) }
{
    let mut both = Vec::new(alloc);
    for place in 0..left.len() {
        both.push(are_both(left[place], right[place]))?;
    }
    Ok(both)
}

/// Whether both are so.
fn are_both(left: bool, right: bool) -> bool
    ensures { result ≡ left && right }
{
    left && right
}

/// The fault for the first cycle of reached parallel processes.
fn parallel_recursion(
    alloc: Global,
    model: &Model,
    calls: &CallGraph,
    parallel: &[bool],
    among: &[bool],
) -> Result<NetFault, NoMemory>
    requires calls { IsCallGraph Everywhere (plain_model model.now) calls.now.edges.items calls.now.reached.items }
    requires parallel { AreParallelNames (plain_model model.now) parallel.now }
    requires among { MarksBoth calls.now.reached.items parallel.now (length calls.now.reached.items) among.now }
    requires cycle { HasCycle (HasEdgeAmong calls.now.edges.items among.now) }
    ensures { IfOk result (IsNetFaultOf (plain_model model.now)) }
{
    match first_cycle(alloc, calls.edges.as_slice(), among)? {
        Some(cycle) => Ok(NetFault::ParallelRecursion(names_of_cycle(
            alloc,
            model.procs.as_slice(),
            cycle.as_slice(),
        )?)),
        None => unreachable!(),
    }
}

/// The least number of a declaration in which something parallel stands under `+`, `.`, `sum` or `->`.
fn first_within(
    alloc: Global,
    model: &Model,
    calls: &CallGraph,
    parallel: &[bool],
) -> Result<Option<usize>, NoMemory>
    requires { length calls.now.reached.items ≡ length model.now.procs.items }
    ensures { IfOk result (IsLeastWithin (plain_model model.now) calls.now.reached.items parallel.now (length model.now.procs.items)) }
{
    let mut first = None;
    if !is_outside(alloc, &model.init, parallel)? {
        first = Some(model.init_declaration);
    }
    for place in 0..model.procs.len() {
        if !calls.reached[place] {
            continue;
        }
        let definition = &model.procs[place];
        if is_outside(alloc, &definition.body, parallel)? {
            continue;
        }
        first = Some(least(first, definition.declaration));
    }
    Ok(first)
}

/// The lesser one of two numbers.
fn least(first: Option<usize>, number: usize) -> usize
    ensures { MatchOption first (result ≡ number) (λ earlier. (result ≡ earlier × earlier ≤ number) ⊎ (result ≡ number × number ≤ earlier)) }
{
    match first {
        Some(earlier) if earlier <= number => earlier,
        _ => number,
    }
}
