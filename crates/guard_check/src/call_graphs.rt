//! Which processes call which, as a graph.

ghost use Rattle.std.specs.Prelude.{◌≡◌, ◌↔◌, IfOk, IsTrue};
ghost use Rattle.process_terms.specs.PlainProcesses.{plain_model};
ghost use Rattle.guard_check.specs.Guards.{HasDeclaredCalls};
ghost use Rattle.guard_check.specs.CallGraphs.{AreCallLists, IsCallGraph};

use crate::calls::{Extent, calls_of_term};
use data_theory::NoMemory;
use graphs::{are_nodes, is_graph, reachable};
use process_terms::{Model, ProcDef};
use std::alloc::Global;

/// The calls of a specification's definitions, and which of its processes `init` reaches.
#[derive(Drop)]
pub struct CallGraph {
    /// The numbers of the processes that each definition calls.
    pub edges: Vec<Vec<usize>>,
    /// Whether `init` reaches each process.
    pub reached: Vec<bool>,
}

/// The graph of the calls that count, with the processes that `init` reaches by any calls. Linear in the specification's
/// size.
///
/// # Errors
///
/// `NoMemory` where there is none for the graph.
pub fn call_graph(alloc: Global, extent: Extent, model: &Model) -> Result<CallGraph, NoMemory>
    requires { HasDeclaredCalls (plain_model model.now) }
    ensures { IfOk result (λ graph. IsCallGraph extent (plain_model model.now) graph.edges.items graph.reached.items) }
{
    let all = call_lists(alloc, Extent::Everywhere, model.procs.as_slice())?;
    let start = calls_of_term(alloc, Extent::Everywhere, &model.init)?;
    let reached = reachable(alloc, all.as_slice(), start.as_slice())?;
    let edges = call_lists(alloc, extent, model.procs.as_slice())?;
    Ok(CallGraph { edges, reached })
}

/// Whether each name that the specification calls is one of its definitions.
///
/// # Errors
///
/// `NoMemory` where there is none for the lists of calls.
pub fn has_declared_calls(alloc: Global, model: &Model) -> Result<bool, NoMemory>
    ensures { IfOk result (λ declared. IsTrue declared ↔ HasDeclaredCalls (plain_model model.now)) }
{
    let lists = call_lists(alloc, Extent::Everywhere, model.procs.as_slice())?;
    let start = calls_of_term(alloc, Extent::Everywhere, &model.init)?;
    if !is_graph(lists.as_slice()) {
        return Ok(false);
    }
    Ok(are_nodes(lists.as_slice(), start.as_slice()))
}

/// The lists of the calls of each definition.
fn call_lists(
    alloc: Global,
    extent: Extent,
    definitions: &[ProcDef],
) -> Result<Vec<Vec<usize>>, NoMemory>
    ensures { IfOk result (λ lists. AreCallLists extent definitions.now lists) }
{
    let mut lists = Vec::new(alloc);
    for definition in definitions {
        lists.push(calls_of_term(alloc, extent, &definition.body)?)?;
    }
    Ok(lists)
}
