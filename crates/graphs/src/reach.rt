//! The nodes that paths lead to.

ghost use Rattle.std.specs.Prelude.{◌<◌, ℕ, length, vec_len, IfOk, OnOk, Contains};
ghost use Rattle.graphs.specs.Graphs.{IsGraph, AreReached};
ghost use Rattle.graphs.specs.Marking.{MarksAll};

use std::alloc::{AllocError, Global};

/// Marks exactly the nodes that are reached from these by any number of edges.
///
/// # Errors
///
/// Want of memory.
pub fn reachable(
    alloc: Global,
    edges: &[Vec<usize>],
    start: &[usize],
) -> Result<Vec<bool>, AllocError>
    requires graph { IsGraph edges.now }
    requires start { (a : ℕ) → Contains start.now a → a < length edges.now }
    ensures { IfOk result (λ reached. AreReached edges.now start.now reached.items) }
{
    let mut reached = vec![in alloc; false; edges.len()]?;
    let mut waiting = Vec::new(alloc);
    mark_all(&mut reached, &mut waiting, start)?;
    while let Some(node) = waiting.pop() {
        mark_all(&mut reached, &mut waiting, edges[node].as_slice())?;
    }
    Ok(reached)
}

/// Marks these nodes, and puts those that weren't marked among the waiting ones.
fn mark_all(
    reached: &mut Vec<bool>,
    waiting: &mut Vec<usize>,
    nodes: &[usize],
) -> Result<(), AllocError>
    requires { (a : ℕ) → Contains nodes.now a → a < vec_len reached.old }
    ensures { OnOk result (MarksAll nodes.now reached.old.items waiting.old.items reached.new.items waiting.new.items) }
{
    for node in nodes {
        if !reached[*node] {
            reached[*node] = true;
            waiting.push(*node)?;
        }
    }
    Ok(())
}
